//! `CachedTexts`: cached texts by the key of the procedure or id from which each was printed.

ghost use Rattle.std.specs.Prelude.{◌≡◌, true, [], ◌∷◌, ◌++◌, option_map, string_bytes, IfSome, IfOk, OnOk, OnErr};
ghost use Rattle.pdb_function_info.specs.CachedNames.{HasText};

use crate::name_keys::HintKey;
use crate::positions::PositionTable;
use pdb_frames::copy_of_name;
use std::alloc::{AllocError, Global};

// The key of a cached text.
pub(crate) trait TextKey: Copy + Ord + Drop {
    // Whether two keys are the same.
    fn equals(self, other: Self) -> bool
        ensures { result ≡ true → self ≡ other };

    // The key of the hint for the position of the text.
    fn hint_key(self) -> HintKey;
}

// A cached text; `None` if it can't be printed.
#[derive(Drop)]
pub(crate) struct CachedText<K> {
    pub(crate) key: K,
    pub(crate) text: Option<String>,
}

// A cache of printed texts.
#[derive(Drop)]
pub(crate) struct CachedTexts<K: TextKey> {
    pub(crate) entries: Vec<CachedText<K>>,
    positions: PositionTable<K>,
}

impl<K: TextKey> CachedTexts<K> {
    // An empty cache. It takes no memory.
    pub(crate) fn new(alloc: Global) -> Self
        ensures { result.entries.items ≡ [] }
    {
        CachedTexts {
            entries: Vec::new(alloc),
            positions: PositionTable::new(alloc),
        }
    }

    // The text at a position, if it has this key.
    fn text_at(&self, position: usize, key: K) -> Option<&Option<String>>
        ensures { IfSome result (λ text. HasText self.now.entries.items key (option_map string_bytes text.now)) }
    {
        let cached = self.entries.get(position)?;
        if cached.key.equals(key) {
            Some(&cached.text)
        } else {
            None
        }
    }

    // The text at the position in a hint, if it has this key.
    fn text_by(&self, hint: Option<u32>, key: K) -> Option<&Option<String>>
        ensures { IfSome result (λ text. HasText self.now.entries.items key (option_map string_bytes text.now)) }
    {
        let position = hint?;
        self.text_at(position as usize, key)
    }

    // The text of a key, if a hint leads to it.
    fn at_hint(&self, key: K) -> Option<&Option<String>>
        ensures { IfSome result (λ text. HasText self.now.entries.items key (option_map string_bytes text.now)) }
    {
        for &hint in self.positions.hints(key.hint_key()) {
            if let Some(text) = self.text_by(hint, key) {
                return Some(text);
            }
        }
        None
    }

    // The position of the last text that was cached for a key, if there is one.
    fn position(&mut self, key: K) -> Option<usize>
        ensures { self.new.entries ≡ self.old.entries }
    {
        self.positions.find(&key, key.hint_key())
    }

    // A copy of the text that is cached for a key, if there is one.
    pub(crate) fn text(&mut self, key: K) -> Result<Option<Option<String>>, AllocError>
        ensures answer { IfOk result (λ cached. IfSome cached
            (λ text. HasText self.old.entries.items key (option_map string_bytes text))) }
        ensures unchanged { self.new.entries ≡ self.old.entries }
    {
        if let Some(text) = self.at_hint(key) {
            let text = copy_of_name(text)?;
            return Ok(Some(text));
        }
        let Some(position) = self.position(key) else {
            return Ok(None);
        };
        let Some(text) = self.text_at(position, key) else {
            return Ok(None);
        };
        let text = copy_of_name(text)?;
        Ok(Some(text))
    }

    // Caches the text of a key.
    pub(crate) fn put(&mut self, key: K, text: Option<String>) -> Result<(), AllocError>
        ensures state { OnOk result (self.new.entries.items
            ≡ self.old.entries.items ++ record { key = key; text = text } ∷ []) }
        ensures unchanged_if_refused { OnErr result (self.new.entries.items ≡ self.old.entries.items) }
    {
        self.positions
            .push(key, key.hint_key(), self.entries.len())?;
        self.entries.push(CachedText { key, text })?;
        Ok(())
    }
}
