//! `KnownTexts`: cached texts at the offsets of a file that earlier requests asked for.

use pdb_symbolication::{FrameText, FrameTexts};
use std::alloc::{AllocError, Global};
use std::collections::BTreeMap;

/// How many bytes a cached text counts as, besides its own.
const TEXT: u64 = 96;

/// Cached texts of a file, by offset.
#[derive(Drop)]
pub struct KnownTexts {
    texts: BTreeMap<u32, FrameText>,
    /// The size of all texts, in bytes.
    size: u64,
}

impl KnownTexts {
    /// No texts.
    pub fn new(alloc: Global) -> Self {
        KnownTexts {
            texts: BTreeMap::new(alloc),
            size: 0,
        }
    }

    /// The size of all texts, in bytes.
    pub fn size(&self) -> u64 {
        self.size
    }

    /// The text at an offset.
    pub fn get(&self, offset: u32) -> Option<&FrameText> {
        self.texts.get(&offset)
    }

    /// The texts at these offsets, if all of them are cached.
    pub fn all(&self, alloc: Global, offsets: &[u32]) -> Result<Option<FrameTexts>, AllocError> {
        let mut texts = FrameTexts::new(alloc);
        for &offset in offsets {
            match self.get(offset) {
                Some(text) => texts.push(text.copy(alloc)?)?,
                None => return Ok(None),
            }
        }
        Ok(Some(texts))
    }

    /// Adds texts to the cache.
    pub fn add(&mut self, added: Vec<NewText>) -> Result<(), AllocError> {
        for NewText { offset, text } in added {
            let size = TEXT.saturating_add(text.size() as u64);
            self.texts.insert(offset, text)?;
            self.size = self.size.saturating_add(size);
        }
        Ok(())
    }
}

/// A text that wasn't cached.
#[derive(Drop)]
pub struct NewText {
    pub offset: u32,
    pub text: FrameText,
}
