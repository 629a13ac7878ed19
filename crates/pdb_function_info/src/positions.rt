//! `PositionTable`: positions of entries in a list, by key. Hints are tried before a map is searched.

use crate::hints::HintTable;
use crate::name_keys::HintKey;
use std::alloc::{AllocError, Global};
use std::collections::BTreeMap;

// A position table: positions in a list, by key.
//
// Hints are tried first, by a number in a module. The caller checks whether a hint leads to the right entry. If not,
// the map is searched. Repeated lookups are therefore fast, and no choice of keys makes them slower than the map.
#[derive(Drop)]
pub(crate) struct PositionTable<K: Ord + Drop> {
    alloc: Global,
    positions: BTreeMap<K, usize>,
    // The hints for the module at each module index.
    hints: Vec<HintTable>,
}

impl<K: Ord + Drop> PositionTable<K> {
    // An empty table. It takes no memory.
    pub(crate) fn new(alloc: Global) -> Self {
        PositionTable {
            alloc,
            positions: BTreeMap::new(alloc),
            hints: Vec::new(alloc),
        }
    }

    // The positions at which an entry with this hint key may be.
    pub(crate) fn hints(&self, hint_key: HintKey) -> &[Option<u32>] {
        match self.hints.get(hint_key.module_index) {
            Some(hints) => hints.near(hint_key.number),
            None => &[],
        }
    }

    // Stores a hint for a position.
    fn hint(&mut self, hint_key: HintKey, position: usize) {
        if let Some(hints) = self.hints.get_mut(hint_key.module_index) {
            hints.put(hint_key.number, position);
        }
    }

    // The position of a key, if there is one. Stores a hint for it.
    pub(crate) fn find(&mut self, key: &K, hint_key: HintKey) -> Option<usize> {
        let position = *self.positions.get(key)?;
        self.hint(hint_key, position);
        Some(position)
    }

    // Makes room for one more hint of a module.
    fn make_room(&mut self, module_index: usize) -> Result<(), AllocError> {
        for _ in self.hints.len()..module_index.saturating_add(1) {
            self.hints.push(HintTable::new(self.alloc))?;
        }
        match self.hints.get_mut(module_index) {
            Some(hints) => hints.make_room(),
            None => Ok(()),
        }
    }

    // Stores the position of a new entry's key, and a hint for it.
    pub(crate) fn push(
        &mut self,
        key: K,
        hint_key: HintKey,
        position: usize,
    ) -> Result<(), AllocError> {
        self.make_room(hint_key.module_index)?;
        self.hint(hint_key, position);
        match self.positions.insert(key, position) {
            Ok(_) => Ok(()),
            Err(_) => Err(AllocError),
        }
    }
}
