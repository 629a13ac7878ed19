//! `NumberedTable`: a table of a list's entries by number, such as exports or strings.

ghost use Rattle.std.specs.Prelude.{◌≡◌, ◌≤◌, IfOk, length, take};
ghost use Rattle.std.specs.Option.{option_copied};
ghost use Rattle.pdb_types.specs.Ascending.{Ascends, first_numbered};

use crate::ascending::{Numbered, ascending_length, find_ascending};
use crate::cached_entries::{cache_all, look_up};
use std::alloc::{AllocError, Global};
use std::collections::BTreeMap;
use std::marker::Model;

// A table of the entries of a list by number, which is made once.
//
// As far as numbers ascend from the beginning of the list on, an entry is searched in the list itself, without memory
// of its own. Entries after that, if any, are cached by their number.
pub(crate) struct NumberedTable<'a, T: Numbered> {
    entries: &'a [T],
    ascending: usize,
    known: BTreeMap<u32, &'a T>,
}

// Contracts see a table as the list of entries.
impl<'a, T: Numbered> Model for NumberedTable<'a, T> {
    ghost use Rattle.std.specs.Prelude.{◌≤◌, List, drop, length, take};
    ghost use Rattle.pdb_types.specs.Ascending.{Ascends};
    ghost use Rattle.pdb_types.specs.CachedEntries.{Knows};

    ghost Value = { List T };

    ghost view = { λ table. table.entries.now };

    ghost invariant = { λ table.
        (table.ascending ≤ length table.entries.now)
        × Ascends T.number_of (take table.ascending table.entries.now)
        × Knows T.number_of (drop table.ascending table.entries.now) table.known };
}

impl<T: Numbered> Drop for NumberedTable<'_, T> {
    fn drop(self) {
        let NumberedTable {
            entries: _,
            ascending: _,
            known: _,
        } = self;
    }
}

impl<'a, T: Numbered> NumberedTable<'a, T> {
    // A table of all entries.
    pub(crate) fn new(alloc: Global, entries: &'a [T]) -> Result<Self, AllocError>
        ensures { IfOk result (λ table. table ≡ entries.now) }
    {
        let ascending = ascending_length(entries);
        let (_, behind) = entries.split_at(ascending);
        let known = cache_all(alloc, behind)?;
        Ok(NumberedTable {
            entries,
            ascending,
            known,
        })
    }

    // The first entry with this number.
    pub(crate) fn get(&self, number: u32) -> Option<&'a T>
        ensures { option_copied result ≡ first_numbered T.number_of number self.now }
    {
        let (beginning, _) = self.entries.split_at(self.ascending);
        if let Some(entry) = find_ascending(beginning, number) {
            return Some(entry);
        }
        look_up(&self.known, number)
    }
}
