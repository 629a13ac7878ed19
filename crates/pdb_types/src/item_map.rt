//! `ItemMap`: finds types and ids by their index, and reads their list only as far as needed.

ghost use Rattle.std.specs.Prelude.{◌≡◌, ℕ, IfOk};
ghost use Rattle.std.specs.Option.{option_copied};
ghost use Rattle.pdb_types.specs.ItemMap.{absence, first_item, index_number, item_of};
ghost use Rattle.pdb_errors.specs.Outcomes.{Gives};

use crate::ascending::{Numbered, find_in_beginning};
use crate::cached_entries::read_on;
use pdb_errors::{Error, Result};
use pdb_records::{
    IdData, IdIndex, Item, ItemInformation, Reading, StreamError, TypeData, TypeIndex,
};
use std::alloc::{AllocError, Global};
use std::collections::BTreeMap;
use std::marker::Model;

/// The index of a type or of an id.
pub trait ItemIndex: Copy + Ord + Drop {
    /// The number of the index.
    ghost number_of: { Self → ℕ };

    /// The number of the index.
    fn number(self) -> u32
        ensures { result ≡ number_of self };
}

impl ItemIndex for TypeIndex {
    ghost number_of = { λ index. index.0 };

    fn number(self) -> u32 {
        self.0
    }
}

impl ItemIndex for IdIndex {
    ghost number_of = { λ index. index.0 };

    fn number(self) -> u32 {
        self.0
    }
}

impl<I: ItemIndex, D> Numbered for Item<I, D> {
    ghost number_of = { index_number I.number_of };

    fn number(&self) -> u32 {
        self.index.number()
    }
}

/// Finds the entries of a list by their index. The list is read as far as lookups needed it.
///
/// In lists that linkers write, indices ascend. As far as they do, an entry is searched in the list itself, and nothing
/// is allocated. Entries after that, if any, are cached by their index.
pub struct ItemMap<'a, I: ItemIndex, D> {
    information: &'a ItemInformation<I, D>,
    // How many entries at the beginning were read and have ascending indices.
    ascending: usize,
    // How many entries after these were read.
    scanned: usize,
    // The entries after these that were read.
    known: BTreeMap<u32, &'a Item<I, D>>,
}

/// The types of a program by their index.
pub type TypeMap<'a> = ItemMap<'a, TypeIndex, TypeData>;

/// The ids of a program by their index.
pub type IdMap<'a> = ItemMap<'a, IdIndex, IdData>;

impl<'a, I: ItemIndex, D> Model for ItemMap<'a, I, D> {
    ghost use Rattle.std.specs.Prelude.{◌≤◌, drop, length, take};
    ghost use Rattle.pdb_records.specs.Readings.{Read};
    ghost use Rattle.pdb_records.specs.declared.types.Item.{Item};
    ghost use Rattle.pdb_types.specs.Ascending.{Ascends};
    ghost use Rattle.pdb_types.specs.ItemMap.{index_number};
    ghost use Rattle.pdb_types.specs.CachedEntries.{Knows};

    ghost Value = { Read (Item I D) };

    ghost view = { λ m. m.information.now.items };

    ghost invariant = { λ m. let items = m.information.now.items.items in
        (m.ascending ≤ length items)
        × Ascends (index_number I.number_of) (take m.ascending items)
        × (m.scanned ≤ length (drop m.ascending items))
        × Knows (index_number I.number_of) (take m.scanned (drop m.ascending items)) m.known };
}

impl<I: ItemIndex, D> Drop for ItemMap<'_, I, D> {
    fn drop(self) {
        let ItemMap {
            information: _,
            ascending: _,
            scanned: _,
            known: _,
        } = self;
    }
}

// Why an index has no entry: the list ends early, or nothing in it has the index.
pub(crate) fn absence(fault: Option<StreamError>, number: u32) -> pdb_records::Error
    ensures { result ≡ absence fault number }
{
    match fault {
        Some(fault) => pdb_records::Error::Stream(fault),
        None => pdb_records::Error::TypeNotFound(number),
    }
}

impl<'a, I: ItemIndex, D> ItemMap<'a, I, D> {
    /// A map over a list. It takes no memory yet.
    pub fn new(alloc: Global, information: &'a ItemInformation<I, D>) -> Self
        ensures { result ≡ information.now.items }
    {
        ItemMap {
            information,
            ascending: 0,
            scanned: 0,
            known: BTreeMap::new(alloc),
        }
    }

    // The list itself.
    pub(crate) fn list(&self) -> &'a Reading<Item<I, D>>
        ensures { result.now ≡ self.now }
    {
        &self.information.items
    }

    // The first entry of the list with this index, if there is one.
    pub(crate) fn find(&mut self, index: I) -> Result<Option<&'a Item<I, D>>, AllocError>
        ensures answer { IfOk result
            (λ item. option_copied item ≡ first_item I.number_of (I.number_of index) self.old.items) }
        ensures unchanged { self.new ≡ self.old }
    {
        let number = index.number();
        let list = &self.information.items;
        let items = list.items.as_slice();
        if let Some(item) = find_in_beginning(items, &mut self.ascending, self.scanned, number) {
            return Ok(Some(item));
        }
        let (_, behind) = items.split_at(self.ascending);
        read_on(behind, &mut self.known, &mut self.scanned, number)
    }

    /// The first entry of the list with this index.
    ///
    /// # Errors
    ///
    /// [`Error::PdbError`] if no entry has the index: with the list's fault if it ends early, else with the index.
    /// `OutOfMemory` if memory runs out; the same call may succeed later.
    pub fn try_get(&mut self, index: I) -> Result<&'a Item<I, D>>
        ensures answer { Gives (λ item. item.now) result (item_of I.number_of self.old (I.number_of index)) }
        ensures unchanged { self.new ≡ self.old }
    {
        let number = index.number();
        let read = &self.information.items;
        match self.find(index)? {
            Some(item) => Ok(item),
            None => Err(Error::from(absence(read.fault, number))),
        }
    }
}
