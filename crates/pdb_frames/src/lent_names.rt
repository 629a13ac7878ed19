//! `LentNames`: a hash table of file names that are borrowed from the records.

ghost use Rattle.std.specs.Prelude.{◌≡◌, Option, List, Some, option_map, IfOk, IfSome};
ghost use Rattle.std.specs.BTreeMap.{get};
ghost use Rattle.std.specs.Ordering.{nat_cmp};
ghost use Rattle.pdb_frames.specs.FileNames.{Strings, name_under, KnowsNames, AreLent};
ghost use Rattle.pdb_frames.specs.SourceFiles.{file_name_of, borrowed_name};

use pdb_records::StringTable;
use std::alloc::{AllocError, Global};
use std::borrow::CowStr;
use std::collections::BTreeMap;

// A name that is borrowed from the records, and the number of its reference.
#[derive(Clone, Copy)]
pub(crate) struct LentName<'a> {
    pub(crate) number: u32,
    pub(crate) name: &'a str,
}

// A table of borrowed names with one slot lookup for each search. References may share a slot, which then has the name
// of one of them.
#[derive(Drop)]
pub(crate) struct LentNames<'a> {
    pub(crate) slots: Vec<Option<LentName<'a>>>,
}

// The slot of a reference's number. The number of slots is a power of two.
fn slot_of(number: u32, slots: usize) -> usize {
    number as usize & slots.wrapping_sub(1)
}

// The name with this number, if it is borrowed from the records.
fn lent<'a>(names: &BTreeMap<u32, CowStr<'a>>, number: u32) -> Option<&'a str>
    ensures { IfSome result (λ name. option_map file_name_of (get nat_cmp names.now number)
        ≡ Some (borrowed_name name.now)) }
{
    match names.get(&number)? {
        CowStr::Borrowed(name) => Some(*name),
        CowStr::Owned(_) => None,
    }
}

// `count` empty slots.
fn no_names<'a>(alloc: Global, count: usize) -> Result<Vec<Option<LentName<'a>>>, AllocError>
    ensures { IfOk result (λ slots. (strings : Strings) → AreLent strings slots.items) }
{
    let mut slots = Vec::with_capacity(alloc, count)?;
    for _ in 0..count {
        slots.push(None)?;
    }
    Ok(slots)
}

impl<'a> LentNames<'a> {
    // A table without slots. It takes no memory.
    pub(crate) fn none(alloc: Global) -> Self
        ensures { (strings : Strings) → AreLent strings result.slots.items }
    {
        LentNames {
            slots: Vec::new(alloc),
        }
    }

    // A table of the borrowed names among the strings of a table.
    pub(crate) fn new(
        alloc: Global,
        table: &StringTable,
        names: &BTreeMap<u32, CowStr<'a>>,
    ) -> Result<Self, AllocError>
        ensures { IfOk result (λ lent. (strings : Strings) → KnowsNames strings names.now
            → AreLent strings lent.slots.items) }
    {
        let count = table.strings.len().min(usize::MAX / 4);
        let slots = no_names(alloc, (2 * count).next_power_of_two())?;
        let mut lent = LentNames { slots };
        for (reference, _) in &table.strings {
            lent.put(names, reference.0);
        }
        Ok(lent)
    }

    // Stores the name with this number in its slot, if it is borrowed from the records.
    fn put(&mut self, names: &BTreeMap<u32, CowStr<'a>>, number: u32)
        ensures { (strings : Strings) → KnowsNames strings names.now
            → AreLent strings self.old.slots.items → AreLent strings self.new.slots.items }
    {
        let slot = slot_of(number, self.slots.len());
        if let Some(name) = lent(names, number) {
            if let Some(here) = self.slots.get_mut(slot) {
                *here = Some(LentName { number, name });
            }
        }
    }

    // The name with this number, if it is in its slot.
    pub(crate) fn name(&self, number: u32) -> Option<&'a str>
        ensures { IfSome result (λ name. (strings : Strings) → AreLent strings self.now.slots.items
            → name_under strings number ≡ Some (borrowed_name name.now)) }
    {
        let slot = slot_of(number, self.slots.len());
        match self.slots.get(slot)? {
            Some(lent) if lent.number == number => Some(lent.name),
            _ => None,
        }
    }
}
