//! Caches of a list's entries by number, for lists whose numbers don't ascend.

ghost use Rattle.std.specs.Prelude.{◌≡◌, ◌≤◌, ◌∷◌, [], ℕ, IfOk, OnOk, OnErr, length, option_map, take};
ghost use Rattle.std.specs.Option.{option_copied, option_or};
ghost use Rattle.std.specs.BTreeMap.{get};
ghost use Rattle.std.specs.Ordering.{nat_cmp};
ghost use Rattle.pdb_types.specs.Ascending.{first_numbered};
ghost use Rattle.pdb_types.specs.CachedEntries.{Knows};

use crate::ascending::Numbered;
use std::alloc::{AllocError, Global};
use std::collections::BTreeMap;

// Adds an entry to the map, unless an earlier one has its number.
fn insert_first<'a, T: Numbered>(
    known: &mut BTreeMap<u32, &'a T>,
    entry: &'a T,
) -> Result<(), AllocError>
    ensures state { OnOk result ((number : ℕ) → option_map (λ e. e.now) (get nat_cmp known.new number)
        ≡ option_or (option_map (λ e. e.now) (get nat_cmp known.old number))
        (first_numbered T.number_of number (entry.now ∷ []))) }
    ensures unchanged_if_refused { OnErr result ((number : ℕ)
        → get nat_cmp known.new number ≡ get nat_cmp known.old number) }
{
    let number = entry.number();
    if known.contains_key(&number) {
        return Ok(());
    }
    match known.insert(number, entry) {
        Ok(_) => Ok(()),
        Err(_) => Err(AllocError),
    }
}

// The cached entry with this number.
pub(crate) fn look_up<'a, T: Numbered>(known: &BTreeMap<u32, &'a T>, number: u32) -> Option<&'a T>
    ensures { option_copied result ≡ option_map (λ entry. entry.now) (get nat_cmp known.now number) }
{
    match known.get(&number) {
        Some(entry) => Some(*entry),
        None => None,
    }
}

// A map of all entries of a list by number.
pub(crate) fn cache_all<'a, T: Numbered>(
    alloc: Global,
    entries: &'a [T],
) -> Result<BTreeMap<u32, &'a T>, AllocError>
    ensures { IfOk result (Knows T.number_of entries.now) }
{
    let mut known = BTreeMap::new(alloc);
    for entry in entries {
        insert_first(&mut known, entry)?;
    }
    Ok(known)
}

// The first entry with this number. If it isn't cached, the list is read on to it, or to the end.
pub(crate) fn read_on<'a, T: Numbered>(
    entries: &'a [T],
    known: &mut BTreeMap<u32, &'a T>,
    scanned: &mut usize,
    number: u32,
) -> Result<Option<&'a T>, AllocError>
    requires within { scanned.old ≤ length entries.now }
    requires knows { Knows T.number_of (take scanned.old entries.now) known.old }
    ensures within { scanned.new ≤ length entries.now }
    ensures knows { Knows T.number_of (take scanned.new entries.now) known.new }
    ensures answer { IfOk result (λ entry. option_copied entry ≡ first_numbered T.number_of number entries.now) }
{
    if let Some(entry) = look_up(known, number) {
        return Ok(Some(entry));
    }
    while *scanned < entries.len() {
        let entry = &entries[*scanned];
        insert_first(known, entry)?;
        *scanned += 1;
        if entry.number() == number {
            return Ok(Some(entry));
        }
    }
    Ok(None)
}
