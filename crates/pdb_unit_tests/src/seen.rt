//! Checks of sets of open indices.

use crate::checks::Checks;
use crate::errors::says;
use pdb_errors::Error;
use pdb_records::TypeIndex;
use pdb_type_texts::seen::{Seen, SeenError};
use std::alloc::Global;
use std::collections::BTreeSet;

/// Whether a set has the numbers below this one, in their order, and no others.
fn has_numbers_below(set: &BTreeSet<TypeIndex>, end: u32) -> bool {
    let mut wanted: u32 = 0;
    for index in set {
        if index.0 != wanted {
            return false;
        }
        wanted = wanted.saturating_add(1);
    }
    wanted == end
}

/// Whether a level that is entered without a number accepts two numbers.
fn holds_empty_level(seen: &mut Seen<'_>) -> bool {
    let mut level = seen.new_level();
    level.insert(TypeIndex(4)).is_ok()
        && level.insert(TypeIndex(5)).is_ok()
        && has_numbers_below(level.set, 6)
}

/// Whether the level that is entered with the number 3 is unchanged after another level inside it.
fn is_inner_level(level: &mut Seen<'_>) -> bool {
    has_numbers_below(level.set, 4) && holds_empty_level(level) && has_numbers_below(level.set, 4)
}

/// Whether entering a level with a number is refused, and removes no number.
fn refuses_level(seen: &mut Seen<'_>, index: TypeIndex) -> bool {
    seen.insert_one(index).is_err()
}

/// Whether the level that is entered with the number 1 accepts another number, and is unchanged after two levels inside
/// it.
fn is_outer_level(level: &mut Seen<'_>) -> bool {
    level.insert(TypeIndex(0)).is_err()
        && refuses_level(level, TypeIndex(0))
        && refuses_level(level, TypeIndex(1))
        && has_numbers_below(level.set, 2)
        && level.insert(TypeIndex(2)).is_ok()
        && has_numbers_below(level.set, 3)
        && level
            .insert_one(TypeIndex(3))
            .is_ok_and(|mut inner| is_inner_level(&mut inner))
        && has_numbers_below(level.set, 3)
}

/// Whether a set has the same numbers after the levels that borrow it as before.
fn holds_levels(alloc: Global, set: &mut BTreeSet<TypeIndex>) -> bool {
    let mut seen = Seen::new(alloc, set);
    seen.insert_one(TypeIndex(1))
        .is_ok_and(|mut level| is_outer_level(&mut level))
        && has_numbers_below(seen.set, 1)
}

/// Whether an index is refused with this text.
fn is_refused(alloc: Global, seen: &mut Seen<'_>, index: TypeIndex, wanted: &str) -> bool {
    seen.insert(index)
        .is_err_and(|error| says(alloc, &Error::from(error), wanted))
}

/// Whether levels remove from a set what they inserted.
fn take_out_what_they_put_in(alloc: Global) -> bool {
    let mut set = BTreeSet::new(alloc);
    set.insert(TypeIndex(0)).is_ok() && holds_levels(alloc, &mut set) && has_numbers_below(&set, 1)
}

/// Whether an inserted index is circular from then on.
fn is_open_circular(alloc: Global) -> bool {
    let mut set = BTreeSet::new(alloc);
    let mut seen = Seen::new(alloc, &mut set);
    let index = TypeIndex(4097);
    seen.insert(index).is_ok()
        && is_refused(alloc, &mut seen, index, "Type with index 4097 is circular")
}

/// The checks of open indices.
pub(crate) fn checks(alloc: Global) -> Checks {
    Checks::NONE
        .and(
            "levels that take out what they put in",
            take_out_what_they_put_in(alloc),
        )
        .and("an index that is open", is_open_circular(alloc))
        .and(
            "no memory for an index",
            says(alloc, &Error::from(SeenError::OutOfMemory), "Out of memory"),
        )
}
