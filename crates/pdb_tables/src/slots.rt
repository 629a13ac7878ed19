//! `make_slot`: extends a list of slots, each of which is empty or has a value.

ghost use Rattle.std.specs.Prelude.{◌≡◌, ◌<◌, ℕ, length, OnOk};
ghost use Rattle.pdb_tables.specs.Slots.{held};

use std::alloc::AllocError;

/// Makes sure that there is a slot at a position, by appending empty ones. Existing slots don't change.
///
/// `AllocError` if memory runs out.
pub fn make_slot<T: Drop>(slots: &mut Vec<Option<T>>, position: usize) -> Result<(), AllocError>
    ensures unchanged { (other : ℕ) → held slots.new.items other ≡ held slots.old.items other }
    ensures slot { OnOk result (position < length slots.new.items) }
{
    while slots.len() <= position {
        slots.push(None)?;
    }
    Ok(())
}
