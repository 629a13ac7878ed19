//! Makes a table of the sizes of all forward references in one pass over the list of types.

ghost use Rattle.std.specs.Prelude.{◌≡◌, ◌==◌, ℕ, List, IfOk, OnOk, option_map, option_and_then, if◌then◌else◌};
ghost use Rattle.std.specs.Option.{option_or};
ghost use Rattle.std.specs.BTreeMap.{get};
ghost use Rattle.std.specs.Ordering.{nat_cmp};
ghost use Rattle.pdb_types.specs.ForwardReferences.{aggregate_view, size_for, referred_name, size_under, Tabulates};

use crate::aggregates::{Aggregate, item_aggregate};
use pdb_records::{Item, RawString, TypeData, TypeIndex};
use std::alloc::{AllocError, Global};
use std::collections::BTreeMap;

// The bytes of a name.
fn bytes_of(name: &RawString) -> &[u8]
    ensures { result.now ≡ name.now }
{
    name.0.as_slice()
}

// The size for the name of a forward reference.
fn reference_size<'a>(
    by_name: &BTreeMap<&'a [u8], u64>,
    aggregate: Option<Aggregate<'a>>,
) -> Option<u64>
    ensures { result ≡ option_and_then (size_under by_name.now)
        (option_and_then referred_name (option_map aggregate_view aggregate.entry)) }
{
    let reference = aggregate?;
    if !reference.forward_reference {
        return None;
    }
    by_name.get(&bytes_of(reference.name)).copied()
}

// Stores the size of a definition under its name, in place of that of a later one.
fn define<'a>(
    by_name: &mut BTreeMap<&'a [u8], u64>,
    aggregate: Option<Aggregate<'a>>,
) -> Result<(), AllocError>
    ensures { OnOk result ((name : List ℕ) → size_under by_name.new name
        ≡ option_or (option_and_then (size_for name) (option_map aggregate_view aggregate.entry))
        (size_under by_name.old name)) }
{
    let Some(defined) = aggregate else {
        return Ok(());
    };
    if defined.forward_reference {
        return Ok(());
    }
    match by_name.insert(bytes_of(defined.name), defined.size) {
        Ok(_) => Ok(()),
        Err(_) => Err(AllocError),
    }
}

// Stores the size of an entry under its number, in place of that of a later entry.
fn put_size(
    sizes: &mut BTreeMap<u32, u64>,
    number: u32,
    size: Option<u64>,
) -> Result<(), AllocError>
    ensures { OnOk result ((n : ℕ) → get nat_cmp sizes.new n
        ≡ (if number == n then size else get nat_cmp sizes.old n)) }
{
    let Some(size) = size else {
        let _ = sizes.remove(&number);
        return Ok(());
    };
    match sizes.insert(number, size) {
        Ok(_) => Ok(()),
        Err(_) => Err(AllocError),
    }
}

// For each forward reference, by the number of its index, the size in the first definition of its name after it.
//
// The list is read once, from its end, with the first definition of each name that was met so far.
pub(crate) fn forward_sizes(
    alloc: Global,
    items: &[Item<TypeIndex, TypeData>],
) -> Result<BTreeMap<u32, u64>, AllocError>
    ensures { IfOk result (Tabulates items.now) }
{
    let mut by_name = BTreeMap::new(alloc);
    let mut sizes = BTreeMap::new(alloc);
    let mut left = items.len();
    while left > 0 {
        left -= 1;
        let item = &items[left];
        let aggregate = item_aggregate(item);
        let size = reference_size(&by_name, aggregate);
        put_size(&mut sizes, item.index.0, size)?;
        define(&mut by_name, aggregate)?;
    }
    Ok(sizes)
}

// The size in a table for a number.
pub(crate) fn size_at(sizes: &BTreeMap<u32, u64>, number: u32) -> Option<u64>
    ensures { result ≡ get nat_cmp sizes.now number }
{
    sizes.get(&number).copied()
}
