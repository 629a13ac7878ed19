//! Section offsets as single numbers (places), and lists that are sorted and searched by them.

ghost use Rattle.std.specs.Prelude.{◌≡◌, ◌≤◌, ◌<◌, ◌^◌, ℕ, None, IfOk, OnOk};
ghost use Rattle.std.specs.List.Sorted.{IsNonDecreasingBy};
ghost use Rattle.pdb_tables.specs.InOrder.{in_order};
ghost use Rattle.pdb_codeview.specs.Places.{place, stands_before, firsts_after, first_of_each_place, from_last};

use pdb_records::PdbInternalSectionOffset;
use std::alloc::{AllocError, Global};

/// An element of a list that has a place, by which the list is sorted.
pub(crate) trait HasPlace {
    ghost place_of: { Self → ℕ };

    fn place(&self) -> u64
        ensures { result ≡ place_of self.now };
}

/// A section offset as one number, its place: the section's number times 4 GiB, plus the offset.
pub fn place(section_offset: PdbInternalSectionOffset) -> u64
    ensures answer { result ≡ place section_offset }
    ensures small { result < 2 ^ 48 }
{
    u64::from(section_offset.section) * 0x1_0000_0000 + u64::from(section_offset.offset)
}

/// Sorts a list by place. The sort is stable: elements with the same place keep their order.
pub(crate) fn sort_by_place<T: HasPlace>(items: &mut Vec<T>) -> Result<(), AllocError>
    ensures state { OnOk result (items.new.items ≡ in_order (stands_before T.place_of) items.old.items) }
    ensures ascending { OnOk result (IsNonDecreasingBy T.place_of items.new.items) }
{
    items.sort_by_key(|item| item.place())
}

// Keeps the first of each run of neighbours that have the same place.
fn first_neighbours<T: HasPlace + Copy>(alloc: Global, items: &[T]) -> Result<Vec<T>, AllocError>
    ensures { IfOk result (λ v. v.items ≡ firsts_after T.place_of None items.now) }
{
    let mut counted: Vec<T> = Vec::new(alloc);
    let mut before = None;
    for item in items {
        let place = item.place();
        if before != Some(place) {
            counted.push(*item)?;
            before = Some(place);
        }
    }
    Ok(counted)
}

/// Sorts a list by place, and keeps only the first element of each place.
pub(crate) fn first_of_each_place<T: HasPlace + Copy>(
    alloc: Global,
    mut items: Vec<T>,
) -> Result<Vec<T>, AllocError>
    ensures { IfOk result (λ v. v.items ≡ first_of_each_place T.place_of items.items) }
{
    sort_by_place(&mut items)?;
    first_neighbours(alloc, &items)
}

// The rest of a sorted list, from the last element whose place is at most `x`. If there is none, the whole list.
fn from_last<T: HasPlace>(items: &[T], x: u64) -> &[T]
    ensures { result.now ≡ from_last T.place_of x items.now }
{
    let mut rest = items;
    while let [_, next, ..] = rest {
        if x < next.place() {
            break;
        }
        rest = &rest[1..];
    }
    rest
}

/// The rest of a sorted list, from the last element whose place is at most `x`. `rest` is the result of an earlier call
/// for the place `asked`, or the whole list. Calls with ascending places therefore walk over the list only once.
pub(crate) fn walked_to<'a, T: HasPlace>(
    items: &'a [T],
    rest: &'a [T],
    asked: u64,
    x: u64,
) -> &'a [T]
    requires { (y : ℕ) → asked ≤ y → from_last T.place_of y rest.now ≡ from_last T.place_of y items.now }
    ensures answer { result.now ≡ from_last T.place_of x items.now }
    ensures onward { (y : ℕ) → x ≤ y → from_last T.place_of y result.now ≡ from_last T.place_of y items.now }
{
    if x < asked {
        return from_last(items, x);
    }
    from_last(rest, x)
}
