//! Picks the stack of inlined bodies at an offset from a list of inline ranges, depth by depth.

ghost use Rattle.std.specs.Prelude.{◌≡◌, ◌==◌, ◌<◌, ◌≤◌, ℕ, length, Some, None, IfOk, OnOk, if◌then◌else◌};
ghost use Rattle.std.specs.Option.{option_copied};
ghost use Rattle.pdb_tables.specs.Pick.{pick, later_start};
ghost use Rattle.pdb_tables.specs.RangeSet.{is_within};
ghost use Rattle.pdb_inline.specs.InlineStacks.{lies_over, inline_stack};
ghost use Rattle.pdb_inline.specs.PickedSlots.{picked_at};

use crate::inline_ranges::InlineRange;
use pdb_tables::make_slot;
use std::alloc::{AllocError, Global};

// The one of two ranges that starts later; of equal starts the first.
fn later<'r>(picked: Option<&'r InlineRange>, range: &'r InlineRange) -> &'r InlineRange
    ensures { Some result.now ≡ later_start (λ r. r.start_offset) (option_copied picked.entry) (Some range.now) }
{
    match picked {
        Some(other) if other.start_offset >= range.start_offset => other,
        _ => range,
    }
}

// Picks a range at its depth, unless the one picked there starts at the same offset or later.
fn pick_at_depth<'r>(
    picked: &mut Vec<Option<&'r InlineRange>>,
    range: &'r InlineRange,
) -> Result<(), AllocError>
    ensures { OnOk result ((depth : ℕ) → picked_at picked.new.items depth
        ≡ later_start (λ r. r.start_offset) (picked_at picked.old.items depth)
        (if range.now.call_depth == depth then Some range.now else None)) }
{
    let depth = range.call_depth;
    make_slot(picked, depth)?;
    picked[depth] = Some(later(picked[depth], range));
    Ok(())
}

// Whether a range contains an offset.
fn covers(range: &InlineRange, offset: u64) -> bool
    ensures { result ≡ is_within range.now.start_offset range.now.end_offset offset }
{
    range.start_offset <= offset && offset < range.end_offset
}

// For each depth, the range that contains an offset and starts last; of equal starts the first. Depths from the number
// of ranges on are skipped, because no stack reaches them.
fn picked_by_depth(
    alloc: Global,
    ranges: &[InlineRange],
    offset: u64,
) -> Result<Vec<Option<&InlineRange>>, AllocError>
    ensures picked { IfOk result (λ picked. (depth : ℕ) → depth < length ranges.now
        → picked_at picked.items depth ≡ pick (lies_over depth offset) (λ r. r.start_offset) ranges.now) }
    ensures none { IfOk result (λ picked. (depth : ℕ) → length ranges.now ≤ depth
        → picked_at picked.items depth ≡ None) }
{
    let mut picked = Vec::new(alloc);
    for range in ranges {
        if range.call_depth < ranges.len() && covers(range, offset) {
            pick_at_depth(&mut picked, range)?;
        }
    }
    Ok(picked)
}

// The range that is picked at a depth.
fn range_at(picked: &[Option<&InlineRange>], depth: usize) -> Option<InlineRange>
    ensures { result ≡ picked_at picked.now depth }
{
    match picked.get(depth) {
        Some(Some(range)) => Some(**range),
        _ => None,
    }
}

/// The inlined bodies at an offset in a procedure's section, the outermost first, by these ranges of the procedure's
/// code.
///
/// At each depth, the range that contains the offset and starts last is picked; of equal starts the first of the list.
/// The stack ends before the first depth without such a range.
///
/// `AllocError` if memory runs out.
pub fn inline_stack(
    alloc: Global,
    ranges: &[InlineRange],
    offset: u64,
) -> Result<Vec<InlineRange>, AllocError>
    ensures { IfOk result (λ v. v.items ≡ inline_stack ranges.now offset) }
{
    let picked = picked_by_depth(alloc, ranges, offset)?;
    let mut stack = Vec::with_capacity(alloc, picked.len())?;
    while let Some(range) = range_at(&picked, stack.len()) {
        stack.push(range)?;
    }
    Ok(stack)
}
