//! Checks of stacks of inline ranges, and of their table.

use crate::checks::Checks;
use pdb_inline::{InlineRange, ProcedureStacks, StackTable, inline_stack};
use pdb_records::IdIndex;
use pdb_tables::Probes;
use std::alloc::{AllocError, Global};

/// A range: its start and end, and its depth.
type Range = (u64, u64, usize);

/// An offset, and the positions of the ranges that contain it.
type Over<'a> = (u64, &'a [usize]);

/// Ranges of several depths, in no order.
static SEVERAL: [Range; 6] = [
    (0x10, 0x40, 0),
    (0x20, 0x30, 1),
    (0x18, 0x50, 0),
    (0x24, 0x28, 3),
    (0x10, 0x40, usize::MAX),
    (0x2c, 0x2c, 0),
];

/// The ranges at offsets in and around [`SEVERAL`].
static OVER_SEVERAL: [Over<'static>; 11] = [
    (0, &[]),
    (0xf, &[]),
    (0x10, &[0]),
    (0x17, &[0]),
    (0x18, &[2]),
    (0x20, &[2, 1]),
    (0x24, &[2, 1]),
    (0x2c, &[2, 1]),
    (0x30, &[2]),
    (0x50, &[]),
    (u64::MAX, &[]),
];

/// Ranges of one depth, two of which start together.
static EQUAL_STARTS: [Range; 3] = [(0x10, 0x20, 0), (0x10, 0x30, 0), (0x8, 0x40, 0)];

/// The ranges at offsets in and after [`EQUAL_STARTS`].
static OVER_EQUAL_STARTS: [Over<'static>; 4] = [
    (0x8, &[2]),
    (0x10, &[0]),
    (0x20, &[1]),
    (0x30, &[2]),
];

/// A range, and in it two that are equal.
static EQUAL: [Range; 3] = [(0x10, 0x40, 0), (0x18, 0x30, 1), (0x18, 0x30, 1)];

/// Offsets without ranges.
static OVER_NOTHING: [Over<'static>; 3] = [(0, &[]), (1, &[]), (u64::MAX, &[])];

/// Offsets in and around nested ranges.
static OFFSETS: [u64; 8] = [0, 1, 500, 999, 1000, 1001, 1999, 2000];

/// Ranges; the id of each inlined function is the position of its range.
fn ranges_of(alloc: Global, shown: &[Range]) -> Result<Vec<InlineRange>, AllocError> {
    let mut ranges = Vec::new(alloc);
    let mut position: u32 = 0;
    for &(start_offset, end_offset, call_depth) in shown {
        ranges.push(InlineRange {
            start_offset,
            end_offset,
            call_depth,
            inlinee: IdIndex(position),
            file_index: None,
            line_start: None,
        })?;
        position = position.saturating_add(1);
    }
    Ok(ranges)
}

/// The position of a range, by the id of its inlined function.
fn position(range: &InlineRange) -> usize {
    range.inlinee.0 as usize
}

/// Whether ranges have these positions.
fn have_positions(ranges: &[InlineRange], wanted: &[usize]) -> bool {
    ranges.len() == wanted.len()
        && ranges
            .iter()
            .zip(wanted)
            .all(|(range, wanted)| position(range) == *wanted)
}

/// Whether two lists of ranges have the same positions.
fn are_alike(ranges: &[InlineRange], others: &[InlineRange]) -> bool {
    ranges.len() == others.len()
        && ranges
            .iter()
            .zip(others)
            .all(|(range, other)| position(range) == position(other))
}

/// Whether the scan of ranges finds these positions at an offset.
fn scan_finds(alloc: Global, ranges: &[InlineRange], offset: u64, wanted: &[usize]) -> bool {
    inline_stack(alloc, ranges, offset).is_ok_and(|scanned| have_positions(&scanned, wanted))
}

/// Whether a table finds these positions at an offset, with few probes.
fn finds(table: &StackTable, offset: u64, wanted: &[usize]) -> bool {
    let mut probes = Probes::new();
    let digits = usize::BITS.saturating_sub(table.len().leading_zeros());
    table.find(offset, &mut probes) == wanted && probes.count() <= u64::from(digits)
}

/// Whether the table of ranges is small, and finds these positions at an offset.
fn table_finds(alloc: Global, ranges: &[InlineRange], offset: u64, wanted: &[usize]) -> bool {
    StackTable::new(alloc, ranges).is_ok_and(|table| {
        table.len() <= ranges.len().saturating_mul(4) && finds(&table, offset, wanted)
    })
}

/// The ranges at an offset, by the stacks of ranges.
fn stack(alloc: Global, shown: &[Range], offset: u64) -> Result<Vec<InlineRange>, AllocError> {
    let stacks = ProcedureStacks::new(alloc, ranges_of(alloc, shown)?)?;
    stacks.stack(alloc, offset, &mut Probes::new())
}

/// Whether the stacks of ranges find these positions at an offset.
fn stacks_find(alloc: Global, shown: &[Range], offset: u64, wanted: &[usize]) -> bool {
    stack(alloc, shown, offset).is_ok_and(|found| have_positions(&found, wanted))
}

/// Whether the scan and the table of ranges find these positions at an offset.
fn scan_and_table_find(alloc: Global, shown: &[Range], offset: u64, wanted: &[usize]) -> bool {
    ranges_of(alloc, shown).is_ok_and(|ranges| {
        scan_finds(alloc, &ranges, offset, wanted) && table_finds(alloc, &ranges, offset, wanted)
    })
}

/// Whether the scan, the table and the stacks find the expected ranges at all these offsets.
fn all_find(alloc: Global, shown: &[Range], over: &[Over<'_>]) -> bool {
    over.iter().all(|&(offset, wanted)| {
        scan_and_table_find(alloc, shown, offset, wanted)
            && stacks_find(alloc, shown, offset, wanted)
    })
}

/// Ranges of one id, so that those with the same bounds and depth are equal.
fn ranges_of_one_id(alloc: Global, shown: &[Range]) -> Result<Vec<InlineRange>, AllocError> {
    let mut ranges = ranges_of(alloc, shown)?;
    for range in &mut ranges {
        range.inlinee = IdIndex(0);
    }
    Ok(ranges)
}

/// Ranges, each in the one before it.
fn nested_ranges(alloc: Global) -> Result<Vec<InlineRange>, AllocError> {
    let mut shown = Vec::new(alloc);
    for depth in 0..1000usize {
        let start = depth as u64;
        shown.push((start, 2000 - start, depth))?;
    }
    ranges_of(alloc, &shown)
}

/// Whether stacks and the scan of ranges find the same positions at an offset.
fn answer_alike(
    alloc: Global,
    stacks: &ProcedureStacks,
    ranges: &[InlineRange],
    offset: u64,
) -> Result<bool, AllocError> {
    let found = stacks.stack(alloc, offset, &mut Probes::new())?;
    let scanned = inline_stack(alloc, ranges, offset)?;
    Ok(are_alike(&found, &scanned))
}

/// Whether stacks and the scan of ranges find the same positions at all these offsets.
fn all_answer_alike(
    alloc: Global,
    stacks: &ProcedureStacks,
    ranges: &[InlineRange],
    offsets: &[u64],
) -> Result<bool, AllocError> {
    for &offset in offsets {
        if !answer_alike(alloc, stacks, ranges, offset)? {
            return Ok(false);
        }
    }
    Ok(true)
}

/// Whether the table of equal ranges has the position of the first.
fn has_first_of_equal(alloc: Global) -> bool {
    ranges_of_one_id(alloc, &EQUAL).is_ok_and(|ranges| table_finds(alloc, &ranges, 0x20, &[0, 1]))
}

/// Whether stacks of nested ranges find the same positions as the scan, and all of them in the middle.
fn answers_nested(alloc: Global) -> Result<bool, AllocError> {
    let ranges = nested_ranges(alloc)?;
    let stacks = ProcedureStacks::new(alloc, nested_ranges(alloc)?)?;
    Ok(
        all_answer_alike(alloc, &stacks, &ranges, &OFFSETS)?
            && stacks.stack(alloc, 999, &mut Probes::new())?.len() == 1000,
    )
}

/// The checks of stacks.
pub(crate) fn checks(alloc: Global) -> Checks {
    Checks::NONE
        .and(
            "positions at several offsets",
            all_find(alloc, &SEVERAL, &OVER_SEVERAL),
        )
        .and(
            "the first of equal starts",
            all_find(alloc, &EQUAL_STARTS, &OVER_EQUAL_STARTS),
        )
        .and("the first of equal ranges", has_first_of_equal(alloc))
        .and(
            "no stack without ranges",
            all_find(alloc, &[], &OVER_NOTHING),
        )
        .and_tried("a thousand nested ranges", answers_nested(alloc))
}
