//! For each depth, a table from section offsets to the position of the inline range that is picked there.

ghost use Rattle.std.specs.Prelude.{◌≡◌, ◌==◌, ◌<◌, ◌≤◌, ◌++◌, ◌∷◌, [], ℕ, map};
ghost use Rattle.std.specs.Prelude.{length, None, IfOk, OnOk, if◌then◌else◌};
ghost use Rattle.pdb_tables.specs.Segments.{value_at, painted_in_turn};
ghost use Rattle.pdb_inline.specs.ListedRanges.{last_position};
ghost use Rattle.pdb_inline.specs.DepthTables.{segments_at, picked_positions, positions_in};

use crate::inline_ranges::InlineRange;
use crate::listed_ranges::{ListedRange, ranges_by_start};
use pdb_tables::{Probes, Segment, Segments};
use std::alloc::{AllocError, Global};

// `depths` empty lists of segments.
fn no_segments(alloc: Global, depths: usize) -> Result<Vec<Vec<Segment<usize>>>, AllocError>
    ensures count { IfOk result (λ v. length v.items ≡ depths) }
    ensures none { IfOk result (λ v. (depth : ℕ) → segments_at v.items depth ≡ []) }
{
    let mut all = Vec::with_capacity(alloc, depths)?;
    while all.len() < depths {
        all.push(Vec::new(alloc))?;
    }
    Ok(all)
}

fn push_at(
    all: &mut Vec<Vec<Segment<usize>>>,
    depth: usize,
    segment: Segment<usize>,
) -> Result<(), AllocError>
    requires { depth < length all.old.items }
    ensures state { OnOk result ((other : ℕ) → segments_at all.new.items other
        ≡ (if other == depth then segments_at all.old.items other ++ segment ∷ []
        else segments_at all.old.items other)) }
    ensures count { length all.new.items ≡ length all.old.items }
{
    all[depth].push(segment)?;
    Ok(())
}

// For each depth below `depths`, its ranges as segments whose values are the ranges' positions. They keep their order.
fn segments_by_depth(
    alloc: Global,
    ranges: &[ListedRange],
    depths: usize,
) -> Result<Vec<Vec<Segment<usize>>>, AllocError>
    ensures count { IfOk result (λ v. length v.items ≡ depths) }
    ensures last { IfOk result (λ v. (depth x : ℕ) → depth < depths
        → painted_in_turn (segments_at v.items depth) None x ≡ last_position depth x None ranges.now) }
{
    let mut all = no_segments(alloc, depths)?;
    for listed in ranges {
        let range = listed.range;
        if range.call_depth < depths {
            let segment = Segment {
                start: range.start_offset,
                end: range.end_offset,
                value: listed.position,
            };
            push_at(&mut all, range.call_depth, segment)?;
        }
    }
    Ok(all)
}

// Makes a table from each list of segments. Where segments overlap, the last one of the list counts.
fn tables_of(
    alloc: Global,
    lists: &[Vec<Segment<usize>>],
) -> Result<Vec<Segments<usize>>, AllocError>
    ensures { IfOk result (λ v. (x : ℕ) → map (λ table. value_at table x) v.items
        ≡ map (λ list. painted_in_turn list.items None x) lists.now) }
{
    let mut tables = Vec::new(alloc);
    for segments in lists {
        tables.push(Segments::from_overlapping(alloc, segments)?)?;
    }
    Ok(tables)
}

// For each depth, a table of the positions of the ranges that are picked there. Depths from the number of ranges on get
// no table, because a stack has at most one range for each depth, without gaps.
//
// Takes O(n log n) time for n ranges.
pub(crate) fn depth_tables(
    alloc: Global,
    ranges: &[InlineRange],
) -> Result<Vec<Segments<usize>>, AllocError>
    ensures { IfOk result (λ v. (x : ℕ) → map (λ table. value_at table x) v.items
        ≡ picked_positions ranges.now x (length ranges.now) 0) }
{
    let listed = ranges_by_start(alloc, ranges)?;
    let segments = segments_by_depth(alloc, &listed, ranges.len())?;
    let tables = tables_of(alloc, &segments)?;
    Ok(tables)
}

// Adds the position that each table has for `x`, from the outermost depth on. Stops at the first table that has none.
pub(crate) fn push_positions(
    positions: &mut Vec<usize>,
    tables: &[Segments<usize>],
    x: u64,
) -> Result<(), AllocError>
    ensures state { OnOk result (positions.new.items ≡ positions.old.items ++ positions_in tables.now x) }
    ensures no_fewer { length positions.old.items ≤ length positions.new.items }
{
    let mut probes = Probes::new();
    for table in tables {
        match table.find(x, &mut probes) {
            Some(position) => positions.push(position)?,
            None => return Ok(()),
        }
    }
    Ok(())
}
