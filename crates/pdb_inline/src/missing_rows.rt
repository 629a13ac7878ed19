//! Adds inline ranges to sites for code that sites inside them cover and their own rows don't.

ghost use Rattle.std.specs.Prelude.{◌≡◌, ◌≤◌, ◌<◌, ℕ, ◌||◌, ◌&&◌, ◌++◌, List, not, false};
ghost use Rattle.std.specs.Prelude.{nat_lt, map, reverse, option_map, slice_get, IfOk, OnOk};
ghost use Rattle.pdb_tables.specs.RangeSet.{has};
ghost use Rattle.pdb_inline.specs.CoveredRuns.{is_on_stack, added_by_depth};
ghost use Rattle.pdb_inline.specs.InlineRanges.{added_range, added_ranges};
ghost use Rattle.pdb_inline.specs.SiteRows.{row_ranges};
ghost use Rattle.pdb_tables.specs.Runs.{missing_runs};
ghost use Rattle.pdb_inline.specs.Sites.{site_view};

use crate::inline_ranges::InlineRange;
use crate::site_rows::{counted_rows, ranges_of_rows};
use crate::sites::Site;
use pdb_records::{FileIndex, IdIndex, InlineRow};
use pdb_tables::RangeSet;
use std::alloc::{AllocError, Global};
use std::collections::BTreeSet;

// A range of code that a site covers together with the sites inside it.
#[derive(Clone, Copy)]
pub(crate) struct CoveredRun {
    // The number of sites that contain the site.
    depth: usize,
    // The start of the range.
    start: u64,
    // The offset just after the last byte.
    end: u64,
}

// Removes the ranges of greater depths from the end of a list, and returns them.
fn take_deeper(
    alloc: Global,
    depth: usize,
    stack: &mut Vec<CoveredRun>,
) -> Result<Vec<(u64, u64)>, AllocError>
    ensures taken { IfOk result (λ v. (d x : ℕ) → d ≤ depth
        → is_on_stack d stack.old.items x ≡ (has v.items x || is_on_stack d stack.new.items x)) }
    ensures none_left { OnOk result ((d x : ℕ) → depth ≤ d → is_on_stack d stack.new.items x ≡ false) }
{
    let mut taken = Vec::new(alloc);
    while let Some(&run) = stack.last() {
        if run.depth <= depth {
            break;
        }
        taken.push((run.start, run.end))?;
        stack.pop();
    }
    Ok(taken)
}

// Appends ranges of a site at a depth to a list.
fn push_runs(
    stack: &mut Vec<CoveredRun>,
    depth: usize,
    runs: &[(u64, u64)],
) -> Result<(), AllocError>
    ensures below { OnOk result ((d x : ℕ) → d < depth
        → is_on_stack d stack.new.items x ≡ (has runs.now x || is_on_stack d stack.old.items x)) }
    ensures at_depth { OnOk result ((d x : ℕ) → depth ≤ d
        → is_on_stack d stack.old.items x ≡ false → is_on_stack d stack.new.items x ≡ false) }
{
    for &(start, end) in runs {
        stack.push(CoveredRun { depth, start, end })?;
    }
    Ok(())
}

// The code that sites inside a site cover and its own rows don't. In `stack`, the ranges of the sites inside it are
// replaced by its own.
fn missing_in(
    alloc: Global,
    depth: usize,
    own: &[(u64, u64)],
    stack: &mut Vec<CoveredRun>,
) -> Result<RangeSet, AllocError>
    ensures answer { IfOk result (λ set. (x : ℕ)
        → has set x ≡ (is_on_stack depth stack.old.items x && not (has own.now x))) }
    ensures state { OnOk result ((d x : ℕ)
        → is_on_stack d stack.new.items x ≡ (nat_lt d depth && (has own.now x || is_on_stack d stack.old.items x))) }
{
    let deeper = take_deeper(alloc, depth, stack)?;
    let mut missing = RangeSet::of_rows(alloc, &deeper)?;
    let mut covered = RangeSet::of_rows(alloc, own)?;
    missing.minus(&covered)?;
    covered.union(&missing)?;
    push_runs(stack, depth, covered.runs())?;
    Ok(missing)
}

// Adds the ranges that a site's own rows don't cover, the last one first.
fn push_added(
    added: &mut Vec<InlineRange>,
    site: Site<'_>,
    file_index: Option<FileIndex>,
    runs: &[(u64, u64)],
) -> Result<(), AllocError>
    ensures { OnOk result (reverse added.new.items
        ≡ map (added_range site.entry.depth site.entry.symbol.now file_index) runs.now ++ reverse added.old.items) }
{
    let mut left = runs.len();
    while left > 0 {
        left -= 1;
        let (start_offset, end_offset) = runs[left];
        added.push(InlineRange {
            start_offset,
            end_offset,
            call_depth: site.depth,
            inlinee: site.symbol.inlinee,
            file_index,
            line_start: None,
        })?;
    }
    Ok(())
}

// The file of the first row.
fn first_file(rows: &[InlineRow]) -> Option<FileIndex>
    ensures { result ≡ option_map (λ row. row.file_index) (slice_get rows.now 0) }
{
    rows.first().map(|row| row.file_index)
}

// Adds the ranges of code that sites inside a site cover and its own rows don't, the last one first.
fn add_missing(
    alloc: Global,
    inlinees: &BTreeSet<IdIndex>,
    site: Site<'_>,
    stack: &mut Vec<CoveredRun>,
    added: &mut Vec<InlineRange>,
) -> Result<(), AllocError>
    ensures added { OnOk result ((inner : List (ℕ × ℕ))
        → ((x : ℕ) → is_on_stack site.entry.depth stack.old.items x ≡ has inner x)
        → reverse added.new.items ≡ added_ranges inlinees.now.keys site.entry.depth site.entry.symbol.now
        (missing_runs inner (row_ranges inlinees.now.keys site.entry.symbol.now)) ++ reverse added.old.items) }
    ensures covered { OnOk result ((d x : ℕ) → is_on_stack d stack.new.items x
        ≡ (nat_lt d site.entry.depth
        && (has (row_ranges inlinees.now.keys site.entry.symbol.now) x || is_on_stack d stack.old.items x))) }
{
    let rows = counted_rows(alloc, inlinees, site.symbol)?;
    let own = ranges_of_rows(alloc, &rows)?;
    let missing = missing_in(alloc, site.depth, &own, stack)?;
    push_added(added, site, first_file(&rows), missing.runs())
}

// The ranges that are added to sites, for code that sites inside them cover and their own rows don't.
pub(crate) fn ranges_added_to_sites(
    alloc: Global,
    inlinees: &BTreeSet<IdIndex>,
    sites: &[Site<'_>],
) -> Result<Vec<InlineRange>, AllocError>
    ensures { IfOk result (λ v. v.items ≡ added_by_depth inlinees.now.keys (map site_view sites.now)) }
{
    let mut added = Vec::new(alloc);
    let mut stack = Vec::new(alloc);
    let mut left = sites.len();
    while left > 0 {
        left -= 1;
        add_missing(alloc, inlinees, sites[left], &mut stack, &mut added)?;
    }
    added.reverse();
    Ok(added)
}
