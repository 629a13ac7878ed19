//! Operations on lists of runs: adding a range, union, difference, and a subset test.

ghost use Rattle.std.specs.Prelude.{◌≡◌, ℕ, ◌||◌, ◌&&◌, ◌++◌, not, IfOk, OnOk, OnErr};
ghost use Rattle.pdb_tables.specs.RangeSet.{is_within, has, IsRunsFrom};
ghost use Rattle.pdb_tables.specs.Runs.{with_range, ending_after, range_without, covers};

use std::alloc::{AllocError, Global};

// A new list of the runs with lo..hi added. It reads all runs.
fn with_range(
    alloc: Global,
    runs: &[(u64, u64)],
    lo: u64,
    hi: u64,
) -> Result<Vec<(u64, u64)>, AllocError>
    ensures { IfOk result (λ all. all.items ≡ with_range lo hi runs.now) }
{
    let mut all = Vec::new(alloc);
    let (mut start, mut end) = (lo, hi);
    for (at, &run) in runs.iter().enumerate() {
        if run.1 < start {
            all.push(run)?;
        } else if end < run.0 {
            all.push((start, end))?;
            all.extend_from_slice(&runs[at..])?;
            return Ok(all);
        } else {
            start = start.min(run.0);
            end = end.max(run.1);
        }
    }
    all.push((start, end))?;
    Ok(all)
}

// Adds lo..hi to the runs. If `lo` is at or after the start of the last run, this takes amortized constant time.
pub(crate) fn add_range(runs: &mut Vec<(u64, u64)>, lo: u64, hi: u64) -> Result<(), AllocError>
    requires { IsRunsFrom 0 runs.old.items }
    ensures ordered { IsRunsFrom 0 runs.new.items }
    ensures state { OnOk result
        ((x : ℕ) → has runs.new.items x ≡ (has runs.old.items x || is_within lo hi x)) }
    ensures unchanged_if_refused { OnErr result (runs.new.items ≡ runs.old.items) }
{
    if hi <= lo {
        return Ok(());
    }
    let Some(&(start, end)) = runs.last() else {
        runs.push((lo, hi))?;
        return Ok(());
    };
    if end < lo {
        runs.push((lo, hi))?;
    } else if start <= lo {
        let last = runs.len() - 1;
        runs[last] = (start, end.max(hi));
    } else {
        *runs = with_range(*runs.allocator(), runs, lo, hi)?;
    }
    Ok(())
}

// Adds each of the ranges to the runs. This is fastest if the ranges are in ascending order.
pub(crate) fn add_ranges(
    runs: &mut Vec<(u64, u64)>,
    ranges: &[(u64, u64)],
) -> Result<(), AllocError>
    requires { IsRunsFrom 0 runs.old.items }
    ensures ordered { IsRunsFrom 0 runs.new.items }
    ensures state { OnOk result
        ((x : ℕ) → has runs.new.items x ≡ (has runs.old.items x || has ranges.now x)) }
{
    for &(lo, hi) in ranges {
        add_range(runs, lo, hi)?;
    }
    Ok(())
}

// Adds the runs before the first one that begins after `bound` to `all`, and returns the others.
fn add_beginning_by<'a>(
    all: &mut Vec<(u64, u64)>,
    runs: &'a [(u64, u64)],
    bound: u64,
) -> Result<&'a [(u64, u64)], AllocError>
    requires { IsRunsFrom 0 all.old.items }
    ensures ordered { IsRunsFrom 0 all.new.items }
    ensures state { IfOk result (λ rest. (x : ℕ) →
        (has all.new.items x || has rest.now x) ≡ (has all.old.items x || has runs.now x)) }
{
    for (at, &(lo, hi)) in runs.iter().enumerate() {
        if bound < lo {
            return Ok(&runs[at..]);
        }
        add_range(all, lo, hi)?;
    }
    Ok(&[])
}

// The runs of the numbers in either list. Both are read once, and merged by the starts of their runs.
pub(crate) fn union_of(
    alloc: Global,
    runs: &[(u64, u64)],
    others: &[(u64, u64)],
) -> Result<Vec<(u64, u64)>, AllocError>
    ensures ordered { IfOk result (λ all. IsRunsFrom 0 all.items) }
    ensures answer { IfOk result (λ all. (x : ℕ) →
        has all.items x ≡ (has runs.now x || has others.now x)) }
{
    let mut all = Vec::new(alloc);
    let mut rest = runs;
    for &(lo, hi) in others {
        rest = add_beginning_by(&mut all, rest, lo)?;
        add_range(&mut all, lo, hi)?;
    }
    add_ranges(&mut all, rest)?;
    Ok(all)
}

// The runs from the first one on that ends after `bound`.
fn ending_after(runs: &[(u64, u64)], bound: u64) -> &[(u64, u64)]
    ensures { result.now ≡ ending_after bound runs.now }
{
    for (at, run) in runs.iter().enumerate() {
        if bound < run.1 {
            return &runs[at..];
        }
    }
    &[]
}

// Appends the parts of lo..hi that the others don't cover. It reads the others up to the first that begins at `hi` or
// later.
fn push_range_without(
    left: &mut Vec<(u64, u64)>,
    lo: u64,
    hi: u64,
    others: &[(u64, u64)],
) -> Result<(), AllocError>
    ensures { OnOk result (left.new.items ≡ left.old.items ++ range_without lo hi others.now) }
{
    let mut from = lo;
    for &(start, end) in others {
        if hi <= start {
            break;
        }
        if from < start {
            left.push((from, start))?;
        }
        from = from.max(end);
    }
    if from < hi {
        left.push((from, hi))?;
    }
    Ok(())
}

// The runs of the numbers that are in the runs and not in the others. Each list is read once.
pub(crate) fn difference_of(
    alloc: Global,
    runs: &[(u64, u64)],
    others: &[(u64, u64)],
) -> Result<Vec<(u64, u64)>, AllocError>
    requires runs { IsRunsFrom 0 runs.now }
    requires others { IsRunsFrom 0 others.now }
    ensures ordered { IfOk result (λ left. IsRunsFrom 0 left.items) }
    ensures answer { IfOk result (λ left. (x : ℕ) →
        has left.items x ≡ (has runs.now x && not (has others.now x))) }
{
    let mut left = Vec::new(alloc);
    let mut rest = others;
    for &(lo, hi) in runs {
        rest = ending_after(rest, lo);
        push_range_without(&mut left, lo, hi, rest)?;
    }
    Ok(left)
}

// Whether each of the others is inside one of the runs. Each list is read once.
pub(crate) fn covers(runs: &[(u64, u64)], others: &[(u64, u64)]) -> bool
    ensures { result ≡ covers runs.now others.now }
{
    let mut rest = runs;
    for &(lo, hi) in others {
        rest = ending_after(rest, lo);
        match rest.first() {
            Some(&(start, end)) if start <= lo && hi <= end => {}
            _ => return false,
        }
    }
    true
}
