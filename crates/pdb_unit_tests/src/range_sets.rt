//! Checks of sets of numbers.

use crate::checks::Checks;
use pdb_tables::RangeSet;
use std::alloc::{AllocError, Global};

/// A range: its start, and its exclusive end.
type Range = (u64, u64);

/// Ranges: some overlap, some touch, some are empty, and the last one has the greatest numbers.
static ADDED: [Range; 9] = [
    (10, 20),
    (30, 40),
    (20, 25),
    (35, 45),
    (50, 50),
    (70, 60),
    (0, 5),
    (24, 30),
    (u64::MAX - 1, u64::MAX),
];

/// Rows in no order.
static ROWS: [Range; 6] = [(80, 90), (40, 60), (30, 40), (9, 9), (45, 50), (1, 3)];

/// The runs of [`ROWS`].
static RUNS: [Range; 3] = [(1, 3), (30, 60), (80, 90)];

/// Ranges that are added to a set, and removed again.
static INNER: [Range; 4] = [(5, 10), (20, 30), (32, 34), (50, 60)];

/// The rest of the set after the removal.
static REST: [Range; 5] = [(0, 5), (10, 20), (30, 32), (34, 40), (60, 70)];

/// The set after ranges were added in order.
fn added_in_turn(alloc: Global, ranges: &[Range]) -> Result<RangeSet, AllocError> {
    let mut set = RangeSet::empty(alloc);
    for &(start, end) in ranges {
        set.add(start, end)?;
    }
    Ok(set)
}

/// Whether ranges that are added in order become these runs.
fn join(alloc: Global, ranges: &[Range], runs: &[Range]) -> bool {
    added_in_turn(alloc, ranges).is_ok_and(|set| set.runs() == runs)
}

/// Whether a set lacks numbers of another one, and has all of them and more after the union.
fn takes_in(set: &mut RangeSet, inner: &RangeSet) -> bool {
    !set.is_superset(inner)
        && set.union(inner).is_ok()
        && set.runs() == [(0, 40), (50, 70)].as_slice()
        && set.is_superset(inner)
        && !inner.is_superset(set)
}

/// Whether a set loses exactly the numbers of another one.
fn gives_back(set: &mut RangeSet, inner: &RangeSet) -> bool {
    set.minus(inner).is_ok() && set.runs() == REST.as_slice()
}

/// Three thousand ranges of two numbers, from `first` on at intervals of four.
fn thousands_from(alloc: Global, first: u64) -> Result<RangeSet, AllocError> {
    let mut set = RangeSet::empty(alloc);
    for at in 0..3000u64 {
        let start = first.saturating_add(4 * at);
        set.add(start, start.saturating_add(2))?;
    }
    Ok(set)
}

/// Whether these are three thousand ranges of one number, at intervals of four.
fn are_thousands_of_one(runs: &[Range]) -> bool {
    let mut start: u64 = 0;
    for &run in runs {
        if run != (start, start.saturating_add(1)) {
            return false;
        }
        start = start.saturating_add(4);
    }
    runs.len() == 3000
}

/// Whether ranges that are added are joined.
fn are_joined(alloc: Global) -> bool {
    let runs = [(0, 5), (10, 45), (u64::MAX - 1, u64::MAX)];
    join(alloc, &[], &[])
        && join(alloc, &ADDED[..8], &[(0, 5), (10, 45)])
        && join(alloc, &ADDED, &runs)
}

/// Whether rows in any order are joined.
fn are_rows_joined(alloc: Global) -> bool {
    RangeSet::of_rows(alloc, &ROWS).is_ok_and(|set| set.runs() == RUNS.as_slice())
}

/// Whether union, difference and comparison of a set with parts of it are right.
fn is_compared(alloc: Global) -> Result<bool, AllocError> {
    let mut set = RangeSet::of_rows(alloc, &[(0, 40), (60, 70)])?;
    let inner = RangeSet::of_rows(alloc, &INNER)?;
    Ok(
        takes_in(&mut set, &inner)
            && gives_back(&mut set, &inner)
            && set.is_superset(&RangeSet::empty(alloc)),
    )
}

/// Whether a set can have thousands of runs, merges ranges that overlap them, and has one number of each run left after
/// these ranges are removed.
fn holds_thousands(alloc: Global) -> Result<bool, AllocError> {
    let mut set = thousands_from(alloc, 0)?;
    let others = thousands_from(alloc, 1)?;
    Ok(
        set.runs().len() == 3000
            && set.union(&others).is_ok()
            && set.minus(&others).is_ok()
            && are_thousands_of_one(set.runs()),
    )
}

/// The checks of sets of ranges.
pub(crate) fn checks(alloc: Global) -> Checks {
    Checks::NONE
        .and("ranges that overlap or touch", are_joined(alloc))
        .and("rows in any order", are_rows_joined(alloc))
        .and_tried(
            "sets that are joined, parted and compared",
            is_compared(alloc),
        )
        .and_tried("thousands of runs", holds_thousands(alloc))
}
