//! `RangeSet`: a set of 64-bit numbers, stored as runs, with union, difference and a subset test.

ghost use Rattle.std.specs.Prelude.{◌≡◌, ℕ, ◌||◌, ◌&&◌, ◌↔◌, not, true, List, [], IfOk, OnOk, OnErr, IsTrue};
ghost use Rattle.pdb_tables.specs.RangeSet.{is_within, has, IsRunsFrom};

use crate::runs;
use std::alloc::{AllocError, Global};
use std::marker::Model;

/// A set of 64-bit numbers, stored as its runs.
///
/// A run is a maximal range of numbers in the set: neither the number before it nor the one after it is in the set. So
/// the set takes memory for each run and not for each number. For example, the ranges 10 to 20 and 20 to 30 are stored
/// as the single run `(10, 30)`. The end of a range is excluded, so `u64::MAX` is in no set.
#[derive(Debug, Drop)]
pub struct RangeSet {
    runs: Vec<(u64, u64)>,
}

// Contracts see a set as its runs, the lowest first.
impl Model for RangeSet {
    ghost Value = { List (ℕ × ℕ) };

    ghost view = { λ set. set.runs.items };

    ghost invariant = { λ set. IsRunsFrom 0 set.runs.items };
}

impl RangeSet {
    /// An empty set. It takes no memory; later memory comes from `alloc`.
    pub fn empty(alloc: Global) -> Self
        ensures { result ≡ [] }
    {
        RangeSet {
            runs: Vec::new(alloc),
        }
    }

    /// The set of the numbers in any of the rows. These may be in any order, overlap, and be empty.
    ///
    /// It sorts a copy of the rows. For rows in unknown order this is faster than calling `add` for each. `AllocError`
    /// if memory runs out.
    pub fn of_rows(alloc: Global, rows: &[(u64, u64)]) -> Result<Self, AllocError>
        ensures { IfOk result (λ set. (x : ℕ) → has set x ≡ has rows.now x) }
    {
        let mut rows = Vec::from_slice(alloc, rows)?;
        rows.sort_unstable();
        let mut runs = Vec::new(alloc);
        runs::add_ranges(&mut runs, &rows)?;
        Ok(RangeSet { runs })
    }

    /// Adds the numbers from `lo` up to, but not including, `hi`; nothing if `hi` isn't greater than `lo`.
    ///
    /// If the range begins at or after the start of the last run, this takes amortized constant time; otherwise the
    /// runs are copied. `AllocError` if memory runs out; then the set doesn't change.
    pub fn add(&mut self, lo: u64, hi: u64) -> Result<(), AllocError>
        ensures state { OnOk result
            ((x : ℕ) → has self.new x ≡ (has self.old x || is_within lo hi x)) }
        ensures unchanged_if_refused { OnErr result (self.new ≡ self.old) }
    {
        runs::add_range(&mut self.runs, lo, hi)
    }

    /// Adds the numbers of another set, in one pass over the runs of both. `AllocError` if memory runs out; then the
    /// set doesn't change.
    pub fn union(&mut self, other: &RangeSet) -> Result<(), AllocError>
        ensures state { OnOk result
            ((x : ℕ) → has self.new x ≡ (has self.old x || has other.now x)) }
        ensures unchanged_if_refused { OnErr result (self.new ≡ self.old) }
    {
        self.runs = runs::union_of(*self.runs.allocator(), &self.runs, &other.runs)?;
        Ok(())
    }

    /// Removes the numbers of another set, in one pass over the runs of both.
    ///
    /// A run may be split: `(10, 40)` without `(20, 30)` becomes `(10, 20)` and `(30, 40)`. So this may allocate.
    /// `AllocError` if memory runs out; then the set doesn't change.
    pub fn minus(&mut self, other: &RangeSet) -> Result<(), AllocError>
        ensures state { OnOk result
            ((x : ℕ) → has self.new x ≡ (has self.old x && not (has other.now x))) }
        ensures unchanged_if_refused { OnErr result (self.new ≡ self.old) }
    {
        self.runs = runs::difference_of(*self.runs.allocator(), &self.runs, &other.runs)?;
        Ok(())
    }

    /// Whether each number of the other set is in this one. Takes one pass over the runs of both, and allocates
    /// nothing.
    pub fn is_superset(&self, other: &RangeSet) -> bool
        ensures { IsTrue result ↔ ((x : ℕ) → has other.now x ≡ true → has self.now x ≡ true) }
    {
        runs::covers(&self.runs, &other.runs)
    }

    /// The runs, as pairs of the first number and the one after the last, the lowest first.
    pub fn runs(&self) -> &[(u64, u64)]
        ensures answer { result.now ≡ self.now }
        ensures maximal { IsRunsFrom 0 self.now }
    {
        self.runs.as_slice()
    }
}
