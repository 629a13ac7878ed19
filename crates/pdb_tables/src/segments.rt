//! `Segments`: a table from 64-bit numbers to values, stored as segments that a binary search finds.

ghost use Rattle.std.specs.Prelude.{◌≡◌, ℕ, ◌+◌, ◌*◌, ◌≤◌, [], length, None, IfOk, IsOk, OnOk, OnErr};
ghost use Rattle.pdb_tables.specs.Probes.{digits};
ghost use Rattle.pdb_tables.specs.Segments.{painted, painted_in_turn, value_at};

use crate::painting;
use crate::probes::Probes;
use crate::search::neighbours_of;
use crate::segment::Segment;
use std::alloc::{AllocError, Global};
use std::marker::Model;

/// A table from 64-bit numbers to values, stored as segments: ranges of numbers with one value.
///
/// It takes memory for each segment and not for each number. Segments don't overlap, and are sorted, so the value of a
/// number is found by a binary search. The end of a range is excluded, so `u64::MAX` has no value.
#[derive(Drop)]
pub struct Segments<T: Copy> {
    segments: Vec<Segment<T>>,
}

// Contracts see a table as the list of its segments, which give the value of each number.
impl<T: Copy> Model for Segments<T> {
    ghost use Rattle.std.specs.Prelude.{List};
    ghost use Rattle.pdb_tables.specs.declared.segment.Segment.{Segment};
    ghost use Rattle.pdb_tables.specs.Segments.{IsOrderedFrom};

    ghost Value = { List (Segment T) };

    ghost view = { λ table. table.segments.items };

    ghost invariant = { λ table. IsOrderedFrom 0 table.segments.items };
}

impl<T: Copy> Segments<T> {
    /// A table in which no number has a value. It takes no memory; later memory comes from `alloc`.
    pub fn new(alloc: Global) -> Self
        ensures { result ≡ [] }
    {
        Segments {
            segments: Vec::new(alloc),
        }
    }

    /// The table after painting the segments in turn: the last one that contains a number gives its value. They may
    /// overlap, and be empty.
    ///
    /// Takes O(n log n) time for any n segments. `AllocError` if memory runs out.
    pub fn from_overlapping(alloc: Global, segments: &[Segment<T>]) -> Result<Self, AllocError>
        ensures answer { IfOk result (λ table.
            (x : ℕ) → value_at table x ≡ painted_in_turn segments.now None x) }
        ensures bound { IfOk result (λ table. length table ≤ 2 * length segments.now) }
    {
        let segments = painting::painted_in_turn(alloc, segments)?;
        Ok(Segments { segments })
    }

    /// The number of segments.
    pub fn len(&self) -> usize
        ensures { result ≡ length self.now }
    {
        self.segments.len()
    }

    /// Gives the numbers from `lo` up to, but not including, `hi` a value, and leaves all others as they were. Nothing
    /// changes if `hi` isn't greater than `lo`.
    ///
    /// If the range begins at or after the end of the last segment, this takes amortized constant time; otherwise the
    /// segments are copied. `AllocError` if memory runs out; then the table doesn't change.
    pub fn paint(&mut self, lo: u64, hi: u64, value: T) -> Result<(), AllocError>
        ensures state { OnOk result
            ((x : ℕ) → value_at self.new x ≡ painted lo hi value (value_at self.old x) x) }
        ensures bound { length self.new ≤ length self.old + 2 }
        ensures empty { hi ≤ lo → IsOk result }
        ensures unchanged { hi ≤ lo → self.new ≡ self.old }
        ensures unchanged_if_refused { OnErr result (self.new ≡ self.old) }
    {
        painting::paint(&mut self.segments, lo, hi, value)
    }

    /// The value of `x`, by a binary search that allocates nothing.
    ///
    /// `probes` counts the segments that are compared: at most as many as their number has binary digits. These are at
    /// most 10 for 1,000 segments, and 0 for an empty table.
    pub fn find(&self, x: u64, probes: &mut Probes) -> Option<T>
        ensures answer { result ≡ value_at self.now x }
        ensures no_fewer { probes.old ≤ probes.new }
        ensures bound { probes.new ≤ probes.old + digits (length self.now) }
    {
        let segment = neighbours_of(&self.segments, x, probes).up_to?;
        if x < segment.end {
            Some(segment.value)
        } else {
            None
        }
    }
}
