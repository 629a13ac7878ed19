//! `StackTable`: a table of the stacks of inlined bodies by offset, for a binary search.

ghost use Rattle.std.specs.Prelude.{◌≡◌, ℕ, ◌+◌, ◌*◌, ◌≤◌, [], length, IfOk, OnOk, if◌then◌else◌};
ghost use Rattle.pdb_tables.specs.Probes.{digits};
ghost use Rattle.pdb_tables.specs.RangeSet.{is_within};
ghost use Rattle.pdb_inline.specs.DepthTables.{positions_in, inline_positions};
ghost use Rattle.pdb_inline.specs.RangeBounds.{ChangesAt};
ghost use Rattle.pdb_inline.specs.StackTable.{stack_over, HasStacks};

use crate::depth_tables::{depth_tables, push_positions};
use crate::inline_ranges::InlineRange;
use crate::range_bounds::sorted_bounds;
use pdb_tables::{Probes, Segments};
use std::alloc::{AllocError, Global};
use std::marker::Model;

/// A table of the inlined bodies at each offset, by their positions in a list of ranges.
///
/// For each segment of code with the same stack, it has all positions of that stack.
#[derive(Drop)]
pub struct StackTable {
    // For each offset, where its stack begins and ends in `positions`.
    segments: Segments<(usize, usize)>,
    positions: Vec<usize>,
}

// Contracts see a table as its segments, which have the positions at each offset.
impl Model for StackTable {
    ghost use Rattle.std.specs.Prelude.{ℕ, List, length};
    ghost use Rattle.pdb_tables.specs.declared.segment.Segment.{Segment};
    ghost use Rattle.pdb_tables.specs.Segments.{value_at};
    ghost use Rattle.pdb_inline.specs.StackTable.{with_stacks, LiesIn};

    ghost Value = { List (Segment (List ℕ)) };

    ghost view = { λ t. with_stacks t.positions.items t.segments };

    ghost invariant = { λ t. (x : ℕ) → LiesIn t.positions.items (value_at t.segments x) };
}

impl StackTable {
    /// Makes the table of a list of ranges, in any order. Of equal ranges it has the position of the first.
    ///
    /// Takes O((n + s) log n) time for n ranges whose stacks have s positions in all. If ranges are nested deeply, s
    /// may grow with the square of n; [`ProcedureStacks`](crate::ProcedureStacks) bounds it.
    ///
    /// `AllocError` if memory runs out.
    pub fn new(alloc: Global, ranges: &[InlineRange]) -> Result<Self, AllocError>
        ensures stacks { IfOk result (λ table. HasStacks ranges.now table) }
        ensures positions { IfOk result (λ table. (x : ℕ) → stack_over table x ≡ inline_positions ranges.now x) }
        ensures bound { IfOk result (λ table. length table ≤ 4 * length ranges.now) }
    {
        let tables = depth_tables(alloc, ranges)?;
        let bounds = sorted_bounds(alloc, ranges)?;
        let table = stacks_between(alloc, &tables, &bounds)?;
        Ok(table)
    }

    /// The number of segments.
    pub fn len(&self) -> usize
        ensures { result ≡ length self.now }
    {
        self.segments.len()
    }

    /// The positions of the ranges that [`inline_stack`](crate::inline_stack) picks at an offset, the outermost first.
    /// It is a binary search that allocates nothing. `probes` counts the segments that are compared.
    pub fn find(&self, offset: u64, probes: &mut Probes) -> &[usize]
        ensures answer { result.now ≡ stack_over self.now offset }
        ensures no_fewer { probes.old ≤ probes.new }
        ensures bound { probes.new ≤ probes.old + digits (length self.now) }
    {
        match self.segments.find(offset, probes) {
            Some((from, to)) => &self.positions[from..to],
            None => &[],
        }
    }

    // Gives the offsets from `lo` up to, but not including, `hi` the positions that the tables have for `lo`.
    fn paint(&mut self, tables: &[Segments<usize>], lo: u64, hi: u64) -> Result<(), AllocError>
        ensures state { OnOk result ((x : ℕ) → stack_over self.new x
            ≡ (if is_within lo hi x then positions_in tables.now lo else stack_over self.old x)) }
        ensures bound { length self.new ≤ length self.old + 2 }
    {
        let from = self.positions.len();
        push_positions(&mut self.positions, tables, lo)?;
        self.segments.paint(lo, hi, (from, self.positions.len()))
    }
}

// The table of the stacks in the tables of each depth. These change only at the bounds.
fn stacks_between(
    alloc: Global,
    tables: &[Segments<usize>],
    bounds: &[u64],
) -> Result<StackTable, AllocError>
    requires { ChangesAt (positions_in tables.now) 0 bounds.now }
    ensures answer { IfOk result (λ table. (x : ℕ) → stack_over table x ≡ positions_in tables.now x) }
    ensures bound { IfOk result (λ table. length table ≤ 2 * length bounds.now) }
{
    let mut table = StackTable {
        segments: Segments::new(alloc),
        positions: Vec::new(alloc),
    };
    let mut at = 0;
    for &bound in bounds {
        if at < bound {
            table.paint(tables, at, bound)?;
        }
        at = bound;
    }
    Ok(table)
}
