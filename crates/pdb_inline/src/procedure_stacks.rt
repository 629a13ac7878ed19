//! `ProcedureStacks`: finds the stack at an offset, in a table if that is small, otherwise in the inline ranges.

ghost use Rattle.std.specs.Prelude.{◌≡◌, ◌+◌, ◌≤◌, true, map, length, slice_get, is_some, Some, IfOk, IfSome};
ghost use Rattle.std.specs.List.Sorted.{IsSorted};
ghost use Rattle.std.specs.Ordering.{nat_cmp};
ghost use Rattle.pdb_tables.specs.Probes.{digits};
ghost use Rattle.pdb_inline.specs.InlineStacks.{inline_stack};
ghost use Rattle.pdb_inline.specs.ProcedureStacks.{bounds_below, are_stacks_small};
ghost use Rattle.pdb_inline.specs.StackTable.{ranges_at};

use crate::inline_ranges::InlineRange;
use crate::inline_stacks::inline_stack;
use crate::range_bounds::sorted_bounds;
use crate::stack_table::StackTable;
use pdb_tables::Probes;
use std::alloc::{AllocError, Global};
use std::marker::Model;

// The maximum number of positions in a table for each range. A range has a position for each bound of a range inside
// it, and each range has two bounds. So a table is made if a bound is in at most 32 ranges on average. Compilers stay
// far below this, because the code grows with each inlined body. But a list can be made whose stacks grow with the
// square of its length, and these must not fill the memory.
const POSITIONS_FOR_EACH: usize = 64;

// The number of bounds below a number. The bounds are in ascending order.
fn bounds_below(bounds: &[u64], number: u64) -> usize
    requires { IsSorted nat_cmp bounds.now }
    ensures { result ≡ bounds_below bounds.now number }
{
    bounds.partition_point(|bound| *bound < number)
}

// Whether the stacks of ranges are small enough for a table.
fn are_stacks_small(alloc: Global, ranges: &[InlineRange]) -> Result<bool, AllocError>
    ensures { IfOk result (λ small. small ≡ are_stacks_small ranges.now) }
{
    let bounds = sorted_bounds(alloc, ranges)?;
    let mut count: usize = 0;
    for range in ranges {
        let start = bounds_below(&bounds, range.start_offset);
        let end = bounds_below(&bounds, range.end_offset);
        count = count.saturating_add(end.saturating_sub(start));
    }
    Ok(count <= ranges.len().saturating_mul(POSITIONS_FOR_EACH))
}

// The ranges at these positions of a list.
fn ranges_at(
    alloc: Global,
    ranges: &[InlineRange],
    positions: &[usize],
) -> Result<Vec<InlineRange>, AllocError>
    ensures { IfOk result (λ v. v.items ≡ ranges_at ranges.now positions.now) }
{
    let mut found = Vec::with_capacity(alloc, positions.len())?;
    for &position in positions {
        if let Some(range) = ranges.get(position) {
            found.push(*range)?;
        }
    }
    Ok(found)
}

/// A list of inline ranges, with a table of the inlined bodies at each offset.
///
/// There is no table if its stacks would be far greater than those of real programs: more than 64 positions for each
/// range. Answers are the same in both cases.
#[derive(Drop)]
pub struct ProcedureStacks {
    ranges: Vec<InlineRange>,
    table: Option<StackTable>,
}

// Contracts see it as the list of ranges.
impl Model for ProcedureStacks {
    ghost use Rattle.std.specs.Prelude.{◌≡◌, List, is_some, IfSome};
    ghost use Rattle.pdb_inline.specs.declared.inline_ranges.InlineRange.{InlineRange};
    ghost use Rattle.pdb_inline.specs.ProcedureStacks.{are_stacks_small};
    ghost use Rattle.pdb_inline.specs.StackTable.{IsTableOf};

    ghost Value = { List InlineRange };

    ghost view = { λ s. s.ranges.items };

    ghost invariant = { λ s. record {
      is_table : IfSome s.table (λ table. IsTableOf s.ranges.items table);
      is_held : is_some s.table ≡ are_stacks_small s.ranges.items;
    } };
}

impl ProcedureStacks {
    /// Prepares the stacks of a list of ranges, in any order. Takes O(n log n) time for n ranges.
    ///
    /// `AllocError` if memory runs out.
    pub fn new(alloc: Global, ranges: Vec<InlineRange>) -> Result<Self, AllocError>
        ensures { IfOk result (λ stacks. stacks ≡ ranges.items) }
    {
        let table = if are_stacks_small(alloc, &ranges)? {
            Some(StackTable::new(alloc, &ranges)?)
        } else {
            None
        };
        Ok(ProcedureStacks { ranges, table })
    }

    // The positions of the inlined bodies at an offset, if there is a table. `probes` counts the entries of the table
    // that are compared.
    #[tactic(auto, using(crate::proofs::StackTableLemmas::few_segments))]
    fn search(&self, offset: u64, probes: &mut Probes) -> Option<&[usize]>
        ensures answer { IfSome result (λ positions.
            map (slice_get self.now) positions.now ≡ map Some (inline_stack self.now offset)) }
        ensures found { is_some result ≡ are_stacks_small self.now }
        ensures bound { probes.new ≤ probes.old + digits (length self.now) + 2 }
    {
        match &self.table {
            Some(table) => Some(table.find(offset, probes)),
            None => None,
        }
    }

    /// The inlined bodies at an offset, the outermost first, as [`inline_stack`] finds them.
    ///
    /// With a table, they are found by one binary search. `probes` counts the entries of the table that are compared:
    /// at most two more than the number of ranges has binary digits. `AllocError` if memory runs out.
    #[tactic(auto, using(crate::proofs::StackLemmas::ranges_at_are))]
    pub fn stack(
        &self,
        alloc: Global,
        offset: u64,
        probes: &mut Probes,
    ) -> Result<Vec<InlineRange>, AllocError>
        ensures answer { IfOk result (λ v. v.items ≡ inline_stack self.now offset) }
        ensures bound { probes.new ≤ probes.old + digits (length self.now) + 2 }
    {
        match self.search(offset, probes) {
            Some(positions) => ranges_at(alloc, &self.ranges, positions),
            None => inline_stack(alloc, &self.ranges, offset),
        }
    }
}
