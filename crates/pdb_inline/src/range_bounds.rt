//! The bounds of inline ranges, their starts and ends, in sorted order.

ghost use Rattle.std.specs.Prelude.{◌≡◌, ℕ, IfOk};
ghost use Rattle.std.specs.List.Sorted.{IsPermutation, IsSorted};
ghost use Rattle.std.specs.Ordering.{nat_cmp};
ghost use Rattle.pdb_inline.specs.RangeBounds.{bounds};

use crate::inline_ranges::InlineRange;
use std::alloc::{AllocError, Global};

// The starts and ends of ranges.
fn bounds(alloc: Global, ranges: &[InlineRange]) -> Result<Vec<u64>, AllocError>
    ensures { IfOk result (λ v. v.items ≡ bounds ranges.now) }
{
    let mut all = Vec::with_capacity(alloc, ranges.len().saturating_mul(2))?;
    for range in ranges {
        all.push(range.start_offset)?;
        all.push(range.end_offset)?;
    }
    Ok(all)
}

// The starts and ends of ranges, in ascending order.
pub(crate) fn sorted_bounds(alloc: Global, ranges: &[InlineRange]) -> Result<Vec<u64>, AllocError>
    ensures all { IfOk result (λ v. IsPermutation (bounds ranges.now) v.items) }
    ensures sorted { IfOk result (λ v. IsSorted nat_cmp v.items) }
{
    let mut all = bounds(alloc, ranges)?;
    all.sort_unstable();
    Ok(all)
}
