//! Inline ranges with their positions in a list, sorted by start.

ghost use Rattle.std.specs.Prelude.{◌≡◌, reverse, IfOk};
ghost use Rattle.pdb_inline.specs.ListedRanges.{listed, ranges_by_start};

use crate::inline_ranges::InlineRange;
use pdb_tables::{Keyed, sort_by_key};
use std::alloc::{AllocError, Global};

// A range and its position in a list.
#[derive(Clone, Copy)]
pub(crate) struct ListedRange {
    pub(crate) position: usize,
    pub(crate) range: InlineRange,
}

impl Keyed for ListedRange {
    type Key = u64;

    ghost key_of = { λ listed. listed.range.start_offset };

    fn key(&self) -> u64 {
        self.range.start_offset
    }
}

// The ranges of a list with their positions.
fn listed(alloc: Global, ranges: &[InlineRange]) -> Result<Vec<ListedRange>, AllocError>
    ensures { IfOk result (λ v. v.items ≡ listed 0 ranges.now) }
{
    let mut all = Vec::new(alloc);
    for (position, &range) in ranges.iter().enumerate() {
        all.push(ListedRange { position, range })?;
    }
    Ok(all)
}

// The ranges of a list with their positions, sorted by start. Of equal starts the last of the list comes first.
pub(crate) fn ranges_by_start(
    alloc: Global,
    ranges: &[InlineRange],
) -> Result<Vec<ListedRange>, AllocError>
    ensures { IfOk result (λ v. v.items ≡ ranges_by_start ranges.now) }
{
    let mut all = listed(alloc, ranges)?;
    all.reverse();
    sort_by_key(&mut all)?;
    Ok(all)
}
