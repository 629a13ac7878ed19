//! The line rows that cover bytes, and the rows of a procedure among them.

ghost use Rattle.std.specs.Prelude.{◌≡◌, ◌++◌, nat_lt, IfOk, OnOk};
ghost use Rattle.pdb_codeview.specs.Places.{front};
ghost use Rattle.pdb_codeview.specs.LineRows.{rows_with_bytes, begun_at};

use crate::places::{HasPlace, first_of_each_place};
use pdb_records::LineInfo;
use std::alloc::{AllocError, Global};

impl HasPlace for LineInfo {
    ghost place_of = { λ row. row.offset };

    fn place(&self) -> u64 {
        u64::from(self.offset)
    }
}

/// The rows that cover bytes, sorted by offset. If a function's opening brace makes no code, its first rows have the
/// same offset: only the last of these covers the bytes that follow.
pub(crate) fn rows_with_bytes(alloc: Global, rows: &[LineInfo]) -> Result<Vec<LineInfo>, AllocError>
    ensures { IfOk result (λ v. v.items ≡ rows_with_bytes rows.now) }
{
    let mut backwards = Vec::from_slice(alloc, rows)?;
    backwards.reverse();
    first_of_each_place(alloc, backwards)
}

/// A copy of all rows, with the first one moved to begin at the offset `start`.
pub(crate) fn begun_rows(
    alloc: Global,
    rows: &[LineInfo],
    start: u32,
) -> Result<Vec<LineInfo>, AllocError>
    ensures { IfOk result (λ v. v.items ≡ begun_at start rows.now) }
{
    let mut begun = Vec::from_slice(alloc, rows)?;
    if let Some(first) = begun.first_mut() {
        first.offset = start;
    }
    Ok(begun)
}

// Appends the rows before an offset. Stops at the first row after it.
fn push_rows_before(
    begun: &mut Vec<LineInfo>,
    rows: &[LineInfo],
    end: u64,
) -> Result<(), AllocError>
    ensures { OnOk result (begun.new.items ≡ begun.old.items ++ front (λ row. nat_lt row.offset end) rows.now) }
{
    for row in rows {
        if u64::from(row.offset) < end {
            begun.push(*row)?;
        } else {
            return Ok(());
        }
    }
    Ok(())
}

/// A copy of the rows before the offset `end`, with the first one moved to begin at `start`. Stops at the first row
/// after `end`.
pub(crate) fn begun_rows_before(
    alloc: Global,
    rows: &[LineInfo],
    start: u32,
    end: u64,
) -> Result<Vec<LineInfo>, AllocError>
    ensures { IfOk result (λ v. v.items ≡ front (λ row. nat_lt row.offset end) (begun_at start rows.now)) }
{
    let mut begun = Vec::new(alloc);
    let Some((first, others)) = rows.split_first() else {
        return Ok(begun);
    };
    if u64::from(start) < end {
        begun.push(LineInfo {
            offset: start,
            ..*first
        })?;
        push_rows_before(&mut begun, others, end)?;
    }
    Ok(begun)
}
