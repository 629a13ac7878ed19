//! Selects the rows of inline sites that count, and gives the ranges of their code.

ghost use Rattle.std.specs.Prelude.{◌≡◌, map, IfOk};
ghost use Rattle.pdb_inline.specs.SiteRows.{has_id, row_length, row_end, rows_with_code, counted_rows, row_range};

use pdb_records::{IdIndex, InlineRow, InlineSiteSymbol};
use std::alloc::{AllocError, Global};
use std::collections::BTreeSet;

// Whether an id is among the inlinees.
fn is_inlinee(inlinees: &BTreeSet<IdIndex>, id: IdIndex) -> bool
    ensures { result ≡ has_id inlinees.now.keys id }
{
    inlinees.contains(&id)
}

// The size of a row's code; 0 if it isn't known.
fn row_length(row: &InlineRow) -> u32
    ensures { result ≡ row_length row.now }
{
    row.length.unwrap_or(0)
}

// The end of a row's code.
pub(crate) fn row_end(row: &InlineRow) -> u64
    ensures { result ≡ row_end row.now }
{
    u64::from(row.offset) + u64::from(row_length(row))
}

// The rows that have code.
fn rows_with_code(alloc: Global, rows: &[InlineRow]) -> Result<Vec<InlineRow>, AllocError>
    ensures { IfOk result (λ v. v.items ≡ rows_with_code rows.now) }
{
    let mut counted = Vec::new(alloc);
    for row in rows {
        if row_length(row) > 0 {
            counted.push(*row)?;
        }
    }
    Ok(counted)
}

// The rows of a site that have code; none if its id isn't among the inlinees.
pub(crate) fn counted_rows(
    alloc: Global,
    inlinees: &BTreeSet<IdIndex>,
    symbol: &InlineSiteSymbol,
) -> Result<Vec<InlineRow>, AllocError>
    ensures { IfOk result (λ v. v.items ≡ counted_rows inlinees.now.keys symbol.now) }
{
    if !is_inlinee(inlinees, symbol.inlinee) {
        return Ok(Vec::new(alloc));
    }
    rows_with_code(alloc, &symbol.rows.items)
}

// The range of each row's code: its start, and the offset just after its last byte.
pub(crate) fn ranges_of_rows(
    alloc: Global,
    rows: &[InlineRow],
) -> Result<Vec<(u64, u64)>, AllocError>
    ensures { IfOk result (λ v. v.items ≡ map row_range rows.now) }
{
    let mut ranges = Vec::new(alloc);
    for row in rows {
        ranges.push((u64::from(row.offset), row_end(row)))?;
    }
    Ok(ranges)
}
