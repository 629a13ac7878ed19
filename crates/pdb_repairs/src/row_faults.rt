//! Counts inline sites whose rows end early.

ghost use Rattle.std.specs.Prelude.{◌≡◌, length, slice_get};
ghost use Rattle.pdb_repairs.specs.RowFaults.{row_fault, row_faults};

use pdb_records::{StreamError, Symbol, SymbolData, is_site_kind};

/// The inline sites whose rows end early.
#[derive(Clone, Copy)]
pub struct RowFaults {
    /// The fault of the first such site, if there is one.
    pub first: Option<StreamError>,
    /// The number of such sites.
    pub count: usize,
}

// The fault in the rows of an inline site, if they end early.
fn row_fault(symbol: &Symbol) -> Option<StreamError>
    ensures { result ≡ row_fault symbol.now }
{
    if !is_site_kind(symbol.raw_kind) {
        return None;
    }
    match &symbol.content {
        Some(SymbolData::InlineSite(site)) => site.rows.fault,
        _ => None,
    }
}

/// Counts the inline sites among these symbols whose rows end early.
pub fn faults_of_rows(symbols: &[Symbol]) -> RowFaults
    ensures first { result.first ≡ slice_get (row_faults symbols.now) 0 }
    ensures count { result.count ≡ length (row_faults symbols.now) }
{
    let mut first = None;
    let mut count = 0;
    for symbol in symbols {
        if let Some(fault) = row_fault(symbol) {
            first = first.or(Some(fault));
            count += 1;
        }
    }
    RowFaults { first, count }
}
