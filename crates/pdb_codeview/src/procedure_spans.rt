//! The ranges of bytes of procedures, and how far the line rows of each may reach.

ghost use Rattle.std.specs.Prelude.{◌≡◌, ◌<◌, ◌^◌, IfOk};
ghost use Rattle.pdb_codeview.specs.Places.{place};
ghost use Rattle.pdb_codeview.specs.ProcedureSpans.{span, span_of, symbol_spans, end_of, end_before, place_behind};
ghost use Rattle.pdb_codeview.specs.ProcedureSpans.{row_bounds};

use crate::places::{HasPlace, place};
use pdb_records::{PdbInternalSectionOffset, Symbol, SymbolData};
use std::alloc::{AllocError, Global};

/// The range of bytes of a procedure.
#[derive(Clone, Copy)]
pub struct ProcedureSpan {
    pub start: PdbInternalSectionOffset,
    /// The length in bytes, at least 1.
    pub len: u32,
}

/// The range in which the rows of a procedure count.
#[derive(Clone, Copy)]
pub(crate) struct RowBounds {
    pub(crate) start: PdbInternalSectionOffset,
    /// The end, in bytes from the section's start.
    pub(crate) end: u64,
}

impl HasPlace for ProcedureSpan {
    ghost use Rattle.pdb_codeview.specs.Places.{place};

    ghost place_of = { λ span. place span.start };

    fn place(&self) -> u64 {
        place(self.start)
    }
}

impl HasPlace for RowBounds {
    ghost use Rattle.pdb_codeview.specs.Places.{place};

    ghost place_of = { λ bounds. place bounds.start };

    fn place(&self) -> u64 {
        place(self.start)
    }
}

fn span(start: PdbInternalSectionOffset, len: u32) -> Option<ProcedureSpan>
    ensures { result ≡ span start len }
{
    if len == 0 {
        return None;
    }
    Some(ProcedureSpan { start, len })
}

/// The range of code that a symbol describes, if it is a procedure, a thunk or separated code of at least one byte.
pub fn span_of(content: &Option<SymbolData>) -> Option<ProcedureSpan>
    ensures { result ≡ span_of content.now }
{
    match content {
        Some(SymbolData::Procedure(symbol)) => span(symbol.offset, symbol.len),
        Some(SymbolData::SeparatedCode(symbol)) => span(symbol.offset, symbol.len),
        Some(SymbolData::Thunk(symbol)) => span(symbol.offset, u32::from(symbol.len)),
        _ => None,
    }
}

/// The ranges of code of all procedures, thunks and separated code among the symbols. Line rows are looked up for all
/// of them in the same way.
pub fn symbol_spans(alloc: Global, symbols: &[Symbol]) -> Result<Vec<ProcedureSpan>, AllocError>
    ensures { IfOk result (λ v. v.items ≡ symbol_spans symbols.now) }
{
    let mut spans = Vec::new(alloc);
    for symbol in symbols {
        if let Some(span) = span_of(&symbol.content) {
            spans.push(span)?;
        }
    }
    Ok(spans)
}

fn end_of(span: ProcedureSpan) -> u64
    ensures { result ≡ end_of span }
{
    u64::from(span.start.offset) + u64::from(span.len)
}

// The end of a procedure, or the start of the next one if that is earlier.
fn end_before(span: ProcedureSpan, others: &[ProcedureSpan]) -> u64
    ensures { result ≡ end_before span others.now }
{
    match others.first() {
        Some(next) if next.start.section == span.start.section => {
            end_of(span).min(u64::from(next.start.offset))
        }
        _ => end_of(span),
    }
}

fn place_behind(span: ProcedureSpan) -> u64
    ensures { result ≡ place_behind span }
{
    place(span.start) + u64::from(span.len)
}

/// The bounds of the rows of procedures, which are sorted by start. If procedures overlap, each row is given to at most
/// two of them.
pub(crate) fn row_bounds(
    alloc: Global,
    spans: &[ProcedureSpan],
) -> Result<Vec<RowBounds>, AllocError>
    ensures { IfOk result (λ v. v.items ≡ row_bounds 0 spans.now) }
{
    let mut bounds = Vec::new(alloc);
    let mut reach = 0;
    let mut rest = spans;
    while let [span, others @ ..] = rest {
        let end = if place(span.start) < reach {
            end_before(*span, others)
        } else {
            end_of(*span)
        };
        bounds.push(RowBounds {
            start: span.start,
            end,
        })?;
        reach = reach.max(place_behind(*span));
        rest = others;
    }
    Ok(bounds)
}
