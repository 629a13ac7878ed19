//! Checks of the inline ranges of a procedure.

use crate::checks::Checks;
use crate::modules::{is_fault, module_of};
use crate::symbols::{Content, Row, Shown, symbols_of};
use pdb_errors::Result;
use pdb_inline::{InlineRange, inline_ranges_of_procedure};
use pdb_records::{
    FileIndex, IdIndex, S_GPROC32, S_INLINESITE, S_THUNK32, StreamError, SymbolIndex,
};
use std::alloc::{AllocError, Global};
use std::collections::BTreeSet;

const A: u32 = 0x1000;

const B: u32 = 0x1001;

const C: u32 = 0x1002;

/// An id that is not among the inlinees.
const UNLISTED: u32 = 0x1003;

/// The kind of an end symbol.
const S_END: u16 = 6;

/// A range: its start and end, its depth, the id of the inlined function, its file and its line.
type Range = (u64, u64, usize, u32, Option<FileIndex>, Option<u32>);

/// Rows of a site with another one inside, the fault after them, and the ranges of both sites.
type Gap<'a> = (&'a [Row], Option<StreamError>, &'a [Range]);

/// The rows of most sites.
const ONE_ROW: &[Row] = &[(0x20, Some(0x10), 0, 7)];

/// A row of the same code, with another line.
const LATER_LINE: &[Row] = &[(0x20, Some(0x10), 0, 9)];

/// A row that ends after the greatest offset, and one without a length.
const LONG_ROWS: &[Row] = &[(0xffff_fff0, Some(0x20), 1, 3), (0x50, None, 1, 4)];

/// A row of other code.
const EARLIER_ROW: &[Row] = &[(0x18, Some(4), 2, 5)];

/// An end symbol.
const OTHER: Shown<'static> = (S_END, Content::Other);

/// The ids A, B and C.
fn inlinees(alloc: Global) -> Result<BTreeSet<IdIndex>> {
    let mut inlinees = BTreeSet::new(alloc);
    for id in [A, B, C] {
        inlinees.insert(IdIndex(id))?;
    }
    Ok(inlinees)
}

/// The ranges of the procedure with the first symbol, whose end symbol is at a position, with A, B and C among the
/// inlinees.
fn ranges_in(
    alloc: Global,
    symbols: &[Shown<'_>],
    fault: Option<StreamError>,
    end: usize,
) -> Result<Vec<InlineRange>> {
    let info = module_of(alloc, symbols_of(alloc, symbols)?, fault);
    let inlinees = inlinees(alloc)?;
    inline_ranges_of_procedure(alloc, &info, SymbolIndex(0), SymbolIndex(end), &inlinees)
}

/// Whether a range is this one.
fn is_range(range: &InlineRange, wanted: &Range) -> bool {
    let &(start, end, depth, inlinee, file, line) = wanted;
    range.start_offset == start
        && range.end_offset == end
        && range.call_depth == depth
        && range.inlinee == IdIndex(inlinee)
        && range.file_index == file
        && range.line_start == line
}

/// Whether ranges are these, in this order.
fn are_ranges(ranges: &[InlineRange], wanted: &[Range]) -> bool {
    ranges.len() == wanted.len()
        && ranges
            .iter()
            .zip(wanted)
            .all(|(range, wanted)| is_range(range, wanted))
}

/// Whether the procedure with the first symbol, whose end symbol is the last one, has these ranges.
fn has_ranges(
    alloc: Global,
    symbols: &[Shown<'_>],
    fault: Option<StreamError>,
    wanted: &[Range],
) -> bool {
    let closing = symbols.len().saturating_sub(1);
    ranges_in(alloc, symbols, fault, closing).is_ok_and(|ranges| are_ranges(&ranges, wanted))
}

/// The range of the inner site of two.
const INNER: Range = (0x20, 0x30, 1, B, Some(FileIndex(0)), Some(7));

/// Gaps of a caller, and the ranges that fill them.
static GAPS: [Gap<'static>; 4] = [
    (&[], None, &[(0x20, 0x30, 0, A, None, None), INNER]),
    (
        &[(0x18, Some(0x10), 2, 5)],
        None,
        &[
            (0x18, 0x28, 0, A, Some(FileIndex(2)), Some(5)),
            (0x28, 0x30, 0, A, Some(FileIndex(2)), None),
            INNER,
        ],
    ),
    (
        &[(0x28, Some(4), 2, 5)],
        None,
        &[
            (0x20, 0x28, 0, A, Some(FileIndex(2)), None),
            (0x28, 0x2c, 0, A, Some(FileIndex(2)), Some(5)),
            (0x2c, 0x30, 0, A, Some(FileIndex(2)), None),
            INNER,
        ],
    ),
    (
        &[(0x28, Some(0), 2, 5)],
        Some(StreamError(1)),
        &[(0x20, 0x30, 0, A, None, None), INNER],
    ),
];

/// Whether gaps are filled as expected.
fn are_filled(alloc: Global, gap: &Gap<'_>) -> bool {
    let &(rows, fault, wanted) = gap;
    let symbols = [
        (S_GPROC32, Content::Procedure(5)),
        (S_INLINESITE, Content::Site(A, 4, rows, fault)),
        (S_INLINESITE, Content::Site(B, 3, ONE_ROW, None)),
        OTHER,
        OTHER,
        OTHER,
    ];
    has_ranges(alloc, &symbols, None, wanted)
}

/// A procedure with a site that has another one inside, and a site after it.
static INSIDE_AND_BEHIND: [Shown<'static>; 8] = [
    (S_GPROC32, Content::Procedure(7)),
    (S_INLINESITE, Content::Site(A, 4, &[], None)),
    (S_INLINESITE, Content::Site(B, 3, ONE_ROW, None)),
    OTHER,
    OTHER,
    (S_INLINESITE, Content::Site(C, 6, ONE_ROW, None)),
    OTHER,
    OTHER,
];

/// The ranges of that procedure.
static ROWS_BEFORE_ADDED: [Range; 3] = [
    (0x20, 0x30, 0, C, Some(FileIndex(0)), Some(7)),
    (0x20, 0x30, 0, A, None, None),
    (0x20, 0x30, 1, B, Some(FileIndex(0)), Some(7)),
];

/// A procedure with sites side by side.
static SIDE_BY_SIDE: [Shown<'static>; 8] = [
    (S_GPROC32, Content::Procedure(7)),
    (S_INLINESITE, Content::Site(A, 2, ONE_ROW, None)),
    OTHER,
    (S_INLINESITE, Content::Site(C, 4, LATER_LINE, None)),
    OTHER,
    (S_INLINESITE, Content::Site(B, 6, LONG_ROWS, None)),
    OTHER,
    OTHER,
];

/// The ranges of that procedure.
static ROWS_SIDE_BY_SIDE: [Range; 3] = [
    (0x20, 0x30, 0, A, Some(FileIndex(0)), Some(7)),
    (0x20, 0x30, 0, C, Some(FileIndex(0)), Some(9)),
    (
        0xffff_fff0,
        0x1_0000_0010,
        0,
        B,
        Some(FileIndex(1)),
        Some(3),
    ),
];

/// A procedure with symbols whose kind doesn't match their content.
static MIXED_KINDS: [Shown<'static>; 10] = [
    (S_GPROC32, Content::Procedure(9)),
    (S_THUNK32, Content::Site(A, 8, ONE_ROW, None)),
    (S_INLINESITE, Content::Procedure(4)),
    (S_INLINESITE, Content::Site(A, 8, ONE_ROW, None)),
    OTHER,
    (S_INLINESITE, Content::Site(UNLISTED, 8, EARLIER_ROW, None)),
    (S_GPROC32, Content::Site(B, 7, ONE_ROW, None)),
    OTHER,
    OTHER,
    OTHER,
];

/// The ranges of that procedure.
static ROWS_OF_MIXED_KINDS: [Range; 2] = [
    (0x20, 0x30, 0, UNLISTED, None, None),
    (0x20, 0x30, 1, B, Some(FileIndex(0)), Some(7)),
];

/// A fault after the symbols.
const FAULT: StreamError = StreamError(4);

/// A procedure that ends before the fault, with another one inside.
static CLOSED: [Shown<'static>; 3] = [
    (S_GPROC32, Content::Procedure(2)),
    (S_GPROC32, Content::Procedure(1)),
    OTHER,
];

/// A procedure that would end after the fault, with another one inside.
static UNCLOSED: [Shown<'static>; 3] = [
    (S_GPROC32, Content::Procedure(10)),
    (S_GPROC32, Content::Procedure(9)),
    OTHER,
];

/// Whether the ranges of the second procedure are refused for the fault.
fn is_unclosed_refused(alloc: Global) -> bool {
    ranges_in(alloc, &UNCLOSED, Some(FAULT), 10).is_err_and(|error| is_fault(&error, FAULT))
}

/// How many sites are nested.
const DEPTH: usize = 1000;

/// The position of the end symbol of the procedure with nested sites.
const CLOSING: usize = 2 * DEPTH + 1;

/// The symbol at a position of a procedure with many sites, each directly inside the one before.
fn nested_symbol(at: usize) -> Shown<'static> {
    if at == 0 {
        (S_GPROC32, Content::Procedure(CLOSING))
    } else if at < DEPTH {
        (S_INLINESITE, Content::Site(A, CLOSING - at, &[], None))
    } else if at == DEPTH {
        (S_INLINESITE, Content::Site(B, DEPTH + 1, ONE_ROW, None))
    } else {
        OTHER
    }
}

/// All symbols of the procedure with nested sites. Only the last site has a row.
fn nested_sites(alloc: Global) -> Result<Vec<Shown<'static>>, AllocError> {
    let mut symbols = Vec::new(alloc);
    for at in 0..CLOSING + 1 {
        symbols.push(nested_symbol(at))?;
    }
    Ok(symbols)
}

/// The range of the site at a depth.
fn nested_range(depth: usize) -> Range {
    if depth == DEPTH - 1 {
        (0x20, 0x30, depth, B, Some(FileIndex(0)), Some(7))
    } else {
        (0x20, 0x30, depth, A, None, None)
    }
}

/// Whether ranges are those of the nested sites, the outermost first.
fn are_nested(ranges: &[InlineRange]) -> bool {
    for (depth, range) in ranges.iter().enumerate() {
        if !is_range(range, &nested_range(depth)) {
            return false;
        }
    }
    ranges.len() == DEPTH
}

/// Whether nested sites have their ranges.
fn goes_down(alloc: Global) -> Result<bool> {
    let symbols = nested_sites(alloc)?;
    Ok(are_nested(&ranges_in(alloc, &symbols, None, CLOSING)?))
}

/// The checks of inline ranges.
pub(crate) fn checks(alloc: Global) -> Checks {
    Checks::NONE
        .and(
            "a caller's gaps",
            GAPS.iter().all(|gap| are_filled(alloc, gap)),
        )
        .and(
            "rows before added ranges",
            has_ranges(alloc, &INSIDE_AND_BEHIND, None, &ROWS_BEFORE_ADDED),
        )
        .and(
            "sites side by side and long rows",
            has_ranges(alloc, &SIDE_BY_SIDE, None, &ROWS_SIDE_BY_SIDE),
        )
        .and(
            "symbols by kind and content",
            has_ranges(alloc, &MIXED_KINDS, None, &ROWS_OF_MIXED_KINDS),
        )
        .and("a fault that the walk meets", is_unclosed_refused(alloc))
        .and(
            "a fault that it doesn't meet",
            has_ranges(alloc, &CLOSED, Some(FAULT), &[]),
        )
        .and_tried("a thousand nested sites", goes_down(alloc))
}
