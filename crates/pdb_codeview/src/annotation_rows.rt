//! Turns the annotations of an inline site into its rows.

ghost use Rattle.std.specs.Prelude.{◌≡◌, IfErr, IfOk, None};
ghost use Rattle.pdb_codeview.specs.AnnotationRows.{closed, leaves_code, lengthened, position_after, moved_line, new_row};
ghost use Rattle.pdb_codeview.specs.AnnotationRows.{own_length, rows_from, starts_row, with_length};

use crate::annotations::Annotation;
use pdb_msf::faults::Fault;
use pdb_records::{FileIndex, InlineRow};
use std::alloc::Global;

/// The state of reading a site's annotations: a position in the code, and one in the source.
#[derive(Clone, Copy)]
pub struct RowPosition {
    /// The start of the current function or chunk, in bytes from its section's start.
    pub start: u32,
    /// The current position in the code, in bytes from the section's start.
    pub offset: u32,
    /// The offset of the current file's entry in the module's subsection of files.
    pub file: u32,
    pub line: u32,
}

/// The rows of these annotations. Their files are still offsets of entries, as the annotations have them.
pub fn rows_of(
    alloc: Global,
    annotations: &[Annotation],
    start: RowPosition,
) -> Result<Vec<InlineRow>, Fault>
    ensures answer { IfOk result (λ rows. rows.items ≡ rows_from start None annotations.now) }
    ensures memory { IfErr result (λ fault. fault ≡ Fault.OutOfMemory) }
{
    let mut rows = Vec::new(alloc);
    let mut position = start;
    let mut last: Option<InlineRow> = None;
    for &annotation in annotations {
        position = position_after(annotation, position);
        if starts_row(annotation) {
            if let Some(row) = last {
                rows.push(closed(position.offset, row))?;
            }
            last = Some(new_row(annotation, position));
        } else if leaves_code(annotation) {
            if let Some(row) = last {
                rows.push(row)?;
            }
            last = None;
        } else {
            last = lengthened(annotation, last);
        }
    }
    if let Some(row) = last {
        rows.push(row)?;
    }
    Ok(rows)
}

// The state after an annotation.
fn position_after(annotation: Annotation, position: RowPosition) -> RowPosition
    ensures { result ≡ position_after annotation position }
{
    match annotation {
        Annotation::Start(count) => RowPosition {
            offset: position.start.wrapping_add(count),
            ..position
        },
        Annotation::Advance(count) | Annotation::Length(count) => RowPosition {
            offset: position.offset.wrapping_add(count),
            ..position
        },
        Annotation::File(file) => RowPosition { file, ..position },
        Annotation::Line(change) => RowPosition {
            line: moved_line(position.line, change),
            ..position
        },
        Annotation::AdvanceAndLine(count, change) => RowPosition {
            offset: position.offset.wrapping_add(count),
            line: moved_line(position.line, change),
            ..position
        },
        Annotation::LengthAndAdvance(_, count) => RowPosition {
            offset: position.offset.wrapping_add(count),
            ..position
        },
        Annotation::Chunk(start) => RowPosition {
            start,
            offset: start,
            ..position
        },
        Annotation::Other => position,
    }
}

// The line after a change. The lowest bit of the change is its sign.
fn moved_line(line: u32, change: u32) -> u32
    ensures { result ≡ moved_line line change }
{
    if change % 2 == 0 {
        line.wrapping_add(change / 2)
    } else {
        line.wrapping_sub(change / 2)
    }
}

// Whether this annotation starts a row.
fn starts_row(annotation: Annotation) -> bool
    ensures { result ≡ starts_row annotation }
{
    matches!(
        annotation,
        Annotation::Advance(_)
            | Annotation::AdvanceAndLine(_, _)
            | Annotation::LengthAndAdvance(_, _)
    )
}

// Whether the code continues in another chunk, so that no row extends past this annotation.
fn leaves_code(annotation: Annotation) -> bool
    ensures { result ≡ leaves_code annotation }
{
    matches!(annotation, Annotation::Chunk(_))
}

// The length of a row, if the annotation that starts it has one.
fn own_length(annotation: Annotation) -> Option<u32>
    ensures { result ≡ own_length annotation }
{
    match annotation {
        Annotation::LengthAndAdvance(length, _) => Some(length),
        _ => None,
    }
}

// The row that an annotation starts.
fn new_row(annotation: Annotation, position: RowPosition) -> InlineRow
    ensures { result ≡ new_row annotation position }
{
    InlineRow {
        offset: position.offset,
        length: own_length(annotation),
        file_index: FileIndex(position.file),
        line_start: position.line,
    }
}

// A row, with this length if it has none.
fn with_length(length: Option<u32>, row: InlineRow) -> InlineRow
    ensures { result ≡ with_length length row }
{
    InlineRow {
        length: row.length.or(length),
        ..row
    }
}

// A row that ends where the next one starts, at this offset, if it has no length of its own.
fn closed(offset: u32, row: InlineRow) -> InlineRow
    ensures { result ≡ closed offset row }
{
    with_length(offset.checked_sub(row.offset), row)
}

// The last row, with the length that the annotation after it may give it.
fn lengthened(annotation: Annotation, last: Option<InlineRow>) -> Option<InlineRow>
    ensures { result ≡ lengthened annotation last }
{
    match (annotation, last) {
        (Annotation::Length(length), Some(row)) => Some(with_length(Some(length), row)),
        _ => last,
    }
}
