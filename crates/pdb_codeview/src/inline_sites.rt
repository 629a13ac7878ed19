//! The rows of an inline site. They begin with the line and the file of its inlinee.

ghost use Rattle.std.specs.Prelude.{◌≡◌, map, IfErr, IfOk};
ghost use Rattle.pdb_codeview.specs.Chunks.{numbered_start};
ghost use Rattle.pdb_codeview.specs.InlineSites.{code_of, named_row, site_rows};

use crate::annotation_rows::{RowPosition, rows_of};
use crate::annotations::Annotations;
use crate::chunks::Chunk;
use crate::files::Files;
use crate::inlinees::Inlinees;
use crate::line_subsections::file_at;
use pdb_msf::faults::Fault;
use pdb_msf::{nothing_read, read_items};
use pdb_records::{IdIndex, InlineRow, PdbInternalSectionOffset, Reading};
use std::alloc::{AllocError, Global};

/// The files and inlinees to which the inline sites of a module refer.
#[derive(Drop)]
pub struct CodeRecords {
    pub files: Files,
    pub inlinees: Inlinees,
}

/// The rows of a site in code that starts at `start`, of a function with these chunks. If the module doesn't list the
/// inlinee, there are none.
pub(crate) fn site_rows(
    alloc: Global,
    code: &CodeRecords,
    chunks: &[Chunk],
    inlinee: IdIndex,
    start: PdbInternalSectionOffset,
    annotations: &[u8],
) -> Result<Reading<InlineRow>, Fault>
    ensures answer { IfOk result (λ rows. rows
        ≡ site_rows (code_of code.now) (numbered_start start.section chunks.now) inlinee.0 start.offset annotations.now) }
    ensures memory { IfErr result (λ fault. fault ≡ Fault.OutOfMemory) }
{
    let Some(source) = code.inlinees.sources.get(&inlinee.0) else {
        return Ok(nothing_read(alloc, None));
    };
    let position = RowPosition {
        start: start.offset,
        offset: start.offset,
        file: source.file,
        line: source.line,
    };
    let section = start.section;
    let annotations = read_items(alloc, &Annotations { section, chunks }, annotations)?;
    let rows = rows_of(alloc, &annotations.items, position)?;
    let items = named_rows(alloc, &rows, &code.files)?;
    let fault = annotations.fault;
    Ok(Reading { items, fault })
}

// The rows, with each file's entry offset replaced by the file's position.
fn named_rows(
    alloc: Global,
    rows: &[InlineRow],
    files: &Files,
) -> Result<Vec<InlineRow>, AllocError>
    ensures { IfOk result (λ named. named.items ≡ map (named_row files.now.entries.items) rows.now) }
{
    let mut named = Vec::with_capacity(alloc, rows.len())?;
    for row in rows {
        named.push(InlineRow {
            file_index: file_at(files, row.file_index.0),
            ..*row
        })?;
    }
    Ok(named)
}
