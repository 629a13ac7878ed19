//! Reads the subsection of lines: rows of offset, file and line for a range of bytes of a section.

ghost use Rattle.std.specs.Prelude.{◌≡◌, ◌++◌, length, IfOk, OnOk};
ghost use Rattle.pdb_msf.specs.Faults.{Gives};
ghost use Rattle.pdb_codeview.specs.InlineSites.{file_at};
ghost use Rattle.pdb_codeview.specs.LineSubsections.{block_rows, line_row, line_subsection, rows_of_lines};
ghost use Rattle.pdb_msf.specs.ItemLists.{concatenated};

use crate::files::Files;
use pdb_msf::faults::{BAD_LENGTH, CUT, Fault};
use pdb_msf::{Bytes, ItemReader, push_items, read_items, u16_at, u32_at};
use pdb_records::{FileIndex, LineInfo, PdbInternalSectionOffset, Reading, StreamError};
use std::alloc::{AllocError, Global};
use std::marker::Model;

/// A subsection of lines: the rows for a range of bytes of a section, in file order.
#[derive(Drop)]
pub struct LineSubsection {
    pub offset: PdbInternalSectionOffset,
    /// The size of this range in bytes.
    pub size: u32,
    pub rows: Reading<LineInfo>,
}

/// The size of a subsection before its blocks, in bytes.
const SUBSECTION_FRONT: usize = 12;

/// The size of a block before its rows, in bytes.
const BLOCK_FRONT: usize = 12;

/// The size of a row in bytes.
const ROW: usize = 8;

/// One more than the greatest line: the lowest 24 bits of a row's number are its line.
const LINES: u32 = 0x0100_0000;

/// The line number that marks code through which a debugger steps.
const STEP_THROUGH: u32 = 0x00fe_efee;

/// The line number that marks code in which a debugger doesn't stop.
const STEP_OVER: u32 = 0x00f0_0f00;

/// The position of a file that the module doesn't list.
const NO_FILE: FileIndex = FileIndex(u32::MAX);

/// A block: rows of one file.
#[derive(Drop)]
struct LineBlock<'a> {
    /// The offset of the file's entry.
    file: u32,
    /// The number of rows that the block claims to have.
    count: u32,
    rows: &'a [u8],
}

impl<'a> Model for LineBlock<'a> {
    ghost use Rattle.pdb_codeview.specs.LineSubsections.{BlockBytes};

    ghost Value = { BlockBytes };

    ghost view = { λ b. record { file = b.file; count = b.count; rows = b.rows.now } };
}

/// The position of the file whose entry has this offset, or a position that no file has.
pub fn file_at(files: &Files, start: u32) -> FileIndex
    ensures { result ≡ file_at files.now.entries.items start }
{
    files.position(start).unwrap_or(NO_FILE)
}

/// Reads one subsection of lines.
pub fn read_lines(alloc: Global, bytes: &[u8], files: &Files) -> Result<LineSubsection, Fault>
    ensures { Gives (λ read. read) result (line_subsection files.now.entries.items bytes.now) }
{
    let mut rest = Bytes::new(bytes);
    let front = rest.take(SUBSECTION_FRONT)?;
    let offset = PdbInternalSectionOffset {
        section: u16_at(front, 4),
        offset: u32_at(front, 0),
    };
    let mut items = Vec::new(alloc);
    let blocks = read_items(alloc, &LineBlocks, rest.rest())?;
    let fault = push_blocks(&blocks.items, files, offset.offset, &mut items)?;
    Ok(LineSubsection {
        offset,
        size: u32_at(front, 8),
        rows: Reading {
            items: rows_of_lines(items),
            fault: fault.or(blocks.fault),
        },
    })
}

// Appends the rows of these blocks, up to the first fault.
fn push_blocks(
    blocks: &[LineBlock<'_>],
    files: &Files,
    start: u32,
    rows: &mut Vec<LineInfo>,
) -> Result<Option<StreamError>, AllocError>
    ensures answer { IfOk result (λ fault.
        fault ≡ (concatenated (block_rows files.now.entries.items start) blocks.now).fault) }
    ensures state { OnOk result (rows.new.items
        ≡ rows.old.items ++ (concatenated (block_rows files.now.entries.items start) blocks.now).items) }
{
    for block in blocks {
        let fault = push_block_rows(block, files, start, rows)?;
        if fault.is_some() {
            return Ok(fault);
        }
    }
    Ok(None)
}

/// Reads the blocks of a subsection.
struct LineBlocks;

impl<'a> ItemReader<'a> for LineBlocks {
    type Item = LineBlock<'a>;

    ghost use Rattle.pdb_codeview.specs.LineSubsections.{first_block};

    ghost first = { λ _. first_block };

    fn take(&self, rest: &mut Bytes<'a>) -> Result<LineBlock<'a>, Fault> {
        let front = rest.take(BLOCK_FRONT)?;
        let Some(size) = (u32_at(front, 8) as usize).checked_sub(BLOCK_FRONT) else {
            return Err(Fault::Broken(BAD_LENGTH));
        };
        let rows = rest.take(size)?;
        Ok(LineBlock {
            file: u32_at(front, 0),
            count: u32_at(front, 4),
            rows,
        })
    }
}

// Appends the rows of a block.
#[tactic(auto, using(crate::proofs::LineLemmas::rows_cut), unfolding(crate::specs::LineSubsections::line_rows))]
fn push_block_rows(
    block: &LineBlock<'_>,
    files: &Files,
    start: u32,
    rows: &mut Vec<LineInfo>,
) -> Result<Option<StreamError>, AllocError>
    ensures answer { IfOk result (λ fault. fault ≡ (block_rows files.now.entries.items start block.now).fault) }
    ensures state { OnOk result (rows.new.items
        ≡ rows.old.items ++ (block_rows files.now.entries.items start block.now).items) }
{
    let file_index = file_at(files, block.file);
    let reader = LineRows { file_index, start };
    let mut rest = Bytes::new(block.rows);
    match rest.take(ROW * block.count as usize) {
        Ok(bytes) => push_items(&reader, bytes, rows),
        Err(_) => Ok(push_items(&reader, block.rows, rows)?.or(Some(CUT))),
    }
}

/// Reads rows of a file, in code that starts at an offset.
#[derive(Drop)]
struct LineRows {
    file_index: FileIndex,
    start: u32,
}

impl<'a> ItemReader<'a> for LineRows {
    type Item = LineInfo;

    ghost use Rattle.pdb_codeview.specs.LineSubsections.{line_row};
    ghost use Rattle.pdb_msf.specs.ItemLists.{first_entry};

    ghost first = { λ rows. first_entry (line_row rows.file_index rows.start) 8 };

    fn take(&self, rest: &mut Bytes<'a>) -> Result<LineInfo, Fault> {
        Ok(line_row(rest.take(ROW)?, self.file_index, self.start))
    }
}

fn line_row(bytes: &[u8], file_index: FileIndex, start: u32) -> LineInfo
    requires { length bytes.now ≡ 8 }
    ensures { result ≡ line_row file_index start bytes.now }
{
    LineInfo {
        offset: start.wrapping_add(u32_at(bytes, 0)),
        file_index,
        line_start: u32_at(bytes, 4) % LINES,
    }
}

// Removes the rows whose number marks code without a line.
fn rows_of_lines(mut rows: Vec<LineInfo>) -> Vec<LineInfo>
    ensures { result.items ≡ rows_of_lines rows.items }
{
    rows.retain(|row| row.line_start != STEP_THROUGH && row.line_start != STEP_OVER);
    rows
}
