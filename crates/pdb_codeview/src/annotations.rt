//! Reads the binary annotations of an inline site: compressed numbers that say how its code and its lines continue.

ghost use Rattle.std.specs.Prelude.{◌≡◌, MatchResult, OnOk, Ok, Err};
ghost use Rattle.pdb_codeview.specs.Annotations.{annotation_of, behind_number, first_number, of_chunk, of_one_number};
ghost use Rattle.pdb_codeview.specs.Chunks.{numbered_start};
ghost use Rattle.pdb_codeview.specs.Compressed.{compressed, width};

use crate::chunks::{Chunk, numbered_start};
use pdb_msf::faults::{APART, BAD_NUMBER, Fault};
use pdb_msf::{Bytes, ItemReader};
use pdb_records::StreamError;

const INVALID: u32 = 0;

const CODE_OFFSET: u32 = 1;

const CODE_OFFSET_BASE: u32 = 2;

const CHANGE_CODE_OFFSET: u32 = 3;

const CODE_LENGTH: u32 = 4;

const FILE: u32 = 5;

const LINE_OFFSET: u32 = 6;

const LINE_END_DELTA: u32 = 7;

const COLUMN_END_DELTA: u32 = 10;

const CODE_OFFSET_AND_LINE_OFFSET: u32 = 11;

const CODE_LENGTH_AND_CODE_OFFSET: u32 = 12;

const COLUMN_END: u32 = 13;

/// A step in the description of an inlined body's code and lines.
#[derive(Clone, Copy)]
pub enum Annotation {
    /// The code continues this many bytes after the function's start.
    Start(u32),
    /// The code continues this many bytes further on, and a row starts there.
    Advance(u32),
    /// The row before has this length in bytes, and the code continues after it.
    Length(u32),
    /// The following rows come from this file.
    File(u32),
    /// The line changes by this number, whose lowest bit is the sign.
    Line(u32),
    /// The line changes by the second number. The code continues as many bytes further on as the first says, and a row
    /// starts there.
    AdvanceAndLine(u32, u32),
    /// The code continues as many bytes further on as the second number says. A row starts there whose length is the
    /// first number.
    LengthAndAdvance(u32, u32),
    /// The code continues in a chunk that starts at this offset of its section.
    Chunk(u32),
    /// An annotation that doesn't affect rows.
    Other,
}

/// Reads the annotations of a site in code of this section, whose function has these chunks. An annotation of kind 0
/// ends the list.
#[derive(Drop)]
pub(crate) struct Annotations<'a> {
    pub(crate) section: u16,
    pub(crate) chunks: &'a [Chunk],
}

impl<'a> ItemReader<'a> for Annotations<'a> {
    type Item = Annotation;

    ghost use Rattle.pdb_codeview.specs.Annotations.{first_annotation};
    ghost use Rattle.pdb_codeview.specs.Chunks.{numbered_start};

    ghost first = { λ list. first_annotation (numbered_start list.section list.chunks.now) };

    fn take(&self, rest: &mut Bytes<'a>) -> Result<Annotation, Fault> {
        let kind = take_number(rest)?;
        if kind == INVALID {
            *rest = Bytes::new(&[]);
            return Ok(Annotation::Other);
        }
        Ok(take_annotation(self, kind, rest)?)
    }
}

// Reads an annotation of this kind, with its numbers.
fn take_annotation(
    list: &Annotations<'_>,
    kind: u32,
    rest: &mut Bytes<'_>,
) -> Result<Annotation, StreamError>
    ensures { MatchResult result
        (λ annotation.
        annotation_of (numbered_start list.now.section list.now.chunks.now) kind rest.old
        ≡ Ok (annotation, rest.new))
        (λ error. annotation_of (numbered_start list.now.section list.now.chunks.now) kind rest.old ≡ Err error) }
{
    let number = take_number(rest)?;
    if kind == CODE_LENGTH_AND_CODE_OFFSET {
        return Ok(Annotation::LengthAndAdvance(number, take_number(rest)?));
    }
    of_one_number(list, kind, number)
}

// The annotation of this kind with one number.
fn of_one_number(list: &Annotations<'_>, kind: u32, number: u32) -> Result<Annotation, StreamError>
    ensures { result ≡ of_one_number (numbered_start list.now.section list.now.chunks.now) kind number }
{
    match kind {
        CODE_OFFSET => Ok(Annotation::Start(number)),
        CODE_OFFSET_BASE => of_chunk(list, number),
        CHANGE_CODE_OFFSET => Ok(Annotation::Advance(number)),
        CODE_LENGTH => Ok(Annotation::Length(number)),
        FILE => Ok(Annotation::File(number)),
        LINE_OFFSET => Ok(Annotation::Line(number)),
        CODE_OFFSET_AND_LINE_OFFSET => Ok(Annotation::AdvanceAndLine(number % 16, number / 16)),
        LINE_END_DELTA..=COLUMN_END_DELTA | COLUMN_END => Ok(Annotation::Other),
        _ => Err(BAD_NUMBER),
    }
}

// The annotation that moves to the chunk with this number. The number 0 means the main code.
fn of_chunk(list: &Annotations<'_>, number: u32) -> Result<Annotation, StreamError>
    ensures { result ≡ of_chunk (numbered_start list.now.section list.now.chunks.now) number }
{
    if number == 0 {
        return Ok(Annotation::Other);
    }
    match numbered_start(list.chunks, list.section, number) {
        Some(start) => Ok(Annotation::Chunk(start)),
        None => Err(APART),
    }
}

// Reads the next compressed number.
fn take_number(rest: &mut Bytes<'_>) -> Result<u32, StreamError>
    ensures answer { MatchResult result (λ number. first_number rest.old ≡ Ok number)
        (λ error. first_number rest.old ≡ Err error) }
    ensures state { OnOk result (rest.new ≡ behind_number rest.old) }
{
    let bytes = rest.rest();
    let Some(number) = compressed(bytes) else {
        return Err(BAD_NUMBER);
    };
    rest.take(width(bytes))?;
    Ok(number)
}

// The size of a compressed number in bytes, by its first byte; 0 if that is invalid.
fn width(bytes: &[u8]) -> usize
    ensures { result ≡ width bytes.now }
{
    match bytes.first() {
        None => 0,
        Some(&first) if first < 128 => 1,
        Some(&first) if first < 192 => 2,
        Some(&first) if first < 224 => 4,
        Some(_) => 0,
    }
}

// The compressed number at the start of these bytes.
fn compressed(bytes: &[u8]) -> Option<u32>
    ensures { result ≡ compressed bytes.now }
{
    let size = width(bytes);
    if bytes.len() < size {
        return None;
    }
    match size {
        1 => Some(u32::from(bytes[0])),
        2 => Some((u32::from(bytes[0]) - 128) * 256 + u32::from(bytes[1])),
        4 => Some(
            (u32::from(bytes[0]) - 192) * 0x100_0000
                + u32::from(bytes[1]) * 0x1_0000
                + u32::from(bytes[2]) * 256
                + u32::from(bytes[3]),
        ),
        _ => None,
    }
}
