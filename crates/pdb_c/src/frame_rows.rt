//! Frames as data: a row for each, and the texts to which rows refer.
ghost use Rattle.std.specs.Prelude.{◌≡◌, ◌++◌, length, option_map, string_bytes, IfOk, OnOk};
ghost use Rattle.pdb_frames.specs.SourceFiles.{file_name_of, known_text};
ghost use Rattle.pdb_c.specs.FrameRows.{known_place, place_at, row_at, rows_of};
ghost use Rattle.pdb_c.specs.FrameRows.{ended, ended_or_none, frame_texts, texts_of};

use pdb_addr2line::Frame;
use std::alloc::AllocError;
use std::borrow::CowStr;

/// The start of a text that isn't known.
const NOWHERE: usize = 0xffff_ffff_ffff_ffff;

/// The offset of a text in the texts of an answer, and its length in bytes. A text that isn't known has the greatest
/// number as its offset, and the length 0.
#[repr(C)]
#[derive(Clone, Copy)]
pub struct TextPlace {
    pub start: usize,
    pub length: usize,
}

/// A frame: the texts of its function and its file, and its line; 0 if the line isn't known.
#[repr(C)]
#[derive(Clone, Copy)]
pub struct FrameRow {
    pub function: TextPlace,
    pub file: TextPlace,
    pub line: u32,
}

// Appends a text and a 0 after it, and returns its place.
fn append_text(texts: &mut Vec<u8>, text: &str) -> Result<TextPlace, AllocError>
    ensures place { IfOk result (λ place. place ≡ known_place (length texts.old.items) text.now) }
    ensures state { OnOk result (texts.new.items ≡ texts.old.items ++ ended text.now) }
{
    let start = texts.len();
    texts.extend_from_slice(text.as_bytes())?;
    texts.push(0)?;
    Ok(TextPlace {
        start,
        length: text.len(),
    })
}

// Appends the name of a function, if it is known.
fn append_function(texts: &mut Vec<u8>, name: &Option<String>) -> Result<TextPlace, AllocError>
    ensures place { IfOk result (λ place. place
        ≡ place_at (length texts.old.items) (option_map string_bytes name.now)) }
    ensures state { OnOk result (texts.new.items
        ≡ texts.old.items ++ ended_or_none (option_map string_bytes name.now)) }
{
    match name {
        Some(name) => append_text(texts, name.as_str()),
        None => {
            Ok(TextPlace {
                start: NOWHERE,
                length: 0,
            })
        }
    }
}

// Appends the name of a file, if it is known.
fn append_file(texts: &mut Vec<u8>, name: &Option<CowStr<'_>>) -> Result<TextPlace, AllocError>
    ensures place { IfOk result (λ place. place
        ≡ place_at (length texts.old.items) (known_text (option_map file_name_of name.now))) }
    ensures state { OnOk result (texts.new.items
        ≡ texts.old.items ++ ended_or_none (known_text (option_map file_name_of name.now))) }
{
    match name {
        Some(name) => append_text(texts, name.as_str()),
        None => {
            Ok(TextPlace {
                start: NOWHERE,
                length: 0,
            })
        }
    }
}

// Appends the texts of a frame, and returns its row.
fn append_frame(texts: &mut Vec<u8>, frame: &Frame<'_>) -> Result<FrameRow, AllocError>
    ensures row { IfOk result (λ row. row ≡ row_at (length texts.old.items) frame.now) }
    ensures state { OnOk result (texts.new.items ≡ texts.old.items ++ frame_texts frame.now) }
{
    let function = append_function(texts, &frame.function)?;
    let file = append_file(texts, &frame.file)?;
    Ok(FrameRow {
        function,
        file,
        line: frame.line.unwrap_or(0),
    })
}

// Appends the rows and the texts of frames, in order.
pub(crate) fn append_frames(
    rows: &mut Vec<FrameRow>,
    texts: &mut Vec<u8>,
    frames: &[Frame<'_>],
) -> Result<(), AllocError>
    ensures rows { OnOk result (rows.new.items
        ≡ rows.old.items ++ rows_of (length texts.old.items) frames.now) }
    ensures texts { OnOk result (texts.new.items ≡ texts.old.items ++ texts_of frames.now) }
{
    for frame in frames {
        rows.push(append_frame(texts, frame)?)?;
    }
    Ok(())
}
