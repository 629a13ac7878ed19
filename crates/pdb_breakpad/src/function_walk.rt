//! Walks over all addresses piece by piece, and writes the records of each function.

ghost use Rattle.std.specs.Prelude.{◌≡◌, ◌+◌, All, IfOk, OnOk, IfSome};
ghost use Rattle.std.specs.Option.{option_to_list};
ghost use Rattle.std.specs.List.{flat_map};
ghost use Rattle.std.specs.Io.KnownBytes.{Appends};
ghost use Rattle.pdb_breakpad.specs.FrameSource.{KeepsAnswers};
ghost use Rattle.pdb_breakpad.specs.FunctionWalk.{IsAnswer, IsOpen, StepsOver, WritesFunctions};
ghost use Rattle.pdb_breakpad.specs.FunctionTexts.{function_text};
ghost use Rattle.pdb_breakpad.specs.NumberedCode.{KeepsAllNames};
ghost use Rattle.pdb_breakpad.specs.Pieces.{ArePieces};
ghost use Rattle.pdb_breakpad.specs.WrittenRecords.{AreReadable};

use crate::cache_shares::CacheShare;
use crate::frame_source::FrameSource;
use crate::function_records::FunctionRecords;
use crate::pieces::{Piece, piece_at};
use crate::record_numbers::Numbers;
use crate::symbol_file_error::SymbolFileError;
use pdb_addr2line::FunctionFrames;
use pdb_tables::Segments;
use std::alloc::Global;
use std::io;

/// Writes the records of all functions. Each piece begins at one of these points, and the source is asked once for it.
pub(crate) fn write_functions<'a, S: FrameSource<'a>, W: io::Write>(
    alloc: Global,
    out: &mut W,
    source: &mut S,
    numbers: &mut Numbers,
    parameters: &Segments<u32>,
    points: &[u32],
) -> Result<(), SymbolFileError>
    requires pieces { ArePieces S.answers source.old points.now }
    ensures answer { OnOk result (WritesFunctions parameters.now S.answers source.old numbers.new
        (W.contents out.old) (W.contents out.new)) }
    ensures names { KeepsAllNames numbers.old numbers.new }
    ensures inputs { KeepsAnswers S.answers source.old source.new }
{
    let mut share = CacheShare::new(points.len());
    let mut walked = None;
    for position in 0..points.len() {
        let piece = piece_at(points, position);
        walked = walk_piece(
            alloc, out, source, numbers, parameters, &mut share, walked, piece,
        )?;
    }
    write_ended(alloc, out, parameters, walked)?;
    source.clear_caches();
    Ok(())
}

// Handles one piece. Either the current function continues over it; or that function ends, and the function at the
// piece begins, if there is one.
fn walk_piece<'a, S: FrameSource<'a>, W: io::Write>(
    alloc: Global,
    out: &mut W,
    source: &mut S,
    numbers: &mut Numbers,
    parameters: &Segments<u32>,
    share: &mut CacheShare,
    walked: Option<FunctionRecords<'a>>,
    piece: Piece,
) -> Result<Option<FunctionRecords<'a>>, SymbolFileError>
    requires walked { IfSome walked (IsOpen numbers.old piece.first) }
    ensures step { IfOk result (λ next. StepsOver parameters.now S.answers source.old numbers.new
        piece.first piece.last walked.entry next (W.contents out.old) (W.contents out.new)) }
    ensures open { IfOk result (λ next. IfSome next (IsOpen numbers.new (piece.last + 1))) }
    ensures names { KeepsAllNames numbers.old numbers.new }
    ensures inputs { KeepsAnswers S.answers source.old source.new }
{
    let Some(answer) = ask(source, piece.first)? else {
        write_ended(alloc, out, parameters, walked)?;
        return Ok(None);
    };
    let Some(mut records) = walked else {
        let begun = FunctionRecords::new(alloc, numbers, piece, answer)?;
        return Ok(Some(begun));
    };
    if records.is_of(&answer) {
        records.add(numbers, piece, answer)?;
        return Ok(Some(records));
    }
    write_function(alloc, out, parameters, &records)?;
    share.count_function(source);
    let begun = FunctionRecords::new(alloc, numbers, piece, answer)?;
    Ok(Some(begun))
}

// The answer at an address, with its frames from the outermost to the innermost.
fn ask<'a, S: FrameSource<'a>>(
    source: &mut S,
    address: u32,
) -> Result<Option<FunctionFrames<'a>>, SymbolFileError>
    ensures answer { IfOk result (λ found. IsAnswer S.answers source.old address found) }
    ensures inputs { KeepsAnswers S.answers source.old source.new }
{
    let mut found = source.find_frames(address)?;
    if let Some(answer) = &mut found {
        answer.frames.reverse();
    }
    Ok(found)
}

// Writes the records of the current function, if there is one.
fn write_ended<W: io::Write>(
    alloc: Global,
    out: &mut W,
    parameters: &Segments<u32>,
    walked: Option<FunctionRecords<'_>>,
) -> Result<(), SymbolFileError>
    ensures written { OnOk result (Appends (W.contents out.old) (W.contents out.new)
        (flat_map (function_text parameters.now) (option_to_list walked.entry))) }
    ensures readable { OnOk result (All (AreReadable parameters.now) (option_to_list walked.entry)) }
{
    match walked {
        Some(records) => write_function(alloc, out, parameters, &records),
        None => Ok(()),
    }
}

// Writes the records of a function.
fn write_function<W: io::Write>(
    alloc: Global,
    out: &mut W,
    parameters: &Segments<u32>,
    records: &FunctionRecords<'_>,
) -> Result<(), SymbolFileError>
    ensures written { OnOk result (Appends (W.contents out.old) (W.contents out.new)
        (function_text parameters.now records.now)) }
    ensures readable { OnOk result (AreReadable parameters.now records.now) }
{
    let text = records.text(alloc, parameters)?;
    out.write_all(text.as_bytes())?;
    Ok(())
}
