//! Writes a complete symbol file: the first records, the files and names with their numbers, and the functions.

ghost use Rattle.std.specs.Prelude.{◌≡◌, ◌++◌, ℕ, List, [], Some, IfOk, OnOk, string_bytes};
ghost use Rattle.std.specs.Io.KnownBytes.{Appends};
ghost use Rattle.pdb_breakpad.specs.FunctionWalk.{WritesFunctions};
ghost use Rattle.pdb_breakpad.specs.ModuleRecord.{AreModuleRecords};
ghost use Rattle.pdb_breakpad.specs.Pieces.{ArePieces};
ghost use Rattle.pdb_breakpad.specs.SymbolFile.{WritesSymbolFile, names_text};
ghost use Rattle.pdb_breakpad.specs.WrittenRecords.{FitNumbers};

use crate::frame_source::FrameSource;
use crate::function_walk::write_functions;
use crate::module_record::{ModuleIdentity, module_records};
use crate::record_numbers::{NameKind, Numbers};
use crate::symbol_file_error::SymbolFileError;
use pdb_tables::Segments;
use std::alloc::{AllocError, Global};
use std::io;

/// Writes the symbol file of a program to a writer, and flushes the writer. `parameters` says by address how many bytes
/// of parameters the function there takes from the stack; the default is 0.
///
/// The program's pieces are walked over once. Files and names get their numbers when they are first used. The file has
/// them before the functions, so the records of functions are kept as text until the end. Memory is therefore needed
/// for this text, the pieces' starts, the numbers, and what the source caches for a share of the functions.
///
/// # Errors
///
/// The source's first error; that memory ran out; or that the writer refused a part of the text, after the parts before
/// it were written.
pub fn write_symbol_file<'a, S: FrameSource<'a>, W: io::Write>(
    alloc: Global,
    out: &mut W,
    identity: &ModuleIdentity<'_>,
    parameters: &Segments<u32>,
    source: &mut S,
) -> Result<(), SymbolFileError>
    ensures { OnOk result (WritesSymbolFile S.answers source.old identity.now parameters.now
        (W.contents out.old) (W.contents out.new)) }
{
    let points = source.piece_starts(alloc)?;
    let mut numbers = Numbers::new(alloc);
    let functions = functions_text(alloc, source, &mut numbers, parameters, &points)?;
    numbers.fit();
    write_front(alloc, out, identity, &numbers)?;
    out.write_all(&functions)?;
    out.flush()?;
    Ok(())
}

// The text of all functions. Their files and names get numbers in the order of their first use.
fn functions_text<'a, S: FrameSource<'a>>(
    alloc: Global,
    source: &mut S,
    numbers: &mut Numbers,
    parameters: &Segments<u32>,
    points: &[u32],
) -> Result<Vec<u8>, SymbolFileError>
    requires pieces { ArePieces S.answers source.old points.now }
    ensures { IfOk result (λ text. WritesFunctions parameters.now S.answers source.old numbers.new
        (Some []) (Some text.items)) }
{
    let mut text = Vec::new(alloc);
    write_functions(alloc, &mut text, source, numbers, parameters, points)?;
    Ok(text)
}

// Writes the records before the functions.
fn write_front<W: io::Write>(
    alloc: Global,
    out: &mut W,
    identity: &ModuleIdentity<'_>,
    numbers: &Numbers,
) -> Result<(), SymbolFileError>
    ensures { OnOk result ((front : List ℕ) × AreModuleRecords identity.now front
        × Appends (W.contents out.old) (W.contents out.new) (front ++ names_text numbers.now)) }
{
    let text = front_text(alloc, identity, numbers)?;
    out.write_all(text.as_bytes())?;
    Ok(())
}

// The text of the records before the functions.
fn front_text(
    alloc: Global,
    identity: &ModuleIdentity<'_>,
    numbers: &Numbers,
) -> Result<String, AllocError>
    ensures { IfOk result (λ text. (front : List ℕ) × AreModuleRecords identity.now front
        × (string_bytes text ≡ front ++ names_text numbers.now)) }
{
    let mut text = module_records(alloc, identity)?;
    numbers.files.push_records(&mut text, NameKind::File)?;
    numbers
        .origins
        .push_records(&mut text, NameKind::InlineOrigin)?;
    Ok(text)
}
