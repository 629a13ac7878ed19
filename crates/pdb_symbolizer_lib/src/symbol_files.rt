//! Writes the Breakpad symbol file of `--dump-syms`, to standard output or into a store.

use crate::frame_data_records::{FrameRecords, frame_data_records};
use crate::symbol_stores::{make_place, write_records, write_whole};
use crate::unwind_records::unwind_records;
use pdb_breakpad::{ModuleIdentity, ProgramIdentity, SymbolFileError};
use pdb_container::PdbIdentity;
use pdb_session::SessionData;
use pdb_symbolizer_input::identities::identity_in;
use pdb_symbolizer_input::input_files::{SourceFile, find_file};
use pdb_symbolizer_input::opened_files::{OpenedFile, open_source};
use pdb_symbolizer_input::options::{Options, SymbolFilePlace};
use pdb_symbolizer_input::paths::last_part;
use pdb_symbolizer_input::run_errors::RunError;
use pdb_symbolizer_input::status_line::StatusLine;
use std::alloc::Global;
use std::io::{self, Read, Seek};
use std::rt::Files;

/// Writes a symbol file of a file's functions. The file must be a PDB file, or a program with one.
pub fn dump_symbols<R: Files + Print + Eprint + AllocGlobal>(
    rt: &R,
    status_line: &StatusLine,
    options: &Options<'_>,
    place: SymbolFilePlace<'_>,
    path: &str,
) -> Result<(), RunError> {
    if !options.addresses.is_empty() {
        return Err(RunError::AnswersNone("dump-syms"));
    }
    let mut source = find_file(rt, status_line, options, path)?;
    let identity = identity_of_source(rt.alloc(), &mut source)?;
    let machine = identity.and_then(|identity| identity.machine);
    let mut frames = frame_data_records(rt, &mut source, machine)?;
    let mut input = open_source(rt, options, source)?;
    input.read_all(rt)?;
    let Some(identity) = identity else {
        return Err(RunError::NoIdentity(String::from_str(rt.alloc(), input.path.as_str())?));
    };
    frames.text.push_str(&unwind_records(rt, path)?)?;
    dump_over(rt, options, place, path, &input, identity, &frames)
}

// The identity of a file, if it is a PDB file that has one.
fn identity_of_source<F: Read + Seek + Drop>(
    alloc: Global,
    source: &mut SourceFile<F>,
) -> Result<Option<PdbIdentity>, RunError> {
    if !source.bytes.is_pdb_file() {
        return Ok(None);
    }
    identity_in(alloc, source.file.path.as_str(), &mut source.bytes)
}

fn dump_over<R: Files + Print + Eprint + AllocGlobal, F: Read + Seek + Drop>(
    rt: &R,
    options: &Options<'_>,
    place: SymbolFilePlace<'_>,
    path: &str,
    input: &OpenedFile<F>,
    identity: PdbIdentity,
    frames: &FrameRecords,
) -> Result<(), RunError> {
    let module = ModuleIdentity {
        machine: identity.machine,
        debug_id: identity.debug_id,
        pdb_name: last_part(input.path.as_str()),
        program: input.code_id.map(|code_id| ProgramIdentity {
            code_id,
            name: last_part(path),
        }),
    };
    let data = input.session.data()?;
    match place {
        SymbolFilePlace::StandardOutput => {
            Ok(dump_all(rt, options, None, &module, &data, frames)?)
        }
        SymbolFilePlace::Store(store) => {
            dump_into_store(rt, options, store, &module, &data, frames)
        }
    }
}

fn dump_into_store<R: Files + Print + Eprint + AllocGlobal>(
    rt: &R,
    options: &Options<'_>,
    store: &str,
    module: &ModuleIdentity<'_>,
    data: &SessionData<'_>,
    frames: &FrameRecords,
) -> Result<(), RunError> {
    let path = make_place(rt, store, module)?;
    match dump_all(rt, options, Some(path.as_str()), module, data, frames) {
        Err(SymbolFileError::CannotWrite) => {
            Err(RunError::SymbolFile(path, SymbolFileError::CannotWrite))
        }
        written => Ok(written?),
    }
}

// Writes all functions and unwind records to this path, or else on standard output.
fn dump_all<R: Files + Print + Eprint + AllocGlobal>(
    rt: &R,
    options: &Options<'_>,
    path: Option<&str>,
    module: &ModuleIdentity<'_>,
    data: &SessionData<'_>,
    frames: &FrameRecords,
) -> Result<(), SymbolFileError> {
    let mut context = data.context(options.flags())?;
    match path {
        Some(path) => write_whole(rt, path, module, &mut context, frames),
        None => write_records(
            rt.alloc(),
            &mut io::writer(rt),
            module,
            &mut context,
            frames,
        ),
    }
}
