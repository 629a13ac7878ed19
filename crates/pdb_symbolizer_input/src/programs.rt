//! Finds the PDB file with a debug id: at the path that the program names, beside the program, and in folders.

use crate::file_bytes::{FileBytes, open_regular_bytes};
use crate::folder_listings::FolderListings;
use crate::folder_places::{WantedFile, find_compressed, other_places, push_places};
use crate::input_files::SourceFile;
use crate::kept_files::KnownIds;
use crate::options::Options;
use crate::paths::file_name;
use crate::run_errors::RunError;
use pdb_addr2line::Error;
use pdb_container::{ContainerError, DebugId, OpenError, read_identity_of};
use pdb_identity::CodeView;
use pdb_records_files::ran_out_of_memory;
use pdb_symbolication::WantedModule;
use std::alloc::{AllocError, Global};
use std::io::{Read, Seek};
use std::rt::Files;
use std::str;

/// How many bytes a kept debug id and its path count as in the cache.
const ID_SIZE: u64 = 512;

/// Finds the PDB file of a program: the first candidate file with the program's GUID and age. A file of another build
/// is rejected. If all are rejected, the error names each path and why it was rejected.
pub fn find_pdb<R: Files + AllocGlobal>(
    rt: &R,
    program: &str,
    code_view: &CodeView<'_>,
    options: &Options<'_>,
) -> Result<SourceFile<R::File>, RunError> {
    let mut ids = KnownIds::new(rt.alloc(), 0)?;
    let mut looked = String::new(rt.alloc());
    let places = places(rt, program, code_view, options)?;
    if let Some(found) = look_at_each(rt, &mut ids, &mut looked, places, &code_view.debug_id)? {
        return Ok(found);
    }
    if let Some(name) = name_in(code_view) {
        let wanted = WantedFile {
            name,
            debug_id: code_view.debug_id,
        };
        let mut listings = FolderListings::new(rt.alloc());
        match look_further(rt, &mut ids, &mut looked, &mut listings, options, &wanted)? {
            Search::Found(found) => return Ok(found),
            Search::Compressed(path) => {
                write!(looked, "\n    {path}: {}", ContainerError::Compressed)?;
            }
            Search::Nothing => {}
        }
    }
    let id = code_view.debug_id;
    Err(RunError::NoPdbFile(format!(in rt.alloc(); "{program}: no PDB file of {id}{looked}")?))
}

/// Finds the PDB file of a module that a request asks for: the first file in the folders with its name and debug id.
///
/// # Errors
///
/// Memory ran out, or the only file found is compressed.
pub fn find_in_folders<R: Files + AllocGlobal>(
    rt: &R,
    ids: &mut KnownIds,
    listings: &mut FolderListings,
    options: &Options<'_>,
    module: &WantedModule,
) -> Result<Option<SourceFile<R::File>>, RunError> {
    let wanted = WantedFile {
        name: module.name.as_str(),
        debug_id: module.debug_id,
    };
    let mut looked = String::new(rt.alloc());
    let mut places = Vec::new(rt.alloc());
    push_places(rt, &mut places, options, &wanted)?;
    if let Some(found) = look_at_each(rt, ids, &mut looked, places, &module.debug_id)? {
        return Ok(Some(found));
    }
    match look_further(rt, ids, &mut looked, listings, options, &wanted)? {
        Search::Found(found) => Ok(Some(found)),
        Search::Compressed(path) => Err(RunError::Container(path, ContainerError::Compressed)),
        Search::Nothing => Ok(None),
    }
}

/// The result of a search in folders.
#[derive(Drop)]
enum Search<F> {
    Found(SourceFile<F>),
    /// Only a compressed file was found, at this path.
    Compressed(String),
    Nothing,
}

// Looks in folders for a file whose name differs in case, and then for the compressed file of a symbol server.
fn look_further<R: Files + AllocGlobal>(
    rt: &R,
    ids: &mut KnownIds,
    looked: &mut String,
    listings: &mut FolderListings,
    options: &Options<'_>,
    wanted: &WantedFile<'_>,
) -> Result<Search<R::File>, RunError> {
    let places = other_places(rt, listings, options, wanted)?;
    if let Some(found) = look_at_each(rt, ids, looked, places, &wanted.debug_id)? {
        return Ok(Search::Found(found));
    }
    match find_compressed(rt, listings, options, wanted)? {
        Some(path) => Ok(Search::Compressed(path)),
        None => Ok(Search::Nothing),
    }
}

// Opens the first of these paths that has a file with the wanted debug id. Appends each path before it to `looked`,
// with the reason why its file was rejected.
fn look_at_each<R: Files + AllocGlobal>(
    rt: &R,
    ids: &mut KnownIds,
    looked: &mut String,
    places: Vec<String>,
    wanted: &DebugId,
) -> Result<Option<SourceFile<R::File>>, RunError> {
    for path in places {
        match look_at(rt, ids, path.as_str(), wanted)? {
            Look::Found(bytes) => return Ok(Some(SourceFile::new(path, bytes))),
            Look::Rejected(why) => write!(looked, "\n    {path}: {why}")?,
        }
    }
    Ok(None)
}

/// The result of checking one path.
#[derive(Drop)]
enum Look<F> {
    Found(FileBytes<F>),
    /// Why the file isn't the wanted one.
    Rejected(String),
}

// Checks the debug id of the file at a path. The id is read only if it isn't cached for this path and stamp.
fn look_at<R: Files + AllocGlobal>(
    rt: &R,
    ids: &mut KnownIds,
    path: &str,
    wanted: &DebugId,
) -> Result<Look<R::File>, RunError> {
    match open_regular_bytes(rt, path) {
        Ok(bytes) => match known_id(ids, path, &bytes) {
            Some(id) => look_by_id(rt.alloc(), bytes, id, wanted),
            None => look_into(rt.alloc(), ids, path, bytes, wanted),
        },
        Err(error) if ran_out_of_memory(&error) => Err(RunError::Refused(Error::OutOfMemory)),
        Err(error) => Ok(Look::Rejected(format!(in rt.alloc(); "{error}")?)),
    }
}

// The cached debug id of a file, if the file didn't change since it was read.
fn known_id<F: Read + Seek + Drop>(
    ids: &KnownIds,
    path: &str,
    bytes: &FileBytes<F>,
) -> Option<DebugId> {
    ids.peek(path, bytes.stamp()?).copied()
}

fn look_by_id<F: Drop>(
    alloc: Global,
    bytes: FileBytes<F>,
    id: DebugId,
    wanted: &DebugId,
) -> Result<Look<F>, RunError> {
    if id == *wanted {
        return Ok(Look::Found(bytes));
    }
    Ok(Look::Rejected(format!(in alloc; "its id is {id}")?))
}

fn look_into<F: Read + Seek + Drop>(
    alloc: Global,
    ids: &mut KnownIds,
    path: &str,
    mut bytes: FileBytes<F>,
    wanted: &DebugId,
) -> Result<Look<F>, RunError> {
    let length = bytes.length();
    match read_identity_of(alloc, &mut bytes, length) {
        Ok(Some(identity)) => {
            if let Some(stamp) = bytes.stamp() {
                let path = String::from_str(alloc, path)?;
                ids.keep(path, stamp, ID_SIZE, identity.debug_id);
            }
            look_by_id(alloc, bytes, identity.debug_id, wanted)
        }
        Ok(None) => rejected(alloc, "no id"),
        Err(OpenError::Container(ContainerError::OutOfMemory)) => {
            Err(RunError::Refused(Error::OutOfMemory))
        }
        Err(OpenError::Container(fault)) => { Ok(Look::Rejected(format!(in alloc; "{fault}")?)) }
        Err(OpenError::Unreadable) => rejected(alloc, "can't be read"),
    }
}

fn rejected<F: Drop>(alloc: Global, why: &str) -> Result<Look<F>, RunError> {
    Ok(Look::Rejected(String::from_str(alloc, why)?))
}

// The file name in the PDB path that a program names.
fn name_in<'p>(code_view: &CodeView<'p>) -> Option<&'p str> {
    file_name(str::from_utf8(code_view.path).ok()?)
}

// The candidate paths: the path that the program names; its file name beside the program; its file name in each folder,
// and in the subfolders that a symbol store has for it.
fn places<R: Files + AllocGlobal>(
    rt: &R,
    program: &str,
    code_view: &CodeView<'_>,
    options: &Options<'_>,
) -> Result<Vec<String>, AllocError> {
    let alloc = rt.alloc();
    let mut places = Vec::new(alloc);
    let Ok(written) = str::from_utf8(code_view.path) else {
        return Ok(places);
    };
    places.push(String::from_str(alloc, written)?)?;
    let Some(name) = file_name(written) else {
        return Ok(places);
    };
    places.push(beside(alloc, program, name)?)?;
    let wanted = WantedFile {
        name,
        debug_id: code_view.debug_id,
    };
    push_places(rt, &mut places, options, &wanted)?;
    Ok(places)
}

fn beside(alloc: Global, program: &str, name: &str) -> Result<String, AllocError> {
    match program.rsplit_once('/') {
        Some((folder, _)) => format!(in alloc; "{folder}/{name}"),
        None => String::from_str(alloc, name),
    }
}
