//! Reads all records of a PDB file from its bytes.

ghost use Rattle.std.specs.Prelude.{◌≡◌, Ok, IfErr, IfOk, option_map};
ghost use Rattle.pdb_container.specs.DebugRecords.{of_file};
ghost use Rattle.pdb_container.specs.PdbFile.{has_names_only, records, records_of, refusal_in};
ghost use Rattle.pdb_container.specs.PdbFileError.{reason_of};
ghost use Rattle.pdb_container.specs.NameStream.{string_table};
ghost use Rattle.pdb_container.specs.TypeRecords.{id_information, type_information};
ghost use Rattle.pdb_msf.specs.Faults.{Gives, Opens};
ghost use Rattle.pdb_msf.specs.Msf.{stream_of};

use crate::debug_records::debug_records;
use crate::front::{IDS, TYPES};
use crate::info::InfoStream;
use crate::module_infos::module_infos;
use crate::name_stream::read_strings;
use crate::pdb_file_error::{PdbFileError, refusal_of};
use pdb_msf::faults::{Fault, NO_STREAM, part_or_fault};
use pdb_msf::{Container, ContainerError, SourceError};
use pdb_records::{IdInformation, PDB, StringTable, TypeInformation};
use pdb_tpi::{no_ids, read_items};
use std::alloc::Global;

/// The name of the stream of strings, with the zero at its end.
pub const NAMES: [u8; 7] = *b"/names\0";

/// The content of a PDB file.
#[derive(Drop)]
pub struct PdbFile {
    pub records: PDB,
    /// Why nothing can be answered over the records; `None` if answers are possible.
    pub refusal: Option<PdbFileError>,
    /// Whether the file was linked with `/DEBUG:FASTLINK`: it has only names, and lines and types are in object files.
    pub names_only: bool,
}

/// Reads the records of a PDB file.
///
/// An error is returned if memory runs out, or if the file isn't a PDB file, is cut before the end of its directory, or
/// has streams that are longer together than the file. Any other broken part is a failed stream or a fault in the
/// records.
pub fn read_pdb(alloc: Global, bytes: &[u8]) -> Result<PDB, ContainerError>
    ensures { Opens (λ pdb. pdb) result (records_of bytes.now) }
{
    let container = Container::open(alloc, bytes)?;
    let info = InfoStream::read(alloc, &container)?;
    Ok(read_records(alloc, &container, &info)?)
}

/// Reads the records of a PDB file, and what a user should be told about it. The errors are those of [`read_pdb`].
pub fn read_pdb_file(alloc: Global, bytes: &[u8]) -> Result<PdbFile, ContainerError>
    ensures answer { Opens (λ file. file.records) result (records_of bytes.now) }
    ensures refusal { Opens (λ file. option_map reason_of file.refusal) result (of_file refusal_in bytes.now) }
    ensures names_only { Opens (λ file. file.names_only) result (of_file has_names_only bytes.now) }
{
    let container = Container::open(alloc, bytes)?;
    let info = InfoStream::read(alloc, &container)?;
    let records = read_records(alloc, &container, &info)?;
    Ok(PdbFile {
        refusal: refusal_of(info.version(), &records),
        names_only: info.features().names_only,
        records,
    })
}

#[tactic(auto, using(crate::proofs::RecordLemmas::table_of_tabled))]
fn read_records(
    alloc: Global,
    container: &Container<'_>,
    info: &InfoStream<'_>,
) -> Result<PDB, Fault>
    requires { info.now ≡ stream_of container.now 1 }
    ensures answer { IfOk result (λ pdb. pdb ≡ records container.now) }
    ensures memory { IfErr result (λ fault. fault ≡ Fault.OutOfMemory) }
{
    let string_table = part_or_fault(read_texts(alloc, container, info))?;
    let type_information = part_or_fault(type_information(alloc, container))?;
    let id_information = part_or_fault(id_information(alloc, container, info))?;
    let debug = debug_records(alloc, container)?;
    let module_infos = module_infos(
        alloc,
        container,
        &debug.module_streams,
        &debug.global_symbols,
    )?;
    Ok(PDB {
        sections: debug.sections,
        address_map: debug.address_map,
        global_symbols: debug.global_symbols,
        debug_information: debug.debug_information,
        type_information,
        id_information,
        string_table,
        module_infos,
    })
}

/// Reads the strings of the stream `/names`.
#[tactic(auto, unfolding(crate::specs::NameStream::string_table))]
pub fn read_texts(
    alloc: Global,
    container: &Container<'_>,
    info: &InfoStream<'_>,
) -> Result<StringTable, Fault>
    requires { info.now ≡ stream_of container.now 1 }
    ensures { Gives (λ table. table) result (string_table container.now) }
{
    let number = info.named_stream(&NAMES)?;
    let names = container.stream(alloc, number)?;
    read_strings(alloc, names.as_slice())
}

#[tactic(auto, unfolding(crate::specs::TypeRecords::type_information))]
fn type_information(alloc: Global, container: &Container<'_>) -> Result<TypeInformation, Fault>
    ensures { Gives (λ types. types) result (type_information container.now) }
{
    let blocks = container.blocks(alloc, TYPES)?;
    Ok(from_memory(read_items(alloc, &mut container.file(), blocks))??)
}

// Reads the ids. A file that doesn't list the feature of ids, such as an old one, has none.
#[tactic(auto, unfolding(crate::specs::TypeRecords::id_information))]
fn id_information(
    alloc: Global,
    container: &Container<'_>,
    info: &InfoStream<'_>,
) -> Result<IdInformation, Fault>
    requires { info.now ≡ stream_of container.now 1 }
    ensures { Gives (λ ids. ids) result (id_information container.now) }
{
    if !info.features().ids {
        return Ok(no_ids(alloc));
    }
    match part_or_fault(container.blocks(alloc, IDS))? {
        Ok(blocks) if blocks.len() == 0 => Ok(no_ids(alloc)),
        Ok(blocks) => Ok(from_memory(read_items(alloc, &mut container.file(), blocks))??),
        Err(NO_STREAM) => Ok(no_ids(alloc)),
        Err(error) => Err(Fault::Broken(error)),
    }
}

// Turns an error of reading from memory, which can only be that memory ran out.
fn from_memory<T>(outcome: Result<T, SourceError>) -> Result<T, Fault>
    ensures answer { IfOk result (λ value. outcome ≡ Ok value) }
    ensures memory { IfErr result (λ fault. fault ≡ Fault.OutOfMemory) }
{
    match outcome {
        Ok(value) => Ok(value),
        Err(_) => Err(Fault::OutOfMemory),
    }
}
