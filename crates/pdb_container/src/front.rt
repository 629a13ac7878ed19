//! Reads everything in a PDB file except types, ids and module streams.

ghost use Rattle.std.specs.Prelude.{◌≡◌, length, replicate, IfErr, IfOk, None, Ok};
ghost use Rattle.pdb_container.specs.DebugRecords.{address_map, debug_information, global_symbols, sections};
ghost use Rattle.pdb_container.specs.DebugRecords.{streams_of_modules, tabled};
ghost use Rattle.pdb_container.specs.ModulePlaces.{places_within};
ghost use Rattle.pdb_container.specs.Front.{HasFront};
ghost use Rattle.pdb_msf.specs.Msf.{stream_of};
ghost use Rattle.pdb_records.specs.Sections.{listed};

use crate::debug_records::{DebugRecords, debug_records};
use crate::info::InfoStream;
use crate::module_places::{ModuleInfoResult, ModulePlace, module_places};
use crate::pdb_file::read_texts;
use pdb_msf::faults::{Fault, part_or_fault};
use pdb_msf::{Container, nothing_read};
use pdb_records::{ItemInformation, PDB};
use pdb_tpi::no_ids;
use std::alloc::{AllocError, Global};

/// The numbers of the streams of types and ids, which are fixed.
pub const TYPES: u32 = 2;

pub const IDS: u32 = 4;

/// The records of a container without its types, ids and modules.
#[derive(Drop)]
pub struct Front {
    /// Which stream has the records of each module.
    pub places: Vec<ModulePlace>,
    pub records: PDB,
}

/// Reads the records of a container without its types, ids and modules. `file_length` bounds how many bytes of module
/// streams may be read.
pub fn read_front(
    alloc: Global,
    container: &Container<'_>,
    info: &InfoStream<'_>,
    file_length: usize,
) -> Result<Front, Fault>
    requires { info.now ≡ stream_of container.now 1 }
    ensures places { IfOk result (λ read. read.places.items
        ≡ places_within container.now file_length (streams_of_modules container.now)) }
    ensures front { IfOk result (λ read. HasFront container.now read.records) }
    ensures modules { IfOk result (λ read. length read.records.module_infos ≡ length read.places.items) }
    ensures unread { IfOk result (λ read. read.records.module_infos ≡ replicate (length read.places.items) (Ok None)) }
    ensures memory { IfErr result (λ fault. fault ≡ Fault.OutOfMemory) }
{
    let debug = debug_records(alloc, container)?;
    let places = module_places(alloc, container, file_length, &debug.module_streams)?;
    let records = records_without_modules(alloc, container, info, debug, places.len())?;
    Ok(Front { places, records })
}

// The records of a container without types and ids, and with `module_count` unread modules.
#[tactic(auto, using(crate::proofs::RecordLemmas::table_of_tabled))]
fn records_without_modules(
    alloc: Global,
    container: &Container<'_>,
    info: &InfoStream<'_>,
    debug: DebugRecords,
    module_count: usize,
) -> Result<PDB, Fault>
    requires info { info.now ≡ stream_of container.now 1 }
    requires information { debug.debug_information ≡ debug_information container.now }
    requires sections { listed debug.sections ≡ sections container.now }
    requires address_map { debug.address_map ≡ address_map container.now }
    requires global_symbols { tabled debug.global_symbols ≡ global_symbols container.now }
    ensures front { IfOk result (λ records. HasFront container.now records) }
    ensures modules { IfOk result (λ records. length records.module_infos ≡ module_count) }
    ensures unread { IfOk result (λ records. records.module_infos ≡ replicate module_count (Ok None)) }
    ensures memory { IfErr result (λ fault. fault ≡ Fault.OutOfMemory) }
{
    let string_table = part_or_fault(read_texts(alloc, container, info))?;
    let module_infos = nothing_known(alloc, module_count)?;
    Ok(PDB {
        sections: debug.sections,
        address_map: debug.address_map,
        global_symbols: debug.global_symbols,
        debug_information: debug.debug_information,
        type_information: Ok(ItemInformation {
            items: nothing_read(alloc, None),
        }),
        id_information: Ok(no_ids(alloc)),
        string_table,
        module_infos,
    })
}

// `count` modules without records.
fn nothing_known(alloc: Global, count: usize) -> Result<Vec<ModuleInfoResult>, AllocError>
    ensures count { IfOk result (λ infos. length infos.items ≡ count) }
    ensures unread { IfOk result (λ infos. infos.items ≡ replicate count (Ok None)) }
{
    let mut infos = Vec::with_capacity(alloc, count)?;
    for _ in 0..count {
        infos.push(Ok(None))?;
    }
    Ok(infos)
}
