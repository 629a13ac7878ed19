//! The records of a file that are read before any of its modules.

ghost use Rattle.std.specs.Prelude.{◌≡◌, length, replicate, None, Ok, IfErr, IfOk};
ghost use Rattle.pdb_container.specs.DebugRecords.{streams_of_modules};
ghost use Rattle.pdb_container.specs.ModulePlaces.{places_within};
ghost use Rattle.pdb_container.specs.Front.{HasFront};
ghost use Rattle.pdb_container.specs.PdbFile.{has_names_only};
ghost use Rattle.std.specs.Result.{result_unwrap_or};
ghost use Rattle.pdb_tpi.specs.IdLeaves.{ids};
ghost use Rattle.pdb_tpi.specs.TypeLeaves.{types};
ghost use Rattle.pdb_session.specs.FileParts.{first_information};

use crate::front_streams::FrontStreams;
use crate::reachable_types::ReachableTypes;
use crate::type_lists::{ItemList, TypeLists, first_items};
use pdb_container::parts::{Front, InfoStream, ModulePlace, read_front};
use pdb_msf::faults::Fault;
use pdb_records::PDB;
use std::alloc::Global;

/// The records of a file without its types, ids and modules, and where in the file these are.
#[derive(Drop)]
pub struct FrontRecords {
    /// Which stream has the records of each module.
    pub places: Vec<ModulePlace>,
    pub lists: TypeLists,
    pub reach: ReachableTypes,
    pub front: FileFront,
}

/// The records of a file before any type, id or module is read.
#[derive(Drop)]
pub struct FileFront {
    pub records: PDB,
    /// Whether the file was linked with `/DEBUG:FASTLINK`: it has only names, and lines and types are in object files.
    pub names_only: bool,
}

/// Makes the first records from the streams that were read. `file_length` bounds how many bytes of module streams may
/// be read.
pub fn read_front_records(
    alloc: Global,
    streams: FrontStreams,
    file_length: usize,
) -> Result<FrontRecords, Fault>
    ensures places { IfOk result (λ read. read.places.items
        ≡ places_within streams.excerpt file_length (streams_of_modules streams.excerpt)) }
    ensures front { IfOk result (λ read. HasFront streams.excerpt read.front.records) }
    ensures modules { IfOk result (λ read. length read.front.records.module_infos ≡ length read.places.items) }
    ensures unread { IfOk result (λ read.
        read.front.records.module_infos ≡ replicate (length read.places.items) (Ok None)) }
    ensures types { IfOk result (λ read. read.front.records.type_information ≡ first_information types streams.types) }
    ensures ids { IfOk result (λ read. read.front.records.id_information ≡ first_information ids streams.ids) }
    ensures type_places { IfOk result (λ read. read.lists.types.places ≡ result_unwrap_or streams.types None) }
    ensures id_places { IfOk result (λ read. read.lists.ids.places ≡ result_unwrap_or streams.ids None) }
    ensures names_only { IfOk result (λ read. read.front.names_only ≡ has_names_only streams.excerpt) }
    ensures memory { IfErr result (λ fault. fault ≡ Fault.OutOfMemory) }
{
    let FrontStreams {
        excerpt,
        types,
        ids,
    } = streams;
    let container = excerpt.container(alloc)?;
    let info = InfoStream::read(alloc, &container)?;
    let Front {
        places,
        mut records,
    } = read_front(alloc, &container, &info, file_length)?;
    records.type_information = first_items(alloc, &types)?;
    records.id_information = first_items(alloc, &ids)?;
    let lists = TypeLists {
        types: ItemList::new(types),
        ids: ItemList::new(ids),
    };
    let reach = ReachableTypes::new(alloc, &lists)?;
    let front = FileFront {
        names_only: info.features().names_only,
        records,
    };
    Ok(FrontRecords {
        places,
        lists,
        reach,
        front,
    })
}
