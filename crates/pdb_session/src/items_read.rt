//! Reads types and ids of a file: those that are reachable, or all of them.

ghost use Rattle.std.specs.Prelude.{◌≡◌, length, Some, IfOk, IfSome};
ghost use Rattle.pdb_records.specs.declared.ids.IdData.{IdData};
ghost use Rattle.pdb_records.specs.declared.ids.IdIndex.{IdIndex};
ghost use Rattle.pdb_records.specs.declared.types.TypeData.{TypeData};
ghost use Rattle.pdb_records.specs.declared.types.TypeIndex.{TypeIndex};
ghost use Rattle.pdb_tpi.specs.IdLeaves.{ids};
ghost use Rattle.pdb_tpi.specs.TypeLeaves.{types};
ghost use Rattle.pdb_session.specs.FileParts.{AreAllOf, AreAt, AreIdsOf, AreTypesOf, ItemsOrFault};

use crate::definitions::{mark_definitions, settled_sizes};
use crate::reachable_types::ReachableTypes;
use crate::type_lists::{ItemList, marked_items};
use pdb_known::EntriesRead;
use pdb_msf::{Source, SourceError};
use pdb_records::{IdData, IdIndex, ItemInformation, TypeData, TypeIndex};
use pdb_tpi::{ItemIndex, TypePlaces};
use std::alloc::{AllocError, Global};

/// Types that were read.
#[derive(Drop)]
pub struct TypesRead {
    pub information: ItemInformation<TypeIndex, TypeData>,
    /// Which types of the file these are.
    pub types: EntriesRead,
    /// Which of these types have a size that is known.
    pub sizes: EntriesRead,
}

/// Ids that were read.
#[derive(Drop)]
pub struct IdsRead {
    pub information: ItemInformation<IdIndex, IdData>,
    /// Which ids of the file these are.
    pub ids: EntriesRead,
}

/// Reads the reachable types; `None` if the file has no list of types that can be read.
pub fn read_types<S: Source>(
    alloc: Global,
    source: &mut S,
    list: &ItemList,
    reach: &ReachableTypes,
) -> Result<Option<TypesRead>, SourceError>
    ensures same { IfOk result (λ read. IfSome (S.bytes source.old) (λ file. (whole : ItemsOrFault TypeIndex TypeData)
        → AreAt types file list.now.places whole → AreTypesOf list.now.places whole read)) }
    ensures inputs { S.bytes source.new ≡ S.bytes source.old }
{
    match &list.places {
        Some(places) => Ok(Some(read_types_at(alloc, source, places, reach)?)),
        None => Ok(None),
    }
}

// Reads the reachable types of the list at these places.
fn read_types_at<S: Source>(
    alloc: Global,
    source: &mut S,
    places: &TypePlaces,
    reach: &ReachableTypes,
) -> Result<TypesRead, SourceError>
    ensures same { IfOk result (λ read. IfSome (S.bytes source.old) (λ file. (whole : ItemsOrFault TypeIndex TypeData)
        → AreAt types file (Some places.now) whole → AreTypesOf (Some places.now) whole (Some read))) }
    ensures inputs { S.bytes source.new ≡ S.bytes source.old }
{
    let mut marks = marks_of(alloc, places, reach.types())?;
    let names = reach.names();
    mark_definitions(alloc, source, places, names, &mut marks)?;
    let sizes = settled_sizes(alloc, source, places, names, &marks, reach.sizes())?;
    let information = marked_items(alloc, source, places, &marks)?;
    let first = places.first();
    Ok(TypesRead {
        information,
        types: EntriesRead { first, read: marks },
        sizes: EntriesRead { first, read: sizes },
    })
}

/// Reads the reachable ids; `None` if the file has no list of ids that can be read.
pub fn read_ids<S: Source>(
    alloc: Global,
    source: &mut S,
    list: &ItemList,
    reach: &ReachableTypes,
) -> Result<Option<IdsRead>, SourceError>
    ensures same { IfOk result (λ read. IfSome (S.bytes source.old) (λ file. (whole : ItemsOrFault IdIndex IdData)
        → AreAt ids file list.now.places whole → AreIdsOf list.now.places whole read)) }
    ensures inputs { S.bytes source.new ≡ S.bytes source.old }
{
    match &list.places {
        Some(places) => Ok(Some(read_ids_at(alloc, source, places, reach)?)),
        None => Ok(None),
    }
}

// Reads the reachable ids of the list at these places.
fn read_ids_at<S: Source>(
    alloc: Global,
    source: &mut S,
    places: &TypePlaces,
    reach: &ReachableTypes,
) -> Result<IdsRead, SourceError>
    ensures same { IfOk result (λ read. IfSome (S.bytes source.old) (λ file. (whole : ItemsOrFault IdIndex IdData)
        → AreAt ids file (Some places.now) whole → AreIdsOf (Some places.now) whole (Some read))) }
    ensures inputs { S.bytes source.new ≡ S.bytes source.old }
{
    let marks = marks_of(alloc, places, reach.ids())?;
    let information = marked_items(alloc, source, places, &marks)?;
    Ok(IdsRead {
        information,
        ids: EntriesRead {
            first: places.first(),
            read: marks,
        },
    })
}

/// Reads all items of a list; `None` if there is no list that can be read.
pub fn read_all_items<I: ItemIndex, S: Source>(
    alloc: Global,
    source: &mut S,
    list: &ItemList,
) -> Result<Option<ItemInformation<I, I::Data>>, SourceError>
    ensures same { IfOk result (λ read. IfSome (S.bytes source.old) (λ file. (whole : ItemsOrFault I I.Data)
        → AreAt I.meaning file list.now.places whole → AreAllOf list.now.places whole read)) }
    ensures inputs { S.bytes source.new ≡ S.bytes source.old }
{
    match &list.places {
        Some(places) => Ok(Some(places.all_items(alloc, source)?)),
        None => Ok(None),
    }
}

// Extends marks with unset ones, so that each record of the list has a mark.
fn marks_of(alloc: Global, places: &TypePlaces, marks: &[bool]) -> Result<Vec<bool>, AllocError>
    ensures { IfOk result (λ all. length all.items ≡ length places.now.starts.items) }
{
    let mut all = Vec::from_slice(alloc, marks)?;
    all.resize(places.len(), false)?;
    Ok(all)
}
