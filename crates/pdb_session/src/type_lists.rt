//! The lists of types and of ids of a PDB file, and marks for their records.

ghost use Rattle.std.specs.Prelude.{◌≡◌, ◌≤◌, length, None, IfErr, IfOk, IfSome, IsOkAnd};
ghost use Rattle.std.specs.Result.{result_unwrap_or};
ghost use Rattle.pdb_msf.specs.StreamBlocks.{blocks_read, said_in};
ghost use Rattle.pdb_tpi.specs.IdLeaves.{ids};
ghost use Rattle.pdb_tpi.specs.TypePlaces.{LieIn, list_at};
ghost use Rattle.pdb_container.specs.TypeRecords.{ids_in};
ghost use Rattle.pdb_session.specs.FileParts.{HasItems, HasPlaces, first_information, listed_in, nothing_read};
ghost use Rattle.pdb_session.specs.MarkedItems.{marked_items};

use pdb_known::EntriesRead;
use pdb_msf::faults::NO_STREAM;
use pdb_msf::{Source, SourceError, StreamBlocks};
use pdb_records::{Item, ItemInformation, Reading, StreamError};
use pdb_tpi::{ItemIndex, RecordWindow, TypePlaces};
use std::alloc::{AllocError, Global};

/// Where the records of a file's types or ids start; `None` if it has none; or why they can't be read.
pub type PlacesOrFault = Result<Option<TypePlaces>, StreamError>;

/// A list of types or of ids of a file. `places` says where its records start; it is `None` if the list can't be read,
/// or nothing of it is left to read.
#[derive(Drop)]
pub struct ItemList {
    pub places: Option<TypePlaces>,
}

impl ItemList {
    /// The list at these places; one without places if it can't be read.
    pub fn new(places: PlacesOrFault) -> Self
        ensures { result.places ≡ result_unwrap_or places None }
    {
        ItemList {
            places: places.unwrap_or(None),
        }
    }

    /// Reads the item at a position of the list. The window caches bytes between calls.
    pub fn item_at<I: ItemIndex, S: Source>(
        &self,
        alloc: Global,
        source: &mut S,
        window: &mut RecordWindow,
        position: usize,
    ) -> Result<Option<Item<I, I::Data>>, SourceError>
        ensures inputs { S.bytes source.new ≡ S.bytes source.old }
    {
        match &self.places {
            Some(places) => places.item_at(alloc, source, window, position),
            None => Ok(None),
        }
    }

    /// A mark for each record, with none set.
    pub fn unmarked(&self, alloc: Global) -> Result<Vec<bool>, AllocError>
        ensures { IfOk result (λ marks. marks.items ≡ (nothing_read self.now.places).read) }
    {
        let length = match &self.places {
            Some(places) => places.len(),
            None => 0,
        };
        let mut marks = Vec::new(alloc);
        marks.resize(length, false)?;
        Ok(marks)
    }

    /// Marks for the records of the list, from its first index on, with none set.
    pub fn nothing_read(&self, alloc: Global) -> Result<EntriesRead, AllocError>
        ensures { IfOk result (λ entries. entries ≡ nothing_read self.now.places) }
    {
        let first = match &self.places {
            Some(places) => places.first(),
            None => 0,
        };
        Ok(EntriesRead {
            first,
            read: self.unmarked(alloc)?,
        })
    }

    /// The position of the record with this index. It may be after the end of the list.
    pub fn position_of(&self, index: u32) -> Option<usize> {
        match &self.places {
            Some(places) => Some(index.checked_sub(places.first())? as usize),
            None => None,
        }
    }
}

/// The lists of types and of ids of a file.
#[derive(Drop)]
pub struct TypeLists {
    pub types: ItemList,
    pub ids: ItemList,
}

/// Finds the types in the stream that consists of these blocks.
pub fn type_list<S: Source>(
    alloc: Global,
    source: &mut S,
    blocks: Result<StreamBlocks, StreamError>,
) -> Result<PlacesOrFault, SourceError>
    ensures answer { IfOk result (λ list. IfSome (S.bytes source.old) (λ file.
        IfOk blocks (λ blocks. length file ≡ blocks.file_length)
        → HasPlaces file list (listed_in file blocks))) }
    ensures refused { IfErr result (λ fault. fault ≡ SourceError.Unreadable
        → IsOkAnd blocks (λ blocks. S.refuses_from source.old ≤ blocks.file_length)) }
    ensures inputs { S.bytes source.new ≡ S.bytes source.old }
    ensures refusals { S.refuses_from source.new ≡ S.refuses_from source.old }
{
    match blocks {
        Ok(blocks) => match TypePlaces::read(alloc, source, blocks)? {
            Ok(places) => Ok(Ok(Some(places))),
            Err(error) => Ok(Err(error)),
        },
        Err(error) => Ok(Err(error)),
    }
}

/// Finds the ids in the stream that consists of these blocks. A file with an empty or missing stream of ids has none.
pub fn id_list<S: Source>(
    alloc: Global,
    source: &mut S,
    blocks: Result<StreamBlocks, StreamError>,
) -> Result<PlacesOrFault, SourceError>
    ensures answer { IfOk result (λ list. IfSome (S.bytes source.old) (λ file.
        IfOk blocks (λ blocks. length file ≡ blocks.file_length)
        → HasItems ids file list (ids_in (blocks_read file blocks)))) }
    ensures refused { IfErr result (λ fault. fault ≡ SourceError.Unreadable
        → IsOkAnd blocks (λ blocks. S.refuses_from source.old ≤ blocks.file_length)) }
    ensures inputs { S.bytes source.new ≡ S.bytes source.old }
    ensures refusals { S.refuses_from source.new ≡ S.refuses_from source.old }
{
    match blocks {
        Ok(blocks) if blocks.len() == 0 => Ok(Ok(None)),
        Ok(blocks) => type_list(alloc, source, Ok(blocks)),
        Err(NO_STREAM) => Ok(Ok(None)),
        Err(error) => Ok(Err(error)),
    }
}

/// Sets the mark at a position. Returns whether it is there and was not set before.
pub fn mark(marks: &mut [bool], position: usize) -> bool {
    match marks.get_mut(position) {
        Some(mark) if !*mark => {
            *mark = true;
            true
        }
        _ => false,
    }
}

/// The items with which every list begins, before those of its stream. Their `fault` says why the list ends early.
pub fn first_items<I: ItemIndex>(
    alloc: Global,
    list: &PlacesOrFault,
) -> Result<Result<ItemInformation<I, I::Data>, StreamError>, AllocError>
    ensures { IfOk result (λ information. information ≡ first_information I.meaning list.now) }
{
    let fault = match list {
        Ok(Some(places)) => places.fault(),
        Ok(None) => None,
        Err(error) => return Ok(Err(*error)),
    };
    let items = I::first_items(alloc)?;
    Ok(Ok(ItemInformation {
        items: Reading { items, fault },
    }))
}

/// Reads the marked items of a list. Before them come the items with which every list begins.
pub fn marked_items<I: ItemIndex, S: Source>(
    alloc: Global,
    source: &mut S,
    places: &TypePlaces,
    marks: &[bool],
) -> Result<ItemInformation<I, I::Data>, SourceError>
    ensures answer { IfOk result (λ items. IfSome (said_in (S.bytes source.old) places.now.records.blocks) (λ stream.
        LieIn places.now stream → items ≡ marked_items I.meaning (list_at places.now stream) marks.now)) }
    ensures inputs { S.bytes source.new ≡ S.bytes source.old }
    ensures refusals { S.refuses_from source.new ≡ S.refuses_from source.old }
{
    let mut window = RecordWindow::of_few(alloc);
    let mut items = I::first_items(alloc)?;
    for (position, marked) in marks.iter().enumerate() {
        if *marked && let Some(item) = places.item_at(alloc, source, &mut window, position)? {
            items.push(item)?;
        }
    }
    Ok(ItemInformation {
        items: Reading {
            items,
            fault: places.fault(),
        },
    })
}
