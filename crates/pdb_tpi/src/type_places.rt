//! `TypePlaces`: where each record of a stream of types or ids starts.

ghost use Rattle.std.specs.Prelude.{◌≡◌, ◌≤◌, length, slice_get, IfErr, IfOk, IfSome, OnOk};
ghost use Rattle.pdb_msf.specs.ItemLists.{all_items};
ghost use Rattle.pdb_msf.specs.StreamBlocks.{said_in};
ghost use Rattle.pdb_tpi.specs.TypeStreamHeader.{type_header};
ghost use Rattle.pdb_tpi.specs.ItemStreams.{index_at, item_at, list_items, stream_items};
ghost use Rattle.pdb_tpi.specs.RecordWindows.{Shows, records_in};
ghost use Rattle.pdb_tpi.specs.TypePlaces.{IsListIn, LieIn, defines_at, early_end, list_at, position_shown};
ghost use Rattle.pdb_tpi.specs.TypeRecords.{next_start};

use crate::aggregate_leaves::is_definition;
use crate::item_streams::ItemIndex;
use crate::record_window::{RecordRange, RecordWindow};
use crate::type_records::{TypeRecord, take_record};
use crate::type_stream_header::{HEADER, TypeHeader, header_of};
use pdb_msf::faults::CUT;
use pdb_msf::{Bytes, Source, SourceError, StreamBlocks, offset_of};
use pdb_records::{Item, ItemInformation, Reading, StreamError};
use std::alloc::Global;

/// Where the records of a stream of types or ids start. Their bytes stay in the file. Each call that needs a record
/// reads its bytes again, through a window.
#[derive(Drop)]
pub struct TypePlaces {
    records: RecordRange,
    first: u32,
    /// The offset of each record from the first one, and why the records end early, if they do.
    starts: Reading<u32>,
}

impl TypePlaces {
    /// Finds the records of types or ids in the stream with these blocks.
    ///
    /// The inner error is [`CUT`](pdb_msf::faults::CUT) if the stream ends in the header,
    /// [`UNKNOWN_VERSION`](pdb_msf::faults::UNKNOWN_VERSION) if its version isn't 20040203, and
    /// [`POINTS_NOWHERE`](pdb_msf::faults::POINTS_NOWHERE) if the stream is shorter than the size of the header that it
    /// gives.
    pub fn read<S: Source>(
        alloc: Global,
        source: &mut S,
        blocks: StreamBlocks,
    ) -> Result<Result<Self, StreamError>, SourceError>
        ensures answer { IfOk result (λ answer. IfSome (said_in (S.bytes source.old) blocks) (λ stream.
            IsListIn stream answer)) }
        ensures blocks { IfOk result (λ answer. IfOk answer (λ places. places.records.blocks ≡ blocks)) }
        ensures refused { IfErr result (λ fault. fault ≡ SourceError.Unreadable
            → S.refuses_from source.old ≤ blocks.file_length) }
        ensures inputs { S.bytes source.new ≡ S.bytes source.old }
        ensures refusals { S.refuses_from source.new ≡ S.refuses_from source.old }
    {
        let header = match read_front(alloc, source, &blocks)? {
            Ok(header) => header,
            Err(error) => return Ok(Err(error)),
        };
        let left = blocks.len().saturating_sub(header.header_size as usize);
        let wanted = header.type_record_bytes as usize;
        let records = RecordRange {
            blocks,
            place: header.header_size,
            length: left.min(wanted) as u32,
        };
        let mut starts = read_starts(alloc, source, &records)?;
        starts.fault = starts.fault.or(early_end(left, wanted));
        Ok(Ok(TypePlaces {
            records,
            first: header.type_index_begin,
            starts,
        }))
    }

    /// The number of records.
    pub fn len(&self) -> usize
        ensures { result ≡ length self.now.starts.items }
    {
        self.starts.items.len()
    }

    /// The index of the first record.
    pub fn first(&self) -> u32
        ensures { result ≡ self.now.first }
    {
        self.first
    }

    /// Why the records end early, if they do: the last one is cut off, or is too short for its kind.
    pub fn fault(&self) -> Option<StreamError>
        ensures { result ≡ self.now.starts.fault }
    {
        self.starts.fault
    }

    /// Whether the record at a position is a class or a union, and not only a forward reference to one. The record is
    /// only read into the window.
    pub fn is_definition<S: Source>(
        &self,
        source: &mut S,
        window: &mut RecordWindow,
        position: usize,
    ) -> Result<bool, SourceError>
        ensures answer { IfOk result (λ answer. IfSome (said_in (S.bytes source.old) self.now.records.blocks) (λ stream.
            LieIn self.now stream → Shows (records_in self.now.records stream) window.old
            → answer ≡ defines_at (list_at self.now stream) position)) }
        ensures shows { IfSome (said_in (S.bytes source.old) self.now.records.blocks) (λ stream.
            Shows (records_in self.now.records stream) window.old
            → Shows (records_in self.now.records stream) window.new) }
        ensures refused { IfErr result (λ fault. fault ≡ SourceError.Unreadable
            → S.refuses_from source.old ≤ self.now.records.blocks.file_length) }
        ensures inputs { S.bytes source.new ≡ S.bytes source.old }
        ensures refusals { S.refuses_from source.new ≡ S.refuses_from source.old }
    {
        self.show(source, window, position)?;
        match self.shown(window, position) {
            Some(record) => Ok(is_definition(record.kind, record.content)),
            None => Ok(false),
        }
    }

    /// Reads all items. Before them come the items with which every list begins.
    pub fn all_items<I: ItemIndex, S: Source>(
        &self,
        alloc: Global,
        source: &mut S,
    ) -> Result<ItemInformation<I, I::Data>, SourceError>
        ensures answer { IfOk result (λ items. IfSome (said_in (S.bytes source.old) self.now.records.blocks) (λ stream.
            LieIn self.now stream → items ≡ list_items I.meaning (list_at self.now stream))) }
        ensures refused { IfErr result (λ fault. fault ≡ SourceError.Unreadable
            → S.refuses_from source.old ≤ self.now.records.blocks.file_length) }
        ensures inputs { S.bytes source.new ≡ S.bytes source.old }
        ensures refusals { S.refuses_from source.new ≡ S.refuses_from source.old }
    {
        let mut window = RecordWindow::of_many(alloc);
        let mut items = I::first_items(alloc)?;
        items.reserve(self.len())?;
        for position in 0..self.len() {
            if let Some(item) = self.item_at(alloc, source, &mut window, position)? {
                items.push(item)?;
            }
        }
        Ok(ItemInformation {
            items: Reading {
                items,
                fault: self.fault(),
            },
        })
    }

    /// Reads the item at a position; `None` after the last one. A record that can't be read becomes an item with an
    /// error.
    pub fn item_at<I: ItemIndex, S: Source>(
        &self,
        alloc: Global,
        source: &mut S,
        window: &mut RecordWindow,
        position: usize,
    ) -> Result<Option<Item<I, I::Data>>, SourceError>
        ensures answer { IfOk result (λ item. IfSome (said_in (S.bytes source.old) self.now.records.blocks) (λ stream.
            LieIn self.now stream → Shows (records_in self.now.records stream) window.old
            → item ≡ item_at I.meaning (list_at self.now stream) position)) }
        ensures shows { IfSome (said_in (S.bytes source.old) self.now.records.blocks) (λ stream.
            Shows (records_in self.now.records stream) window.old
            → Shows (records_in self.now.records stream) window.new) }
        ensures refused { IfErr result (λ fault. fault ≡ SourceError.Unreadable
            → S.refuses_from source.old ≤ self.now.records.blocks.file_length) }
        ensures inputs { S.bytes source.new ≡ S.bytes source.old }
        ensures refusals { S.refuses_from source.new ≡ S.refuses_from source.old }
    {
        self.show(source, window, position)?;
        let Some(record) = self.shown(window, position) else {
            return Ok(None);
        };
        Ok(Some(Item {
            index: I::of_number(self.index_at(position)),
            content: I::content(alloc, record.kind, record.content)?,
        }))
    }

    // The index of the record at a position.
    fn index_at(&self, position: usize) -> u32
        ensures { result ≡ index_at self.now.first position }
    {
        let position = u32::try_from(position).unwrap_or(u32::MAX);
        self.first.saturating_add(position)
    }

    // Reads the record at a position into a window, if there is one.
    fn show<S: Source>(
        &self,
        source: &mut S,
        window: &mut RecordWindow,
        position: usize,
    ) -> Result<(), SourceError>
        ensures shows { IfSome (said_in (S.bytes source.old) self.now.records.blocks) (λ stream.
            Shows (records_in self.now.records stream) window.old
            → Shows (records_in self.now.records stream) window.new) }
        ensures record { OnOk result (IfSome (said_in (S.bytes source.old) self.now.records.blocks) (λ stream.
            LieIn self.now stream → Shows (records_in self.now.records stream) window.old
            → position_shown self.now window.new position
            ≡ slice_get (list_at self.now stream).records position)) }
        ensures refused { IfErr result (λ fault. fault ≡ SourceError.Unreadable
            → S.refuses_from source.old ≤ self.now.records.blocks.file_length) }
        ensures inputs { S.bytes source.new ≡ S.bytes source.old }
        ensures refusals { S.refuses_from source.new ≡ S.refuses_from source.old }
    {
        match self.start_of(position) {
            Some(start) => window.show(source, &self.records, start as usize),
            None => Ok(()),
        }
    }

    // The offset of the record at a position.
    fn start_of(&self, position: usize) -> Option<u32>
        ensures { result ≡ slice_get self.now.starts.items position }
    {
        self.starts.items.get(position).copied()
    }

    // The record at a position, from the window's bytes.
    fn shown<'w>(&self, window: &'w RecordWindow, position: usize) -> Option<TypeRecord<'w>>
        ensures { result ≡ position_shown self.now window.now position }
    {
        let start = self.start_of(position)?;
        take_record(&mut Bytes::new(window.at(start as usize))).ok()
    }
}

/// Reads all items of the stream in these blocks. The errors are those of [`TypePlaces::read`].
pub fn read_items<I: ItemIndex, S: Source>(
    alloc: Global,
    source: &mut S,
    blocks: StreamBlocks,
) -> Result<Result<ItemInformation<I, I::Data>, StreamError>, SourceError>
    ensures answer { IfOk result (λ items. IfSome (said_in (S.bytes source.old) blocks) (λ stream.
        items ≡ stream_items I.meaning stream)) }
    ensures refused { IfErr result (λ fault. fault ≡ SourceError.Unreadable
        → S.refuses_from source.old ≤ blocks.file_length) }
{
    match TypePlaces::read(alloc, source, blocks)? {
        Ok(places) => Ok(Ok(places.all_items(alloc, source)?)),
        Err(error) => Ok(Err(error)),
    }
}

// Reads the header of the stream in these blocks.
fn read_front<S: Source>(
    alloc: Global,
    source: &mut S,
    blocks: &StreamBlocks,
) -> Result<Result<TypeHeader, StreamError>, SourceError>
    ensures answer { IfOk result (λ answer. IfSome (said_in (S.bytes source.old) blocks.now) (λ stream.
        answer ≡ type_header stream)) }
    ensures refused { IfErr result (λ fault. fault ≡ SourceError.Unreadable
        → S.refuses_from source.old ≤ blocks.now.file_length) }
    ensures inputs { S.bytes source.new ≡ S.bytes source.old }
    ensures refusals { S.refuses_from source.new ≡ S.refuses_from source.old }
{
    let mut front = Vec::new(alloc);
    blocks.read_range(source, 0, HEADER, &mut front)?;
    Ok(header_of(&front, blocks.len()))
}

// Finds the offset of each record from the first one.
fn read_starts<S: Source>(
    alloc: Global,
    source: &mut S,
    records: &RecordRange,
) -> Result<Reading<u32>, SourceError>
    ensures answer { IfOk result (λ starts. IfSome (said_in (S.bytes source.old) records.now.blocks) (λ stream.
        length (records_in records.now stream) ≡ records.now.length
        → starts ≡ all_items (next_start (length (records_in records.now stream))) (records_in records.now stream))) }
    ensures refused { IfErr result (λ fault. fault ≡ SourceError.Unreadable
        → S.refuses_from source.old ≤ records.now.blocks.file_length) }
    ensures inputs { S.bytes source.new ≡ S.bytes source.old }
    ensures refusals { S.refuses_from source.new ≡ S.refuses_from source.old }
{
    let mut window = RecordWindow::of_many(alloc);
    let mut starts = Vec::new(alloc);
    let mut place = 0_usize;
    for _ in 0..records.length {
        window.show(source, records, place)?;
        let mut rest = Bytes::new(window.at(place));
        let left = rest.len();
        if left == 0 {
            return Ok(Reading {
                items: starts,
                fault: None,
            });
        }
        match take_record(&mut rest) {
            Ok(_) => {
                starts.push(offset_of(place, 0))?;
                place = place.saturating_add(left - rest.len());
            }
            Err(error) => return Ok(Reading {
                items: starts,
                fault: Some(error),
            }),
        }
    }
    Ok(Reading {
        items: starts,
        fault: None,
    })
}

// The fault if there are fewer bytes than wanted.
fn early_end(there: usize, wanted: usize) -> Option<StreamError>
    ensures { result ≡ early_end there wanted }
{
    if there < wanted { Some(CUT) } else { None }
}
