//! `RecordWindow`: a buffer for some bytes of a stream's records at a time.

ghost use Rattle.std.specs.Prelude.{◌≡◌, ◌≤◌, ◌+◌, List, ℕ, drop, length, take, true, IfErr, IfSome, OnErr, OnOk, []};
ghost use Rattle.pdb_msf.specs.StreamBlocks.{said_in};
ghost use Rattle.pdb_tpi.specs.RecordWindows.{SameRecord, Shows, records_in, shown_at};
ghost use Rattle.pdb_tpi.specs.TypeRecords.{record_len};

use pdb_msf::{Bytes, Source, SourceError, StreamBlocks, bytes_from};
use std::alloc::Global;

/// How many bytes are read at once if records are read in turn. This many fit a processor's cache.
const MANY: usize = 131_072;

/// How many bytes are read at once if single records are read.
const FEW: usize = 4096;

/// The range of a stream in which its records are.
#[derive(Drop)]
pub struct RecordRange {
    pub(crate) blocks: StreamBlocks,
    pub(crate) place: u32,
    pub(crate) length: u32,
}

/// A buffer for some bytes of a stream's records.
#[derive(Drop)]
pub struct RecordWindow {
    bytes: Vec<u8>,
    /// The offset of the first byte, from the start of the first record.
    from: usize,
    /// How many bytes are read at once.
    step: usize,
}

impl RecordWindow {
    /// An empty window for single records.
    pub fn of_few(alloc: Global) -> Self
        ensures { (records : List ℕ) → Shows records result }
    {
        RecordWindow {
            bytes: Vec::new(alloc),
            from: 0,
            step: FEW,
        }
    }

    /// An empty window for records in turn.
    pub fn of_many(alloc: Global) -> Self
        ensures { (records : List ℕ) → Shows records result }
    {
        RecordWindow {
            bytes: Vec::new(alloc),
            from: 0,
            step: MANY,
        }
    }

    /// The bytes from an offset of the records on; empty if the window doesn't have that offset.
    pub(crate) fn at(&self, place: usize) -> &[u8]
        ensures { result.now ≡ shown_at self.now place }
    {
        if place < self.from {
            return &[];
        }
        bytes_from(&self.bytes, place - self.from)
    }

    /// Makes sure that the window has the whole record at an offset, if there is one.
    pub(crate) fn show<S: Source>(
        &mut self,
        source: &mut S,
        records: &RecordRange,
        place: usize,
    ) -> Result<(), SourceError>
        ensures shows { IfSome (said_in (S.bytes source.old) records.now.blocks) (λ stream.
            Shows (records_in records.now stream) self.old → Shows (records_in records.now stream) self.new) }
        ensures same { OnOk result (IfSome (said_in (S.bytes source.old) records.now.blocks) (λ stream.
            Shows (records_in records.now stream) self.old
            → SameRecord (shown_at self.new place) (drop place (records_in records.now stream)))) }
        ensures refused { IfErr result (λ fault. fault ≡ SourceError.Unreadable
            → S.refuses_from source.old ≤ records.now.blocks.file_length) }
        ensures inputs { S.bytes source.new ≡ S.bytes source.old }
        ensures refusals { S.refuses_from source.new ≡ S.refuses_from source.old }
    {
        if self.has_whole(place) {
            return Ok(());
        }
        self.load(source, records, place, self.step.max(2))?;
        if !self.has_whole(place) {
            let size = record_size(&self.bytes);
            self.load(source, records, place, size)?;
        }
        Ok(())
    }

    // Whether the window has the whole record at an offset.
    fn has_whole(&self, place: usize) -> bool
        ensures there { result ≡ true → 2 ≤ length (shown_at self.now place) }
        ensures whole { result ≡ true
            → 2 + record_len (shown_at self.now place) ≤ length (shown_at self.now place) }
    {
        let bytes = self.at(place);
        record_size(bytes) <= bytes.len()
    }

    // Reads `count` bytes of the records from an offset on, or as many as are left.
    fn load<S: Source>(
        &mut self,
        source: &mut S,
        records: &RecordRange,
        place: usize,
        count: usize,
    ) -> Result<(), SourceError>
        ensures answer { OnOk result (IfSome (said_in (S.bytes source.old) records.now.blocks) (λ stream.
            self.new.bytes.items ≡ take count (drop place (records_in records.now stream)))) }
        ensures early { OnErr result (self.new.bytes.items ≡ []) }
        ensures place { self.new.from ≡ place }
        ensures refused { IfErr result (λ fault. fault ≡ SourceError.Unreadable
            → S.refuses_from source.old ≤ records.now.blocks.file_length) }
        ensures inputs { S.bytes source.new ≡ S.bytes source.old }
        ensures refusals { S.refuses_from source.new ≡ S.refuses_from source.old }
    {
        self.from = place;
        let count = count.min((records.length as usize).saturating_sub(place));
        let place = (records.place as usize).saturating_add(place);
        match records
            .blocks
            .read_range(source, place, count, &mut self.bytes)
        {
            Ok(()) => Ok(()),
            Err(fault) => {
                self.bytes.clear();
                Err(fault)
            }
        }
    }
}

// The size of the record at the start of these bytes, by its first two bytes.
fn record_size(bytes: &[u8]) -> usize
    ensures answer { 2 ≤ length bytes.now → result ≡ 2 + record_len bytes.now }
    ensures least { 2 ≤ result }
{
    match Bytes::new(bytes).u16() {
        Ok(length) => 2 + usize::from(length),
        Err(_) => 2,
    }
}
