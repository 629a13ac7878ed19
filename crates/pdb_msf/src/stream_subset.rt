//! `StreamSubset`: some streams of a file in memory, as a container of their own.

ghost use Rattle.std.specs.Prelude.{◌≡◌, ◌≢◌, ◌≤◌, ◌<◌, ◌+◌, ◌-◌, ◌*◌, ◌^◌, ◌++◌, ℕ, drop, length, take};
ghost use Rattle.std.specs.Prelude.{IfErr, IfOk, OnErr, OnOk};
ghost use Rattle.byteorder.specs.Endian.{little_bytes};
ghost use Rattle.pdb_msf.specs.StreamSubsets.{HoldsBlocks, no_block, number_at};
ghost use Rattle.pdb_msf.specs.Msf.{stream_of};
ghost use Rattle.pdb_msf.specs.NumberLists.{numbers};
ghost use Rattle.pdb_msf.specs.MsfLayout.{IfFile, IsSubsetOf, following, stream_at, with_bytes};
ghost use Rattle.pdb_msf.specs.Streams.{stream_inside};

use crate::block_reads::{BlockGrid, append_blocks};
use crate::directory::StreamExtent;
use crate::msf::Container;
use crate::msf_layout::MsfLayout;
use crate::source::Source;
use crate::source_error::{SourceError, part_of_source};
use crate::streams::StreamBytes;
use byteorder::{ByteOrder, LittleEndian};
use std::alloc::{AllocError, Global};
use std::marker::Model;

/// Some streams of a file in memory. Contracts see the container that they form. Its streams have the same numbers and
/// sizes as in the file. Its blocks are numbered in the order in which they were added.
#[derive(Drop)]
pub struct StreamSubset {
    blocks: Vec<u8>,
    block_size: usize,
    /// The directory of the file with new block numbers. The number of a block that wasn't added is outside the
    /// container.
    directory: Vec<u8>,
    streams: Vec<StreamExtent>,
}

impl Model for StreamSubset {
    ghost use Rattle.std.specs.Prelude.{◌≡◌, ◌≤◌, ◌+◌, ◌*◌, length, map};
    ghost use Rattle.pdb_msf.specs.Directory.{extents};
    ghost use Rattle.pdb_msf.specs.StreamSubsets.{HoldsBlocks};
    ghost use Rattle.pdb_msf.specs.Msf.{Msf};

    ghost Value = { Msf };

    ghost view = { λ e. record {
      file = e.blocks.items;
      block_size = e.block_size;
      directory = e.directory.items;
      sizes = map (λ stream. stream.size) e.streams.items;
    } };

    ghost invariant = { λ e. record {
      least : 512 ≤ e.block_size;
      most : e.block_size ≤ 32768;
      listed : e.streams.items ≡ extents e.block_size (4 + 4 * length e.streams.items)
          (map (λ stream. stream.size) e.streams.items);
      held : HoldsBlocks e.block_size e.blocks.items e.directory.items (1 + length e.streams.items);
    } };
}

impl StreamSubset {
    /// A subset without the bytes of any stream: all block numbers are outside the container.
    pub fn new(alloc: Global, map: &MsfLayout) -> Result<Self, AllocError>
        ensures { IfOk result (λ excerpt. IsSubsetOf excerpt map.now) }
    {
        let streams = Vec::from_slice(alloc, &map.streams)?;
        let mut directory = Vec::from_slice(alloc, &map.directory)?;
        number_none(&mut directory, streams.len());
        Ok(StreamSubset {
            blocks: Vec::new(alloc),
            block_size: map.grid.block_size,
            directory,
            streams,
        })
    }

    /// Adds the bytes of the stream with this number. If the stream can't be read in the file, it can't be read in the
    /// subset either. All other streams stay as they were.
    pub fn add<S: Source>(
        &mut self,
        alloc: Global,
        map: &MsfLayout,
        source: &mut S,
        number: u32,
    ) -> Result<(), SourceError>
        ensures answer { OnOk result (IsSubsetOf self.old map.now
            → IfFile (S.bytes source.old) map.now.file_length (λ file.
            stream_of self.new number ≡ stream_of (with_bytes file map.now) number)) }
        ensures others { OnOk result (IsSubsetOf self.old map.now → (other : ℕ) → other ≢ number
            → stream_of self.new other ≡ stream_of self.old other) }
        ensures kept { IsSubsetOf self.old map.now → IsSubsetOf self.new map.now }
        ensures refused { IfErr result (λ fault. fault ≡ SourceError.Unreadable
            → S.refuses_from source.old ≤ map.now.file_length) }
        ensures inputs { S.bytes source.new ≡ S.bytes source.old }
        ensures refusals { S.refuses_from source.new ≡ S.refuses_from source.old }
    {
        let Some(extent) = map.extent(number) else {
            return Ok(());
        };
        let Ok(numbers) = part_of_source(map.numbers(alloc, extent))? else {
            return Ok(());
        };
        // The blocks of both files have the same size.
        let grid = BlockGrid {
            block_size: self.block_size,
            ..map.grid
        };
        let (blocks, directory) = (&mut self.blocks, &mut self.directory);
        append_numbered(source, grid, &numbers, blocks, directory, extent.numbers)?;
        Ok(())
    }

    /// The container that the streams form.
    pub fn container(&self, alloc: Global) -> Result<Container<'_>, AllocError>
        ensures { IfOk result (λ container. container ≡ self.now) }
    {
        let streams = Vec::from_slice(alloc, &self.streams)?;
        Ok(Container {
            file: &self.blocks,
            block_size: self.block_size,
            directory: StreamBytes::InPlace(&self.directory),
            streams,
        })
    }
}

// Sets all block numbers in a directory of `streams` streams to one that is outside every file.
fn number_none(directory: &mut [u8], streams: usize)
    ensures none { (place : ℕ) → streams < place → 4 * place + 4 ≤ length directory.new
        → number_at directory.new place ≡ no_block }
    ensures length { length directory.new ≡ length directory.old }
{
    let front = 4_usize.saturating_add(4_usize.saturating_mul(streams));
    if front < directory.len() {
        directory[front..].fill(0xff);
    }
}

// Appends blocks of a file to those of the subset, and writes their new numbers at an offset of its directory, if they
// fit. If one of the blocks is outside the file, the first number is set outside the subset.
fn append_numbered<S: Source>(
    source: &mut S,
    grid: BlockGrid,
    numbers: &[u32],
    blocks: &mut Vec<u8>,
    directory: &mut [u8],
    place: usize,
) -> Result<(), SourceError>
    requires least { 512 ≤ grid.block_size }
    requires most { grid.block_size ≤ 32768 }
    ensures answer { OnOk result (4 * length numbers.now ≤ length directory.old - place
        → IfFile (S.bytes source.old) grid.file_length (λ file. (size : ℕ)
        → stream_at grid.block_size blocks.new.items directory.new place (length numbers.now) size
        ≡ stream_inside grid.block_size file size numbers.now)) }
    ensures held { (row front : ℕ) → place ≡ 4 * row
        → HoldsBlocks grid.block_size blocks.old.items directory.old front
        → HoldsBlocks grid.block_size blocks.new.items directory.new front }
    ensures begins { take (length blocks.old.items) blocks.new.items ≡ blocks.old.items }
    ensures before { take place directory.new ≡ take place directory.old }
    ensures behind { drop (place + 4 * length numbers.now) directory.new
        ≡ drop (place + 4 * length numbers.now) directory.old }
    ensures length { length directory.new ≡ length directory.old }
    ensures refused { IfErr result (λ fault. fault ≡ SourceError.Unreadable
        → S.refuses_from source.old ≤ grid.file_length) }
    ensures inputs { S.bytes source.new ≡ S.bytes source.old }
    ensures refusals { S.refuses_from source.new ≡ S.refuses_from source.old }
{
    let count = numbers.len();
    if directory.len().saturating_sub(place) / 4 < count {
        return Ok(());
    }
    let first = fill_up(blocks, grid.block_size, count)?;
    if !grid.has_all(numbers) {
        write_numbers(directory, place, u32::MAX as usize, count.min(1));
        return Ok(());
    }
    append_blocks(source, grid, numbers, blocks)?;
    write_numbers(directory, place, first, count);
    Ok(())
}

// Pads the last block. Returns the number of blocks, if `count` more can be numbered after them.
#[tactic(auto, using(crate::proofs::BlockLemmas::start_below))]
fn fill_up(blocks: &mut Vec<u8>, block_size: usize, count: usize) -> Result<usize, SourceError>
    requires least { 512 ≤ block_size }
    requires most { block_size ≤ 32768 }
    ensures whole { IfOk result (λ first. length blocks.new.items ≡ first * block_size) }
    ensures bound { IfOk result (λ first. first + count < 2 ^ 32) }
    ensures begins { take (length blocks.old.items) blocks.new.items ≡ blocks.old.items }
    ensures unchanged { OnErr result (blocks.new.items ≡ blocks.old.items) }
    ensures memory { IfErr result (λ fault. fault ≡ SourceError.OutOfMemory) }
{
    let first = blocks.len().div_ceil(block_size);
    if first.saturating_add(count) > u32::MAX as usize {
        return Err(SourceError::OutOfMemory);
    }
    blocks.resize(first * block_size, 0)?;
    Ok(first)
}

// Writes `count` consecutive numbers from `first` on, four bytes each, at an offset.
fn write_numbers(directory: &mut [u8], place: usize, first: usize, count: usize)
    requires room { 4 * count ≤ length directory.old - place }
    requires small { first + count ≤ 2 ^ 32 }
    ensures answer { numbers count (drop place directory.new) ≡ following first count }
    ensures before { take place directory.new ≡ take place directory.old }
    ensures behind { drop (place + 4 * count) directory.new ≡ drop (place + 4 * count) directory.old }
    ensures length { length directory.new ≡ length directory.old }
{
    for position in (0..count).rev() {
        write_number(directory, place + 4 * position, (first + position) as u32);
    }
}

// Writes a four-byte number at an offset.
fn write_number(directory: &mut [u8], place: usize, number: u32)
    requires { place + 4 ≤ length directory.old }
    ensures answer { drop place directory.new ≡ little_bytes 4 number ++ drop 4 (drop place directory.old) }
    ensures before { take place directory.new ≡ take place directory.old }
    ensures length { length directory.new ≡ length directory.old }
{
    LittleEndian::write_u32(&mut directory[place..], number);
}
