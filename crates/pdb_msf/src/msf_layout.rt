//! `MsfLayout`: which blocks make up each stream of a file that is read through a source.

ghost use Rattle.std.specs.Prelude.{◌≡◌, ◌≤◌, ◌+◌, List, ℕ, drop, length, take, IfErr, IfOk, IfSome, MatchOption};
ghost use Rattle.std.specs.Prelude.{OnOk};
ghost use Rattle.std.specs.Int.{div_ceil};
ghost use Rattle.pdb_msf.specs.Directory.{block_map, directory};
ghost use Rattle.pdb_msf.specs.Faults.{Gives, cut_short};
ghost use Rattle.pdb_msf.specs.Msf.{container, numbers_place, size_of, stream_of};
ghost use Rattle.pdb_msf.specs.NumberLists.{listed};
ghost use Rattle.pdb_msf.specs.StreamBlocks.{blocks_read};
ghost use Rattle.pdb_msf.specs.MsfLayout.{IfFile, Reads, bytes_read, with_bytes};
ghost use Rattle.pdb_msf.specs.Superblock.{superblock};

use crate::block_reads::{BlockGrid, read_blocks};
use crate::bytes::Bytes;
use crate::container_error::ContainerError;
use crate::directory::{
    ABSENT, BLOCK_MAP, StreamExtent, block_numbers, blocks_over, list_extents, read_sizes,
    sizes_fit,
};
use crate::faults::{Fault, NO_STREAM};
use crate::msf::extent_at;
use crate::number_lists::take_numbers;
use crate::source::Source;
use crate::source_error::{OpenError, SourceError, part_of_source};
use crate::stream_blocks::StreamBlocks;
use crate::superblock::{SUPERBLOCK, Superblock, read_superblock};
use pdb_records::StreamError;
use std::alloc::Global;
use std::marker::Model;

/// Which blocks make up each stream of a file that is read through a source.
#[derive(Drop)]
pub struct MsfLayout {
    pub(crate) grid: BlockGrid,
    pub(crate) directory: Vec<u8>,
    pub(crate) streams: Vec<StreamExtent>,
}

impl Model for MsfLayout {
    ghost use Rattle.std.specs.Prelude.{◌≡◌, ◌≤◌, ◌+◌, ◌*◌, length, map};
    ghost use Rattle.pdb_msf.specs.Directory.{extents};
    ghost use Rattle.pdb_msf.specs.MsfLayout.{MappedFile};

    ghost Value = { MappedFile };

    ghost view = { λ m. record {
      file_length = m.grid.file_length;
      block_size = m.grid.block_size;
      directory = m.directory.items;
      sizes = map (λ stream. stream.size) m.streams.items;
    } };

    ghost invariant = { λ m. record {
      least : 512 ≤ m.grid.block_size;
      most : m.grid.block_size ≤ 32768;
      listed : m.streams.items ≡ extents m.grid.block_size (4 + 4 * length m.streams.items)
          (map (λ stream. stream.size) m.streams.items);
    } };
}

impl MsfLayout {
    /// Reads the directory of a file of this length, or says why it can't be read.
    #[tactic(auto, using(crate::proofs::ExtentLemmas::opened), unfolding(crate::specs::Msf::container))]
    pub fn read<S: Source>(
        alloc: Global,
        source: &mut S,
        file_length: usize,
    ) -> Result<Self, OpenError>
        ensures answer { IfFile (S.bytes source.old) file_length (λ file.
            Reads (λ map. with_bytes file map) result (container file)) }
        ensures length { IfOk result (λ map. map.file_length ≡ file_length) }
        ensures refused { IfErr result (λ fault. fault ≡ OpenError.Unreadable
            → S.refuses_from source.old ≤ file_length) }
        ensures inputs { S.bytes source.new ≡ S.bytes source.old }
        ensures refusals { S.refuses_from source.new ≡ S.refuses_from source.old }
    {
        let superblock = read_front(alloc, source, file_length)?;
        let grid = BlockGrid {
            file_length,
            block_size: superblock.block_size,
        };
        let directory = read_directory(alloc, source, grid, superblock)?;
        let sizes = read_sizes(alloc, &directory)?;
        if !sizes_fit(&sizes, file_length) {
            return Err(OpenError::Container(ContainerError::StreamsTooLong));
        }
        let streams = list_extents(alloc, &sizes, superblock.block_size)?;
        Ok(MsfLayout {
            grid,
            directory,
            streams,
        })
    }

    /// The length of the file.
    pub fn file_length(&self) -> usize
        ensures { result ≡ self.now.file_length }
    {
        self.grid.file_length
    }

    /// Reads the bytes of the stream with this number, or says why they can't be read.
    #[tactic(auto, unfolding(crate::specs::Msf::stream_of))]
    pub fn load<S: Source>(
        &self,
        alloc: Global,
        source: &mut S,
        number: u32,
    ) -> Result<Result<Vec<u8>, StreamError>, SourceError>
        ensures answer { IfOk result (λ answer. IfFile (S.bytes source.old) self.now.file_length (λ file.
            stream_of (with_bytes file self.now) number ≡ bytes_read answer)) }
        ensures refused { IfErr result (λ fault. fault ≡ SourceError.Unreadable
            → S.refuses_from source.old ≤ self.now.file_length) }
        ensures inputs { S.bytes source.new ≡ S.bytes source.old }
        ensures refusals { S.refuses_from source.new ≡ S.refuses_from source.old }
    {
        let Some(extent) = self.extent(number) else {
            return Ok(Err(NO_STREAM));
        };
        match part_of_source(self.numbers(alloc, extent))? {
            Ok(blocks) => read_blocks(alloc, source, self.grid, extent.size as usize, &blocks),
            Err(error) => Ok(Err(error)),
        }
    }

    /// The blocks of the stream with this number, or why it can't be read.
    #[tactic(auto, using(crate::proofs::SizeLemmas::block_bounds), unfolding(crate::specs::Msf::stream_of))]
    pub fn blocks(
        &self,
        alloc: Global,
        number: u32,
    ) -> Result<Result<StreamBlocks, StreamError>, SourceError>
        ensures answer { IfOk result (λ answer. (file : List ℕ) → length file ≡ self.now.file_length
            → stream_of (with_bytes file self.now) number ≡ blocks_read file answer) }
        ensures length { IfOk result (λ answer. IfOk answer (λ blocks. blocks.file_length ≡ self.now.file_length)) }
        ensures memory { IfErr result (λ fault. fault ≡ SourceError.OutOfMemory) }
    {
        match self.extent(number) {
            Some(extent) => match part_of_source(self.numbers(alloc, extent))? {
                Ok(numbers) => Ok(StreamBlocks::new(self.grid, numbers, extent.size)),
                Err(error) => Ok(Err(error)),
            },
            None => Ok(Err(NO_STREAM)),
        }
    }

    // The block numbers of a stream.
    pub(crate) fn numbers(&self, alloc: Global, extent: StreamExtent) -> Result<Vec<u32>, Fault>
        ensures answer { Gives (λ numbers. numbers.items) result
            (listed (div_ceil extent.size self.now.block_size) (drop extent.numbers self.now.directory)) }
        ensures count { IfOk result (λ numbers. length numbers.items ≡ div_ceil extent.size self.now.block_size) }
    {
        block_numbers(alloc, &self.directory, self.grid.block_size, extent)
    }

    // The directory's entry of the stream with this number, if it exists.
    #[tactic(auto, unfolding(crate::specs::Msf::size_of))]
    pub(crate) fn extent(&self, number: u32) -> Option<StreamExtent>
        ensures size { (file : List ℕ) → MatchOption result
            (size_of (with_bytes file self.now) number ≡ Err NO_STREAM)
            (λ extent. size_of (with_bytes file self.now) number ≡ Ok extent.size) }
        ensures place { IfSome result (λ extent. (file : List ℕ)
            → extent.numbers ≡ numbers_place (with_bytes file self.now) number) }
    {
        let extent = extent_at(&self.streams, number)?;
        if extent.size == ABSENT {
            return None;
        }
        Some(extent)
    }
}

// Reads the superblock of a file of this length.
#[tactic(auto, using(crate::proofs::FrontLemmas::superblock_of_read))]
fn read_front<S: Source>(
    alloc: Global,
    source: &mut S,
    file_length: usize,
) -> Result<Superblock, OpenError>
    ensures answer { IfFile (S.bytes source.old) file_length (λ file.
        Reads (λ front. front) result (superblock file)) }
    ensures refused { IfErr result (λ fault. fault ≡ OpenError.Unreadable
        → S.refuses_from source.old ≤ file_length) }
    ensures inputs { S.bytes source.new ≡ S.bytes source.old }
    ensures refusals { S.refuses_from source.new ≡ S.refuses_from source.old }
    ensures least { IfOk result (λ front. 512 ≤ front.block_size) }
    ensures most { IfOk result (λ front. front.block_size ≤ 32768) }
    ensures long { OnOk result (56 ≤ file_length) }
{
    let front = read_range(alloc, source, 0, file_length.min(SUPERBLOCK))?;
    Ok(read_superblock(&front)?)
}

// Reads `count` bytes of the file from the offset `place` on.
fn read_range<S: Source>(
    alloc: Global,
    source: &mut S,
    place: usize,
    count: usize,
) -> Result<Vec<u8>, SourceError>
    ensures answer { IfOk result (λ bytes. IfSome (S.bytes source.old) (λ file.
        bytes.items ≡ take count (drop place file))) }
    ensures length { IfOk result (λ bytes. length bytes.items ≡ count) }
    ensures refused { IfErr result (λ fault. fault ≡ SourceError.Unreadable
        → S.refuses_from source.old ≤ place + count) }
    ensures inputs { S.bytes source.new ≡ S.bytes source.old }
    ensures refusals { S.refuses_from source.new ≡ S.refuses_from source.old }
{
    let mut bytes = Vec::new(alloc);
    bytes.resize(count, 0)?;
    source.read_exact_at(&mut bytes, place)?;
    Ok(bytes)
}

// Reads the directory's bytes.
#[tactic(auto, unfolding(crate::specs::Directory::directory))]
fn read_directory<S: Source>(
    alloc: Global,
    source: &mut S,
    grid: BlockGrid,
    superblock: Superblock,
) -> Result<Vec<u8>, OpenError>
    requires least { 512 ≤ grid.block_size }
    requires most { grid.block_size ≤ 32768 }
    requires same { grid.block_size ≡ superblock.block_size }
    requires long { 52 ≤ grid.file_length }
    ensures answer { IfFile (S.bytes source.old) grid.file_length (λ file.
        Reads (λ bytes. bytes.items) result (cut_short (directory superblock file))) }
    ensures refused { IfErr result (λ fault. fault ≡ OpenError.Unreadable
        → S.refuses_from source.old ≤ grid.file_length) }
    ensures inputs { S.bytes source.new ≡ S.bytes source.old }
    ensures refusals { S.refuses_from source.new ≡ S.refuses_from source.old }
{
    let size = superblock.directory_size as usize;
    if grid.file_length < size {
        return Err(OpenError::Container(ContainerError::CutShort));
    }
    let blocks = read_block_map(alloc, source, grid, superblock)?;
    let directory = read_blocks(alloc, source, grid, size, &blocks)?;
    Ok(directory.map_err(Fault::Broken)?)
}

// Reads the block map: the numbers of the directory's blocks.
#[tactic(auto, unfolding(crate::specs::Directory::block_map))]
fn read_block_map<S: Source>(
    alloc: Global,
    source: &mut S,
    grid: BlockGrid,
    superblock: Superblock,
) -> Result<Vec<u32>, OpenError>
    requires least { 512 ≤ grid.block_size }
    requires most { grid.block_size ≤ 32768 }
    requires same { grid.block_size ≡ superblock.block_size }
    requires long { 52 ≤ grid.file_length }
    ensures answer { IfFile (S.bytes source.old) grid.file_length (λ file.
        Reads (λ numbers. numbers.items) result (cut_short (block_map superblock file))) }
    ensures refused { IfErr result (λ fault. fault ≡ OpenError.Unreadable
        → S.refuses_from source.old ≤ grid.file_length) }
    ensures inputs { S.bytes source.new ≡ S.bytes source.old }
    ensures refusals { S.refuses_from source.new ≡ S.refuses_from source.old }
{
    let count = blocks_over(superblock.directory_size, grid.block_size);
    let size = 4 * count;
    let blocks = read_map_blocks(alloc, source, grid, size.div_ceil(grid.block_size))?;
    let map = read_blocks(alloc, source, grid, size, &blocks)?.map_err(Fault::Broken)?;
    Ok(take_numbers(alloc, &mut Bytes::new(&map), count)?)
}

// Reads the numbers of the block map's own blocks, which are `count`.
#[tactic(auto, using(crate::proofs::FrontLemmas::listed_of_taken))]
fn read_map_blocks<S: Source>(
    alloc: Global,
    source: &mut S,
    grid: BlockGrid,
    count: usize,
) -> Result<Vec<u32>, OpenError>
    requires few { count ≤ 33554432 }
    requires long { 52 ≤ grid.file_length }
    ensures answer { IfFile (S.bytes source.old) grid.file_length (λ file.
        Reads (λ numbers. numbers.items) result (cut_short (listed count (drop 52 file)))) }
    ensures refused { IfErr result (λ fault. fault ≡ OpenError.Unreadable
        → S.refuses_from source.old ≤ grid.file_length) }
    ensures inputs { S.bytes source.new ≡ S.bytes source.old }
    ensures refusals { S.refuses_from source.new ≡ S.refuses_from source.old }
{
    if grid.file_length.saturating_sub(BLOCK_MAP) < 4 * count {
        return Err(OpenError::Container(ContainerError::CutShort));
    }
    let front = read_range(alloc, source, BLOCK_MAP, 4 * count)?;
    Ok(take_numbers(alloc, &mut Bytes::new(&front), count)?)
}
