//! `Container`: a PDB file in memory with its superblock, its directory and its streams.

ghost use Rattle.std.specs.Prelude.{◌≡◌, ◌≤◌, length, slice_get, IfOk, MatchResult};
ghost use Rattle.std.specs.Result.{result_ok};
ghost use Rattle.pdb_msf.specs.Faults.{Gives, Opens};
ghost use Rattle.pdb_msf.specs.Msf.{container, numbers_place, size_of, stream_of};
ghost use Rattle.pdb_msf.specs.StreamBlocks.{stream_in};
ghost use Rattle.pdb_msf.specs.Streams.{bytes_of};

use crate::block_reads::BlockGrid;
use crate::container_error::ContainerError;
use crate::directory::{
    ABSENT, StreamExtent, block_numbers, list_extents, read_directory, read_sizes, sizes_fit,
};
use crate::faults::{Fault, NO_STREAM};
use crate::source::{RangeError, Source};
use crate::stream_blocks::StreamBlocks;
use crate::streams::{StreamBytes, read_stream};
use crate::superblock::read_superblock;
use pdb_records::StreamError;
use std::alloc::Global;
use std::marker::Model;

/// A file with its streams. Contracts see the container that the file's bytes define.
#[derive(Drop)]
pub struct Container<'a> {
    pub(crate) file: &'a [u8],
    pub(crate) block_size: usize,
    pub(crate) directory: StreamBytes<'a>,
    pub(crate) streams: Vec<StreamExtent>,
}

impl<'a> Model for Container<'a> {
    ghost use Rattle.std.specs.Prelude.{◌≡◌, ◌≤◌, ◌+◌, ◌*◌, length, map};
    ghost use Rattle.pdb_msf.specs.Directory.{extents};
    ghost use Rattle.pdb_msf.specs.Msf.{Msf};
    ghost use Rattle.pdb_msf.specs.Streams.{bytes_of};

    ghost Value = { Msf };

    ghost view = { λ c. record {
      file = c.file.now;
      block_size = c.block_size;
      directory = bytes_of c.directory;
      sizes = map (λ stream. stream.size) c.streams.items;
    } };

    ghost invariant = { λ c. record {
      least : 512 ≤ c.block_size;
      most : c.block_size ≤ 32768;
      listed : c.streams.items ≡ extents c.block_size (4 + 4 * length c.streams.items)
          (map (λ stream. stream.size) c.streams.items);
    } };
}

impl<'a> Container<'a> {
    /// Opens a file, or says why it can't be read as a whole.
    #[tactic(auto, using(crate::proofs::ExtentLemmas::opened), unfolding(crate::specs::Msf::container))]
    pub fn open(alloc: Global, file: &'a [u8]) -> Result<Self, ContainerError>
        ensures { Opens (λ opened. opened) result (container file.now) }
    {
        let superblock = read_superblock(file)?;
        let directory = read_directory(alloc, file, superblock)?;
        let sizes = read_sizes(alloc, directory.as_slice())?;
        if !sizes_fit(&sizes, file.len()) {
            return Err(ContainerError::StreamsTooLong);
        }
        let streams = list_extents(alloc, &sizes, superblock.block_size)?;
        Ok(Container {
            file,
            block_size: superblock.block_size,
            directory,
            streams,
        })
    }

    /// The bytes of the file.
    pub fn file(&self) -> &'a [u8]
        ensures { result.now ≡ self.now.file }
    {
        self.file
    }

    /// The length of the file.
    pub fn file_length(&self) -> usize
        ensures { result ≡ length self.now.file }
    {
        self.file.len()
    }

    /// The size of the stream with this number, if it exists.
    pub fn stream_size(&self, number: u32) -> Option<u32>
        ensures { result ≡ result_ok (size_of self.now number) }
    {
        match self.extent(number) {
            Ok(extent) => Some(extent.size),
            Err(_) => None,
        }
    }

    /// The bytes of the stream with this number. The result doesn't depend on earlier calls.
    #[tactic(auto, using(crate::proofs::SizeLemmas::stream_size), unfolding(crate::specs::Msf::stream_of))]
    pub fn stream(&self, alloc: Global, number: u32) -> Result<StreamBytes<'a>, Fault>
        ensures answer { Gives bytes_of result (stream_of self.now number) }
        ensures size { IfOk result (λ bytes. size_of self.now number ≡ Ok (length (bytes_of bytes))) }
    {
        let extent = self.extent(number)?;
        let blocks = block_numbers(alloc, self.directory.as_slice(), self.block_size, extent)?;
        read_stream(
            alloc,
            self.file,
            self.block_size,
            extent.size as usize,
            &blocks,
        )
    }

    /// The blocks of the stream with this number.
    #[tactic(auto, using(crate::proofs::SizeLemmas::block_bounds), unfolding(crate::specs::Msf::stream_of))]
    pub fn blocks(&self, alloc: Global, number: u32) -> Result<StreamBlocks, Fault>
        ensures answer { Gives (λ blocks. stream_in self.now.file blocks) result (stream_of self.now number) }
        ensures length { IfOk result (λ blocks. blocks.file_length ≡ length self.now.file) }
    {
        let extent = self.extent(number)?;
        let numbers = block_numbers(alloc, self.directory.as_slice(), self.block_size, extent)?;
        let grid = BlockGrid {
            file_length: self.file.len(),
            block_size: self.block_size,
        };
        Ok(StreamBlocks::new(grid, numbers, extent.size)?)
    }

    // The directory's entry of the stream with this number.
    #[tactic(auto, unfolding(crate::specs::Msf::size_of))]
    fn extent(&self, number: u32) -> Result<StreamExtent, StreamError>
        ensures size { MatchResult result (λ extent. size_of self.now number ≡ Ok extent.size)
            (λ error. size_of self.now number ≡ Err error) }
        ensures place { IfOk result (λ extent. extent.numbers ≡ numbers_place self.now number) }
        ensures least { 512 ≤ self.now.block_size }
        ensures most { self.now.block_size ≤ 32768 }
    {
        let Some(extent) = extent_at(&self.streams, number) else {
            return Err(NO_STREAM);
        };
        if extent.size == ABSENT {
            return Err(NO_STREAM);
        }
        Ok(extent)
    }
}

impl<'a> Source for Container<'a> {
    ghost use Rattle.std.specs.Prelude.{Some, ◌+◌, length};

    ghost bytes = { λ container. Some container.file };

    ghost refuses_from = { λ container. length container.file + 1 };

    fn read_exact_at(&mut self, buffer: &mut [u8], place: usize) -> Result<(), RangeError> {
        self.file.read_exact_at(buffer, place)
    }
}

// The entry of the stream with this number in a list.
pub(crate) fn extent_at(streams: &[StreamExtent], number: u32) -> Option<StreamExtent>
    ensures { result ≡ slice_get streams.now number }
{
    streams.get(number as usize).copied()
}
