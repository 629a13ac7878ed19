//! `StreamBlocks`: the blocks of a stream in a file that is read through a source, and ranges of its bytes.

ghost use Rattle.std.specs.Prelude.{◌≡◌, ◌≤◌, ◌<◌, ◌*◌, ◌^◌, ℕ, List, Option, length, take, drop};
ghost use Rattle.std.specs.Prelude.{IfErr, IfOk, IfSome, OnOk};
ghost use Rattle.pdb_msf.specs.StreamBlocks.{blocks_read, said_in};
ghost use Rattle.pdb_msf.specs.Streams.{stream_inside};

use crate::block_reads::{BlockGrid, Run, append_blocks, append_run};
use crate::faults::BLOCK_OUTSIDE;
use crate::source::Source;
use crate::source_error::SourceError;
use pdb_records::StreamError;
use std::marker::Model;

/// The blocks of a stream. All of them are completely inside the file.
#[derive(Drop)]
pub struct StreamBlocks {
    grid: BlockGrid,
    numbers: Vec<u32>,
    size: u32,
}

impl Model for StreamBlocks {
    ghost use Rattle.std.specs.Prelude.{◌≡◌, ◌≤◌, ◌*◌, ℕ, List, length, true};
    ghost use Rattle.pdb_msf.specs.StreamBlocks.{BlockList};
    ghost use Rattle.pdb_msf.specs.Streams.{all_inside};

    ghost Value = { BlockList };

    ghost view = { λ b. record {
      file_length = b.grid.file_length;
      block_size = b.grid.block_size;
      numbers = b.numbers.items;
      size = b.size;
    } };

    ghost invariant = { λ b. record {
      least : 512 ≤ b.grid.block_size;
      most : b.grid.block_size ≤ 32768;
      enough : b.size ≤ length b.numbers.items * b.grid.block_size;
      inside : (file : List ℕ) → length file ≡ b.grid.file_length
          → all_inside b.grid.block_size file b.numbers.items ≡ true;
    } };
}

impl StreamBlocks {
    // The blocks with these numbers, for a stream of this size.
    #[tactic(auto, unfolding(crate::specs::Streams::stream_inside))]
    pub(crate) fn new(grid: BlockGrid, numbers: Vec<u32>, size: u32) -> Result<Self, StreamError>
        requires least { 512 ≤ grid.block_size }
        requires most { grid.block_size ≤ 32768 }
        requires enough { size ≤ length numbers.items * grid.block_size }
        ensures answer { (file : List ℕ) → length file ≡ grid.file_length
            → stream_inside grid.block_size file size numbers.items ≡ blocks_read file result }
        ensures length { IfOk result (λ blocks. blocks.file_length ≡ grid.file_length) }
    {
        if !grid.has_all(&numbers) {
            return Err(BLOCK_OUTSIDE);
        }
        Ok(StreamBlocks {
            grid,
            numbers,
            size,
        })
    }

    /// The length of the stream in bytes.
    pub fn len(&self) -> usize
        ensures answer { result ≡ self.now.size }
        ensures below { result < 2 ^ 32 }
        ensures said { (known : Option (List ℕ)) → IfSome (said_in known self.now) (λ stream. length stream ≡ result) }
    {
        self.size as usize
    }

    /// Replaces `bytes` by `count` bytes of the stream from the offset `place` on, or by fewer if the stream ends
    /// earlier.
    pub fn read_range<S: Source>(
        &self,
        source: &mut S,
        place: usize,
        count: usize,
        bytes: &mut Vec<u8>,
    ) -> Result<(), SourceError>
        ensures answer { OnOk result (IfSome (said_in (S.bytes source.old) self.now) (λ stream.
            bytes.new.items ≡ take count (drop place stream))) }
        ensures refused { IfErr result (λ fault. fault ≡ SourceError.Unreadable
            → S.refuses_from source.old ≤ self.now.file_length) }
        ensures inputs { S.bytes source.new ≡ S.bytes source.old }
        ensures refusals { S.refuses_from source.new ≡ S.refuses_from source.old }
    {
        bytes.clear();
        let count = count.min(self.len().saturating_sub(place));
        if count == 0 {
            return Ok(());
        }
        let block_size = self.grid.block_size;
        let first = place / block_size;
        let skipped = place % block_size;
        let numbers = self.numbers.as_slice();
        let run = Run {
            start: self.grid.start(numbers[first]) + skipped,
            length: count.min(block_size - skipped),
        };
        append_run(source, run, bytes)?;
        let more = (count - run.length).div_ceil(block_size);
        append_blocks(
            source,
            self.grid,
            numbers_from(numbers, first + 1, more),
            bytes,
        )?;
        bytes.truncate(count);
        Ok(())
    }
}

// The `count` numbers from a position on, or fewer if the list ends earlier.
fn numbers_from(numbers: &[u32], first: usize, count: usize) -> &[u32]
    ensures { result.now ≡ take count (drop first numbers.now) }
{
    let (_, behind) = numbers.split_at(first.min(numbers.len()));
    let (some, _) = behind.split_at(count.min(behind.len()));
    some
}
