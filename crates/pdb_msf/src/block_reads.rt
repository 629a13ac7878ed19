//! Reads blocks of a file from a source. Neighbouring blocks are read together.

ghost use Rattle.std.specs.Prelude.{◌≡◌, ◌≤◌, ◌<◌, ◌+◌, ◌*◌, ◌^◌, ◌++◌, List, ℕ};
ghost use Rattle.std.specs.Prelude.{length, take, drop, IfErr, IfOk, IfSome, OnOk};
ghost use Rattle.pdb_msf.specs.MsfLayout.{IfFile, bytes_read};
ghost use Rattle.pdb_msf.specs.Streams.{all_inside, blocks_end, bytes_of_blocks, stream_inside};

use crate::faults::BLOCK_OUTSIDE;
use crate::source::Source;
use crate::source_error::SourceError;
use pdb_records::StreamError;
use std::alloc::Global;

/// The maximum number of bytes that are read at once. This many fit a processor's cache.
const LONGEST: usize = 131_072;

/// The length of a file, and the size of its blocks.
#[derive(Clone, Copy)]
pub struct BlockGrid {
    pub file_length: usize,
    pub block_size: usize,
}

impl BlockGrid {
    /// The offset in the file at which a block starts.
    #[tactic(auto, using(crate::proofs::BlockLemmas::start_below))]
    pub(crate) fn start(self, number: u32) -> usize
        requires { self.block_size ≤ 32768 }
        ensures answer { result ≡ number * self.block_size }
        ensures below { result ≤ 2 ^ 47 }
    {
        number as usize * self.block_size
    }

    /// Whether each of these blocks is completely inside the file.
    pub fn has_all(self, blocks: &[u32]) -> bool
        requires { self.block_size ≤ 32768 }
        ensures { (file : List ℕ) → length file ≡ self.file_length
            → result ≡ all_inside self.block_size file blocks.now }
    {
        for &number in blocks {
            if self.file_length < self.start(number) + self.block_size {
                return false;
            }
        }
        true
    }
}

/// A range of the bytes of a file.
#[derive(Clone, Copy)]
pub(crate) struct Run {
    pub(crate) start: usize,
    pub(crate) length: usize,
}

/// Reads these blocks in turn, and returns the first `length` bytes.
///
/// The error is [`BLOCK_OUTSIDE`] if a block isn't completely inside the file.
#[tactic(auto, unfolding(crate::specs::Streams::stream_inside))]
pub fn read_blocks<S: Source>(
    alloc: Global,
    source: &mut S,
    grid: BlockGrid,
    length: usize,
    blocks: &[u32],
) -> Result<Result<Vec<u8>, StreamError>, SourceError>
    requires { grid.block_size ≤ 32768 }
    ensures answer { IfOk result (λ answer. IfFile (S.bytes source.old) grid.file_length (λ file.
        stream_inside grid.block_size file length blocks.now ≡ bytes_read answer)) }
    ensures refused { IfErr result (λ fault. fault ≡ SourceError.Unreadable
        → S.refuses_from source.old ≤ grid.file_length) }
    ensures inputs { S.bytes source.new ≡ S.bytes source.old }
    ensures refusals { S.refuses_from source.new ≡ S.refuses_from source.old }
{
    if !grid.has_all(blocks) {
        return Ok(Err(BLOCK_OUTSIDE));
    }
    let mut bytes = Vec::with_capacity(alloc, length.saturating_add(grid.block_size))?;
    append_blocks(source, grid, blocks, &mut bytes)?;
    bytes.truncate(length);
    Ok(Ok(bytes))
}

/// Reads these blocks in turn, and appends their bytes.
pub fn append_blocks<S: Source>(
    source: &mut S,
    grid: BlockGrid,
    blocks: &[u32],
    bytes: &mut Vec<u8>,
) -> Result<(), SourceError>
    requires { grid.block_size ≤ 32768 }
    ensures answer { OnOk result (IfSome (S.bytes source.old) (λ file.
        bytes.new.items ≡ bytes.old.items ++ bytes_of_blocks grid.block_size file blocks.now)) }
    ensures begins { take (length bytes.old.items) bytes.new.items ≡ bytes.old.items }
    ensures length { OnOk result (length bytes.new.items
        ≡ length bytes.old.items + length blocks.now * grid.block_size) }
    ensures most { length bytes.new.items ≤ length bytes.old.items + length blocks.now * grid.block_size }
    ensures refused { IfErr result (λ fault. fault ≡ SourceError.Unreadable
        → S.refuses_from source.old ≤ blocks_end grid.block_size blocks.now) }
    ensures inputs { S.bytes source.new ≡ S.bytes source.old }
    ensures refusals { S.refuses_from source.new ≡ S.refuses_from source.old }
{
    let mut run = Run {
        start: 0,
        length: 0,
    };
    for &number in blocks {
        let start = grid.start(number);
        if start != run.start + run.length || run.length >= LONGEST {
            append_run(source, run, bytes)?;
            run = Run { start, length: 0 };
        }
        run.length += grid.block_size;
    }
    append_run(source, run, bytes)
}

/// Reads a range, and appends its bytes.
pub(crate) fn append_run<S: Source>(
    source: &mut S,
    run: Run,
    bytes: &mut Vec<u8>,
) -> Result<(), SourceError>
    ensures answer { OnOk result (IfSome (S.bytes source.old) (λ file.
        bytes.new.items ≡ bytes.old.items ++ take run.length (drop run.start file))) }
    ensures begins { take (length bytes.old.items) bytes.new.items ≡ bytes.old.items }
    ensures length { OnOk result (length bytes.new.items ≡ length bytes.old.items + run.length) }
    ensures most { length bytes.new.items ≤ length bytes.old.items + run.length }
    ensures refused { IfErr result (λ fault. fault ≡ SourceError.Unreadable
        → S.refuses_from source.old ≤ run.start + run.length) }
    ensures inputs { S.bytes source.new ≡ S.bytes source.old }
    ensures refusals { S.refuses_from source.new ≡ S.refuses_from source.old }
{
    let front = bytes.len();
    bytes.resize(front.saturating_add(run.length), 0)?;
    source.read_exact_at(&mut bytes[front..], run.start)?;
    Ok(())
}
