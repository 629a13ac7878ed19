//! Reads the bytes of a stream by its block numbers: in place if the blocks are consecutive, otherwise copied.

ghost use Rattle.std.specs.Prelude.{◌≡◌, ◌≤◌, ◌<◌, ◌+◌, ◌*◌, ◌^◌, length, IfSome, MatchOption};
ghost use Rattle.pdb_msf.specs.Faults.{Gives};
ghost use Rattle.pdb_msf.specs.Streams.{block, stream_inside, bytes_of};

use crate::faults::{BLOCK_OUTSIDE, Fault};
use std::alloc::Global;

/// The bytes of a stream: a slice of the file if its blocks are consecutive, otherwise a copy.
#[derive(Drop)]
pub enum StreamBytes<'a> {
    InPlace(&'a [u8]),
    Copied(Vec<u8>),
}

impl StreamBytes<'_> {
    /// The bytes.
    pub fn as_slice(&self) -> &[u8]
        ensures { result.now ≡ bytes_of self.now }
    {
        match self {
            StreamBytes::InPlace(bytes) => bytes,
            StreamBytes::Copied(bytes) => bytes.as_slice(),
        }
    }
}

/// The bytes of a stream in these blocks of the file, cut to its length.
///
/// The error is [`BLOCK_OUTSIDE`] if a block isn't completely inside the file.
pub fn read_stream<'a>(
    alloc: Global,
    file: &'a [u8],
    block_size: usize,
    stream_length: usize,
    blocks: &[u32],
) -> Result<StreamBytes<'a>, Fault>
    ensures { Gives bytes_of result (stream_inside block_size file.now stream_length blocks.now) }
{
    if let Some(bytes) = in_place(file, block_size, stream_length, blocks) {
        return Ok(StreamBytes::InPlace(bytes));
    }
    let bytes = copied(alloc, file, block_size, stream_length, blocks)?;
    Ok(StreamBytes::Copied(bytes))
}

// The offset of the block with this number.
fn block_start(block_size: usize, number: u32) -> Option<usize>
    ensures { MatchOption result (2 ^ 64 ≤ number * block_size) (λ start. start ≡ number * block_size) }
{
    (number as usize).checked_mul(block_size)
}

// The bytes of the block with this number, if it is completely inside the file.
fn block_of(file: &[u8], block_size: usize, number: u32) -> Option<&[u8]>
    ensures { MatchOption result (length file.now < number * block_size + block_size)
        (λ bytes. (number * block_size + block_size ≤ length file.now)
        × (bytes.now ≡ block block_size file.now number)) }
{
    let (_, bytes) = file.split_at_checked(block_start(block_size, number)?)?;
    let (bytes, _) = bytes.split_at_checked(block_size)?;
    Some(bytes)
}

// The slice of the file that is the stream, if its blocks are consecutive.
#[tactic(auto, unfolding(crate::specs::Streams::stream_inside))]
fn in_place<'a>(
    file: &'a [u8],
    block_size: usize,
    stream_length: usize,
    blocks: &[u32],
) -> Option<&'a [u8]>
    ensures { IfSome result (λ bytes. stream_inside block_size file.now stream_length blocks.now ≡ Ok bytes.now) }
{
    let first = *blocks.first()?;
    let start = block_start(block_size, first)?;
    let mut end = start;
    for &number in blocks {
        if block_start(block_size, number)? != end {
            return None;
        }
        end = end.checked_add(block_size)?;
    }
    if end - start < stream_length || file.len() < end {
        return None;
    }
    let (_, bytes) = file.split_at(start);
    let (bytes, _) = bytes.split_at(stream_length);
    Some(bytes)
}

// Copies the stream's bytes, block by block.
#[tactic(auto, unfolding(crate::specs::Streams::stream_inside))]
fn copied(
    alloc: Global,
    file: &[u8],
    block_size: usize,
    stream_length: usize,
    blocks: &[u32],
) -> Result<Vec<u8>, Fault>
    ensures { Gives (λ bytes. bytes.items) result (stream_inside block_size file.now stream_length blocks.now) }
{
    let mut bytes = Vec::with_capacity(alloc, stream_length.saturating_add(block_size))?;
    for &number in blocks {
        let Some(block) = block_of(file, block_size, number) else {
            return Err(Fault::Broken(BLOCK_OUTSIDE));
        };
        bytes.extend_from_slice(block)?;
    }
    bytes.truncate(stream_length);
    Ok(bytes)
}
