//! Reads the directory: its bytes, by the block map; the sizes of the streams; and where their block numbers are.

ghost use Rattle.std.specs.Prelude.{◌≡◌, ◌≤◌, ◌<◌, ◌+◌, ◌*◌, ◌^◌, drop, length, nat_lt, not, IfOk, IfErr};
ghost use Rattle.std.specs.Int.{div_ceil};
ghost use Rattle.pdb_msf.specs.Directory.{block_count, block_map, directory, extents, sizes_in, total_size};
ghost use Rattle.pdb_msf.specs.Faults.{Gives};
ghost use Rattle.pdb_msf.specs.NumberLists.{listed};
ghost use Rattle.pdb_msf.specs.Streams.{bytes_of};

use crate::bytes::Bytes;
use crate::faults::{CUT, Fault};
use crate::number_lists::{bytes_from, take_numbers};
use crate::streams::{StreamBytes, read_stream};
use crate::superblock::Superblock;
use std::alloc::Global;

/// The offset in the file of the block map's block numbers. Most often there is one.
pub(crate) const BLOCK_MAP: usize = 52;

/// The size that means that a stream doesn't exist.
pub const ABSENT: u32 = 0xffff_ffff;

/// A stream as the directory lists it.
#[derive(Clone, Copy)]
pub struct StreamExtent {
    pub size: u32,
    /// The offset in the directory of the number of its first block.
    pub numbers: usize,
}

/// Reads the directory's bytes.
#[tactic(auto, unfolding(crate::specs::Directory::directory))]
pub fn read_directory<'a>(
    alloc: Global,
    file: &'a [u8],
    superblock: Superblock,
) -> Result<StreamBytes<'a>, Fault>
    requires { 512 ≤ superblock.block_size }
    ensures { Gives bytes_of result (directory superblock file.now) }
{
    let size = superblock.directory_size as usize;
    if file.len() < size {
        return Err(Fault::Broken(CUT));
    }
    let blocks = read_block_map(alloc, file, superblock)?;
    read_stream(alloc, file, superblock.block_size, size, &blocks)
}

// Reads the block map: the numbers of the directory's blocks.
#[tactic(auto, unfolding(crate::specs::Directory::block_map))]
fn read_block_map(alloc: Global, file: &[u8], superblock: Superblock) -> Result<Vec<u32>, Fault>
    requires { 512 ≤ superblock.block_size }
    ensures { Gives (λ map. map.items) result (block_map superblock file.now) }
{
    let block_size = superblock.block_size;
    let count = blocks_over(superblock.directory_size, block_size);
    let size = 4 * count;
    let mut front = Bytes::new(bytes_from(file, BLOCK_MAP));
    let blocks = take_numbers(alloc, &mut front, size.div_ceil(block_size))?;
    let map = read_stream(alloc, file, block_size, size, &blocks)?;
    take_numbers(alloc, &mut Bytes::new(map.as_slice()), count)
}

/// Reads the numbers of a stream's blocks from the directory's bytes.
pub fn block_numbers(
    alloc: Global,
    directory: &[u8],
    block_size: usize,
    extent: StreamExtent,
) -> Result<Vec<u32>, Fault>
    requires { 512 ≤ block_size }
    ensures answer { Gives (λ numbers. numbers.items) result
        (listed (div_ceil extent.size block_size) (drop extent.numbers directory.now)) }
    ensures count { IfOk result (λ numbers. length numbers.items ≡ div_ceil extent.size block_size) }
{
    let count = blocks_over(extent.size, block_size);
    take_numbers(
        alloc,
        &mut Bytes::new(bytes_from(directory, extent.numbers)),
        count,
    )
}

/// The number of blocks that hold `size` bytes.
pub fn blocks_over(size: u32, block_size: usize) -> usize
    requires { 512 ≤ block_size }
    ensures answer { result ≡ div_ceil size block_size }
    ensures bound { result ≤ 8388608 }
{
    (size as usize).div_ceil(block_size)
}

/// Reads the sizes of all streams from the directory's bytes.
#[tactic(auto, unfolding(crate::specs::Directory::sizes_in))]
pub fn read_sizes(alloc: Global, directory: &[u8]) -> Result<Vec<u32>, Fault>
    ensures answer { Gives (λ sizes. sizes.items) result (sizes_in directory.now) }
    ensures bound { IfOk result (λ sizes. length sizes.items < 2 ^ 32) }
{
    let mut sizes = Bytes::new(directory);
    let count = sizes.u32()?;
    take_numbers(alloc, &mut sizes, count as usize)
}

/// Whether streams of these sizes are together at most as long as the file.
pub fn sizes_fit(sizes: &[u32], file_length: usize) -> bool
    ensures { result ≡ not (nat_lt file_length (total_size sizes.now)) }
{
    let mut left = file_length;
    for &size in sizes {
        if size != ABSENT {
            let size = size as usize;
            if left < size {
                return false;
            }
            left -= size;
        }
    }
    true
}

/// Lists each stream, with the offset of its block numbers in the directory.
pub fn list_extents(
    alloc: Global,
    sizes: &[u32],
    block_size: usize,
) -> Result<Vec<StreamExtent>, Fault>
    requires least { 512 ≤ block_size }
    requires few { length sizes.now < 2 ^ 32 }
    ensures answer { IfOk result (λ listed. listed.items ≡ extents block_size (4 + 4 * length sizes.now) sizes.now) }
    ensures memory { IfErr result (λ fault. fault ≡ Fault.OutOfMemory) }
{
    let mut extents = Vec::with_capacity(alloc, sizes.len())?;
    let mut numbers = 4 + 4 * sizes.len();
    for &size in sizes {
        extents.push(StreamExtent { size, numbers })?;
        numbers += 4 * blocks_of_stream(size, block_size);
    }
    Ok(extents)
}

// The number of blocks of a stream with this size.
fn blocks_of_stream(size: u32, block_size: usize) -> usize
    requires { 512 ≤ block_size }
    ensures answer { result ≡ block_count block_size size }
    ensures bound { result ≤ 8388608 }
{
    if size == ABSENT {
        return 0;
    }
    blocks_over(size, block_size)
}
