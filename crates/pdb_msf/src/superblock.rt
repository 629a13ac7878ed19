//! Reads the superblock at the start of a file: the size of its blocks, and the size of its directory.

ghost use Rattle.std.specs.Prelude.{◌≡◌, ◌≤◌, IsTrue, IfOk, OnOk, length};
ghost use Rattle.pdb_msf.specs.Superblock.{is_msf, is_block_size, superblock};

use crate::container_error::{ContainerError, other_file};
use crate::number_lists::number_at;

/// The first bytes of a file of this format.
const MAGIC: [u8; 32] = *b"Microsoft C/C++ MSF 7.00\r\n\x1aDS\0\0\0";

/// The size of the superblock in bytes.
pub(crate) const SUPERBLOCK: usize = 56;

/// The offset of the block size.
const BLOCK_SIZE: usize = 32;

/// The offset of the directory's size.
const DIRECTORY_SIZE: usize = 44;

/// The fields of the superblock that are needed to read the directory.
#[derive(Clone, Copy)]
pub struct Superblock {
    pub block_size: usize,
    pub directory_size: u32,
}

/// Reads the superblock of a file, or says why the file doesn't have this format.
#[tactic(auto, unfolding(crate::specs::Superblock::superblock))]
pub fn read_superblock(file: &[u8]) -> Result<Superblock, ContainerError>
    ensures answer { result ≡ superblock file.now }
    ensures least { IfOk result (λ front. 512 ≤ front.block_size) }
    ensures most { IfOk result (λ front. front.block_size ≤ 32768) }
    ensures long { OnOk result (56 ≤ length file.now) }
{
    if !is_msf(file) {
        return Err(other_file(file));
    }
    if file.len() < SUPERBLOCK {
        return Err(ContainerError::CutShort);
    }
    let block_size = number_at(file, BLOCK_SIZE);
    if !is_block_size(block_size) {
        return Err(ContainerError::NotAPdbFile);
    }
    Ok(Superblock {
        block_size: block_size as usize,
        directory_size: number_at(file, DIRECTORY_SIZE),
    })
}

// Whether a file begins with `MAGIC`.
#[tactic(auto, unfolding(crate::specs::Superblock::is_msf))]
fn is_msf(file: &[u8]) -> bool
    ensures { result ≡ is_msf file.now }
{
    file.starts_with(&MAGIC)
}

// Whether this is a valid block size.
#[tactic(auto, unfolding(crate::specs::Superblock::is_block_size))]
fn is_block_size(size: u32) -> bool
    ensures answer { result ≡ is_block_size size }
    ensures least { IsTrue result → 512 ≤ size }
    ensures most { IsTrue result → size ≤ 32768 }
{
    matches!(size, 512 | 1024 | 2048 | 4096 | 8192 | 16384 | 32768)
}
