//! Reads lists of four-byte numbers, such as the numbers of a stream's blocks.

ghost use Rattle.std.specs.Prelude.{◌≡◌, ◌≤◌, ◌+◌, ◌*◌, drop, length, IfOk, OnOk};
ghost use Rattle.pdb_msf.specs.Faults.{Gives};
ghost use Rattle.pdb_msf.specs.NumberLists.{listed, number, numbers};

use crate::bytes::{Bytes, u32_at};
use crate::faults::{CUT, Fault};
use std::alloc::{AllocError, Global};

/// Reads `count` four-byte numbers.
#[tactic(auto, using(crate::proofs::NumberLemmas::taken), unfolding(crate::specs::NumberLists::listed))]
pub fn take_numbers(alloc: Global, rest: &mut Bytes<'_>, count: usize) -> Result<Vec<u32>, Fault>
    ensures answer { Gives (λ taken. taken.items) result (listed count rest.old) }
    ensures items { IfOk result (λ taken. taken.items ≡ numbers count rest.old) }
    ensures count { IfOk result (λ taken. length taken.items ≡ count) }
    ensures state { OnOk result (rest.new ≡ drop (4 * count) rest.old) }
{
    if rest.len() / 4 < count {
        return Err(Fault::Broken(CUT));
    }
    let bytes = rest.take(4 * count)?;
    Ok(copy_numbers(alloc, bytes, count)?)
}

// The `count` four-byte numbers in these bytes.
fn copy_numbers(alloc: Global, bytes: &[u8], count: usize) -> Result<Vec<u32>, AllocError>
    requires { 4 * count ≤ length bytes.now }
    ensures { IfOk result (λ copied. copied.items ≡ numbers count bytes.now) }
{
    let mut copied = Vec::with_capacity(alloc, count)?;
    for position in 0..count {
        copied.push(number_at(bytes, 4 * position))?;
    }
    Ok(copied)
}

/// The four-byte number at an offset.
pub fn number_at(bytes: &[u8], place: usize) -> u32
    requires { place + 4 ≤ length bytes.now }
    ensures { result ≡ number (drop place bytes.now) }
{
    u32_at(bytes, place)
}

/// The bytes from an offset on; none if there are fewer bytes.
pub fn bytes_from(bytes: &[u8], place: usize) -> &[u8]
    ensures { result.now ≡ drop place bytes.now }
{
    if bytes.len() < place {
        return &[];
    }
    let (_, rest) = bytes.split_at(place);
    rest
}
