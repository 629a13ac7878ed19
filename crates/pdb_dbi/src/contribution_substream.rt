//! Reads section contributions: which bytes of the sections came from which module.

ghost use Rattle.std.specs.Prelude.{◌≡◌, ◌≤◌, length, IfErr, IfOk, IfSome};
ghost use Rattle.pdb_dbi.specs.ContributionSubstream.{contribution, contribution_list, contribution_size, contributions};

use crate::substreams::Substream;
use pdb_msf::faults::{Fault, UNKNOWN_VERSION};
use pdb_msf::{Bytes, ItemReader, nothing_read, read_items, u16_at, u32_at};
use pdb_records::{PdbInternalSectionOffset, Reading, SectionContribution};
use std::alloc::{AllocError, Global};

/// The version of a list of contributions with 28 bytes each.
const V60: u32 = 0xf12e_ba2d;

/// The version of a list of contributions with 32 bytes each.
const V2: u32 = 0xf131_51e4;

/// Reads the section contributions.
pub fn read_contributions(
    alloc: Global,
    substream: &Substream<'_>,
) -> Result<Reading<SectionContribution>, Fault>
    ensures answer { IfOk result (λ reading. reading ≡ contributions substream.now) }
    ensures memory { IfErr result (λ fault. fault ≡ Fault.OutOfMemory) }
{
    let mut contributions = read_list(alloc, substream.bytes)?;
    contributions.fault = contributions.fault.or(substream.fault);
    Ok(contributions)
}

// Reads a list of contributions, which follows its version.
#[tactic(auto, unfolding(crate::specs::ContributionSubstream::contribution_list))]
fn read_list(alloc: Global, bytes: &[u8]) -> Result<Reading<SectionContribution>, AllocError>
    ensures { IfOk result (λ reading. reading ≡ contribution_list bytes.now) }
{
    let mut rest = Bytes::new(bytes);
    if rest.is_empty() {
        return Ok(nothing_read(alloc, None));
    }
    let version = match rest.u32() {
        Ok(version) => version,
        Err(error) => return Ok(nothing_read(alloc, Some(error))),
    };
    match contribution_size(version) {
        Some(size) => read_items(alloc, &Contributions { size }, rest.rest()),
        None => Ok(nothing_read(alloc, Some(UNKNOWN_VERSION))),
    }
}

// The size of a contribution in a list of this version.
fn contribution_size(version: u32) -> Option<usize>
    ensures answer { result ≡ contribution_size version }
    ensures least { IfSome result (λ size. 28 ≤ size) }
{
    match version {
        V60 => Some(28),
        V2 => Some(32),
        _ => None,
    }
}

/// Reads contributions of this size.
#[derive(Drop)]
struct Contributions {
    size: usize,
    ghost least: { 28 ≤ size },
}

impl<'a> ItemReader<'a> for Contributions {
    type Item = SectionContribution;

    ghost use Rattle.pdb_dbi.specs.ContributionSubstream.{contribution};
    ghost use Rattle.pdb_msf.specs.ItemLists.{first_entry};

    ghost first = { λ list. first_entry contribution list.size };

    fn take(&self, rest: &mut Bytes<'a>) -> Result<SectionContribution, Fault> {
        Ok(contribution(rest.take(self.size)?))
    }
}

// Decodes a contribution.
fn contribution(entry: &[u8]) -> SectionContribution
    requires { 28 ≤ length entry.now }
    ensures { result ≡ contribution entry.now }
{
    SectionContribution {
        offset: PdbInternalSectionOffset {
            section: u16_at(entry, 0),
            offset: u32_at(entry, 4),
        },
        size: u32_at(entry, 8),
        module: usize::from(u16_at(entry, 16)),
    }
}
