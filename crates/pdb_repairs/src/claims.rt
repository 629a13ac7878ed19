//! `Claim`: the bytes that a contribution claims for its module.

ghost use Rattle.std.specs.Prelude.{◌≡◌, ◌<◌, IfOk, true};
ghost use Rattle.pdb_records.specs.Addresses.{numbered_section};
ghost use Rattle.pdb_repairs.specs.Claims.{claim_of, claims_of, counts};

use pdb_records::{ImageSectionHeader, SectionContribution};
use std::alloc::{AllocError, Global};

/// The number of offsets in a section.
const OFFSETS: u64 = 1 << 32;

/// The bytes that a contribution claims for its module, as numbers that differ between sections.
#[derive(Clone, Copy)]
pub struct Claim {
    pub start: u64,
    /// The number after the last byte.
    pub end: u64,
    pub module_index: usize,
}

// The section with this number, counted from 1.
fn section_of(sections: &[ImageSectionHeader], number: u16) -> Option<ImageSectionHeader>
    ensures { result ≡ numbered_section number sections.now }
{
    if number == 0 {
        return None;
    }
    sections.get(usize::from(number) - 1).copied()
}

/// Whether a contribution has bytes and is in a section with code.
pub fn counts(sections: &[ImageSectionHeader], contribution: &SectionContribution) -> bool
    ensures { result ≡ counts sections.now contribution.now }
{
    match section_of(sections, contribution.offset.section) {
        Some(section) => section.execute && contribution.size > 0,
        None => false,
    }
}

/// The claim of a contribution; `None` if its end doesn't fit a section's offsets.
pub fn claim_of(contribution: &SectionContribution) -> Option<Claim>
    ensures { result ≡ claim_of contribution.now }
{
    let end = contribution.offset.offset.checked_add(contribution.size)?;
    let section = u64::from(contribution.offset.section) * OFFSETS;
    Some(Claim {
        start: section + u64::from(contribution.offset.offset),
        end: section + u64::from(end),
        module_index: contribution.module,
    })
}

/// The claims of all contributions that have bytes and are in a section with code.
pub fn claims(
    alloc: Global,
    sections: &[ImageSectionHeader],
    contributions: &[SectionContribution],
) -> Result<Vec<Claim>, AllocError>
    ensures { IfOk result (λ v. v.items ≡ claims_of sections.now contributions.now) }
{
    let mut claims = Vec::new(alloc);
    for contribution in contributions {
        if counts(sections, contribution)
            && let Some(claim) = claim_of(contribution)
        {
            claims.push(claim)?;
        }
    }
    Ok(claims)
}
