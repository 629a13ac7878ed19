//! Checks whether several modules claim the same byte.

ghost use Rattle.std.specs.Prelude.{◌≡◌, count_by, IfOk, OnOk};
ghost use Rattle.pdb_tables.specs.InOrder.{in_order};
ghost use Rattle.pdb_repairs.specs.Claims.{counts};
ghost use Rattle.pdb_repairs.specs.Overlaps.{is_earlier, may_lose, overlaps};

use crate::claims::{Claim, counts};
use pdb_records::{ImageSectionHeader, SectionContribution};
use std::alloc::{AllocError, Global};

/// Whether any contribution may have to be removed. For most programs the answer is no, and then no table of all bytes
/// is needed.
pub fn may_lose(
    alloc: Global,
    sections: &[ImageSectionHeader],
    contributions: &[SectionContribution],
    claims: &[Claim],
) -> Result<bool, AllocError>
    ensures { IfOk result (λ any. any ≡ may_lose sections.now contributions.now claims.now) }
{
    let sorted = by_start(alloc, claims)?;
    Ok(count(sections, contributions) > claims.len() || has_overlap(&sorted))
}

// How many contributions have bytes and are in a section with code.
fn count(sections: &[ImageSectionHeader], contributions: &[SectionContribution]) -> usize
    ensures { result ≡ count_by (counts sections.now) contributions.now }
{
    contributions
        .iter()
        .filter(|contribution| counts(sections, contribution))
        .count()
}

// The claims sorted by start.
fn by_start(alloc: Global, claims: &[Claim]) -> Result<Vec<Claim>, AllocError>
    ensures { IfOk result (λ v. v.items ≡ in_order is_earlier claims.now) }
{
    let mut sorted = Vec::from_slice(alloc, claims)?;
    sort_by_start(&mut sorted)?;
    Ok(sorted)
}

// Sorts claims by start.
fn sort_by_start(claims: &mut Vec<Claim>) -> Result<(), AllocError>
    ensures { OnOk result (claims.new.items ≡ in_order is_earlier claims.old.items) }
{
    claims.sort_by_key(|claim: &Claim| claim.start)
}

// Whether a claim begins before the end of an earlier claim of another module.
fn has_overlap(claims: &[Claim]) -> bool
    ensures { result ≡ overlaps 0 0 claims.now }
{
    let mut reach = 0;
    let mut module_index = 0;
    for claim in claims {
        if claim.start < reach && claim.module_index != module_index {
            return true;
        }
        if claim.end > reach {
            reach = claim.end;
            module_index = claim.module_index;
        }
    }
    false
}
