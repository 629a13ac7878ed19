//! Merges the section contributions of each module, and refuses them if those of two modules overlap.

ghost use Rattle.std.specs.Prelude.{◌≡◌, ◌≢◌, None, Some, IfOk, OnOk, MatchResult};
ghost use Rattle.pdb_errors.specs.declared.error.Error.TheVariants.{OutOfMemory};
ghost use Rattle.pdb_tables.specs.InOrder.{in_order};
ghost use Rattle.pdb_errors.specs.Outcomes.{Gives, Refuses};
ghost use Rattle.pdb_functions.specs.MergedContributions.{is_counted, claimed, claims, is_same_module};
ghost use Rattle.pdb_functions.specs.MergedContributions.{refused_end, refused_ends, contribution_before};
ghost use Rattle.pdb_functions.specs.MergedContributions.{intervals_of, overlap_after};
ghost use Rattle.pdb_functions.specs.MergedContributions.{merged_contributions, contribution_starts};

use crate::code_sections::is_executable_section;
use pdb_errors::{Error, Result};
use pdb_records::{
    DebugInformation, ImageSectionHeader, PdbInternalSectionOffset, SectionContribution,
};
use std::alloc::{AllocError, Global};

/// A range of bytes of a section that came from one module.
#[derive(Debug, Clone, Copy, PartialEq, Eq, PartialOrd, Ord)]
pub struct ModuleSectionContribution {
    /// The section's number, counted from 1.
    pub section_index: u16,
    /// The offset of the first byte in the section.
    pub start_offset: u32,
    /// The offset just after the last byte.
    pub end_offset: u32,
    /// The module index, in the list of modules.
    pub module_index: usize,
}

// Whether a contribution counts: it isn't empty, and its section is executable.
fn counts(sections: &[ImageSectionHeader], contribution: &SectionContribution) -> bool
    ensures { result ≡ is_counted sections.now contribution.now }
{
    contribution.size > 0 && is_executable_section(sections, contribution.offset.section)
}

// The bytes that a contribution claims. An error if their end doesn't fit 32 bits.
fn claim_of(contribution: &SectionContribution) -> Result<ModuleSectionContribution>
    ensures refused { Refuses result (refused_end (claimed contribution.now)) }
    ensures answer { IfOk result (λ claim. claim ≡ claimed contribution.now) }
{
    let PdbInternalSectionOffset { section, offset } = contribution.offset;
    let Some(end_offset) = offset.checked_add(contribution.size) else {
        return Err(Error::SectionContributionEndTooLarge(contribution.module, section));
    };
    Ok(ModuleSectionContribution {
        section_index: section,
        start_offset: offset,
        end_offset,
        module_index: contribution.module,
    })
}

// The bytes that the contributions which count claim, in file order.
fn claims(
    alloc: Global,
    sections: &[ImageSectionHeader],
    contributions: &[SectionContribution],
) -> Result<Vec<ModuleSectionContribution>>
    ensures answer { IfOk result (λ v. v.items ≡ claims sections.now contributions.now) }
    ensures refused { MatchResult result
        (λ _. refused_ends (claims sections.now contributions.now) ≡ None)
        (λ e. e ≢ OutOfMemory → refused_ends (claims sections.now contributions.now) ≡ Some e) }
{
    let mut claims = Vec::new(alloc);
    for contribution in contributions {
        if counts(sections, contribution) {
            claims.push(claim_of(contribution)?)?;
        }
    }
    Ok(claims)
}

// Sorts claims.
fn sort(claims: &mut Vec<ModuleSectionContribution>) -> Result<(), AllocError>
    ensures { OnOk result (claims.new.items ≡ in_order contribution_before claims.old.items) }
{
    claims.sort()
}

// Whether two belong to one module and section.
fn is_same_module(a: ModuleSectionContribution, b: ModuleSectionContribution) -> bool
    ensures { result ≡ is_same_module a b }
{
    a.section_index == b.section_index && a.module_index == b.module_index
}

// The intervals of sorted claims: neighbours of one module and section are joined.
fn intervals(
    alloc: Global,
    claims: &[ModuleSectionContribution],
) -> Result<Vec<ModuleSectionContribution>, AllocError>
    ensures { IfOk result (λ v. v.items ≡ intervals_of claims.now) }
{
    let mut intervals = Vec::new(alloc);
    let mut open: Option<ModuleSectionContribution> = None;
    for claim in claims {
        open = Some(match open {
            None => *claim,
            Some(interval) if is_same_module(interval, *claim) => ModuleSectionContribution {
                end_offset: interval.end_offset.max(claim.end_offset),
                ..interval
            },
            Some(interval) => {
                intervals.push(interval)?;
                *claim
            }
        });
    }
    if let Some(last) = open {
        intervals.push(last)?;
    }
    Ok(intervals)
}

// Refuses intervals if one begins before the end of the one before it.
fn check_overlap(intervals: &[ModuleSectionContribution]) -> Result<()>
    ensures { Refuses result (overlap_after None intervals.now) }
{
    let mut before: Option<ModuleSectionContribution> = None;
    for interval in intervals {
        if let Some(before) = before {
            if before.section_index == interval.section_index
                && interval.start_offset < before.end_offset
            {
                return Err(Error::OverlappingSectionContributions(
                    interval.section_index,
                    before.module_index,
                    interval.module_index,
                ));
            }
        }
        before = Some(*interval);
    }
    Ok(())
}

// The starts of the contributions that count, in file order.
fn starts(
    alloc: Global,
    sections: &[ImageSectionHeader],
    contributions: &[SectionContribution],
) -> Result<Vec<PdbInternalSectionOffset>, AllocError>
    ensures { IfOk result (λ v. v.items ≡ contribution_starts sections.now contributions.now) }
{
    let mut starts = Vec::new(alloc);
    for contribution in contributions {
        if counts(sections, contribution) {
            starts.push(contribution.offset)?;
        }
    }
    Ok(starts)
}

/// The merged contributions, which say from which module the bytes of the program came, sorted by section and start;
/// and the starts of the contributions that count, in file order, before any are joined.
///
/// A contribution that is empty, or not in an executable section, doesn't count. Those that count are sorted by
/// section, start, end and module. Neighbours of one module and section are then joined, gaps included, up to the
/// greater end. So the bytes of two modules may alternate in a section.
///
/// # Errors
///
/// [`Error::SectionContributionEndTooLarge`] for the first contribution that counts, in file order, whose end doesn't
/// fit 32 bits; else [`Error::PdbError`] with the fault after the list; else [`Error::OverlappingSectionContributions`]
/// for the first two neighbours, in sorted order, that claim the same bytes.
pub fn compute_section_contributions(
    alloc: Global,
    debug_information: &DebugInformation,
    sections: &[ImageSectionHeader],
) -> Result<
    (
        Vec<ModuleSectionContribution>,
        Vec<PdbInternalSectionOffset>,
    ),
>
    ensures merged { Gives (λ made. made.0.items) result (merged_contributions sections.now debug_information.now) }
    ensures starts { IfOk result (λ made. made.1.items
        ≡ contribution_starts sections.now debug_information.now.section_contributions.items) }
{
    let contributions = &debug_information.section_contributions;
    let mut claims = claims(alloc, sections, &contributions.items)?;
    if let Some(fault) = contributions.fault {
        return Err(Error::from(fault));
    }
    sort(&mut claims)?;
    let merged = intervals(alloc, &claims)?;
    check_overlap(&merged)?;
    let starts = starts(alloc, sections, &contributions.items)?;
    Ok((merged, starts))
}
