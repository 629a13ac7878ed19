//! Removes contributions whose bytes another module claims with a larger one.

ghost use Rattle.std.specs.Prelude.{◌≡◌, ◌++◌, List, map, not, IfOk, OnOk};
ghost use Rattle.std.specs.List.{filter};
ghost use Rattle.std.specs.Ordering.{nat_cmp};
ghost use Rattle.pdb_tables.specs.Keyed.{first_of_each_key, KeysAscend};
ghost use Rattle.pdb_repairs.specs.Claims.{is_retained, modules_of_left_out, repairs_of_claims, with_retained};
ghost use Rattle.pdb_repairs.specs.Intervals.{AreOwners};

use crate::claims::{Claim, claims, counts};
use crate::intervals::{Interval, intervals, owns};
use crate::overlaps::may_lose;
use crate::repairs::Repair;
use pdb_records::{DebugInformation, ImageSectionHeader, SectionContribution};
use pdb_tables::{Keyed, first_of_each_key};
use std::alloc::{AllocError, Global};

/// The module of a contribution that is removed.
#[derive(Clone, Copy)]
struct LeftOut {
    module_index: usize,
}

impl Keyed for LeftOut {
    type Key = usize;

    ghost key_of = { λ one. one.module_index };

    fn key(&self) -> usize {
        self.module_index
    }
}

/// The contributions that are kept, and the modules of the removed ones.
struct Division {
    retained: Vec<SectionContribution>,
    left_out: Vec<LeftOut>,
}

/// Removes each contribution that has a byte of another module. A byte belongs to the module with the greatest claim on
/// it, and of equal claims to the first. A contribution whose end doesn't fit a section's offsets is removed, too.
/// Afterwards no byte is claimed by two modules.
pub fn retain_claims(
    alloc: Global,
    sections: &[ImageSectionHeader],
    debug: &mut DebugInformation,
    repairs: &mut Vec<Repair>,
) -> Result<(), AllocError>
    ensures state { OnOk result (debug.new ≡ with_retained sections.now debug.old) }
    ensures told { OnOk result (repairs.new.items ≡ repairs.old.items ++ repairs_of_claims sections.now debug.old) }
{
    let contributions = debug.section_contributions.items.as_slice();
    let claims = claims(alloc, sections, contributions)?;
    if !may_lose(alloc, sections, contributions, &claims)? {
        return Ok(());
    }
    let intervals = intervals(alloc, &claims)?;
    let Division { retained, left_out } = divide(alloc, sections, contributions, &intervals)?;
    push_modules(alloc, left_out, repairs)?;
    debug.section_contributions.items = retained;
    Ok(())
}

// Which contributions are kept, and which modules lose one.
fn divide(
    alloc: Global,
    sections: &[ImageSectionHeader],
    contributions: &[SectionContribution],
    intervals: &[Interval],
) -> Result<Division, AllocError>
    requires { KeysAscend nat_cmp (λ i. i.start) intervals.now }
    ensures retained { IfOk result (λ d. (claims : List Claim) → AreOwners claims intervals.now
        → d.retained.items ≡ filter (is_retained sections.now claims) contributions.now) }
    ensures left_out { IfOk result (λ d. (claims : List Claim) → AreOwners claims intervals.now
        → map (λ l. l.module_index) d.left_out.items ≡ modules_of_left_out sections.now claims contributions.now) }
{
    let mut retained = Vec::new(alloc);
    let mut left_out = Vec::new(alloc);
    for contribution in contributions {
        if is_retained(sections, contribution, intervals) {
            retained.push(*contribution)?;
        } else {
            left_out.push(LeftOut {
                module_index: contribution.module,
            })?;
        }
    }
    Ok(Division { retained, left_out })
}

// Whether a contribution is kept.
fn is_retained(
    sections: &[ImageSectionHeader],
    contribution: &SectionContribution,
    intervals: &[Interval],
) -> bool
    requires { KeysAscend nat_cmp (λ i. i.start) intervals.now }
    ensures { (claims : List Claim) → AreOwners claims intervals.now
        → result ≡ is_retained sections.now claims contribution.now }
{
    if !counts(sections, contribution) {
        return true;
    }
    owns(contribution, intervals)
}

// Reports each of these modules once, in ascending order.
fn push_modules(
    alloc: Global,
    left_out: Vec<LeftOut>,
    repairs: &mut Vec<Repair>,
) -> Result<(), AllocError>
    ensures { OnOk result (repairs.new.items ≡ repairs.old.items
        ++ map Repair.ModuleContributions
        (first_of_each_key nat_cmp (λ m. m) (map (λ l. l.module_index) left_out.items))) }
{
    tell_each(&first_of_each_key(alloc, left_out)?, repairs)
}

// Reports these modules.
fn tell_each(left_out: &[LeftOut], repairs: &mut Vec<Repair>) -> Result<(), AllocError>
    ensures { OnOk result (repairs.new.items ≡ repairs.old.items
        ++ map Repair.ModuleContributions (map (λ l. l.module_index) left_out.now)) }
{
    for one in left_out {
        repairs.push(Repair::ModuleContributions {
            module_index: one.module_index,
        })?;
    }
    Ok(())
}
