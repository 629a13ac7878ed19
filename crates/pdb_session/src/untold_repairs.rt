//! Repairs of modules, kept until an address in the module's code is first asked for.

ghost use Rattle.std.specs.Prelude.{◌≡◌, ◌++◌, ℕ, [], IfOk, OnOk, Some, length};
ghost use Rattle.pdb_session.specs.UntoldRepairs.{kept_at, left_at, left_of, told_at, told_before};

use crate::code_owners::CodeOwners;
use pdb_repairs::Repair;
use std::alloc::{AllocError, Global};

/// Makes an empty list of repairs for each of this many modules.
pub fn no_repairs(alloc: Global, count: usize) -> Result<Vec<Vec<Repair>>, AllocError>
    ensures { IfOk result (λ kept. length kept.items ≡ count) }
{
    let mut kept = Vec::new(alloc);
    for _ in 0..count {
        kept.push(Vec::new(alloc))?;
    }
    Ok(kept)
}

/// Removes and returns the repairs of the modules that own the code at these addresses, in the order of the addresses.
pub fn take_at(
    alloc: Global,
    kept: &mut [Vec<Repair>],
    owners: &CodeOwners,
    addresses: &[u32],
) -> Result<Vec<Repair>, AllocError>
    ensures told { IfOk result (λ told. told.items ≡ told_at owners.now (kept_at kept.old) addresses.now) }
    ensures left { OnOk result ((position : ℕ)
        → kept_at kept.new position ≡ left_at owners.now (kept_at kept.old) addresses.now position) }
{
    let mut told = Vec::new(alloc);
    for &address in addresses {
        if let Some(owner) = owners.owner_at(address) {
            take_of(alloc, kept, owner, &mut told)?;
        }
    }
    Ok(told)
}

/// Removes and returns the repairs of all modules, module by module.
pub fn take_all(alloc: Global, kept: &mut [Vec<Repair>]) -> Result<Vec<Repair>, AllocError>
    ensures told { IfOk result (λ told. told.items ≡ told_before (kept_at kept.old) (length kept.old)) }
    ensures left { OnOk result ((position : ℕ) → kept_at kept.new position ≡ []) }
{
    let mut told = Vec::new(alloc);
    for position in 0..kept.len() {
        take_of(alloc, kept, position, &mut told)?;
    }
    Ok(told)
}

// Moves the repairs of a module to the end of a list.
fn take_of(
    alloc: Global,
    kept: &mut [Vec<Repair>],
    position: usize,
    told: &mut Vec<Repair>,
) -> Result<(), AllocError>
    ensures told { OnOk result (told.new.items ≡ told.old.items ++ kept_at kept.old position) }
    ensures left { OnOk result ((other : ℕ)
        → kept_at kept.new other ≡ left_of (kept_at kept.old) (Some position) other) }
    ensures count { length kept.new ≡ length kept.old }
{
    if position < kept.len() {
        told.extend_from_slice(&kept[position])?;
        kept[position] = Vec::new(alloc);
    }
    Ok(())
}
