//! Makes CFI records of a function's rules: the changes from one line to the next.

ghost use Rattle.std.specs.Prelude.{◌≡◌, ◌++◌, ◌≤◌, ◌<◌, ◌^◌, length, map, IfOk, OnOk, Some};
ghost use Rattle.pe_unwind_arm64.specs.CfiRecords.{place_known};
ghost use Rattle.pe_unwind_arm64.specs.declared.rules.RegisterOffset.{RegisterOffset};
ghost use Rattle.pe_unwind_arm64.specs.CfiRecords.{first_items, found_by, if_changed, later_items, place_by, register_items};
ghost use Rattle.pe_unwind_arm64.specs.CfiRecords.{same_base, same_found, same_place, written};

use crate::registers::{Register, base_number, numbered};
use crate::rules::{RegisterOffset, Rules, less};
use std::alloc::{AllocError, Global};

/// How the return address or a register of the caller is found.
#[derive(Debug, Clone, Copy)]
pub enum RegisterRule {
    /// The register still has the caller's value.
    Unchanged,
    /// It is stored this many bytes below the caller's stack pointer.
    BelowCfa(u64),
    /// It is stored at this place.
    At(RegisterOffset),
}

/// One rule of a record.
#[derive(Debug, Clone, Copy)]
pub enum CfiItem {
    /// The caller's stack pointer.
    CfaItem(RegisterOffset),
    /// The return address.
    ReturnItem(RegisterRule),
    /// A register of the caller.
    RegisterItem(Register, RegisterRule),
}

/// The items of a function's first record, by its rules.
pub fn first_items(alloc: Global, new: &Rules) -> Result<Vec<CfiItem>, AllocError>
    ensures { IfOk result (λ items. items.items ≡ first_items (written new.now)) }
{
    let mut items = Vec::new(alloc);
    items.push(CfiItem::CfaItem(new.cfa))?;
    items.push(CfiItem::ReturnItem(found_by(new.cfa, new.return_address)))?;
    push_registers(&mut items, new.cfa, &[None; 12], new.cfa, &new.saved)?;
    Ok(items)
}

/// The items of a later record, by the rules before it and those from it on.
pub fn later_items(alloc: Global, old: &Rules, new: &Rules) -> Result<Vec<CfiItem>, AllocError>
    ensures { IfOk result (λ items. items.items ≡ later_items (written old.now) (written new.now)) }
{
    let mut items = Vec::new(alloc);
    push_changed(
        &mut items,
        same_place(old.cfa, new.cfa),
        CfiItem::CfaItem(new.cfa),
    )?;
    let old_return = found_by(old.cfa, old.return_address);
    let new_return = found_by(new.cfa, new.return_address);
    push_changed(
        &mut items,
        same_found(old_return, new_return),
        CfiItem::ReturnItem(new_return),
    )?;
    push_registers(&mut items, old.cfa, &old.saved, new.cfa, &new.saved)?;
    Ok(items)
}

/// Law: a record gives the place where a register is saved.
pub fn records_keep_places()
    ensures { (cfa place : RegisterOffset) → cfa.offset < 2 ^ 64 → place.offset < 2 ^ 64
        → place_known cfa (place_by cfa place) ≡ Some place }
{}

// Appends the items of the registers whose rules change.
fn push_registers(
    items: &mut Vec<CfiItem>,
    old_cfa: RegisterOffset,
    old: &[Option<RegisterOffset>],
    new_cfa: RegisterOffset,
    new: &[Option<RegisterOffset>],
) -> Result<(), AllocError>
    requires { length old.now ≤ length new.now }
    ensures { OnOk result (items.new.items ≡ items.old.items
        ++ register_items 0 (map (found_by old_cfa) old.now) (map (found_by new_cfa) new.now)) }
{
    for position in 0..old.len() {
        let before = found_by(old_cfa, old[position]);
        let after = found_by(new_cfa, new[position]);
        let item = CfiItem::RegisterItem(numbered(position), after);
        push_changed(items, same_found(before, after), item)?;
    }
    Ok(())
}

// Appends an item unless its rule is the same as before.
fn push_changed(items: &mut Vec<CfiItem>, same: bool, item: CfiItem) -> Result<(), AllocError>
    ensures { OnOk result (items.new.items ≡ items.old.items ++ if_changed same item) }
{
    if !same {
        items.push(item)?;
    }
    Ok(())
}

// Whether two places are relative to the same register.
fn same_base(a: RegisterOffset, b: RegisterOffset) -> bool
    ensures { result ≡ same_base a b }
{
    base_number(a.base) == base_number(b.base)
}

// Whether two places are the same.
fn same_place(a: RegisterOffset, b: RegisterOffset) -> bool
    ensures { result ≡ same_place a b }
{
    same_base(a, b) && a.offset == b.offset
}

// Whether two register rules are the same.
fn same_found(a: RegisterRule, b: RegisterRule) -> bool
    ensures { result ≡ same_found a b }
{
    match (a, b) {
        (RegisterRule::Unchanged, RegisterRule::Unchanged) => true,
        (RegisterRule::BelowCfa(a), RegisterRule::BelowCfa(b)) => a == b,
        (RegisterRule::At(a), RegisterRule::At(b)) => same_place(a, b),
        _ => false,
    }
}

// A place, relative to the caller's stack pointer if both are relative to the same register.
fn place_by(cfa: RegisterOffset, place: RegisterOffset) -> RegisterRule
    ensures { result ≡ place_by cfa place }
{
    if same_base(cfa, place) {
        RegisterRule::BelowCfa(less(cfa.offset, place.offset))
    } else {
        RegisterRule::At(place)
    }
}

// The rule for a register by the place where it is saved.
fn found_by(cfa: RegisterOffset, saved: Option<RegisterOffset>) -> RegisterRule
    ensures { result ≡ found_by cfa saved }
{
    match saved {
        None => RegisterRule::Unchanged,
        Some(place) => place_by(cfa, place),
    }
}
