//! Writes a function's records as text, in Breakpad's form of STACK CFI records.

ghost use Rattle.std.specs.Prelude.{◌≡◌, ◌++◌, IfErr, OnOk, string_bytes};
ghost use Rattle.std.specs.List.{flat_map};
ghost use Rattle.pe_unwind.specs.CfiText.{cfa_text, first_text, found_text, function_text, item_text, later_text};
ghost use Rattle.pe_unwind.specs.CfiText.{ShowText, later_texts, name, place_text, signed_decimal};
ghost use Rattle.pe_unwind.specs.UnwindErrors.{Fails, IsRefusal};
ghost use Rattle.pe_unwind.specs.Functions.{function_at};

use crate::cfi_lines::{CfiLine, function_lines};
use crate::cfi_records::{CfiItem, RegisterRule, first_items, later_items};
use crate::registers::Register;
use crate::rules::{Cfa, RegisterOffset, Rules};
use crate::unwind_errors::UnwindError;
use pe_image::{FunctionEntry, Image};
use std::alloc::{AllocError, Global};

/// Appends the records of an entry's function. `reach` is the end of the functions before it.
///
/// # Errors
///
/// Why the entry is omitted; then the text is unchanged. Or that memory ran out; then a part of the records may have
/// been appended.
pub fn push_entry(
    alloc: Global,
    text: &mut String,
    image: &Image<'_>,
    reach: u32,
    entry: FunctionEntry,
) -> Result<(), UnwindError>
    ensures answer { OnOk result (ShowText (string_bytes text.old) (string_bytes text.new) entry
        (function_at image.now reach entry)) }
    ensures refused { IfErr result (λ fault. Fails fault (function_at image.now reach entry)) }
    ensures unchanged { IfErr result (λ fault. IsRefusal fault → string_bytes text.new ≡ string_bytes text.old) }
{
    let lines = function_lines(alloc, image, reach, entry)?;
    push_function(alloc, text, entry, &lines)?;
    Ok(())
}

/// Appends the records of an entry's function, by its lines.
pub fn push_function(
    alloc: Global,
    text: &mut String,
    entry: FunctionEntry,
    lines: &[CfiLine],
) -> Result<(), AllocError>
    ensures answer { OnOk result (string_bytes text.new
        ≡ string_bytes text.old ++ function_text entry.begin entry.end lines.now) }
{
    let Some((first, others)) = lines.split_first() else {
        return Ok(());
    };
    push_first(
        alloc,
        text,
        entry.begin,
        entry.end.saturating_sub(entry.begin),
        &first.rules,
    )?;
    push_others(alloc, text, entry.begin, &first.rules, others)
}

// Appends the records of the lines after one with these rules.
fn push_others(
    alloc: Global,
    text: &mut String,
    begin: u32,
    rules: &Rules,
    lines: &[CfiLine],
) -> Result<(), AllocError>
    ensures { OnOk result (string_bytes text.new ≡ string_bytes text.old ++ later_texts begin rules.now lines.now) }
{
    let mut old = rules;
    for line in lines {
        push_later(
            alloc,
            text,
            u64::from(begin) + u64::from(line.offset),
            old,
            &line.rules,
        )?;
        old = &line.rules;
    }
    Ok(())
}

/// Appends the first record of a function.
#[tactic(auto, unfolding(crate::specs::CfiText::first_text))]
pub(crate) fn push_first(
    alloc: Global,
    text: &mut String,
    begin: u32,
    size: u32,
    rules: &Rules,
) -> Result<(), AllocError>
    ensures { OnOk result (string_bytes text.new ≡ string_bytes text.old ++ first_text begin size rules.now) }
{
    let items = first_items(alloc, rules)?;
    write!(text, "STACK CFI INIT {begin:x} {size:x}")?;
    push_items(text, &items)?;
    text.push_str("\n")
}

// Appends a later record.
#[tactic(auto, unfolding(crate::specs::CfiText::later_text))]
fn push_later(
    alloc: Global,
    text: &mut String,
    address: u64,
    old: &Rules,
    new: &Rules,
) -> Result<(), AllocError>
    ensures { OnOk result (string_bytes text.new ≡ string_bytes text.old ++ later_text address old.now new.now) }
{
    let items = later_items(alloc, old, new)?;
    write!(text, "STACK CFI {address:x}")?;
    push_items(text, &items)?;
    text.push_str("\n")
}

// Appends items.
fn push_items(text: &mut String, items: &[CfiItem]) -> Result<(), AllocError>
    ensures { OnOk result (string_bytes text.new ≡ string_bytes text.old ++ flat_map item_text items.now) }
{
    for &item in items {
        push_item(text, item)?;
    }
    Ok(())
}

// Appends an item.
#[tactic(auto, unfolding(crate::specs::CfiText::item_text))]
fn push_item(text: &mut String, item: CfiItem) -> Result<(), AllocError>
    ensures { OnOk result (string_bytes text.new ≡ string_bytes text.old ++ item_text item) }
{
    match item {
        CfiItem::CfaItem(cfa) => {
            text.push_str(" .cfa: ")?;
            push_cfa(text, cfa)
        }
        CfiItem::ReturnItem(found) => {
            text.push_str(" .ra: ")?;
            push_found(text, ".ra", found)
        }
        CfiItem::RegisterItem(register, found) => {
            let own = name(register);
            text.push_str(" ")?;
            text.push_str(own)?;
            text.push_str(": ")?;
            push_found(text, own, found)
        }
    }
}

// Appends how the caller's stack pointer is found.
fn push_cfa(text: &mut String, cfa: Cfa) -> Result<(), AllocError>
    ensures { OnOk result (string_bytes text.new ≡ string_bytes text.old ++ cfa_text cfa) }
{
    match cfa {
        Cfa::Sum(place) => push_place(text, place),
        Cfa::Loaded(place) => {
            push_place(text, place)?;
            text.push_str(" ^")
        }
    }
}

// Appends how the return address or a register is found. `own` is the name for an unchanged value.
fn push_found(text: &mut String, own: &str, found: RegisterRule) -> Result<(), AllocError>
    ensures { OnOk result (string_bytes text.new ≡ string_bytes text.old ++ found_text own.now found) }
{
    match found {
        RegisterRule::Unchanged => text.push_str(own),
        RegisterRule::BelowCfa(bytes) => {
            text.push_str(".cfa ")?;
            push_signed(text, bytes)?;
            text.push_str(" - ^")
        }
        RegisterRule::At(place) => {
            push_place(text, place)?;
            text.push_str(" ^")
        }
    }
}

// Appends the address of a place.
fn push_place(text: &mut String, place: RegisterOffset) -> Result<(), AllocError>
    ensures { OnOk result (string_bytes text.new ≡ string_bytes text.old ++ place_text place) }
{
    text.push_str(name(place.register))?;
    text.push_str(" ")?;
    push_signed(text, place.offset)?;
    text.push_str(" +")
}

// Appends a number in decimal digits, with a sign if it is negative.
fn push_signed(text: &mut String, number: u64) -> Result<(), AllocError>
    ensures { OnOk result (string_bytes text.new ≡ string_bytes text.old ++ signed_decimal number) }
{
    if number < 0x8000_0000_0000_0000 {
        return write!(text, "{number}");
    }
    let size = u64::MAX - number + 1;
    write!(text, "-{size}")
}

// The name of a register in Breakpad's form.
fn name(register: Register) -> &'static str
    ensures { result.now ≡ name register }
{
    match register {
        Register::Rax => "$rax",
        Register::Rcx => "$rcx",
        Register::Rdx => "$rdx",
        Register::Rbx => "$rbx",
        Register::Rsp => "$rsp",
        Register::Rbp => "$rbp",
        Register::Rsi => "$rsi",
        Register::Rdi => "$rdi",
        Register::R8 => "$r8",
        Register::R9 => "$r9",
        Register::R10 => "$r10",
        Register::R11 => "$r11",
        Register::R12 => "$r12",
        Register::R13 => "$r13",
        Register::R14 => "$r14",
        Register::R15 => "$r15",
    }
}
