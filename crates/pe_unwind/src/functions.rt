//! Reads a function of the exception directory with its unwind infos and its code, and gives the rules at each offset.

ghost use Rattle.std.specs.Prelude.{◌≡◌, ◌==◌, ◌≤◌, ◌<◌, ◌+◌, ℕ, is_some, length, true, IfOk, None};
ghost use Rattle.pe_unwind.specs.UnwindErrors.{Gives};
ghost use Rattle.pe_unwind.specs.Functions.{may_leave, reach_behind, rule_at};
ghost use Rattle.pe_unwind.specs.Functions.{code_of, code_seen, epilogue_at, function_of, is_plain};
ghost use Rattle.pe_unwind.specs.Rules.{body_rules};

use crate::epilogues::{epilogue_rules, is_epilogue, next_epilogue};
use crate::listed_epilogues::{is_listed, listed_rules, next_listed};
use crate::rules::{FunctionUnwind, Rules, body_rules, next_step, prologue_offset};
use crate::unwind_errors::{EntryError, UnwindError};
use crate::unwind_info::{info_at, parents_of};
use pe_image::{FunctionEntry, Image};
use std::alloc::Global;

/// The code of a function, from its start to its end. An error is returned if it is empty, if the image doesn't have
/// all its bytes, or if it begins before `reach`, the end of the functions before it.
pub fn code_of<'a>(
    image: &Image<'a>,
    reach: u32,
    entry: FunctionEntry,
) -> Result<&'a [u8], EntryError>
    ensures answer { code_seen result ≡ code_of image.now reach entry }
    ensures size { IfOk result (λ code. length code.now + entry.begin ≡ entry.end) }
{
    if entry.end <= entry.begin {
        return Err(EntryError::Empty);
    }
    let size = (entry.end - entry.begin) as usize;
    let bytes = image.bytes_from(entry.begin);
    if bytes.len() < size {
        return Err(EntryError::OutsideOfImage);
    }
    if entry.begin < reach {
        return Err(EntryError::Overlapping);
    }
    let (code, _) = bytes.split_at(size);
    Ok(code)
}

/// Reads the unwind info of a function, and the infos to which it is chained.
pub fn read_function(
    alloc: Global,
    image: &Image<'_>,
    entry: FunctionEntry,
) -> Result<FunctionUnwind, UnwindError>
    ensures answer { Gives (λ function. function) result (function_of image.now entry) }
    ensures begin { IfOk result (λ function. function.begin ≡ entry.begin) }
    ensures end { IfOk result (λ function. function.end ≡ entry.end) }
{
    let own = info_at(alloc, image, entry.info)?;
    let parents = parents_of(alloc, image, own.parent)?;
    Ok(FunctionUnwind {
        begin: entry.begin,
        end: entry.end,
        own,
        parents,
    })
}

/// The rules at an offset in an epilogue, by the function's code; `None` if the offset isn't in one.
pub(crate) fn epilogue_at(function: &FunctionUnwind, code: &[u8], offset: u32) -> Option<Rules>
    requires offset { offset < length code.now }
    requires code { length code.now ≤ function.now.end }
    ensures { result ≡ epilogue_at function.now code.now offset }
{
    if lists_epilogues(function) {
        return listed_rules(function, offset);
    }
    if may_leave(function, offset) {
        let (_, rest) = code.split_at(offset as usize);
        return epilogue_rules(function, rest);
    }
    None
}

// Whether a function's unwind info lists its epilogues (version 2).
fn lists_epilogues(function: &FunctionUnwind) -> bool
    ensures { result ≡ (function.now.own.version == 2) }
{
    function.own.version == 2
}

// Whether an epilogue that isn't listed can be at an offset.
fn may_leave(function: &FunctionUnwind, offset: u32) -> bool
    ensures { result ≡ may_leave function.now offset }
{
    prologue_offset(&function.own, offset).is_none() || function.own.parent.is_some()
}

/// The rules at an offset of a function, by the function's code.
#[tactic(auto, unfolding(crate::specs::Functions::rule_at))]
pub fn rule_at(function: &FunctionUnwind, code: &[u8], offset: u32) -> Rules
    requires offset { offset < length code.now }
    requires code { length code.now ≤ function.now.end }
    ensures { result ≡ rule_at function.now code.now offset }
{
    match epilogue_at(function, code, offset) {
        Some(rules) => rules,
        None => body_rules(function, prologue_offset(&function.own, offset)),
    }
}

/// The rules at an offset of a function. `body` are the rules of its body, computed before.
pub(crate) fn rule_by_body(
    function: &FunctionUnwind,
    code: &[u8],
    offset: u32,
    body: &Rules,
) -> Rules
    requires body { body.now ≡ body_rules function.now None }
    requires offset { offset < length code.now }
    requires code { length code.now ≤ function.now.end }
    ensures { result ≡ rule_at function.now code.now offset }
{
    if is_plain(function, code, offset) {
        return *body;
    }
    rule_at(function, code, offset)
}

/// The end of a range of offsets with the same rules, by its first offset and the function's size. The next range may
/// have the same rules, too.
pub(crate) fn rules_end(function: &FunctionUnwind, code: &[u8], offset: u32, size: u32) -> u32
    requires offset { offset < size }
    requires size { size ≡ length code.now }
    requires code { size ≤ function.now.end }
    ensures after { offset < result }
    ensures within { result ≤ length code.now }
    ensures same { (at : ℕ) → offset ≤ at → at < result
        → rule_at function.now code.now at ≡ rule_at function.now code.now offset }
{
    if is_plain(function, code, offset) {
        return plain_end(function, code, offset, size);
    }
    if lists_epilogues(function) || may_leave(function, offset) {
        return offset + 1;
    }
    next_step(function, offset, size)
}

// The end of a range of offsets with the rules of the body, by its first offset.
fn plain_end(function: &FunctionUnwind, code: &[u8], offset: u32, size: u32) -> u32
    requires plain { is_plain function.now code.now offset ≡ true }
    requires offset { offset < size }
    requires size { size ≡ length code.now }
    requires code { size ≤ function.now.end }
    ensures after { offset < result }
    ensures within { result ≤ length code.now }
    ensures plain { (at : ℕ) → at < result → offset ≤ at → is_plain function.now code.now at ≡ true }
{
    if lists_epilogues(function) {
        next_listed(function, offset + 1, size)
    } else {
        next_epilogue(function, code, offset as usize + 1) as u32
    }
}

// Whether a function's rules at an offset are those of its body.
fn is_plain(function: &FunctionUnwind, code: &[u8], offset: u32) -> bool
    requires offset { offset < length code.now }
    requires code { length code.now ≤ function.now.end }
    ensures { result ≡ is_plain function.now code.now offset }
{
    prologue_offset(&function.own, offset).is_none() && !is_in_epilogue(function, code, offset)
}

// Whether an offset is in an epilogue.
fn is_in_epilogue(function: &FunctionUnwind, code: &[u8], offset: u32) -> bool
    requires offset { offset < length code.now }
    requires code { length code.now ≤ function.now.end }
    ensures { result ≡ is_some (epilogue_at function.now code.now offset) }
{
    if lists_epilogues(function) {
        return is_listed(function, offset);
    }
    if may_leave(function, offset) {
        let (_, rest) = code.split_at(offset as usize);
        return is_epilogue(function, rest);
    }
    false
}

/// The end of all functions up to this entry. An entry whose code is refused doesn't change it.
pub fn reach_behind(image: &Image<'_>, reach: u32, entry: FunctionEntry) -> u32
    ensures answer { result ≡ reach_behind image.now reach entry }
{
    if code_of(image, reach, entry).is_ok() {
        entry.end
    } else {
        reach
    }
}
