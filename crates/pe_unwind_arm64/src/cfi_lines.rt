//! Lists a function's rules as lines, one for each change.

ghost use Rattle.std.specs.Prelude.{◌≡◌, ◌≤◌, ℕ, ◌+◌, ◌*◌, ◌<◌, ◌^◌, IfErr, IfOk, IsTrue, Ok, OnOk, Some};
ghost use Rattle.pe_unwind_arm64.specs.CfiLines.{Ascend, AscendWithin, Show, shown};
ghost use Rattle.pe_unwind_arm64.specs.CfiRecords.{AreWhole, LetKnow, records};
ghost use Rattle.pe_unwind_arm64.specs.UnwindErrors.{Fails};
ghost use Rattle.pe_unwind_arm64.specs.Functions.{function_at, rule_at, size_of};

use crate::epilogues::{Epilogue, epilogues_left};
use crate::functions::{FunctionUnwind, is_plain, read_function, rules_among};
use crate::rules::{RegisterOffset, Rules, is_same_rules};
use crate::unwind_errors::UnwindError;
use crate::unwind_info::UnwindInfo;
use pe_image::{Arm64Entry, Image};
use std::alloc::{AllocError, Global};

/// Rules that hold from an offset of a function to the next line.
#[derive(Debug, Clone, Copy)]
pub struct CfiLine {
    /// The offset in bytes from the function's start.
    pub offset: u32,
    pub rules: Rules,
}

/// The lines of an entry's function. They give the function's rules at each of its offsets. `reach` is the end of the
/// functions before it.
///
/// # Errors
///
/// Why the entry is omitted, or that memory ran out.
#[tactic(auto, using(crate::proofs::RecordLemmas::let_know))]
pub fn function_lines(
    alloc: Global,
    image: &Image<'_>,
    reach: u32,
    entry: Arm64Entry,
) -> Result<Vec<CfiLine>, UnwindError>
    ensures answer { IfOk result (λ lines. Show lines.items (function_at image.now reach entry)) }
    ensures ascending { IfOk result (λ lines. AscendWithin lines.items (function_at image.now reach entry)) }
    ensures records { IfOk result (λ lines. LetKnow (records lines.items) (function_at image.now reach entry)) }
    ensures refused { IfErr result (λ fault. Fails fault (function_at image.now reach entry)) }
{
    let function = read_function(alloc, image, reach, entry)?;
    Ok(lines_of(alloc, &function)?)
}

/// The lines of a function. They give the function's rules at each of its offsets.
pub(crate) fn lines_of(alloc: Global, function: &FunctionUnwind) -> Result<Vec<CfiLine>, AllocError>
    requires { function.now.length < 2 ^ 18 }
    ensures answer { IfOk result (λ lines. Show lines.items (Ok function.now)) }
    ensures ascending { IfOk result (λ lines. Ascend lines.items (size_of function.now)) }
    ensures whole { IfOk result (λ lines. AreWhole lines.items) }
{
    lines_in(alloc, function.length, &function.info)
}

// The lines of a function, by its length in instructions and its unwind info.
fn lines_in(alloc: Global, length: u32, info: &UnwindInfo) -> Result<Vec<CfiLine>, AllocError>
    requires { length < 2 ^ 18 }
    ensures answer { IfOk result (λ lines. (offset : ℕ) → offset < 4 * length
        → shown lines.items offset ≡ Some (rule_at info.now offset)) }
    ensures ascending { IfOk result (λ lines. Ascend lines.items (4 * length)) }
    ensures whole { IfOk result (λ lines. AreWhole lines.items) }
{
    let mut lines = Vec::new(alloc);
    let mut last: Option<Rules> = None;
    let mut was_plain = false;
    let mut left: &[Epilogue] = &info.epilogues;
    for instruction in 0..length {
        let at = instruction as usize;
        left = epilogues_left(at, left);
        let plain = is_plain(info, left, at);
        if !plain || !was_plain {
            let rules = rules_among(info, left, at);
            push_change(&mut lines, last, 4 * instruction, rules)?;
            last = Some(rules);
        }
        was_plain = plain;
    }
    Ok(lines)
}

// Appends a line at an offset, unless the last line has the same rules.
fn push_change(
    lines: &mut Vec<CfiLine>,
    last: Option<Rules>,
    offset: u32,
    rules: Rules,
) -> Result<(), AllocError>
    requires last { (at : ℕ) → offset ≤ at → shown lines.old.items at ≡ last }
    requires ascend { Ascend lines.old.items offset }
    requires whole { AreWhole lines.old.items }
    ensures before { OnOk result ((at : ℕ) → at < offset → shown lines.new.items at ≡ shown lines.old.items at) }
    ensures on { OnOk result ((at : ℕ) → offset ≤ at → shown lines.new.items at ≡ Some rules) }
    ensures ascend { OnOk result (Ascend lines.new.items (offset + 4)) }
    ensures whole { OnOk result (AreWhole lines.new.items) }
{
    let saved: &[Option<RegisterOffset>] = &rules.saved;
    prove!(saved.len() == 12);
    if !is_same(last, rules) {
        lines.push(CfiLine { offset, rules })?;
    }
    Ok(())
}

// Whether the last line has the same rules.
fn is_same(last: Option<Rules>, rules: Rules) -> bool
    ensures { IsTrue result → last ≡ Some rules }
{
    match last {
        None => false,
        Some(last) => is_same_rules(last, rules),
    }
}
