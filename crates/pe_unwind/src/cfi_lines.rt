//! Lists a function's rules as lines, one for each change.

ghost use Rattle.std.specs.Prelude.{◌≡◌, ◌≤◌, ℕ, ◌+◌, ◌-◌, ◌<◌, length, IfErr, IfOk, IsTrue, OnOk, Some};
ghost use Rattle.pe_unwind.specs.CfiLines.{Ascend, Show, shown};
ghost use Rattle.pe_unwind.specs.CfiRecords.{AreWhole, LetKnow, records};
ghost use Rattle.pe_unwind.specs.UnwindErrors.{Fails};
ghost use Rattle.pe_unwind.specs.Functions.{function_at, rule_at};

use crate::functions::{code_of, read_function, rule_by_body, rules_end};
use crate::rules::{FunctionUnwind, RegisterOffset, Rules, body_rules, is_same_rules};
use crate::unwind_errors::UnwindError;
use pe_image::{FunctionEntry, Image};
use std::alloc::{AllocError, Global};

/// Rules that hold from an offset of a function to the next line.
#[derive(Debug, Clone, Copy)]
pub struct CfiLine {
    /// The offset in bytes from the function's start.
    pub offset: u32,
    pub rules: Rules,
}

/// The lines of an entry's function. They give the function's rules at each of its offsets. `reach` is the end of the
/// functions before it.
///
/// # Errors
///
/// Why the entry is omitted, or that memory ran out.
#[tactic(auto, using(crate::proofs::RecordLemmas::let_know))]
pub fn function_lines(
    alloc: Global,
    image: &Image<'_>,
    reach: u32,
    entry: FunctionEntry,
) -> Result<Vec<CfiLine>, UnwindError>
    ensures answer { IfOk result (λ lines. Show lines.items (function_at image.now reach entry)) }
    ensures ascending { IfOk result (λ lines. Ascend lines.items (entry.end - entry.begin)) }
    ensures records { IfOk result (λ lines. LetKnow (records lines.items) (function_at image.now reach entry)) }
    ensures refused { IfErr result (λ fault. Fails fault (function_at image.now reach entry)) }
{
    let code = code_of(image, reach, entry)?;
    let function = read_function(alloc, image, entry)?;
    Ok(lines_of(alloc, &function, code)?)
}

/// The lines of a function, by its code. They give the function's rules at each of its offsets.
pub fn lines_of(
    alloc: Global,
    function: &FunctionUnwind,
    code: &[u8],
) -> Result<Vec<CfiLine>, AllocError>
    requires { length code.now + function.now.begin ≡ function.now.end }
    ensures answer { IfOk result (λ lines. (offset : ℕ) → offset < length code.now
        → shown lines.items offset ≡ Some (rule_at function.now code.now offset)) }
    ensures ascending { IfOk result (λ lines. Ascend lines.items (length code.now)) }
    ensures whole { IfOk result (λ lines. AreWhole lines.items) }
{
    let size = function.end.saturating_sub(function.begin);
    let body = body_rules(function, None);
    let mut lines = Vec::new(alloc);
    let mut last: Option<Rules> = None;
    let mut offset = 0;
    while offset < size {
        let rules = rule_by_body(function, code, offset, &body);
        push_change(&mut lines, last, offset, rules)?;
        last = Some(rules);
        offset = rules_end(function, code, offset, size);
    }
    Ok(lines)
}

// Appends a line at an offset, unless the last line has the same rules.
fn push_change(
    lines: &mut Vec<CfiLine>,
    last: Option<Rules>,
    offset: u32,
    rules: Rules,
) -> Result<(), AllocError>
    requires last { (at : ℕ) → offset ≤ at → shown lines.old.items at ≡ last }
    requires ascend { Ascend lines.old.items offset }
    requires whole { AreWhole lines.old.items }
    ensures before { OnOk result ((at : ℕ) → at < offset → shown lines.new.items at ≡ shown lines.old.items at) }
    ensures on { OnOk result ((at : ℕ) → offset ≤ at → shown lines.new.items at ≡ Some rules) }
    ensures ascend { OnOk result (Ascend lines.new.items (offset + 1)) }
    ensures whole { OnOk result (AreWhole lines.new.items) }
{
    let saved: &[Option<RegisterOffset>] = &rules.saved;
    prove!(saved.len() == 16);
    if !is_same(last, rules) {
        lines.push(CfiLine { offset, rules })?;
    }
    Ok(())
}

// Whether the last line has the same rules.
fn is_same(last: Option<Rules>, rules: Rules) -> bool
    ensures { IsTrue result → last ≡ Some rules }
{
    match last {
        None => false,
        Some(last) => is_same_rules(last, rules),
    }
}
