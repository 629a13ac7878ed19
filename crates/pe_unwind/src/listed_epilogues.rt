//! Finds the epilogues of version 2, which the first unwind codes of an info list, and the rules in them.

ghost use Rattle.std.specs.Prelude.{◌≡◌, ◌≤◌, ◌<◌, ℕ, false, is_some};
ghost use Rattle.pe_unwind.specs.ListedEpilogues.{all_left, code_left, codes_left, distance_of, epilogue_info};
ghost use Rattle.pe_unwind.specs.ListedEpilogues.{in_listed, in_others, infos_left, listed_rules, offset_in, pop_left};
ghost use Rattle.pe_unwind.specs.ListedEpilogues.{pop_size, pushed, rules_left};

use crate::registers::{Register, index};
use crate::rules::{FunctionUnwind, Rules, Unwound, at_first, popped, rules_of, with_saved};
use crate::unwind_codes::{Operation, UnwindCode};
use crate::unwind_info::UnwindInfo;

/// The state while an epilogue's pops are followed.
#[derive(Clone, Copy)]
struct Popping {
    /// How many bytes of the remaining pops have already run.
    run: u32,
    /// The state after the earlier pops that haven't run.
    unwound: Unwound,
}

/// The rules at an offset of a function, if it is in a listed epilogue.
pub(crate) fn listed_rules(function: &FunctionUnwind, offset: u32) -> Option<Rules>
    ensures answer { result ≡ listed_rules function.now offset }
{
    let size = function.end.saturating_sub(function.begin);
    let behind_start = in_listed(size, offset, &function.own.codes)?;
    Some(rules_left(function, behind_start))
}

/// Whether an offset of a function is in a listed epilogue.
pub(crate) fn is_listed(function: &FunctionUnwind, offset: u32) -> bool
    ensures answer { result ≡ is_some (listed_rules function.now offset) }
{
    let size = function.end.saturating_sub(function.begin);
    in_listed(size, offset, &function.own.codes).is_some()
}

/// The first offset at or after a given one that is in a listed epilogue, or the end if there is none before it.
pub(crate) fn next_listed(function: &FunctionUnwind, from: u32, end: u32) -> u32
    requires { from ≤ end }
    ensures from { from ≤ result }
    ensures within { result ≤ end }
    ensures none { (at : ℕ) → at < result → from ≤ at → is_some (listed_rules function.now at) ≡ false }
{
    for at in from..end {
        if is_listed(function, at) {
            return at;
        }
    }
    end
}

// The operation info of a code, if it lists an epilogue.
fn epilogue_info(operation: Operation) -> Option<u8>
    ensures { result ≡ epilogue_info operation }
{
    match operation {
        Operation::Epilogue(info) => Some(info),
        _ => None,
    }
}

// The register of a code, if it says that one was pushed.
fn pushed(operation: Operation) -> Option<Register>
    ensures { result ≡ pushed operation }
{
    match operation {
        Operation::Push(register) => Some(register),
        _ => None,
    }
}

// The distance of an offset from the start of an epilogue, if it is in that epilogue.
fn offset_in(function_size: u32, size: u8, distance: u32, offset: u32) -> Option<u32>
    ensures { result ≡ offset_in function_size size distance offset }
{
    if function_size < distance {
        return None;
    }
    let start = function_size - distance;
    if start <= offset && offset - start < u32::from(size) {
        return Some(offset - start);
    }
    None
}

// The distance of an epilogue's start from the function's end, by a code after the first one.
fn distance_of(low: u8, high: u8) -> u32
    ensures { result ≡ distance_of low high }
{
    u32::from(low) + u32::from(high) * 256
}

// The distance of an offset from the start of its epilogue, if codes after the first one list that.
fn in_others(function_size: u32, size: u8, offset: u32, codes: &[UnwindCode]) -> Option<u32>
    ensures { result ≡ in_others function_size size offset codes.now }
{
    for &code in codes {
        let info = epilogue_info(code.operation)?;
        let distance = distance_of(code.offset, info);
        if let Some(found) = offset_in(function_size, size, distance, offset) {
            return Some(found);
        }
    }
    None
}

// The distance of an offset from the start of its epilogue, if it is in a listed one.
fn in_listed(function_size: u32, offset: u32, codes: &[UnwindCode]) -> Option<u32>
    ensures { result ≡ in_listed function_size offset codes.now }
{
    let (first, others) = codes.split_first()?;
    let info = epilogue_info(first.operation)?;
    let size = first.offset;
    if info % 2 == 1
        && let Some(found) = offset_in(function_size, size, u32::from(size), offset)
    {
        return Some(found);
    }
    in_others(function_size, size, offset, others)
}

// The size of the pop of a register in bytes.
fn pop_size(register: Register) -> u32
    ensures { result ≡ pop_size register }
{
    if index(register) < 8 { 1 } else { 2 }
}

// The state after the pop of a register, which is skipped if it has already run. `run` is how many bytes of it and of
// the later pops have.
fn pop_left(run: u32, register: Register, unwound: Unwound) -> Unwound
    ensures { result ≡ pop_left run register unwound }
{
    if pop_size(register) <= run {
        return unwound;
    }
    popped(8, with_saved(register, unwound.stack, unwound))
}

// The state after a code, if it says that a register was pushed.
fn code_left(register: Option<Register>, popping: Popping) -> Popping
    ensures { result ≡ code_left register popping }
{
    match register {
        None => popping,
        Some(register) => Popping {
            run: popping.run.saturating_sub(pop_size(register)),
            unwound: pop_left(popping.run, register, popping.unwound),
        },
    }
}

// The state after some codes.
fn codes_left(codes: &[UnwindCode], popping: Popping) -> Popping
    ensures { result ≡ codes_left codes.now popping }
{
    let mut left = popping;
    for &code in codes {
        left = code_left(pushed(code.operation), left);
    }
    left
}

// The state after the codes of some infos.
fn infos_left(infos: &[UnwindInfo], popping: Popping) -> Popping
    ensures { result ≡ infos_left infos.now popping }
{
    let mut left = popping;
    for info in infos {
        left = codes_left(&info.codes, left);
    }
    left
}

// The state before any pop is followed, when `run` bytes of the epilogue have already run.
fn all_left(run: u32) -> Popping
    ensures { result ≡ all_left run }
{
    Popping {
        run,
        unwound: at_first(),
    }
}

// The rules at a distance of `run` bytes from the start of an epilogue.
fn rules_left(function: &FunctionUnwind, run: u32) -> Rules
    ensures { result ≡ rules_left function.now run }
{
    let own = codes_left(&function.own.codes, all_left(run));
    let popping = infos_left(&function.parents, own);
    rules_of(popping.unwound)
}
