//! Computes rules from unwind codes: where the caller's stack pointer, return address and registers are.

ghost use Rattle.std.specs.Prelude.{◌≡◌, ◌↔◌, IsTrue, true};
ghost use Rattle.pe_unwind_arm64.specs.Rules.{above, at_first, below_frame, codes_undone, is_end, less, popped};
ghost use Rattle.pe_unwind_arm64.specs.Rules.{rules_behind, rules_of, stack_top, undone, with_pair, with_saved};

use crate::registers::{BaseRegister, Register, index, second};
use crate::unwind_codes::{Operation, UnwindCode};

/// A place in memory: this many bytes above where a register points.
#[derive(Debug, Clone, Copy, PartialEq, Eq)]
pub struct RegisterOffset {
    pub base: BaseRegister,
    /// The offset in bytes. A negative offset is a two's complement.
    pub offset: u64,
}

/// How a function's caller is found from one of its addresses.
#[derive(Debug, Clone, Copy, PartialEq, Eq)]
pub struct Rules {
    /// The caller's stack pointer, which is the canonical frame address.
    pub cfa: RegisterOffset,
    /// Where the return address is stored. `None` if it is still in x30.
    pub return_address: Option<RegisterOffset>,
    /// Where each of the registers x19 to x30 is stored. `None` if the register still has the caller's value.
    pub saved: [Option<RegisterOffset>; 12],
}

/// The state while a function's prologue is undone.
#[derive(Clone, Copy)]
pub(crate) struct Unwound {
    /// Where the stack pointer points.
    pub(crate) stack: RegisterOffset,
    pub(crate) saved: [Option<RegisterOffset>; 12],
}

// The place `bytes` bytes above another one.
fn above(place: RegisterOffset, bytes: u64) -> RegisterOffset
    ensures { result ≡ above place bytes }
{
    RegisterOffset {
        base: place.base,
        offset: place.offset.wrapping_add(bytes),
    }
}

/// An address minus a number, modulo 2^64.
pub(crate) fn less(address: u64, bytes: u64) -> u64
    ensures { result ≡ less address bytes }
{
    address.wrapping_sub(bytes)
}

// Where the stack pointer points before anything is undone.
fn stack_top() -> RegisterOffset
    ensures { result ≡ stack_top }
{
    RegisterOffset {
        base: BaseRegister::Sp,
        offset: 0,
    }
}

// The place `bytes` bytes below where x29 points.
fn below_frame(bytes: u32) -> RegisterOffset
    ensures { result ≡ below_frame bytes }
{
    RegisterOffset {
        base: BaseRegister::Fp,
        offset: less(0, u64::from(bytes)),
    }
}

// The state before anything is undone.
fn at_first() -> Unwound
    ensures { result ≡ at_first }
{
    Unwound {
        stack: stack_top(),
        saved: [None; 12],
    }
}

// The state with a register saved at a place.
fn with_saved(register: Register, place: RegisterOffset, unwound: Unwound) -> Unwound
    ensures { result ≡ with_saved register place unwound }
{
    let mut saved = unwound.saved;
    saved[index(register)] = Some(place);
    Unwound {
        stack: unwound.stack,
        saved,
    }
}

// The state with two registers saved, the second one 8 bytes above the first.
fn with_pair(one: Register, other: Register, place: RegisterOffset, unwound: Unwound) -> Unwound
    ensures { result ≡ with_pair one other place unwound }
{
    with_saved(other, above(place, 8), with_saved(one, place, unwound))
}

// The state with the stack pointer at a place.
fn with_stack(place: RegisterOffset, unwound: Unwound) -> Unwound
    ensures { result ≡ record unwound { stack = place } }
{
    let saved = unwound.saved;
    Unwound {
        stack: place,
        saved,
    }
}

// The state with the stack pointer `bytes` bytes higher.
fn popped(bytes: u32, unwound: Unwound) -> Unwound
    ensures { result ≡ popped bytes unwound }
{
    let stack = above(unwound.stack, u64::from(bytes));
    with_stack(stack, unwound)
}

// The state after one operation is undone.
fn undone(operation: Operation, unwound: Unwound) -> Unwound
    ensures { result ≡ undone operation unwound }
{
    let stack = unwound.stack;
    match operation {
        Operation::Allocate(bytes) | Operation::PushFloats(bytes) => popped(bytes, unwound),
        Operation::Save(register, offset) => {
            with_saved(register, above(stack, u64::from(offset)), unwound)
        }
        Operation::SavePair(first, offset) => {
            let place = above(stack, u64::from(offset));
            with_pair(first, second(first), place, unwound)
        }
        Operation::SaveWithLink(register, offset) => {
            let place = above(stack, u64::from(offset));
            with_pair(register, Register::X30, place, unwound)
        }
        Operation::Push(register, bytes) => popped(bytes, with_saved(register, stack, unwound)),
        Operation::PushPair(first, bytes) => {
            popped(bytes, with_pair(first, second(first), stack, unwound))
        }
        Operation::SetFrame => with_stack(below_frame(0), unwound),
        Operation::AddFrame(bytes) => with_stack(below_frame(bytes), unwound),
        _ => unwound,
    }
}

/// Whether all codes end here.
pub(crate) fn is_end(operation: Operation) -> bool
    ensures { result ≡ is_end operation }
{
    matches!(operation, Operation::End)
}

// The state after some codes are undone in turn, up to the end code.
fn codes_undone(codes: &[UnwindCode], unwound: Unwound) -> Unwound
    ensures { result ≡ codes_undone codes.now unwound }
{
    let mut after = unwound;
    for &code in codes {
        if is_end(code.operation) {
            return after;
        }
        after = undone(code.operation, after);
    }
    after
}

// The rules when this state is reached at the end.
fn rules_of(unwound: Unwound) -> Rules
    ensures { result ≡ rules_of unwound }
{
    let saved = unwound.saved;
    let return_address = saved.get(index(Register::X30)).copied().unwrap_or(None);
    Rules {
        cfa: unwound.stack,
        return_address,
        saved,
    }
}

/// The rules if all codes except the first `count` are undone.
pub(crate) fn rules_behind(count: usize, codes: &[UnwindCode]) -> Rules
    ensures { result ≡ rules_behind count codes.now }
{
    if codes.len() < count {
        return rules_of(at_first());
    }
    let (_, rest) = codes.split_at(count);
    rules_of(codes_undone(rest, at_first()))
}

// Whether two places are the same.
fn is_same_place(a: Option<RegisterOffset>, b: Option<RegisterOffset>) -> bool
    ensures { IsTrue result ↔ (a ≡ b) }
{
    match (a, b) {
        (None, None) => true,
        (Some(a), Some(b)) => a == b,
        _ => false,
    }
}

// Whether the same registers are saved at the same places.
fn is_same_saved(a: &[Option<RegisterOffset>], b: &[Option<RegisterOffset>]) -> bool
    ensures { IsTrue result → a.now ≡ b.now }
{
    if a.len() != b.len() {
        return false;
    }
    for position in 0..a.len() {
        if !is_same_place(a[position], b[position]) {
            return false;
        }
    }
    true
}

// Whether the caller's stack pointer is at the same place.
fn is_same_cfa(a: RegisterOffset, b: RegisterOffset) -> bool
    ensures { IsTrue result → a ≡ b }
{
    a == b
}

// Whether the return address is at the same place.
fn is_same_return(a: Option<RegisterOffset>, b: Option<RegisterOffset>) -> bool
    ensures { IsTrue result → a ≡ b }
{
    is_same_place(a, b)
}

/// Whether rules are the same.
pub(crate) fn is_same_rules(a: Rules, b: Rules) -> bool
    ensures { IsTrue result → a ≡ b }
{
    if !is_same_cfa(a.cfa, b.cfa) {
        return false;
    }
    if !is_same_return(a.return_address, b.return_address) {
        return false;
    }
    is_same_saved(&a.saved, &b.saved)
}
