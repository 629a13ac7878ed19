//! Computes an offset's rules from unwind infos: where the caller's stack pointer, return address and registers are.

ghost use Rattle.std.specs.Prelude.{◌≡◌, ◌↔◌, IsTrue, true};
ghost use Rattle.std.specs.List.{list_any};
ghost use Rattle.pe_unwind.specs.Registers.{index};
ghost use Rattle.pe_unwind.specs.Rules.{above, at_first, at_frame, body_rules, code_undone, codes_undone, counts};
ghost use Rattle.pe_unwind.specs.Rules.{frame_start, info_undone, less, next_counted, next_step, parents_undone};
ghost use Rattle.pe_unwind.specs.Rules.{popped, prologue_offset, sooner};
ghost use Rattle.pe_unwind.specs.Rules.{rules_of, saves_from, sets_frame, stack_top, start_once, undone, with_saved};

use crate::registers::{Register, index};
use crate::unwind_codes::{Operation, UnwindCode};
use crate::unwind_info::{FrameRegister, UnwindInfo};

/// A place in memory: this many bytes above where a register points.
#[derive(Debug, Clone, Copy, PartialEq, Eq)]
pub struct RegisterOffset {
    pub register: Register,
    /// The offset in bytes. A negative offset is a two's complement.
    pub offset: u64,
}

/// Where the caller's stack pointer is, which is the canonical frame address.
#[derive(Debug, Clone, Copy, PartialEq, Eq)]
pub enum Cfa {
    /// The stack pointer is the address of this place.
    Sum(RegisterOffset),
    /// The stack pointer is stored at this place.
    Loaded(RegisterOffset),
}

/// How a function's caller is found from one of its addresses.
#[derive(Debug, Clone, Copy, PartialEq, Eq)]
pub struct Rules {
    pub cfa: Cfa,
    /// Where the return address is stored.
    pub return_address: RegisterOffset,
    /// Where each register is stored, by its number. `None` if the register still has the caller's value.
    pub saved: [Option<RegisterOffset>; 16],
}

/// The state while a function's prologue is undone.
#[derive(Clone, Copy)]
pub(crate) struct Unwound {
    /// Where the stack pointer points.
    pub(crate) stack: RegisterOffset,
    pub(crate) saved: [Option<RegisterOffset>; 16],
    /// Whether a machine frame was undone. It is always the last step.
    pub(crate) is_trapped: bool,
}

/// The unwind info of a function.
#[derive(Drop)]
pub struct FunctionUnwind {
    /// The address of its first byte, relative to the image base.
    pub begin: u32,
    /// The address just after its last byte.
    pub end: u32,
    pub own: UnwindInfo,
    /// The infos to which its own one is chained, in the order of the chain.
    pub parents: Vec<UnwindInfo>,
}

impl std::marker::Model for FunctionUnwind {
    ghost use Rattle.pe_unwind.specs.Rules.{Function};

    ghost Value = { Function };

    ghost view = { λ f. record { begin = f.begin; end = f.end; own = f.own; parents = f.parents.items } };
}

/// The place `bytes` bytes above another one.
pub(crate) fn above(place: RegisterOffset, bytes: u64) -> RegisterOffset
    ensures { result ≡ above place bytes }
{
    RegisterOffset {
        register: place.register,
        offset: place.offset.wrapping_add(bytes),
    }
}

/// The state before anything is undone.
pub(crate) fn at_first() -> Unwound
    ensures { result ≡ at_first }
{
    Unwound {
        stack: stack_top(),
        saved: [None; 16],
        is_trapped: false,
    }
}

/// The state with a register saved at a place.
pub(crate) fn with_saved(register: Register, place: RegisterOffset, unwound: Unwound) -> Unwound
    ensures { result ≡ with_saved register place unwound }
{
    let mut saved = unwound.saved;
    saved[index(register)] = Some(place);
    Unwound {
        stack: unwound.stack,
        saved,
        is_trapped: unwound.is_trapped,
    }
}

/// The state with the stack pointer `bytes` bytes higher.
pub(crate) fn popped(bytes: u64, unwound: Unwound) -> Unwound
    ensures { result ≡ popped bytes unwound }
{
    let saved = unwound.saved;
    Unwound {
        stack: above(unwound.stack, bytes),
        saved,
        is_trapped: unwound.is_trapped,
    }
}

/// The rules when this state is reached at the end.
pub(crate) fn rules_of(unwound: Unwound) -> Rules
    ensures { result ≡ rules_of unwound }
{
    let cfa = if unwound.is_trapped {
        Cfa::Loaded(above(unwound.stack, 24))
    } else {
        Cfa::Sum(above(unwound.stack, 8))
    };
    let saved = unwound.saved;
    Rules {
        cfa,
        return_address: unwound.stack,
        saved,
    }
}

/// The offset if it is in the prologue of an info; `None` after the prologue.
pub(crate) fn prologue_offset(info: &UnwindInfo, offset: u32) -> Option<u32>
    ensures { result ≡ prologue_offset info.now offset }
{
    if offset < u32::from(info.prologue_size) {
        return Some(offset);
    }
    None
}

/// The rules outside of epilogues: at an offset in the prologue, or after the prologue (`None`).
pub(crate) fn body_rules(function: &FunctionUnwind, offset: Option<u32>) -> Rules
    ensures { result ≡ body_rules function.now offset }
{
    let own = info_undone(offset, &function.own, at_first());
    rules_of(parents_undone(&function.parents, own))
}

/// Where the stack pointer points before anything is undone.
pub(crate) fn stack_top() -> RegisterOffset
    ensures { result ≡ stack_top }
{
    RegisterOffset {
        register: Register::Rsp,
        offset: 0,
    }
}

// The start of the frame, by the frame register.
fn frame_start(frame: FrameRegister) -> RegisterOffset
    ensures { result ≡ frame_start frame }
{
    RegisterOffset {
        register: frame.register,
        offset: less(0, u64::from(frame.offset)),
    }
}

/// An address minus a number, modulo 2^64.
pub(crate) fn less(address: u64, bytes: u64) -> u64
    ensures { result ≡ less address bytes }
{
    address.wrapping_sub(bytes)
}

// The state with the stack pointer at the start of the frame.
fn at_frame(frame: Option<FrameRegister>, unwound: Unwound) -> Unwound
    ensures { result ≡ at_frame frame unwound }
{
    match frame {
        None => unwound,
        Some(frame) => {
            let saved = unwound.saved;
            Unwound {
                stack: frame_start(frame),
                saved,
                is_trapped: unwound.is_trapped,
            }
        }
    }
}

// The state with a machine frame undone.
fn trapped(unwound: Unwound) -> Unwound
    ensures { result ≡ record unwound { is_trapped = true } }
{
    let saved = unwound.saved;
    Unwound {
        stack: unwound.stack,
        saved,
        is_trapped: true,
    }
}

// The state after one operation is undone.
fn undone(
    frame: Option<FrameRegister>,
    start: RegisterOffset,
    operation: Operation,
    unwound: Unwound,
) -> Unwound
    ensures { result ≡ undone frame start operation unwound }
{
    match operation {
        Operation::Push(register) => popped(8, with_saved(register, unwound.stack, unwound)),
        Operation::Allocate(bytes) => popped(u64::from(bytes), unwound),
        Operation::SetFrame => at_frame(frame, unwound),
        Operation::Save(register, offset) => with_saved(
            register,
            above(start, u64::from(offset)),
            unwound,
        ),
        Operation::MachineFrame(true) => trapped(popped(8, unwound)),
        Operation::MachineFrame(false) => trapped(popped(0, unwound)),
        Operation::Epilogue(_) | Operation::Unseen => unwound,
    }
}

// Whether a code counts: its instruction has run at this offset of the prologue, or the offset is after the prologue.
fn counts(offset: Option<u32>, code: UnwindCode) -> bool
    ensures { result ≡ counts offset code }
{
    match offset {
        None => true,
        Some(offset) => u32::from(code.offset) <= offset,
    }
}

// The offset `from` if it is after `offset` and before `end`, otherwise `end`.
fn sooner(offset: u32, from: u32, end: u32) -> u32
    ensures { result ≡ sooner offset from end }
{
    if offset < from && from < end {
        from
    } else {
        end
    }
}

// The first offset after `offset` at which one more code counts, if it is before `end`, otherwise `end`.
fn next_counted(offset: u32, end: u32, codes: &[UnwindCode]) -> u32
    ensures { result ≡ next_counted offset end codes.now }
{
    let mut next = end;
    for &code in codes {
        next = sooner(offset, u32::from(code.offset), next);
    }
    next
}

/// The first offset after one in the prologue at which one more code counts, or else the end of the prologue. It is at
/// most the function's size.
pub(crate) fn next_step(function: &FunctionUnwind, offset: u32, size: u32) -> u32
    ensures { result ≡ next_step function.now offset size }
{
    let end = u32::from(function.own.prologue_size).min(size);
    next_counted(offset, end, &function.own.codes)
}

// The state after one code is undone, if it counts.
fn code_undone(
    frame: Option<FrameRegister>,
    start: RegisterOffset,
    offset: Option<u32>,
    code: UnwindCode,
    unwound: Unwound,
) -> Unwound
    ensures { result ≡ code_undone frame start offset code unwound }
{
    if unwound.is_trapped || !counts(offset, code) {
        return unwound;
    }
    undone(frame, start, code.operation, unwound)
}

// The state after some codes are undone in turn.
fn codes_undone(
    frame: Option<FrameRegister>,
    start: RegisterOffset,
    offset: Option<u32>,
    codes: &[UnwindCode],
    unwound: Unwound,
) -> Unwound
    ensures { result ≡ codes_undone frame start offset codes.now unwound }
{
    let mut after = unwound;
    for &code in codes {
        after = code_undone(frame, start, offset, code, after);
    }
    after
}

// Whether a code that counts sets the frame register.
fn sets_frame(offset: Option<u32>, code: UnwindCode) -> bool
    ensures { result ≡ sets_frame offset code }
{
    matches!(code.operation, Operation::SetFrame) && counts(offset, code)
}

// Whether one of the codes that count sets the frame register.
fn any_sets_frame(offset: Option<u32>, codes: &[UnwindCode]) -> bool
    ensures { result ≡ list_any (sets_frame offset) codes.now }
{
    codes.iter().any(|code| sets_frame(offset, *code))
}

// The base of the frame: the start given by the frame register if that is set, otherwise the stack pointer.
fn start_once(frame: Option<FrameRegister>, set: bool) -> RegisterOffset
    ensures { result ≡ start_once frame set }
{
    match frame {
        Some(frame) if set => frame_start(frame),
        _ => stack_top(),
    }
}

// The place from which the offsets of SAVE codes count.
fn saves_from(offset: Option<u32>, info: &UnwindInfo) -> RegisterOffset
    ensures { result ≡ saves_from offset info.now }
{
    let set = offset.is_none() || info.parent.is_some() || any_sets_frame(offset, &info.codes);
    start_once(info.frame, set)
}

// The state after an info is undone, at an offset in its prologue or after it.
fn info_undone(offset: Option<u32>, info: &UnwindInfo, unwound: Unwound) -> Unwound
    ensures { result ≡ info_undone offset info.now unwound }
{
    codes_undone(
        info.frame,
        saves_from(offset, info),
        offset,
        &info.codes,
        unwound,
    )
}

// The state after the parents of a chained info are undone.
fn parents_undone(parents: &[UnwindInfo], unwound: Unwound) -> Unwound
    ensures { result ≡ parents_undone parents.now unwound }
{
    let mut after = unwound;
    for parent in parents {
        after = info_undone(None, parent, after);
    }
    after
}

/// Whether two places are the same.
pub(crate) fn is_same_place(a: Option<RegisterOffset>, b: Option<RegisterOffset>) -> bool
    ensures { IsTrue result ↔ (a ≡ b) }
{
    match (a, b) {
        (None, None) => true,
        (Some(a), Some(b)) => a == b,
        _ => false,
    }
}

// Whether the same registers are saved at the same places.
fn is_same_saved(a: &[Option<RegisterOffset>], b: &[Option<RegisterOffset>]) -> bool
    ensures { IsTrue result → a.now ≡ b.now }
{
    if a.len() != b.len() {
        return false;
    }
    for position in 0..a.len() {
        if !is_same_place(a[position], b[position]) {
            return false;
        }
    }
    true
}

// Whether the caller's stack pointer is at the same place.
fn is_same_cfa(a: Cfa, b: Cfa) -> bool
    ensures { IsTrue result → a ≡ b }
{
    match (a, b) {
        (Cfa::Sum(a), Cfa::Sum(b)) | (Cfa::Loaded(a), Cfa::Loaded(b)) => a == b,
        _ => false,
    }
}

// Whether the return address is at the same place.
fn is_same_return(a: RegisterOffset, b: RegisterOffset) -> bool
    ensures { IsTrue result → a ≡ b }
{
    a == b
}

/// Whether rules are the same.
pub(crate) fn is_same_rules(a: Rules, b: Rules) -> bool
    ensures { IsTrue result → a ≡ b }
{
    if !is_same_cfa(a.cfa, b.cfa) {
        return false;
    }
    if !is_same_return(a.return_address, b.return_address) {
        return false;
    }
    is_same_saved(&a.saved, &b.saved)
}
