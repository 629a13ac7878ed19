//! Finds epilogues, the instructions that free a function's frame and leave it, and the rules at each of them.

ghost use Rattle.std.specs.Prelude.{◌≡◌, ◌≤◌, ◌<◌, ◌+◌, ℕ, drop, false, is_some, length, slice_index};
ghost use Rattle.pe_unwind.specs.Epilogues.{adds_byte, adds_number, begins_with, epilogue_rules, first_pop, is_pop};
ghost use Rattle.pe_unwind.specs.Epilogues.{jumps_out, jumps_prefixed, jumps_through, lea_by, lea_if, leas, leaves};
ghost use Rattle.pe_unwind.specs.Epilogues.{first_pops, leaves_for, operand, pop_undone, returns, stack_restored};
ghost use Rattle.pe_unwind.specs.Epilogues.{may_begin, may_follow, signed_byte, signed_number};
ghost use Rattle.pe_unwind.specs.Rules.{at_first, stack_top};
ghost use Rattle.pe_unwind.specs.declared.rules.Unwound.{Unwound};

use crate::registers::{Register, index, numbered};
use crate::rules::{
    FunctionUnwind, RegisterOffset, Rules, Unwound, above, at_first, popped, rules_of, stack_top,
    with_saved,
};
use crate::unwind_info::FrameRegister;
use pe_image::u32_at;

/// The maximum number of registers that an epilogue pops.
const MOST_POPS: usize = 16;

/// The byte of `pop rsp`.
const POP_RSP: u8 = 0x5c;

/// The effect of an instruction that frees the frame.
#[derive(Clone, Copy)]
struct Restored {
    /// The stack pointer after it.
    stack: RegisterOffset,
    /// Its size in bytes, 0 if there is none.
    size: usize,
}

/// A pop.
#[derive(Clone, Copy)]
struct Pop {
    register: Register,
    /// Its size in bytes.
    size: usize,
}

/// The rules at an instruction of an epilogue of version 1. `code` is the function's code from there to its end. `None`
/// if no epilogue continues there.
pub(crate) fn epilogue_rules(function: &FunctionUnwind, code: &[u8]) -> Option<Rules>
    requires { length code.now ≤ function.now.end }
    ensures answer { result ≡ epilogue_rules function.now code.now }
{
    let front = stack_restored(function.own.frame, code);
    let (undone, rest) = first_pops(behind(code, front.size), from_stack(front.stack));
    if leaves(function, rest) {
        return Some(rules_of(undone));
    }
    None
}

/// Whether an epilogue of version 1 continues at the start of this code.
pub(crate) fn is_epilogue(function: &FunctionUnwind, code: &[u8]) -> bool
    requires { length code.now ≤ function.now.end }
    ensures answer { result ≡ is_some (epilogue_rules function.now code.now) }
{
    let front = stack_restored(function.own.frame, code);
    leaves(function, pops_rest(behind(code, front.size)))
}

/// The first offset at or after a given one that is in an epilogue of version 1, or the code's size if there is none.
pub(crate) fn next_epilogue(function: &FunctionUnwind, code: &[u8], from: usize) -> usize
    requires from { from ≤ length code.now }
    requires code { length code.now ≤ function.now.end }
    ensures from { from ≤ result }
    ensures within { result ≤ length code.now }
    ensures none { (at : ℕ) → at < result → from ≤ at
        → is_some (epilogue_rules function.now (drop at code.now)) ≡ false }
{
    for at in from..code.len() {
        if is_epilogue_at(function, code, at) {
            return at;
        }
    }
    code.len()
}

// Whether an offset is in an epilogue of version 1. For most offsets the first byte there rules this out.
fn is_epilogue_at(function: &FunctionUnwind, code: &[u8], at: usize) -> bool
    requires at { at < length code.now }
    requires code { length code.now ≤ function.now.end }
    ensures { result ≡ is_some (epilogue_rules function.now (drop at code.now)) }
{
    if !may_begin(code, at) {
        return false;
    }
    let (_, rest) = code.split_at(at);
    is_epilogue(function, rest)
}

// Whether the bytes at an offset can be the first three of an epilogue. The range comparisons come first, because they
// rule out most bytes.
fn may_begin(code: &[u8], at: usize) -> bool
    requires { at < length code.now }
    ensures { result
        ≡ may_begin (slice_index code.now at) (slice_index code.now (at + 1)) (slice_index code.now (at + 2)) }
{
    let first = code[at];
    if first < 0x40 {
        return false;
    }
    if first < 0x50 {
        return may_follow(byte(code, at + 1), byte(code, at + 2));
    }
    if 0x60 <= first && first < 0xc2 {
        return false;
    }
    match first {
        0xf3 => byte(code, at + 1) == 0xc3,
        0xff => byte(code, at + 1) == 0x25,
        _ => matches!(first, 0xc2 | 0xc3 | 0xe9 | 0xeb) || is_pop(first),
    }
}

// Whether the two bytes after a prefix may be those of an epilogue.
fn may_follow(second: u8, third: u8) -> bool
    ensures { result ≡ may_follow second third }
{
    match second {
        0x81 | 0x83 => third == 0xc4,
        0x8d => third / 8 % 8 == 4,
        _ => second == 0xff || is_pop(second),
    }
}

// The state before anything is undone, with the stack pointer at this place.
fn from_stack(stack: RegisterOffset) -> Unwound
    ensures { result ≡ record at_first { stack = stack } }
{
    let first = at_first();
    let saved = first.saved;
    Unwound {
        stack,
        saved,
        is_trapped: first.is_trapped,
    }
}

// The code after the first `count` bytes.
fn behind(code: &[u8], count: usize) -> &[u8]
    ensures answer { result.now ≡ drop count code.now }
    ensures shorter { length result.now ≤ length code.now }
{
    if code.len() < count {
        return &[];
    }
    let (_, rest) = code.split_at(count);
    rest
}

// The byte at an offset; 0 after the end of the code.
fn byte(code: &[u8], at: usize) -> u8
    ensures { result ≡ slice_index code.now at }
{
    code.get(at).copied().unwrap_or(0)
}

// Sign-extends a byte.
fn signed_byte(byte: u8) -> u64
    ensures { result ≡ signed_byte byte }
{
    if byte < 128 {
        u64::from(byte)
    } else {
        u64::from(byte) + (u64::MAX - 0xff)
    }
}

// Sign-extends a four-byte number.
fn signed_number(number: u32) -> u64
    ensures { result ≡ signed_number number }
{
    if number < 0x8000_0000 {
        u64::from(number)
    } else {
        u64::from(number) + (u64::MAX - 0xffff_ffff)
    }
}

// The four-byte number at an offset of an instruction.
fn operand(code: &[u8], at: usize) -> u32
    ensures { result ≡ operand code.now at }
{
    u32_at(code, at).unwrap_or(0)
}

// Whether code begins with these two bytes and has at least `size` bytes.
fn begins_with(first: u8, second: u8, size: usize, code: &[u8]) -> bool
    ensures { result ≡ begins_with first second size code.now }
{
    byte(code, 0) == first && byte(code, 1) == second && size <= code.len()
}

// Whether code begins with `add rsp, imm8`.
fn adds_byte(code: &[u8]) -> bool
    ensures { result ≡ adds_byte code.now }
{
    begins_with(0x48, 0x83, 4, code) && byte(code, 2) == 0xc4
}

// Whether code begins with `add rsp, imm32`.
fn adds_number(code: &[u8]) -> bool
    ensures { result ≡ adds_number code.now }
{
    begins_with(0x48, 0x81, 7, code) && byte(code, 2) == 0xc4
}

// Whether code begins with `lea rsp, [register + displacement]`.
fn leas(number: u8, mode: u8, size: usize, code: &[u8]) -> bool
    requires number { number < 16 }
    requires mode { mode < 3 }
    ensures { result ≡ leas number mode size code.now }
{
    number % 8 != 4
        && begins_with(0x48 + number / 8, 0x8d, size, code)
        && byte(code, 2) == mode * 64 + 0x20 + number % 8
}

// The effect of a `lea` by the frame register, if the code begins with one.
fn lea_by(frame: FrameRegister, code: &[u8]) -> Restored
    ensures { result ≡ lea_by frame code.now }
{
    let number = index(frame.register) as u8;
    let (offset, size) = if leas(number, 1, 4, code) {
        (signed_byte(byte(code, 3)), 4)
    } else if leas(number, 2, 7, code) {
        (signed_number(operand(code, 3)), 7)
    } else {
        return nothing_restored();
    };
    Restored {
        stack: RegisterOffset {
            register: frame.register,
            offset,
        },
        size,
    }
}

// The effect if no instruction frees the frame.
fn nothing_restored() -> Restored
    ensures { result ≡ record { stack = stack_top; size = 0 } }
{
    Restored {
        stack: stack_top(),
        size: 0,
    }
}

// The effect of a `lea` by the frame register, if the function has one and the code begins with it.
fn lea_if(frame: Option<FrameRegister>, code: &[u8]) -> Restored
    ensures { result ≡ lea_if frame code.now }
{
    match frame {
        None => nothing_restored(),
        Some(frame) => lea_by(frame, code),
    }
}

// The effect of the instruction that frees the frame, if the code begins with one.
fn stack_restored(frame: Option<FrameRegister>, code: &[u8]) -> Restored
    ensures { result ≡ stack_restored frame code.now }
{
    if adds_byte(code) {
        return Restored {
            stack: above(stack_top(), signed_byte(byte(code, 3))),
            size: 4,
        };
    }
    if adds_number(code) {
        return Restored {
            stack: above(stack_top(), signed_number(operand(code, 3))),
            size: 7,
        };
    }
    lea_if(frame, code)
}

// Whether a byte is that of a pop.
fn is_pop(byte: u8) -> bool
    ensures { result ≡ is_pop byte }
{
    0x58 <= byte && byte < 0x60
}

// The `pop` with which code begins, if any.
fn first_pop(code: &[u8]) -> Option<Pop>
    ensures { result ≡ first_pop code.now }
{
    let first = byte(code, 0);
    if is_pop(first) && first != POP_RSP {
        return Some(Pop {
            register: numbered(usize::from(first - 0x58)),
            size: 1,
        });
    }
    let second = byte(code, 1);
    if first == 0x41 && is_pop(second) {
        return Some(Pop {
            register: numbered(usize::from(second - 0x50)),
            size: 2,
        });
    }
    None
}

// The state after a pop.
fn pop_undone(pop: Pop, unwound: Unwound) -> Unwound
    ensures { result ≡ pop_undone pop unwound }
{
    popped(8, with_saved(pop.register, unwound.stack, unwound))
}

// The state after the pops with which code begins, and the code after them.
fn first_pops(code: &[u8], unwound: Unwound) -> (Unwound, &[u8])
    ensures undone { result.0 ≡ (first_pops code.now unwound).0 }
    ensures rest { result.1.now ≡ (first_pops code.now unwound).1 }
    ensures shorter { length result.1.now ≤ length code.now }
{
    let mut undone = unwound;
    let mut rest = code;
    for _ in 0..MOST_POPS {
        let Some(pop) = first_pop(rest) else {
            break;
        };
        undone = pop_undone(pop, undone);
        rest = behind(rest, pop.size);
    }
    (undone, rest)
}

// The code after the pops with which it begins.
fn pops_rest(code: &[u8]) -> &[u8]
    ensures rest { (u : Unwound) → result.now ≡ (first_pops code.now u).1 }
    ensures shorter { length result.now ≤ length code.now }
{
    let mut rest = code;
    for _ in 0..MOST_POPS {
        let Some(pop) = first_pop(rest) else {
            break;
        };
        rest = behind(rest, pop.size);
    }
    rest
}

// Whether code begins with `ret`, `ret imm16` or `rep ret`.
fn returns(code: &[u8]) -> bool
    ensures { result ≡ returns code.now }
{
    let first = byte(code, 0);
    first == 0xc3 || first == 0xc2 && code.len() >= 3 || begins_with(0xf3, 0xc3, 2, code)
}

// Whether a jump to an address leaves a function.
fn leaves_for(function: &FunctionUnwind, target: u64) -> bool
    ensures { result ≡ leaves_for function.now target }
{
    let begin = u64::from(function.begin);
    target < begin
        || target >= u64::from(function.end)
        || target == begin && function.own.parent.is_none()
}

// Whether code begins with a relative jump that leaves the function.
fn jumps_out(function: &FunctionUnwind, code: &[u8]) -> bool
    requires { length code.now ≤ function.now.end }
    ensures { result ≡ jumps_out function.now code.now }
{
    let first = byte(code, 0);
    let end = u64::from(function.end);
    let size = code.len() as u64;
    if first == 0xeb && size >= 2 {
        return leaves_for(
            function,
            (end - (size - 2)).wrapping_add(signed_byte(byte(code, 1))),
        );
    }
    first == 0xe9
        && size >= 5
        && leaves_for(
            function,
            (end - (size - 5)).wrapping_add(signed_number(operand(code, 1))),
        )
}

// Whether code begins with a jump through memory.
fn jumps_through(code: &[u8]) -> bool
    ensures { result ≡ jumps_through code.now }
{
    begins_with(0xff, 0x25, 6, code)
}

// Whether code begins with a jump through memory or by a register, with a prefix before it.
fn jumps_prefixed(code: &[u8]) -> bool
    ensures { result ≡ jumps_prefixed code.now }
{
    let first = byte(code, 0);
    first / 16 == 4 && jumps_through(behind(code, 1))
        || first / 8 == 9 && byte(code, 1) == 0xff && byte(code, 2) / 8 == 28
}

// Whether code begins with an instruction that leaves the function.
fn leaves(function: &FunctionUnwind, code: &[u8]) -> bool
    requires { length code.now ≤ function.now.end }
    ensures { result ≡ leaves function.now code.now }
{
    returns(code) || jumps_out(function, code) || jumps_through(code) || jumps_prefixed(code)
}
