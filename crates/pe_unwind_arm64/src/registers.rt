//! The registers of ARM64 that a function saves for its caller, and the base registers of places in its frame.

ghost use Rattle.std.specs.Prelude.{◌≡◌, ◌<◌};
ghost use Rattle.pe_unwind_arm64.specs.Registers.{base_number, index, register, second};

/// A register that a function saves for its caller.
#[derive(Debug, Clone, Copy, PartialEq, Eq)]
pub enum Register {
    X19,
    X20,
    X21,
    X22,
    X23,
    X24,
    X25,
    X26,
    X27,
    X28,
    /// The frame pointer.
    X29,
    /// The link register, which has the return address when a function begins.
    X30,
}

/// A register to which places in the frame are relative.
#[derive(Debug, Clone, Copy, PartialEq, Eq)]
pub enum BaseRegister {
    /// The stack pointer.
    Sp,
    /// The frame pointer, x29.
    Fp,
}

/// The register that is `number` registers after x19. All numbers above 10 mean x30.
pub(crate) fn numbered(number: usize) -> Register
    ensures { result ≡ register number }
{
    match number {
        0 => Register::X19,
        1 => Register::X20,
        2 => Register::X21,
        3 => Register::X22,
        4 => Register::X23,
        5 => Register::X24,
        6 => Register::X25,
        7 => Register::X26,
        8 => Register::X27,
        9 => Register::X28,
        10 => Register::X29,
        _ => Register::X30,
    }
}

/// How many registers a register is after x19, from 0 to 11.
pub(crate) fn index(register: Register) -> usize
    ensures answer { result ≡ index register }
    ensures bound { result < 12 }
{
    match register {
        Register::X19 => 0,
        Register::X20 => 1,
        Register::X21 => 2,
        Register::X22 => 3,
        Register::X23 => 4,
        Register::X24 => 5,
        Register::X25 => 6,
        Register::X26 => 7,
        Register::X27 => 8,
        Register::X28 => 9,
        Register::X29 => 10,
        Register::X30 => 11,
    }
}

/// The second register of a pair. It is stored above the first one.
pub(crate) fn second(first: Register) -> Register
    ensures { result ≡ second first }
{
    numbered(index(first) + 1)
}

/// A different number for each base register.
pub(crate) fn base_number(base: BaseRegister) -> u8
    ensures { result ≡ base_number base }
{
    match base {
        BaseRegister::Sp => 0,
        BaseRegister::Fp => 1,
    }
}
