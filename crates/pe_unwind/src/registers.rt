//! The general registers of x64.

ghost use Rattle.std.specs.Prelude.{◌≡◌, ◌<◌};
ghost use Rattle.pe_unwind.specs.Registers.{index, register};

/// A general register.
#[derive(Debug, Clone, Copy, PartialEq, Eq)]
pub enum Register {
    Rax,
    Rcx,
    Rdx,
    Rbx,
    Rsp,
    Rbp,
    Rsi,
    Rdi,
    R8,
    R9,
    R10,
    R11,
    R12,
    R13,
    R14,
    R15,
}

/// The register with this number in instructions and unwind codes. All numbers above 14 mean r15.
pub(crate) fn numbered(number: usize) -> Register
    ensures { result ≡ register number }
{
    match number {
        0 => Register::Rax,
        1 => Register::Rcx,
        2 => Register::Rdx,
        3 => Register::Rbx,
        4 => Register::Rsp,
        5 => Register::Rbp,
        6 => Register::Rsi,
        7 => Register::Rdi,
        8 => Register::R8,
        9 => Register::R9,
        10 => Register::R10,
        11 => Register::R11,
        12 => Register::R12,
        13 => Register::R13,
        14 => Register::R14,
        _ => Register::R15,
    }
}

/// The number of a register, from 0 to 15.
pub(crate) fn index(register: Register) -> usize
    ensures answer { result ≡ index register }
    ensures bound { result < 16 }
{
    match register {
        Register::Rax => 0,
        Register::Rcx => 1,
        Register::Rdx => 2,
        Register::Rbx => 3,
        Register::Rsp => 4,
        Register::Rbp => 5,
        Register::Rsi => 6,
        Register::Rdi => 7,
        Register::R8 => 8,
        Register::R9 => 9,
        Register::R10 => 10,
        Register::R11 => 11,
        Register::R12 => 12,
        Register::R13 => 13,
        Register::R14 => 14,
        Register::R15 => 15,
    }
}
