//! `Machine`: a processor, by the number that programs and PDB files have for it.

use std::fmt;

/// A processor by its number. Its text is the name that tools use for it, or the number if it has none.
#[derive(Debug, Clone, Copy, PartialEq, Eq)]
pub struct Machine(pub u16);

impl fmt::Display for Machine {
    fn fmt<W: fmt::Write>(&self, f: &mut fmt::Formatter<W>) -> fmt::Result {
        match self.0 {
            0x014c => f.write_str("x86"),
            0x8664 => f.write_str("x86_64"),
            0x01c4 => f.write_str("arm"),
            0xaa64 => f.write_str("arm64"),
            0xa641 => f.write_str("arm64ec"),
            number => write!(f, "0x{number:04x}"),
        }
    }
}
