//! Prints a hint on `--base` if addresses seem to contain the program's base, which a PDB file doesn't say.

use crate::public_names::PublicNames;

/// The default image bases of linkers for programs and DLLs.
const BASES: [u64; 4] = [0x40_0000, 0x1000_0000, 0x1_4000_0000, 0x1_8000_0000];

/// The lowest of these bases.
const LOWEST: u64 = 0x40_0000;

/// The text of the hint before the option.
const HINT: &str = "for addresses with the base in them say";

/// Whether the hint was printed already.
#[derive(Clone, Copy, PartialEq, Eq)]
pub enum BaseHint {
    ToBePrinted,
    Printed,
}

impl BaseHint {
    /// Prints the hint, at most once, if the address is outside every section but subtracting a default base puts it
    /// inside one.
    pub fn print<R: Eprint>(&mut self, rt: &R, file: &str, names: &PublicNames, given: u64) {
        if *self == BaseHint::Printed || given < LOWEST || names.lies_in_section(given) {
            return;
        }
        for &base in &BASES {
            if base <= given && names.lies_in_section(given - base) {
                *self = BaseHint::Printed;
                let _ = eprintln!(rt;
                    "pdb_symbolizer: {file}: 0x{given:x} lies in no section: {HINT} --base 0x{base:x}"
                );
                return;
            }
        }
    }
}
