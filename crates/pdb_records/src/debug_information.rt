//! The machine of a program, the list of its modules, and its section contributions.

use crate::addresses::PdbInternalSectionOffset;
use crate::error::StreamError;
use crate::raw_string::RawString;
use crate::reading::Reading;

/// The machine of a program, as far as it decides the size of a pointer.
#[derive(Clone, Copy, PartialEq, Eq)]
pub enum MachineType {
    Amd64,
    Arm64,
    Ia64,
    RiscV64,
    RiscV128,
    Other,
}

/// The debug information of a program: its machine, its modules, and which bytes came from each module.
pub struct DebugInformation {
    pub machine_type: Result<MachineType, StreamError>,
    pub modules: Reading<Module>,
    pub section_contributions: Reading<SectionContribution>,
}

impl Drop for DebugInformation {
    fn drop(self) {
        let DebugInformation {
            machine_type: _,
            modules: _,
            section_contributions: _,
        } = self;
    }
}

/// A module: a file that was linked into the program.
#[derive(Clone)]
pub struct Module {
    pub name: RawString,
}

impl Drop for Module {
    fn drop(self) {
        let Module { name: _ } = self;
    }
}

/// A section contribution: a range of bytes of a section that came from one module.
#[derive(Clone, Copy)]
pub struct SectionContribution {
    pub offset: PdbInternalSectionOffset,
    /// Its size in bytes.
    pub size: u32,
    /// The module index, in the list of modules.
    pub module: usize,
}
