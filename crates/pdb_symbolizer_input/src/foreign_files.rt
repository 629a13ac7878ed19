//! `ForeignFile`: the kind of a file that can't be read, by its first bytes.

use std::fmt;

/// The kind of a file that isn't a Windows program, a PDB file or a records file.
#[derive(Debug, Clone, Copy, PartialEq, Eq)]
pub enum ForeignFile {
    Elf,
    MachO,
    /// A PDB file in the compressed form of newer Microsoft tools.
    Msfz,
    Unknown,
}

impl ForeignFile {
    /// The kind of a file with these bytes. `None` if it begins as a records file does.
    pub fn of_bytes(bytes: &[u8]) -> Option<ForeignFile> {
        if bytes.starts_with(b"\x7fELF") {
            return Some(ForeignFile::Elf);
        }
        if bytes.starts_with(b"\xcf\xfa\xed\xfe") || bytes.starts_with(b"\xce\xfa\xed\xfe") {
            return Some(ForeignFile::MachO);
        }
        if bytes.starts_with(b"Microsoft MSFZ Container") {
            return Some(ForeignFile::Msfz);
        }
        match bytes.trim_ascii_start().first() {
            Some(b'{') => None,
            _ => Some(ForeignFile::Unknown),
        }
    }
}

impl fmt::Display for ForeignFile {
    fn fmt<W: fmt::Write>(&self, f: &mut fmt::Formatter<W>) -> fmt::Result {
        f.write_str(match self {
            ForeignFile::Elf => "an ELF file, not a program of Windows",
            ForeignFile::MachO => "a Mach-O file, not a program of Windows",
            ForeignFile::Msfz => "a compressed PDB file (MSFZ)",
            ForeignFile::Unknown => "no program (EXE or DLL), PDB file or records file",
        })
    }
}
