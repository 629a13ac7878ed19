//! The line program of a module: line rows by the section offsets of functions, and source files.

ghost use Rattle.std.specs.Prelude.{◌≡◌, slice_get};
ghost use Rattle.std.specs.Option.{option_copied};
ghost use Rattle.pdb_records.specs.Lines.{lines_at};

use crate::addresses::PdbInternalSectionOffset;
use crate::reading::Reading;
use crate::strings::StringRef;
use std::marker::Model;

/// A position in a module's list of files, counted from 0.
#[derive(Clone, Copy, PartialEq, Eq, PartialOrd, Ord, Hash)]
pub struct FileIndex(pub u32);

/// The source lines of a module's code.
pub struct LineProgram {
    pub entries: Vec<SymbolLines>,
    pub files: Vec<FileInfo>,
}

impl Drop for LineProgram {
    fn drop(self) {
        let LineProgram {
            entries: _,
            files: _,
        } = self;
    }
}

impl Model for LineProgram {
    ghost use Rattle.pdb_records.specs.LinePrograms.{Lines};

    ghost Value = { Lines };

    ghost view = { λ p. record { entries = p.entries.items; files = p.files.items } };
}

/// The line rows of the function that starts at a section offset.
pub struct SymbolLines {
    pub offset: PdbInternalSectionOffset,
    pub lines: Reading<LineInfo>,
}

impl Drop for SymbolLines {
    fn drop(self) {
        let SymbolLines {
            offset: _,
            lines: _,
        } = self;
    }
}

/// A line row: the code from an offset on comes from this line.
#[derive(Clone, Copy)]
pub struct LineInfo {
    /// The offset in bytes from the start of the function's section.
    pub offset: u32,
    pub file_index: FileIndex,
    pub line_start: u32,
}

/// A source file.
#[derive(Clone, Copy)]
pub struct FileInfo {
    /// The reference of its name in the string table.
    pub name: StringRef,
}

impl LineProgram {
    /// The line rows of the function that starts at exactly this section offset. If it has several entries, the first
    /// one counts.
    pub fn lines_for_symbol(&self, offset: PdbInternalSectionOffset) -> Option<&Reading<LineInfo>>
        ensures { option_copied result ≡ lines_at offset self.now.entries }
    {
        for entry in &self.entries {
            if entry.offset == offset {
                return Some(&entry.lines);
            }
        }
        None
    }

    /// The file at this position.
    pub fn get_file_info(&self, index: FileIndex) -> Option<&FileInfo>
        ensures { option_copied result ≡ slice_get self.now.files index.0 }
    {
        self.files.get(index.0 as usize)
    }
}
