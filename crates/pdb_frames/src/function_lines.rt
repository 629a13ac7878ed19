//! `FunctionLines`: a cache of functions' line rows, in which the row at an offset is found.

ghost use Rattle.std.specs.Ordering.{nat_cmp};
ghost use Rattle.pdb_errors.specs.Outcomes.{Gives};
ghost use Rattle.pdb_tables.specs.OnceMap.{HoldsOfEach};
ghost use Rattle.pdb_frames.specs.Lines.{function_row};
ghost use Rattle.pdb_frames.specs.CodeCaches.{ModuleRecords, HasProgram, function_cmp, AreRowsOf};
ghost use Rattle.pdb_frames.specs.CodeKeys.{function_cmp-IsAntisymmetric};

use crate::code_keys::{FunctionKey, function_key};
use crate::function_rows::FunctionRows;
use crate::line_tables::ProgramEntries;
use pdb_errors::Result;
use pdb_records::{LineInfo, LineProgram, PdbInternalSectionOffset};
use pdb_tables::{Once, OnceMap};
use std::alloc::Global;

// The rows of a function are made once.
impl Once<FunctionKey> for FunctionRows {
    ghost Source = { ModuleRecords };

    ghost fits = { AreRowsOf };

    ghost antisymmetric = { function_cmp-IsAntisymmetric };
}

// The line rows of functions, by module index and start. The rows of a function are found and sorted once.
#[derive(Drop)]
pub struct FunctionLines<'a> {
    pub(crate) alloc: Global,
    pub(crate) entries: ProgramEntries<'a>,
    pub(crate) cached: OnceMap<FunctionKey, FunctionRows>,
}

impl<'a> FunctionLines<'a> {
    // An empty cache. It takes no memory.
    pub fn new(alloc: Global) -> Self
        ensures entries { (records : ModuleRecords)
            → HoldsOfEach nat_cmp (HasProgram records) result.entries.cached.made }
        ensures is_cache { (records : ModuleRecords) → HoldsOfEach function_cmp (AreRowsOf records) result.cached.made }
    {
        FunctionLines {
            alloc,
            entries: ProgramEntries::new(alloc),
            cached: OnceMap::new(alloc),
        }
    }

    // The line row at an offset of the function that starts at a section offset, by the line program of the module at a
    // module index. Refused if the function's rows end early.
    pub fn row(
        &mut self,
        module_index: usize,
        line_program: &'a LineProgram,
        start: PdbInternalSectionOffset,
        offset: u32,
    ) -> Result<Option<LineInfo>>
        ghost records: { ModuleRecords }
        requires entries { HoldsOfEach nat_cmp (HasProgram records) self.old.entries.cached.made }
        requires is_cache { HoldsOfEach function_cmp (AreRowsOf records) self.old.cached.made }
        requires line_program { HasProgram records module_index line_program.now }
        ensures answer { Gives (λ row. row) result (function_row line_program.now start offset) }
        ensures entries { HoldsOfEach nat_cmp (HasProgram records) self.new.entries.cached.made }
        ensures is_cache { HoldsOfEach function_cmp (AreRowsOf records) self.new.cached.made }
    {
        let key = function_key(module_index, start);
        if let Some(rows) = self.cached.get(&key) {
            return rows.row(offset);
        }
        let read = self.entries.rows_at(module_index, line_program, start)?;
        let rows = FunctionRows::new(self.alloc, read)?;
        let row = rows.row(offset);
        self.cached.insert(key, rows)?;
        row
    }
}
