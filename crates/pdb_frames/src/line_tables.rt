//! Tables of line rows by section offset, one for each module's line program, which are made once.

ghost use Rattle.std.specs.Prelude.{◌≡◌, IfOk};
ghost use Rattle.std.specs.BTreeMap.{get};
ghost use Rattle.std.specs.FinMap.{nat_cmp-IsAntisymmetric};
ghost use Rattle.std.specs.Option.{option_copied};
ghost use Rattle.std.specs.Ordering.{nat_cmp};
ghost use Rattle.pdb_records.specs.Lines.{lines_at};
ghost use Rattle.pdb_records.specs.declared.addresses.PdbInternalSectionOffset.{PdbInternalSectionOffset};
ghost use Rattle.pdb_functions.specs.Starts.{section_offset_cmp};
ghost use Rattle.pdb_tables.specs.OnceMap.{HoldsOfEach};
ghost use Rattle.pdb_frames.specs.CodeCaches.{ModuleRecords, HasProgram};

use pdb_records::{LineInfo, LineProgram, PdbInternalSectionOffset, Reading};
use pdb_tables::{Once, OnceMap, insert_first};
use std::alloc::{AllocError, Global};
use std::collections::BTreeMap;
use std::marker::Model;

// A table of the line rows in one line program, by the section offsets of their functions.
#[derive(Drop)]
pub(crate) struct LineEntries<'a> {
    program: &'a LineProgram,
    known: BTreeMap<PdbInternalSectionOffset, &'a Reading<LineInfo>>,
}

// Contracts see the table as the line program.
impl<'a> Model for LineEntries<'a> {
    ghost use Rattle.std.specs.Prelude.{◌≡◌};
    ghost use Rattle.std.specs.BTreeMap.{get};
    ghost use Rattle.std.specs.Option.{option_copied};
    ghost use Rattle.pdb_records.specs.LinePrograms.{Lines};
    ghost use Rattle.pdb_records.specs.Lines.{lines_at};
    ghost use Rattle.pdb_records.specs.declared.addresses.PdbInternalSectionOffset.{PdbInternalSectionOffset};
    ghost use Rattle.pdb_functions.specs.Starts.{section_offset_cmp};

    ghost Value = { Lines };

    ghost view = { λ e. e.program.now };

    ghost invariant = { λ e. (section_offset : PdbInternalSectionOffset)
        → option_copied (get section_offset_cmp e.known section_offset)
        ≡ lines_at section_offset e.program.now.entries };
}

impl<'a> LineEntries<'a> {
    // Makes a table of all entries.
    pub(crate) fn new(alloc: Global, program: &'a LineProgram) -> Result<Self, AllocError>
        ensures { IfOk result (λ entries. entries ≡ program.now) }
    {
        let mut known = BTreeMap::new(alloc);
        for entry in &program.entries {
            insert_first(&mut known, entry.offset, &entry.lines)?;
        }
        Ok(LineEntries { program, known })
    }

    // The rows of the function that starts at a section offset. If it has several entries, the first one counts.
    pub(crate) fn rows_at(
        &self,
        section_offset: PdbInternalSectionOffset,
    ) -> Option<&'a Reading<LineInfo>>
        ensures { option_copied result ≡ lines_at section_offset self.now.entries }
    {
        match self.known.get(&section_offset) {
            Some(rows) => Some(*rows),
            None => None,
        }
    }
}

// A table is made once for each module index.
impl Once<usize> for LineEntries<'_> {
    ghost Source = { ModuleRecords };

    ghost fits = { HasProgram };

    ghost antisymmetric = { nat_cmp-IsAntisymmetric };
}

// The tables of line rows, by module index. Each line program is walked over once.
#[derive(Drop)]
pub struct ProgramEntries<'a> {
    pub(crate) alloc: Global,
    pub(crate) cached: OnceMap<usize, LineEntries<'a>>,
}

impl<'a> ProgramEntries<'a> {
    // An empty cache. It takes no memory.
    pub(crate) fn new(alloc: Global) -> Self
        ensures { (records : ModuleRecords) → HoldsOfEach nat_cmp (HasProgram records) result.cached.made }
    {
        ProgramEntries {
            alloc,
            cached: OnceMap::new(alloc),
        }
    }

    // The rows of the function that starts at a section offset, by the line program of the module at a module index.
    pub(crate) fn rows_at(
        &mut self,
        module_index: usize,
        line_program: &'a LineProgram,
        section_offset: PdbInternalSectionOffset,
    ) -> Result<Option<&'a Reading<LineInfo>>, AllocError>
        ghost records: { ModuleRecords }
        requires is_cache { HoldsOfEach nat_cmp (HasProgram records) self.old.cached.made }
        requires line_program { HasProgram records module_index line_program.now }
        ensures answer { IfOk result (λ rows. option_copied rows ≡ lines_at section_offset line_program.now.entries) }
        ensures is_cache { HoldsOfEach nat_cmp (HasProgram records) self.new.cached.made }
    {
        if let Some(entries) = self.cached.get(&module_index) {
            return Ok(entries.rows_at(section_offset));
        }
        let entries = LineEntries::new(self.alloc, line_program)?;
        let rows = entries.rows_at(section_offset);
        self.cached.insert(module_index, entries)?;
        Ok(rows)
    }
}
