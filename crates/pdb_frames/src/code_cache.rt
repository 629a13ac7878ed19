//! `CodeCache`: finds which source line and inlined bodies code comes from, and caches what it reads of modules' code.

ghost use Rattle.std.specs.Prelude.{◌≡◌, Some, Ok, IfOk};
ghost use Rattle.pdb_errors.specs.Outcomes.{Gives, and_then};
ghost use Rattle.pdb_functions.specs.FunctionMatches.{function_match, function_module};
ghost use Rattle.pdb_frames.specs.ExtendedInfo.{extended_info};
ghost use Rattle.pdb_frames.specs.Lines.{function_row};
ghost use Rattle.pdb_frames.specs.CodeCaches.{ModuleRecords, HasProgram, function_stack};
ghost use Rattle.pdb_frames.specs.CodeCache.{IsCodeCache};
ghost use Rattle.pdb_frames.specs.CodeParts.{blame_after_info, part_to_blame};
ghost use Rattle.pdb_frames.specs.CodeLocations.{code_location_view, code_location};

use crate::code_locations::CodeLocation;
use crate::code_parts::CodePart;
use crate::extended_infos::ExtendedInfos;
use crate::function_lines::FunctionLines;
use crate::procedure_ranges::ProcedureRanges;
use pdb_errors::Result;
use pdb_functions::FunctionMatch;
use pdb_inline::InlineRange;
use pdb_records::{LineInfo, LineProgram, ModuleInfo, PdbInternalSectionOffset};
use std::alloc::{AllocError, Global};

/// What was read of modules' code so far. It is searched before the records are read.
///
/// The source of code is found in three steps: the line program of its module, the line row that covers it, and the
/// inlined bodies that cover it.
pub struct CodeCache<'a> {
    pub(crate) alloc: Global,
    pub(crate) infos: ExtendedInfos<'a>,
    pub(crate) lines: FunctionLines<'a>,
    pub(crate) ranges: ProcedureRanges,
}

impl Drop for CodeCache<'_> {
    fn drop(self) {
        let CodeCache {
            alloc: _,
            infos: _,
            lines: _,
            ranges: _,
        } = self;
    }
}

impl<'a> CodeCache<'a> {
    /// An empty cache. It takes no memory.
    pub fn new(alloc: Global) -> Self
        ensures { (records : ModuleRecords) → IsCodeCache records result }
    {
        CodeCache {
            alloc,
            infos: ExtendedInfos::new(alloc),
            lines: FunctionLines::new(alloc),
            ranges: ProcedureRanges::new(alloc),
        }
    }

    /// The source of the code at an offset of a function, by the records of the function's module.
    ///
    /// # Errors
    ///
    /// [`Error::PdbError`](pdb_errors::Error::PdbError) if one of these is broken, in this order: the module's extended
    /// info, the function's line rows, its inline ranges.
    #[tactic(auto, using(crate::proofs::OriginLemmas::origin_by_stack))]
    pub fn code_location(
        &mut self,
        module_info: &'a ModuleInfo,
        function: FunctionMatch<'_>,
        offset: u32,
    ) -> Result<CodeLocation<'a>>
        ghost records: { ModuleRecords }
        requires is_cache { IsCodeCache records self.old }
        requires module_info { records (function_module (function_match function)) ≡ Some module_info.now }
        ensures answer { Gives code_location_view result (code_location module_info.now (function_match function.entry) offset) }
        ensures is_cache { IsCodeCache records self.new }
    {
        let module_index = function.module_index();
        let line_program = self.line_program(module_index, module_info)?;
        let row = self.row(module_index, line_program, function.start(), offset)?;
        let stack = self.stack(module_info, function, offset)?;
        Ok(CodeLocation {
            line_program,
            row,
            stack,
        })
    }

    /// The part of the records that is broken, if the source of a function's code can't be found: the module's extended
    /// info, the function's lines, or its inline ranges, checked in this order. The cache is searched first, so nothing
    /// is read again.
    ///
    /// `AllocError` if memory runs out.
    pub fn part_to_blame(
        &mut self,
        module_info: &'a ModuleInfo,
        function: FunctionMatch<'_>,
    ) -> Result<CodePart, AllocError>
        ghost records: { ModuleRecords }
        requires is_cache { IsCodeCache records self.old }
        requires module_info { records (function_module (function_match function)) ≡ Some module_info.now }
        ensures answer { IfOk result (λ part. part ≡ part_to_blame module_info.now (function_match function.entry)) }
        ensures is_cache { IsCodeCache records self.new }
    {
        let module_index = function.module_index();
        let start = function.start();
        match self.line_program(module_index, module_info) {
            Ok(line_program) => self.blame_after_info(module_index, line_program, start),
            Err(error) => {
                error.unless_out_of_memory()?;
                Ok(CodePart::ExtendedInfo(module_index))
            }
        }
    }

    // The broken part, if the module's extended info isn't it: the function's lines, or else its inline ranges.
    fn blame_after_info(
        &mut self,
        module_index: usize,
        line_program: &'a LineProgram,
        start: PdbInternalSectionOffset,
    ) -> Result<CodePart, AllocError>
        ghost records: { ModuleRecords }
        requires is_cache { IsCodeCache records self.old }
        requires line_program { HasProgram records module_index line_program.now }
        ensures answer { IfOk result (λ part. part ≡ blame_after_info module_index start (Ok line_program.now)) }
        ensures is_cache { IsCodeCache records self.new }
    {
        match self.row(module_index, line_program, start, 0) {
            Ok(_) => Ok(CodePart::InlineRanges(module_index, start)),
            Err(error) => {
                error.unless_out_of_memory()?;
                Ok(CodePart::Lines(module_index, start))
            }
        }
    }

    // The line program of the module at a module index, whose extended info is read and cached.
    fn line_program(
        &mut self,
        module_index: usize,
        module_info: &'a ModuleInfo,
    ) -> Result<&'a LineProgram>
        ghost records: { ModuleRecords }
        requires is_cache { IsCodeCache records self.old }
        requires module_info { records module_index ≡ Some module_info.now }
        ensures answer { Gives (λ p. p.now) result
            (and_then (extended_info module_info.now) (λ known. Ok known.line_program)) }
        ensures is_cache { IsCodeCache records self.new }
    {
        self.infos.line_program(module_index, module_info)
    }

    // The line row at an offset of the function that starts at a section offset, by the line program of the module at a
    // module index.
    fn row(
        &mut self,
        module_index: usize,
        line_program: &'a LineProgram,
        start: PdbInternalSectionOffset,
        offset: u32,
    ) -> Result<Option<LineInfo>>
        ghost records: { ModuleRecords }
        requires is_cache { IsCodeCache records self.old }
        requires line_program { HasProgram records module_index line_program.now }
        ensures answer { Gives (λ row. row) result (function_row line_program.now start offset) }
        ensures is_cache { IsCodeCache records self.new }
    {
        self.lines.row(module_index, line_program, start, offset)
    }

    // The inlined bodies at an offset of a function, the outermost first, by the records of its module. A global
    // function has none.
    fn stack(
        &mut self,
        module_info: &ModuleInfo,
        function: FunctionMatch<'_>,
        offset: u32,
    ) -> Result<Vec<InlineRange>>
        ghost records: { ModuleRecords }
        requires is_cache { IsCodeCache records self.old }
        requires module_info { records (function_module (function_match function)) ≡ Some module_info.now }
        ensures answer { Gives (λ v. v.items) result
            (function_stack module_info.now (function_match function.entry) offset) }
        ensures is_cache { IsCodeCache records self.new }
    {
        match function {
            FunctionMatch::Global { .. } => Ok(Vec::new(self.alloc)),
            FunctionMatch::Procedure {
                module_index,
                procedure,
            } => {
                self.ranges
                    .stack(&self.infos, module_index, module_info, &procedure, offset)
            }
        }
    }
}
