//! The cache of modules' extended infos by module index, and the inline ranges that they lead to.

ghost use Rattle.std.specs.Prelude.{◌≡◌, [], Some, Ok, IfOk};
ghost use Rattle.std.specs.FinMap.{nat_cmp-IsAntisymmetric};
ghost use Rattle.std.specs.Ordering.{nat_cmp};
ghost use Rattle.pdb_errors.specs.Outcomes.{Gives, and_then, streamed};
ghost use Rattle.pdb_tables.specs.OnceMap.{HoldsOfEach};
ghost use Rattle.pdb_inline.specs.InlineRanges.{procedure_inline_ranges};
ghost use Rattle.pdb_frames.specs.ExtendedInfo.{extended_info};
ghost use Rattle.pdb_frames.specs.CodeCaches.{ModuleRecords, IsKnownOf, procedure_ranges};

use crate::extended_info::{ExtendedModuleInfo, compute_extended_module_info};
use crate::symbol_inline_ranges::compute_procedure_inline_ranges;
use pdb_errors::Result;
use pdb_functions::ProcedureSymbolFunction;
use pdb_inline::InlineRange;
use pdb_records::{LineProgram, ModuleInfo};
use pdb_tables::{Once, OnceMap};
use std::alloc::Global;

// An extended info is made once for each module index.
impl Once<usize> for ExtendedModuleInfo<'_> {
    ghost Source = { ModuleRecords };

    ghost fits = { IsKnownOf };

    ghost antisymmetric = { nat_cmp-IsAntisymmetric };
}

// The extended infos of modules, by module index. Each is read once.
#[derive(Drop)]
pub struct ExtendedInfos<'a> {
    pub(crate) alloc: Global,
    pub(crate) cached: OnceMap<usize, ExtendedModuleInfo<'a>>,
}

impl<'a> ExtendedInfos<'a> {
    // An empty cache. It takes no memory.
    pub fn new(alloc: Global) -> Self
        ensures { (records : ModuleRecords) → HoldsOfEach nat_cmp (IsKnownOf records) result.cached.made }
    {
        ExtendedInfos {
            alloc,
            cached: OnceMap::new(alloc),
        }
    }

    // The line program of the module at a module index, whose extended info is read and cached. Refused if the line
    // program can't be read, or else if the list of inlinees ends early.
    pub fn line_program(
        &mut self,
        module_index: usize,
        module_info: &'a ModuleInfo,
    ) -> Result<&'a LineProgram>
        ghost records: { ModuleRecords }
        requires is_cache { HoldsOfEach nat_cmp (IsKnownOf records) self.old.cached.made }
        requires module_info { records module_index ≡ Some module_info.now }
        ensures answer { Gives (λ p. p.now) result
            (and_then (extended_info module_info.now) (λ known. Ok known.line_program)) }
        ensures is_cache { HoldsOfEach nat_cmp (IsKnownOf records) self.new.cached.made }
    {
        if let Some(known) = self.cached.get(&module_index) {
            return Ok(known.line_program);
        }
        let known = compute_extended_module_info(self.alloc, module_info)?;
        let line_program = known.line_program;
        self.cached.insert(module_index, known)?;
        Ok(line_program)
    }

    // The inline ranges of a procedure, sorted by depth and start. Refused for the same reasons as the line program, or
    // else if the module's symbols end early.
    pub fn inline_ranges(
        &self,
        module_index: usize,
        module_info: &ModuleInfo,
        procedure: &ProcedureSymbolFunction<'_>,
    ) -> Result<Vec<InlineRange>>
        ghost records: { ModuleRecords }
        requires is_cache { HoldsOfEach nat_cmp (IsKnownOf records) self.now.cached.made }
        requires module_info { records module_index ≡ Some module_info.now }
        ensures { Gives (λ v. v.items) result (procedure_ranges module_info.now
            procedure.now.symbol_index.0 procedure.now.end_symbol_index.0) }
    {
        if let Some(known) = self.cached.get(&module_index) {
            return compute_procedure_inline_ranges(
                self.alloc,
                module_info,
                procedure,
                &known.inlinees,
            );
        }
        let known = compute_extended_module_info(self.alloc, module_info)?;
        compute_procedure_inline_ranges(self.alloc, module_info, procedure, &known.inlinees)
    }
}
