//! `ProcedureRanges`: a cache of procedures' inline ranges, in which the stack at an offset is found.

ghost use Rattle.std.specs.Prelude.{◌≡◌, Some};
ghost use Rattle.std.specs.Ordering.{nat_cmp};
ghost use Rattle.pdb_errors.specs.Outcomes.{Gives};
ghost use Rattle.pdb_tables.specs.OnceMap.{HoldsOfEach};
ghost use Rattle.pdb_frames.specs.CodeCaches.{ModuleRecords, IsKnownOf, procedure_cmp, procedure_stack, AreRangesOf};
ghost use Rattle.pdb_frames.specs.CodeKeys.{procedure_cmp-IsAntisymmetric};

use crate::code_keys::{ProcedureKey, procedure_key};
use crate::extended_infos::ExtendedInfos;
use pdb_errors::Result;
use pdb_functions::ProcedureSymbolFunction;
use pdb_inline::{InlineRange, ProcedureStacks};
use pdb_records::ModuleInfo;
use pdb_tables::{Once, OnceMap, Probes};
use std::alloc::Global;

// The stacks of a procedure are made once.
impl Once<ProcedureKey> for ProcedureStacks {
    ghost Source = { ModuleRecords };

    ghost fits = { AreRangesOf };

    ghost antisymmetric = { procedure_cmp-IsAntisymmetric };
}

// The inline ranges of procedures, by module index and symbols. A procedure's symbols are walked over once, and the
// table of its ranges is made once.
#[derive(Drop)]
pub struct ProcedureRanges {
    pub(crate) alloc: Global,
    pub(crate) cached: OnceMap<ProcedureKey, ProcedureStacks>,
}

impl ProcedureRanges {
    // An empty cache. It takes no memory.
    pub fn new(alloc: Global) -> Self
        ensures { (records : ModuleRecords) → HoldsOfEach procedure_cmp (AreRangesOf records) result.cached.made }
    {
        ProcedureRanges {
            alloc,
            cached: OnceMap::new(alloc),
        }
    }

    // The inlined bodies at an offset of a procedure, the outermost first, by the records of the module at a module
    // index. Refused for the same reasons as the procedure's inline ranges.
    pub fn stack(
        &mut self,
        infos: &ExtendedInfos<'_>,
        module_index: usize,
        module_info: &ModuleInfo,
        procedure: &ProcedureSymbolFunction<'_>,
        offset: u32,
    ) -> Result<Vec<InlineRange>>
        ghost records: { ModuleRecords }
        requires infos { HoldsOfEach nat_cmp (IsKnownOf records) infos.now.cached.made }
        requires is_cache { HoldsOfEach procedure_cmp (AreRangesOf records) self.old.cached.made }
        requires module_info { records module_index ≡ Some module_info.now }
        ensures answer { Gives (λ v. v.items) result (procedure_stack module_info.now
            procedure.now.symbol_index.0 procedure.now.end_symbol_index.0 offset) }
        ensures is_cache { HoldsOfEach procedure_cmp (AreRangesOf records) self.new.cached.made }
    {
        let key = procedure_key(module_index, procedure);
        if let Some(stacks) = self.cached.get(&key) {
            return Ok(stacks.stack(self.alloc, u64::from(offset), &mut Probes::new())?);
        }
        let ranges = infos.inline_ranges(module_index, module_info, procedure)?;
        let stacks = ProcedureStacks::new(self.alloc, ranges)?;
        let stack = stacks.stack(self.alloc, u64::from(offset), &mut Probes::new())?;
        self.cached.insert(key, stacks)?;
        Ok(stack)
    }
}
