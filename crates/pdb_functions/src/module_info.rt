//! `BasicModuleInfo`: the records of a module, and a table of its procedures.

ghost use Rattle.std.specs.Prelude.{◌≡◌, ◌≢◌, ◌+◌, ◌≤◌, None, Some, map, length, option_map, IfOk, MatchResult};
ghost use Rattle.pdb_records.specs.declared.error.Error.TheVariants.{Stream};
ghost use Rattle.pdb_errors.specs.declared.error.Error.TheVariants.{PdbError, OutOfMemory};
ghost use Rattle.pdb_tables.specs.Pick.{pick};
ghost use Rattle.pdb_tables.specs.Probes.{digits};
ghost use Rattle.pdb_functions.specs.Procedures.{module_procedure, info_procedures};
ghost use Rattle.pdb_functions.specs.Spans.{procedure_covers};

use crate::procedure_table::ProcedureTable;
use crate::procedures::{ProcedureSymbolFunction, compute_procedures};
use pdb_errors::{Error, Result};
use pdb_records::{ModuleInfo, PdbInternalSectionOffset};
use pdb_tables::Probes;
use std::alloc::Global;
use std::marker::Model;

/// The records of a module, and the procedures among its symbols.
#[derive(Drop)]
pub struct BasicModuleInfo<'a> {
    module_info: &'a ModuleInfo,
    procedures: ProcedureTable<'a>,
}

impl<'a> Model for BasicModuleInfo<'a> {
    ghost use Rattle.std.specs.Prelude.{◌≡◌};
    ghost use Rattle.pdb_records.specs.declared.modules.ModuleInfo.{ModuleInfo};

    ghost Value = { ModuleInfo };

    ghost use Rattle.pdb_functions.specs.Procedures.{info_procedures};

    ghost view = { λ b. b.module_info.now };

    ghost invariant = { λ b. b.procedures ≡ info_procedures b.module_info.now };
}

impl<'a> BasicModuleInfo<'a> {
    /// Reads the procedures of a module.
    ///
    /// # Errors
    ///
    /// [`Error::PdbError`] if the list of the module's symbols ends early, because missing symbols may change which
    /// procedures there are.
    pub fn try_from_module_info(alloc: Global, module_info: &'a ModuleInfo) -> Result<Self>
        ensures answer { IfOk result (λ b. b ≡ module_info.now) }
        ensures refused { MatchResult result
            (λ _. module_info.now.symbols.fault ≡ None)
            (λ e. e ≢ OutOfMemory
            → option_map (λ fault. PdbError (Stream fault)) module_info.now.symbols.fault ≡ Some e) }
    {
        if let Some(fault) = module_info.symbols.fault {
            return Err(Error::from(fault));
        }
        let procedures = compute_procedures(alloc, &module_info.symbols.items)?;
        Ok(BasicModuleInfo {
            module_info,
            procedures: ProcedureTable::new(alloc, procedures)?,
        })
    }

    /// The module's procedures, sorted by section and start.
    pub fn procedures(&self) -> &[ProcedureSymbolFunction<'a>]
        ensures { map module_procedure result.now ≡ info_procedures self.now }
    {
        self.procedures.as_slice()
    }

    // The last-starting procedure of the module that contains a section offset. If `position` is given, the procedure
    // there is tried first, and then the next one; otherwise there is a binary search. Afterwards `position` is that of
    // the result. `probes` counts all comparisons.
    pub(crate) fn procedure_near(
        &self,
        section_offset: PdbInternalSectionOffset,
        position: &mut Option<usize>,
        probes: &mut Probes,
    ) -> Option<ProcedureSymbolFunction<'a>>
        ensures answer { option_map module_procedure result
            ≡ pick (procedure_covers section_offset) (λ p. p.offset.offset) (info_procedures self.now) }
        ensures bound { probes.new ≤ probes.old + digits (length (info_procedures self.now)) + 5 }
        ensures few_without_position { position.old ≡ None
            → probes.new ≤ probes.old + digits (length (info_procedures self.now)) + 1 }
    {
        self.procedures
            .procedure_near(section_offset, position, probes)
    }

    /// The last-starting procedure of the module that contains a section offset.
    ///
    /// It is found by a binary search. `probes` counts the entries of the table that are compared: at most one more
    /// than the number of procedures has binary digits.
    pub fn procedure_over(
        &self,
        section_offset: PdbInternalSectionOffset,
        probes: &mut Probes,
    ) -> Option<ProcedureSymbolFunction<'a>>
        ensures answer { option_map module_procedure result
            ≡ pick (procedure_covers section_offset) (λ p. p.offset.offset) (info_procedures self.now) }
        ensures bound { probes.new ≤ probes.old + digits (length (info_procedures self.now)) + 1 }
    {
        self.procedure_near(section_offset, &mut None, probes)
    }

    /// The records that were read.
    pub fn module_info(&self) -> &'a ModuleInfo
        ensures { result.now ≡ self.now }
    {
        self.module_info
    }
}
