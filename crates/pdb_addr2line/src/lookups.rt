//! Looks up an address: the procedure that contains it, or else the global function, and its frames.

ghost use Rattle.std.specs.Prelude.{◌≡◌, ◌≢◌, Ok, None, find, option_map, IfOk, OnOk, IfErr, MatchResult};
ghost use Rattle.std.specs.Option.{option_copied};
ghost use Rattle.pdb_errors.specs.Outcomes.{Gives};
ghost use Rattle.pdb_errors.specs.declared.error.Error.TheVariants.{OutOfMemory};
ghost use Rattle.pdb_records.specs.Addresses.{internal_offset};
ghost use Rattle.pdb_functions.specs.FunctionMatches.{function_match, procedures_of_module};
ghost use Rattle.pdb_functions.specs.FunctionMatches.{function_in_contribution, function_over};
ghost use Rattle.pdb_functions.specs.ModuleInfoCache.{readable_info};
ghost use Rattle.pdb_functions.specs.Procedures.{module_procedure};
ghost use Rattle.pdb_functions.specs.Spans.{contribution_covers, procedure_covers};
ghost use Rattle.pdb_functions.specs.SymbolNames.{GoesBySymbol};
ghost use Rattle.pdb_tables.specs.Pick.{pick};
ghost use Rattle.pdb_function_info.specs.NameTexts.{GainsBroken};
ghost use Rattle.pdb_function_info.specs.Function.{function_view, info_of, failed_after_info};
ghost use Rattle.pdb_addr2line.specs.ContextInputs.{contributions_of, global_functions_of};
ghost use Rattle.pdb_function_info.specs.Frames.{ButForMemory};
ghost use Rattle.pdb_addr2line.specs.FunctionIter.{after_function, OnlyGainsBroken};
ghost use Rattle.pdb_addr2line.specs.Lookups.{contribution_at, found_at, function_at};
ghost use Rattle.pdb_addr2line.specs.Lookups.{frames_of, failed_by_frames_of, failed_after_frames};
ghost use Rattle.pdb_addr2line.specs.Lookups.{records_of, blamed_for, answered_refusal, failed_by_refusal};
ghost use Rattle.pdb_addr2line.specs.Lookups.{frames_answered, code_failed_after, answered_error, with_blamed};

use crate::caches::part_blamed_by;
use crate::context::Context;
use pdb_errors::{Error, Result};
use pdb_frames::{CodePart, FunctionFrames};
use pdb_function_info::{Function, frames_info, function_info};
use pdb_functions::{
    FunctionMatch, ModuleSectionContribution, ProcedureSymbolFunction, global_function_in,
};
use pdb_records::{ModuleInfo, ModuleProvider, PdbInternalSectionOffset, Rva};
use pdb_tables::Probes;

impl<'a, P: ModuleProvider> Context<'a, P> {
    /// The function that contains an address, with its addresses and its name but no lines.
    ///
    /// `None` if no section or no module's contribution contains the address, if no function is known there, or if the
    /// next function of the section has no address. A procedure whose signature can't be printed has no name. If
    /// printing finds a broken part of the records, it is remembered.
    ///
    /// # Errors
    ///
    /// `OutOfMemory` if memory runs out.
    pub fn find_function(&mut self, address: u32) -> Result<Option<Function>>
        ensures answer { MatchResult result
            (λ found. option_map function_view found ≡ function_at P.info self.old.inputs address)
            (λ e. e ≡ OutOfMemory) }
        ensures inputs { self.new.inputs ≡ self.old.inputs }
        ensures state { OnOk result (self.new ≡ after_function P.info self.old address) }
        ensures code_failed { self.new.code_failed ≡ self.old.code_failed }
        ensures gains { OnlyGainsBroken P.info self.old self.new }
        ensures broken { GainsBroken P.info self.old.inputs.type_inputs self.old.failed self.new.failed }
        // For an address outside every section or contribution no memory is allocated.
        ensures outside { contribution_at self.old.inputs address ≡ None
            → (result ≡ Ok None) × (self.new ≡ self.old) }
    {
        match self.found(address)? {
            None => Ok(None),
            Some(found) => self.function_info(found),
        }
    }

    /// The frames at an address, the innermost first: the inlined bodies there, and last the containing function, each
    /// with its source line if that is known.
    ///
    /// `None` if no section or no module's contribution contains the address, or if no function is known there. If its
    /// module has no records, or the module's symbols end early, the function is the only frame. A function or an
    /// inlined body whose name can't be printed has none. If a part of the records is found broken, it is remembered.
    ///
    /// # Errors
    ///
    /// [`Error::PdbError`] if one of these can't be read or ends early, in this order: the module's line program, its
    /// inlinees, the function's line rows. Later calls return [`Error::ExtendedModuleInfoUnsuccessful`] for the first
    /// two, and [`Error::ProcedureLinesUnsuccessful`] for the last.
    pub fn find_frames(&mut self, address: u32) -> Result<Option<FunctionFrames<'a>>>
        ensures answer { Gives (λ f. f) result (frames_answered P.info self.old address) }
        ensures inputs { self.new.inputs ≡ self.old.inputs }
        ensures failed { ButForMemory result
            (self.new.failed ≡ failed_after_frames P.info self.old.inputs address self.old.failed) }
        ensures code_failed { ButForMemory result
            (self.new.code_failed ≡ code_failed_after P.info self.old address) }
        ensures unchanged { IfErr result (λ e. e ≡ OutOfMemory → self.new.code_failed ≡ self.old.code_failed) }
        ensures broken { GainsBroken P.info self.old.inputs.type_inputs self.old.failed self.new.failed }
        // For an address outside every section or contribution no memory is allocated.
        ensures outside { contribution_at self.old.inputs address ≡ None
            → (result ≡ Ok None) × (self.new ≡ self.old) }
    {
        let Some(section_offset) = self.section_offset_of(address) else {
            return Ok(None);
        };
        match self.found_over(section_offset)? {
            None => Ok(None),
            Some(found) => self.frames_answer(found, section_offset.offset),
        }
    }

    // The frames of a function that was found, at an offset. If a part of the records of code is broken, it is
    // remembered.
    fn frames_answer(
        &mut self,
        found: FunctionMatch<'a>,
        offset: u32,
    ) -> Result<Option<FunctionFrames<'a>>>
        requires named { GoesBySymbol (P.info self.old.inputs.provider) self.old.inputs.type_inputs.modules
            (function_match found) }
        ensures answer { let blamed = blamed_for P.info self.old.inputs (function_match found.entry) in
            Gives (λ f. f) result (answered_refusal self.old.code_failed blamed
            (frames_of P.info self.old.inputs offset (function_match found.entry))) }
        ensures inputs { self.new.inputs ≡ self.old.inputs }
        ensures failed { ButForMemory result (self.new.failed
            ≡ failed_by_frames_of P.info self.old.inputs offset self.old.failed (function_match found.entry)) }
        ensures code_failed { let blamed = blamed_for P.info self.old.inputs (function_match found.entry) in
            ButForMemory result (self.new.code_failed ≡ failed_by_refusal self.old.code_failed blamed
            (frames_of P.info self.old.inputs offset (function_match found.entry))) }
        ensures unchanged { IfErr result (λ e. e ≡ OutOfMemory → self.new.code_failed ≡ self.old.code_failed) }
        ensures broken { GainsBroken P.info self.old.inputs.type_inputs self.old.failed self.new.failed }
    {
        let module_info = self.readable_info(found.module_index())?;
        match self.frames_info(found, module_info, offset) {
            Ok(frames) => Ok(frames),
            Err(error) => {
                let blamed = self.part_blamed(found)?;
                Err(self.error_to_answer(blamed, error)?)
            }
        }
    }

    // The part of the records that is broken, if the frames of a function can't be found.
    fn part_blamed(&mut self, found: FunctionMatch<'a>) -> Result<Option<CodePart>>
        ensures answer { MatchResult result
            (λ part. part ≡ blamed_for P.info self.old.inputs (function_match found.entry))
            (λ e. e ≡ OutOfMemory) }
        ensures unchanged { self.new ≡ self.old }
    {
        let modules = self.names.modules();
        let blamed = part_blamed_by(&mut self.caches, modules, found)?;
        Ok(blamed)
    }

    // The error to return for a broken part, which is remembered. If memory ran out, no part is broken, and
    // `OutOfMemory` is returned.
    fn error_to_answer(&mut self, blamed: Option<CodePart>, error: Error) -> Result<Error>
        ensures no_want_of_memory { IfOk result (λ e. error ≢ OutOfMemory) }
        ensures answer { IfOk result (λ e. e ≡ answered_error self.old.code_failed blamed error) }
        ensures state { OnOk result (self.new
            ≡ record self.old { code_failed = with_blamed self.old.code_failed blamed }) }
        ensures refused { IfErr result (λ e. (e ≡ OutOfMemory) × (self.new ≡ self.old)) }
    {
        let error = error.unless_out_of_memory()?;
        match blamed {
            Some(part) => Ok(self.code_failed.fail(part, error)?),
            None => Ok(error),
        }
    }

    // The frames of a function that was found, at an offset, by the records of its module.
    fn frames_info(
        &mut self,
        found: FunctionMatch<'a>,
        module_info: Option<&'a ModuleInfo>,
        offset: u32,
    ) -> Result<Option<FunctionFrames<'a>>>
        requires named { GoesBySymbol (P.info self.old.inputs.provider) self.old.inputs.type_inputs.modules
            (function_match found) }
        requires records { option_copied module_info
            ≡ records_of P.info self.old.inputs (function_match found) }
        ensures answer { Gives (λ f. f) result
            (frames_of P.info self.old.inputs offset (function_match found.entry)) }
        ensures inputs { self.new.inputs ≡ self.old.inputs }
        ensures failed { ButForMemory result (self.new.failed
            ≡ failed_by_frames_of P.info self.old.inputs offset self.old.failed (function_match found.entry)) }
        ensures code_failed { self.new.code_failed ≡ self.old.code_failed }
        ensures broken { GainsBroken P.info self.old.inputs.type_inputs self.old.failed self.new.failed }
    {
        let tables = &self.tables;
        frames_info(
            self.alloc,
            self.address_map,
            &tables.file_names,
            &tables.global_functions,
            &mut self.names,
            &mut self.caches.code,
            module_info,
            found,
            offset,
        )
    }

    // The function info of a function that was found.
    fn function_info(&mut self, found: FunctionMatch<'a>) -> Result<Option<Function>>
        requires named { GoesBySymbol (P.info self.old.inputs.provider) self.old.inputs.type_inputs.modules
            (function_match found) }
        ensures answer { MatchResult result
            (λ f. option_map function_view f ≡ info_of P.info self.old.inputs.type_inputs self.old.inputs.address_map
            (global_functions_of self.old.inputs) (function_match found.entry))
            (λ e. e ≡ OutOfMemory) }
        ensures inputs { self.new.inputs ≡ self.old.inputs }
        ensures failed { OnOk result (self.new.failed
            ≡ failed_after_info P.info self.old.inputs.type_inputs self.old.inputs.address_map
            (global_functions_of self.old.inputs) (function_match found.entry) self.old.failed) }
        ensures code_failed { self.new.code_failed ≡ self.old.code_failed }
        ensures broken { GainsBroken P.info self.old.inputs.type_inputs self.old.failed self.new.failed }
    {
        function_info(
            self.alloc,
            self.address_map,
            &self.tables.global_functions,
            &mut self.names,
            found,
        )
    }

    /// The index of the module whose code lies at an address: the module of the contribution over it.
    pub fn module_at(&self, address: u32) -> Option<usize>
        ensures { result ≡ option_map (λ c. c.module_index) (contribution_at self.now.inputs address) }
    {
        let section_offset = self.section_offset_of(address)?;
        let contributions = &self.tables.contributions;
        let contribution = contributions.contribution_over(section_offset, &mut Probes::new())?;
        Some(contribution.module_index)
    }

    // The section offset of an address.
    fn section_offset_of(&self, address: u32) -> Option<PdbInternalSectionOffset>
        ensures { result ≡ internal_offset self.now.inputs.address_map (record { 0 = address }) }
    {
        let sections = &self.tables.section_table;
        sections.section_offset_of(Rva(address), &mut Probes::new())
    }

    // The procedure or global function at an address.
    pub(crate) fn found(&mut self, address: u32) -> Result<Option<FunctionMatch<'a>>>
        ensures answer { MatchResult result
            (λ found. option_map function_match found ≡ found_at P.info self.old.inputs address)
            (λ e. e ≡ OutOfMemory) }
        ensures unchanged { self.new ≡ self.old }
        ensures outside { contribution_at self.old.inputs address ≡ None → result ≡ Ok None }
    {
        match self.section_offset_of(address) {
            Some(section_offset) => self.found_over(section_offset),
            None => Ok(None),
        }
    }

    // The procedure or global function at a section offset.
    fn found_over(
        &mut self,
        section_offset: PdbInternalSectionOffset,
    ) -> Result<Option<FunctionMatch<'a>>>
        ensures answer { MatchResult result
            (λ found. option_map function_match found
            ≡ function_over (P.info self.old.inputs.provider) self.old.inputs.type_inputs.modules
            (contributions_of self.old.inputs) (global_functions_of self.old.inputs) section_offset)
            (λ e. e ≡ OutOfMemory) }
        ensures unchanged { self.new ≡ self.old }
        ensures outside { find (contribution_covers section_offset) (contributions_of self.old.inputs) ≡ None
            → result ≡ Ok None }
    {
        let contributions = &self.tables.contributions;
        match contributions.contribution_over(section_offset, &mut Probes::new()) {
            Some(contribution) => self.function_in(section_offset, contribution),
            None => Ok(None),
        }
    }

    // The procedure or global function at a section offset, in a contribution.
    fn function_in(
        &mut self,
        section_offset: PdbInternalSectionOffset,
        contribution: ModuleSectionContribution,
    ) -> Result<Option<FunctionMatch<'a>>>
        ensures answer { MatchResult result
            (λ found. option_map function_match found
            ≡ function_in_contribution (P.info self.old.inputs.provider) self.old.inputs.type_inputs.modules
            (global_functions_of self.old.inputs) section_offset contribution)
            (λ e. e ≡ OutOfMemory) }
        ensures unchanged { self.new ≡ self.old }
    {
        let module_index = contribution.module_index;
        if let Some(procedure) = self.procedure_in(section_offset, module_index)? {
            return Ok(Some(FunctionMatch::Procedure {
                module_index,
                procedure,
            }));
        }
        let mut next_place = 0;
        let functions = &self.tables.global_functions;
        let function = functions.function_over(section_offset, &mut next_place, &mut Probes::new());
        Ok(global_function_in(contribution, function, next_place))
    }

    // The procedure of a module that contains a section offset.
    fn procedure_in(
        &mut self,
        section_offset: PdbInternalSectionOffset,
        module_index: usize,
    ) -> Result<Option<ProcedureSymbolFunction<'a>>>
        ensures answer { MatchResult result
            (λ found. option_map module_procedure found
            ≡ pick (procedure_covers section_offset) (λ p. p.offset.offset)
            (procedures_of_module (P.info self.old.inputs.provider) self.old.inputs.type_inputs.modules module_index))
            (λ e. e ≡ OutOfMemory) }
        ensures unchanged { self.new ≡ self.old }
    {
        let modules = self.names.modules();
        let infos = &mut self.caches.infos;
        Ok(infos.procedure_over(modules, module_index, section_offset, &mut Probes::new())?)
    }

    // The records of the module at a module index, if it has any and its symbols don't end early.
    fn readable_info(&mut self, module_index: usize) -> Result<Option<&'a ModuleInfo>>
        ensures answer { MatchResult result
            (λ info. option_copied info
            ≡ readable_info (P.info self.old.inputs.provider) self.old.inputs.type_inputs.modules module_index)
            (λ e. e ≡ OutOfMemory) }
        ensures unchanged { self.new ≡ self.old }
    {
        let modules = self.names.modules();
        let infos = &mut self.caches.infos;
        match infos.get_basic_module_info(modules, module_index)? {
            Some(info) => Ok(Some(info.module_info())),
            None => Ok(None),
        }
    }
}
