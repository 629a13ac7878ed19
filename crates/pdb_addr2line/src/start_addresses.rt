//! The addresses at which functions start, by the global functions and the procedures of all modules.

ghost use Rattle.std.specs.Prelude.{◌≡◌, map, OnOk, MatchResult};
ghost use Rattle.pdb_errors.specs.declared.error.Error.TheVariants.{OutOfMemory};
ghost use Rattle.pdb_functions.specs.GlobalFunctions.{global_function};
ghost use Rattle.pdb_functions.specs.FunctionMatches.{procedures_of_module};
ghost use Rattle.pdb_functions.specs.Procedures.{module_procedure};
ghost use Rattle.pdb_addr2line.specs.FunctionIter.{procedures_of_modules, with_start, with_starts, start_addresses};

use crate::context::Context;
use pdb_errors::Result;
use pdb_functions::{BasicModuleInfoCache, GlobalFunction, ProcedureSymbolFunction};
use pdb_records::{AddressMap, Module, ModuleProvider, PdbInternalSectionOffset};
use std::alloc::{AllocError, Global};
use std::collections::BTreeSet;

// Adds the address of a section offset, if it has one.
fn add_start(
    starts: &mut BTreeSet<u32>,
    address_map: &AddressMap,
    section_offset: PdbInternalSectionOffset,
) -> Result<(), AllocError>
    ensures { OnOk result (starts.new.keys ≡ with_start address_map.now starts.old.keys section_offset) }
{
    if let Some(address) = section_offset.to_rva(address_map) {
        starts.insert(address.0)?;
    }
    Ok(())
}

// Adds the starts of global functions.
fn add_global_starts(
    starts: &mut BTreeSet<u32>,
    address_map: &AddressMap,
    functions: &[GlobalFunction<'_>],
) -> Result<(), AllocError>
    ensures { OnOk result (starts.new.keys
        ≡ with_starts address_map.now starts.old.keys (map (λ f. f.start) (map global_function functions.now))) }
{
    for function in functions {
        add_start(starts, address_map, function.start_offset)?;
    }
    Ok(())
}

// Adds the starts of procedures.
fn add_procedure_starts(
    starts: &mut BTreeSet<u32>,
    address_map: &AddressMap,
    procedures: &[ProcedureSymbolFunction<'_>],
) -> Result<(), AllocError>
    ensures { OnOk result (starts.new.keys
        ≡ with_starts address_map.now starts.old.keys (map (λ p. p.offset) (map module_procedure procedures.now))) }
{
    for procedure in procedures {
        add_start(starts, address_map, procedure.offset)?;
    }
    Ok(())
}

// Adds the starts of the procedures of the module at a module index.
fn add_starts_of_module<P: ModuleProvider>(
    starts: &mut BTreeSet<u32>,
    address_map: &AddressMap,
    infos: &mut BasicModuleInfoCache<'_, P>,
    modules: &[Module],
    module_index: usize,
) -> Result<(), AllocError>
    ensures state { OnOk result (starts.new.keys ≡ with_starts address_map.now starts.old.keys
        (map (λ p. p.offset) (procedures_of_module (P.info infos.old.provider) modules.now module_index))) }
    ensures provider { infos.new.provider ≡ infos.old.provider }
{
    match infos.get_basic_module_info(modules, module_index)? {
        Some(info) => add_procedure_starts(starts, address_map, info.procedures()),
        None => Ok(()),
    }
}

// Adds the starts of the procedures of all modules.
#[tactic(auto, using(crate::proofs::StartLemmas::with_starts_of_next))]
fn add_module_starts<P: ModuleProvider>(
    starts: &mut BTreeSet<u32>,
    address_map: &AddressMap,
    infos: &mut BasicModuleInfoCache<'_, P>,
    modules: &[Module],
) -> Result<(), AllocError>
    ensures state { OnOk result (starts.new.keys ≡ with_starts address_map.now starts.old.keys
        (map (λ p. p.offset) (procedures_of_modules (P.info infos.old.provider) 0 modules.now))) }
    ensures provider { infos.new.provider ≡ infos.old.provider }
{
    for module_index in 0..modules.len() {
        add_starts_of_module(starts, address_map, infos, modules, module_index)?;
    }
    Ok(())
}

impl<'a, P: ModuleProvider> Context<'a, P> {
    /// The addresses at which functions start, ascending and each once: those of global functions, and of the
    /// procedures of all modules.
    ///
    /// # Errors
    ///
    /// `OutOfMemory` if memory runs out.
    pub fn start_addresses(&mut self) -> Result<Vec<u32>>
        ensures answer { MatchResult result
            (λ v. v.items ≡ start_addresses P.info self.old.inputs)
            (λ e. e ≡ OutOfMemory) }
        ensures unchanged { self.new ≡ self.old }
    {
        if let Some(starts) = &self.caches.starts {
            let starts = Vec::from_slice(self.alloc, starts)?;
            return Ok(starts);
        }
        let starts = self.find_start_addresses()?;
        self.caches.starts = Some(Vec::from_slice(self.alloc, &starts)?);
        Ok(starts)
    }

    // Collects the start addresses from the records.
    #[tactic(auto, using(crate::proofs::StartLemmas::with_starts_append))]
    pub(crate) fn find_start_addresses(&mut self) -> Result<Vec<u32>>
        ensures answer { MatchResult result
            (λ v. v.items ≡ start_addresses P.info self.old.inputs)
            (λ e. e ≡ OutOfMemory) }
        ensures unchanged { self.new ≡ self.old }
    {
        let mut starts = BTreeSet::new(self.alloc);
        let functions = self.tables.global_functions.as_slice();
        add_global_starts(&mut starts, self.address_map, functions)?;
        let modules = self.names.modules();
        add_module_starts(
            &mut starts,
            self.address_map,
            &mut self.caches.infos,
            modules,
        )?;
        let addresses = starts.into_iter().collect(self.alloc)?;
        Ok(addresses)
    }
}
