//! `Context`: answers questions about the functions of a program, by lookup tables that it makes from the records.

ghost use Rattle.std.specs.Prelude.{◌≡◌, [], Ok, length, IfOk};
ghost use Rattle.std.specs.Option.{option_copied};
ghost use Rattle.pdb_errors.specs.Outcomes.{Gives};
ghost use Rattle.pdb_functions.specs.MergedContributions.{merged_contributions};
ghost use Rattle.pdb_functions.specs.GlobalFunctions.{global_functions as functions_listed};
ghost use Rattle.pdb_addr2line.specs.ContextInputs.{searched_contributions, accepted, global_functions_of};

use crate::caches::Caches;
use pdb_errors::{Error, Result};
use pdb_frames::{FailedCodeParts, FileNames};
use pdb_function_info::FunctionNames;
use pdb_functions::{
    ContributionTable, GlobalFunctionTable, SectionTable, compute_global_functions,
    compute_section_contributions,
};
use pdb_records::{
    AddressMap, DebugInformation, ImageSectionHeader, ModuleProvider, StringTable, SymbolTable,
};
use pdb_type_printer::TypeFormatter;
use std::alloc::Global;
use std::marker::Model;

// The tables that lookups search.
#[derive(Drop)]
pub(crate) struct Tables<'a> {
    pub(crate) sections: Vec<ImageSectionHeader>,
    pub(crate) contributions: ContributionTable,
    pub(crate) global_functions: GlobalFunctionTable<'a>,
    pub(crate) file_names: FileNames<'a>,
    // Finds the section of an address.
    pub(crate) section_table: SectionTable<'a>,
}

// Makes the lookup tables of these records.
fn tables_of<'a>(
    alloc: Global,
    sections: &[ImageSectionHeader],
    address_map: &'a AddressMap,
    global_symbols: &'a SymbolTable,
    string_table: Option<&'a StringTable>,
    debug_information: &DebugInformation,
) -> Result<Tables<'a>>
    ensures answer { Gives (λ t. t.contributions) result
        (searched_contributions sections.now global_symbols.now debug_information.now) }
    ensures sections { IfOk result (λ t. t.sections.items ≡ sections.now) }
    ensures merged { IfOk result (λ t.
        merged_contributions sections.now debug_information.now ≡ Ok t.contributions) }
    ensures global_functions { IfOk result (λ t. t.global_functions
        ≡ functions_listed sections.now global_symbols.now.symbols.items debug_information.now) }
    ensures strings { IfOk result (λ t. t.file_names ≡ option_copied string_table.entry) }
    ensures section_table { IfOk result (λ t. t.section_table ≡ address_map.now) }
{
    if let Some(fault) = global_symbols.symbols.fault {
        return Err(Error::from(fault));
    }
    let (merged, starts) = compute_section_contributions(alloc, debug_information, sections)?;
    let symbols = &global_symbols.symbols.items;
    let global_functions = compute_global_functions(alloc, sections, symbols, &starts)?;
    Ok(Tables {
        sections: Vec::from_slice(alloc, sections)?,
        contributions: ContributionTable::new(alloc, merged)?,
        global_functions,
        file_names: FileNames::new(alloc, string_table)?,
        section_table: SectionTable::new(alloc, address_map)?,
    })
}

/// Answers questions about the functions of a program.
///
/// The inputs of a context are records that it borrows, a [`ModuleProvider`] for those of each module, and a
/// [`TypeFormatter`] that prints the names of procedures. Its answers equal those of a plain scan of the records,
/// except for one thing that it remembers between questions: which parts of the records it found broken. A broken part
/// gives its own error the first time, and afterwards the error that it failed before.
pub struct Context<'a, P: ModuleProvider> {
    pub(crate) alloc: Global,
    pub(crate) provider: &'a P,
    pub(crate) address_map: &'a AddressMap,
    pub(crate) global_symbols: &'a SymbolTable,
    pub(crate) debug_information: &'a DebugInformation,
    pub(crate) names: FunctionNames<'a, P>,
    pub(crate) code_failed: FailedCodeParts,
    pub(crate) tables: Tables<'a>,
    pub(crate) caches: Caches<'a, P>,
}

impl<P: ModuleProvider> Drop for Context<'_, P> {
    fn drop(self) {
        let Context {
            alloc: _,
            provider: _,
            address_map: _,
            global_symbols: _,
            debug_information: _,
            names: _,
            code_failed: _,
            tables: _,
            caches: _,
        } = self;
    }
}

impl<'a, P: ModuleProvider> Model for Context<'a, P> {
    ghost use Rattle.std.specs.Prelude.{◌≡◌, Ok, IfSome};
    ghost use Rattle.std.specs.Option.{option_copied};
    ghost use Rattle.pdb_functions.specs.MergedContributions.{merged_contributions};
    ghost use Rattle.pdb_functions.specs.GlobalFunctions.{global_functions as functions_listed};
    ghost use Rattle.pdb_functions.specs.ModuleInfoCache.{readable_info};
    ghost use Rattle.pdb_frames.specs.CodeCache.{IsCodeCache};
    ghost use Rattle.pdb_addr2line.specs.FunctionIter.{start_addresses};
    ghost use Rattle.pdb_addr2line.specs.ContextInputs.{ContextState};

    ghost Value = { ContextState P };

    ghost view = { λ c. record {
      inputs = record {
        provider = c.provider.now;
        sections = c.tables.sections.items;
        address_map = c.address_map.now;
        global_symbols = c.global_symbols.now;
        strings = c.tables.file_names;
        debug_information = c.debug_information.now;
        type_inputs = c.names.type_inputs;
      };
      failed = c.names.failed;
      code_failed = c.code_failed;
    } };

    ghost invariant = { λ c. record {
      merged : merged_contributions c.tables.sections.items c.debug_information.now ≡ Ok c.tables.contributions;
      global_functions : c.tables.global_functions ≡ functions_listed
          c.tables.sections.items c.global_symbols.now.symbols.items c.debug_information.now;
      section_table : c.tables.section_table ≡ c.address_map.now;
      infos : c.caches.infos.provider ≡ c.provider.now;
      named : c.names.provider ≡ c.provider.now;
      is_cache : IsCodeCache (readable_info (P.info c.provider.now) c.names.type_inputs.modules) c.caches.code;
      starts : IfSome c.caches.starts (λ v. v.items ≡ start_addresses P.info (record {
        provider = c.provider.now;
        sections = c.tables.sections.items;
        address_map = c.address_map.now;
        global_symbols = c.global_symbols.now;
        strings = c.tables.file_names;
        debug_information = c.debug_information.now;
        type_inputs = c.names.type_inputs;
      }));
    } };
}

impl<'a, P: ModuleProvider> Context<'a, P> {
    /// Makes a context over these records, with this formatter, for callers whose records aren't in a
    /// [`ContextPdbData`](crate::ContextPdbData). Module indices are those of the formatter's list. The formatter may
    /// have been made from other records: names are printed from its own.
    ///
    /// # Errors
    ///
    /// [`Error::PdbError`] with the fault of the global symbols, if they end early; then the errors of
    /// [`compute_section_contributions`].
    pub fn new_from_parts(
        alloc: Global,
        provider: &'a P,
        sections: &[ImageSectionHeader],
        address_map: &'a AddressMap,
        global_symbols: &'a SymbolTable,
        string_table: Option<&'a StringTable>,
        debug_information: &'a DebugInformation,
        formatter: TypeFormatter<'a, P>,
    ) -> Result<Self>
        ensures answer { Gives (λ c. c.inputs) result (accepted (record {
          provider = provider.now;
          sections = sections.now;
          address_map = address_map.now;
          global_symbols = global_symbols.now;
          strings = option_copied string_table.entry;
          debug_information = debug_information.now;
          type_inputs = formatter.entry.type_inputs;
        })) }
        ensures failed { IfOk result (λ c. c.failed ≡ formatter.entry.failed) }
        ensures code_failed { IfOk result (λ c. c.code_failed ≡ []) }
    {
        let tables = tables_of(
            alloc,
            sections,
            address_map,
            global_symbols,
            string_table,
            debug_information,
        )?;
        Ok(Context {
            alloc,
            provider,
            address_map,
            global_symbols,
            debug_information,
            names: FunctionNames::new(alloc, provider, formatter),
            code_failed: FailedCodeParts::new(alloc),
            tables,
            caches: Caches::new(alloc, provider),
        })
    }

    /// Returns the formatter, with everything that it remembers.
    pub fn into_type_formatter(self) -> TypeFormatter<'a, P>
        ensures type_inputs { result.type_inputs ≡ self.entry.inputs.type_inputs }
        ensures failed { result.failed ≡ self.entry.failed }
    {
        let Context {
            alloc: _,
            provider: _,
            address_map: _,
            global_symbols: _,
            debug_information: _,
            names,
            code_failed: _,
            tables: _,
            caches: _,
        } = self;
        names.into_type_formatter()
    }

    /// Frees the memory of all cached results. Answers stay the same, but the next ones take as long as the first ones
    /// did. This is for programs that run for long, or that look up most of a large program.
    pub fn clear_caches(&mut self)
        ensures unchanged { self.new ≡ self.old }
    {
        self.caches = Caches::new(self.alloc, self.provider);
        self.names.clear_caches();
    }

    /// The number of starts of global functions: public symbols, contributions and ends of sections. Starts without a
    /// name and ends of sections count, too.
    pub fn function_count(&self) -> usize
        ensures { result ≡ length (global_functions_of self.now.inputs) }
    {
        self.tables.global_functions.len()
    }
}
