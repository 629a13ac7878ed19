//! `FunctionNames`: a formatter with two caches, of signatures and of names of ids, that are printed once each.

ghost use Rattle.std.specs.Prelude.{◌≡◌, Some, option_map, string_bytes, OnOk, OnErr, MatchResult};
ghost use Rattle.pdb_records.specs.Names.{lossy};
ghost use Rattle.pdb_types.specs.FailedParts.{with_met};
ghost use Rattle.pdb_types.specs.TypeSizes.{size_of};
ghost use Rattle.pdb_errors.specs.declared.error.Error.TheVariants.{OutOfMemory};
ghost use Rattle.pdb_functions.specs.FunctionMatches.{function_match, procedures_of_module, function_module};
ghost use Rattle.pdb_functions.specs.Procedures.{module_procedure};
ghost use Rattle.pdb_functions.specs.SymbolNames.{name_by_symbol, GoesBySymbol};
ghost use Rattle.pdb_type_texts.specs.PrintedTexts.{AnswersText};
ghost use Rattle.pdb_type_texts.specs.BrokenParts.{AddsBroken};
ghost use Rattle.pdb_type_texts.specs.Printed.{signature_run, id_run};
ghost use Rattle.pdb_type_texts.specs.PrintInputs.{formatter_inputs};
ghost use Rattle.pdb_function_info.specs.NameTexts.{signature_text, procedure_name, failed_by_name, function_name};
ghost use Rattle.pdb_function_info.specs.NameTexts.{failed_by_function_name, id_name, failed_by_id};

use crate::cached_names::{id_once, signature_once};
use crate::cached_signatures::CachedSignatures;
use crate::cached_texts::CachedTexts;
use crate::name_keys::IdKey;
use crate::name_texts::{decorated_name_instead, text_of, text_of_name};
use pdb_errors::Result;
use pdb_functions::{FunctionMatch, GlobalFunctionTable, ProcedureSymbolFunction};
use pdb_records::{IdIndex, Module, ModuleProvider, TypeIndex};
use pdb_type_printer::TypeFormatter;
use std::alloc::Global;
use std::marker::Model;

/// The names of functions, as a formatter prints them. Each is printed once, and then cached.
///
/// Caching doesn't change answers. The formatter would print the same again, and would find no broken part that isn't
/// already remembered.
pub struct FunctionNames<'a, P: ModuleProvider> {
    alloc: Global,
    formatter: TypeFormatter<'a, P>,
    signatures: CachedSignatures<'a, P>,
    ids: CachedTexts<IdKey>,
}

impl<P: ModuleProvider> Drop for FunctionNames<'_, P> {
    fn drop(self) {
        let FunctionNames {
            alloc: _,
            formatter: _,
            signatures: _,
            ids: _,
        } = self;
    }
}

// Contracts see the formatter, and the provider of the procedures' records.
impl<'a, P: ModuleProvider> Model for FunctionNames<'a, P> {
    ghost use Rattle.pdb_function_info.specs.CachedNames.{Namer, IsSignatureCache, IsIdCache};

    ghost Value = { Namer P };

    ghost view = { λ n. record {
      type_inputs = n.formatter.type_inputs;
      failed = n.formatter.failed;
      provider = n.signatures.provider.now;
    } };

    ghost invariant = { λ n. record {
      signatures : IsSignatureCache P.info (P.info n.signatures.provider.now) n.formatter
          n.signatures.texts.entries.items;
      ids : IsIdCache P.info n.formatter n.ids.entries.items;
    } };
}

impl<'a, P: ModuleProvider> FunctionNames<'a, P> {
    /// Names that a formatter prints, for procedures whose records a provider has. It takes no memory.
    pub fn new(alloc: Global, provider: &'a P, formatter: TypeFormatter<'a, P>) -> Self
        ensures type_inputs { result.type_inputs ≡ formatter.entry.type_inputs }
        ensures failed { result.failed ≡ formatter.entry.failed }
        ensures provider { result.provider ≡ provider.now }
    {
        FunctionNames {
            alloc,
            formatter,
            signatures: CachedSignatures::new(alloc, provider),
            ids: CachedTexts::new(alloc),
        }
    }

    /// Returns the formatter, with everything that it remembers.
    pub fn into_type_formatter(self) -> TypeFormatter<'a, P>
        ensures type_inputs { result.type_inputs ≡ self.entry.type_inputs }
        ensures failed { result.failed ≡ self.entry.failed }
    {
        let FunctionNames {
            alloc: _,
            formatter,
            signatures: _,
            ids: _,
        } = self;
        formatter
    }

    /// Frees the memory of the cached names. They are printed again when they are needed.
    pub fn clear_caches(&mut self)
        ensures unchanged { self.new ≡ self.old }
    {
        self.signatures = CachedSignatures::new(self.alloc, self.signatures.provider);
        self.ids = CachedTexts::new(self.alloc);
    }

    /// The formatter's modules, in their order.
    pub fn modules(&self) -> &[Module]
        ensures { result.now ≡ self.now.type_inputs.modules }
    {
        self.formatter.modules()
    }

    /// Calls [`TypeFormatter::get_type_size`].
    pub fn get_type_size(&mut self, module_index: usize, index: TypeIndex) -> Result<u64>
        ensures answer { MatchResult result
            (λ size. size ≡ (size_of P.info self.old.type_inputs module_index index.0).size)
            (λ e. e ≡ OutOfMemory) }
        ensures type_inputs { self.new.type_inputs ≡ self.old.type_inputs }
        ensures provider { self.new.provider ≡ self.old.provider }
        ensures failed { OnOk result (self.new.failed ≡
            with_met self.old.failed (size_of P.info self.old.type_inputs module_index index.0).met) }
        ensures unchanged_if_refused { OnErr result (self.new.failed ≡ self.old.failed) }
    {
        self.formatter.get_type_size(module_index, index)
    }

    /// Calls [`TypeFormatter::format_function`].
    pub fn format_function(
        &mut self,
        name: &str,
        module_index: usize,
        index: TypeIndex,
    ) -> Result<String>
        ensures answer { AnswersText
            (signature_run P.info self.old.type_inputs module_index name.now index.0 self.old.failed)
            result self.new.failed }
        ensures type_inputs { self.new.type_inputs ≡ self.old.type_inputs }
        ensures provider { self.new.provider ≡ self.old.provider }
        ensures broken { AddsBroken (formatter_inputs P.info self.old.type_inputs module_index)
            self.old.failed self.new.failed }
    {
        self.formatter.format_function(name, module_index, index)
    }

    /// Calls [`TypeFormatter::format_id`].
    pub fn format_id(&mut self, module_index: usize, index: IdIndex) -> Result<String>
        ensures answer { AnswersText
            (id_run P.info self.old.type_inputs module_index index.0 self.old.failed)
            result self.new.failed }
        ensures type_inputs { self.new.type_inputs ≡ self.old.type_inputs }
        ensures provider { self.new.provider ≡ self.old.provider }
        ensures broken { AddsBroken (formatter_inputs P.info self.old.type_inputs module_index)
            self.old.failed self.new.failed }
    {
        self.formatter.format_id(module_index, index)
    }

    // The name of an inlined function, if it can be printed. Its id is one that the module at this module index uses.
    // `OutOfMemory` if memory runs out.
    pub(crate) fn name_of_id(&mut self, module_index: usize, id: IdIndex) -> Result<Option<String>>
        ensures answer { MatchResult result
            (λ name. option_map string_bytes name ≡ id_name P.info self.old.type_inputs module_index id)
            (λ e. e ≡ OutOfMemory) }
        ensures type_inputs { self.new.type_inputs ≡ self.old.type_inputs }
        ensures provider { self.new.provider ≡ self.old.provider }
        ensures failed { OnOk result (self.new.failed
            ≡ failed_by_id P.info self.old.type_inputs module_index id self.old.failed) }
        ensures broken { AddsBroken (formatter_inputs P.info self.old.type_inputs module_index)
            self.old.failed self.new.failed }
    {
        id_once(&mut self.formatter, &mut self.ids, module_index, id)
    }

    // The name of a procedure of a module, if it is known.
    pub(crate) fn name_of_procedure(
        &mut self,
        functions: &GlobalFunctionTable<'_>,
        module_index: usize,
        procedure: ProcedureSymbolFunction<'_>,
    ) -> Result<Option<String>>
        requires named { name_by_symbol procedure.symbol_index.0
            (procedures_of_module (P.info self.old.provider) self.old.type_inputs.modules module_index)
            ≡ Some procedure.name.now }
        ensures answer { MatchResult result
            (λ name. option_map string_bytes name ≡ procedure_name P.info self.old.type_inputs
            functions.now module_index (module_procedure procedure.entry))
            (λ e. e ≡ OutOfMemory) }
        ensures type_inputs { self.new.type_inputs ≡ self.old.type_inputs }
        ensures provider { self.new.provider ≡ self.old.provider }
        ensures failed { OnOk result (self.new.failed ≡ failed_by_name P.info self.old.type_inputs
            functions.now module_index (module_procedure procedure.entry) self.old.failed) }
        ensures broken { AddsBroken (formatter_inputs P.info self.old.type_inputs module_index)
            self.old.failed self.new.failed }
    {
        if let Some(name) = decorated_name_instead(functions, procedure) {
            let name = text_of(self.alloc, name)?;
            return Ok(Some(name));
        }
        self.signature(module_index, procedure)
    }

    // The signature of a procedure of a module, if it can be printed.
    fn signature(
        &mut self,
        module_index: usize,
        procedure: ProcedureSymbolFunction<'_>,
    ) -> Result<Option<String>>
        requires named { name_by_symbol procedure.symbol_index.0
            (procedures_of_module (P.info self.old.provider) self.old.type_inputs.modules module_index)
            ≡ Some procedure.name.now }
        ensures answer { MatchResult result
            (λ text. option_map string_bytes text ≡ signature_text P.info self.old.type_inputs module_index
            (lossy procedure.entry.name.now) procedure.entry.type_index.0)
            (λ e. e ≡ OutOfMemory) }
        ensures type_inputs { self.new.type_inputs ≡ self.old.type_inputs }
        ensures provider { self.new.provider ≡ self.old.provider }
        ensures failed { OnOk result (let run = signature_run P.info self.old.type_inputs module_index
            (lossy procedure.entry.name.now) procedure.entry.type_index.0 self.old.failed in
            self.new.failed ≡ run.failed) }
        ensures broken { AddsBroken (formatter_inputs P.info self.old.type_inputs module_index)
            self.old.failed self.new.failed }
    {
        signature_once(
            self.alloc,
            &mut self.formatter,
            &mut self.signatures,
            module_index,
            procedure,
        )
    }

    // The name of a function that was found, if it is known.
    pub(crate) fn name_of_function(
        &mut self,
        functions: &GlobalFunctionTable<'_>,
        function: FunctionMatch<'_>,
    ) -> Result<Option<String>>
        requires named { GoesBySymbol (P.info self.old.provider) self.old.type_inputs.modules
            (function_match function) }
        ensures answer { MatchResult result
            (λ name. option_map string_bytes name ≡ function_name P.info self.old.type_inputs
            functions.now (function_match function.entry))
            (λ e. e ≡ OutOfMemory) }
        ensures type_inputs { self.new.type_inputs ≡ self.old.type_inputs }
        ensures provider { self.new.provider ≡ self.old.provider }
        ensures failed { OnOk result (self.new.failed ≡ failed_by_function_name P.info self.old.type_inputs
            functions.now (function_match function.entry) self.old.failed) }
        ensures broken { AddsBroken
            (formatter_inputs P.info self.old.type_inputs (function_module (function_match function.entry)))
            self.old.failed self.new.failed }
    {
        match function {
            FunctionMatch::Global { function, .. } => {
                let name = text_of_name(self.alloc, function.name)?;
                Ok(name)
            }
            FunctionMatch::Procedure {
                module_index,
                procedure,
            } => { self.name_of_procedure(functions, module_index, procedure) }
        }
    }
}
