//! `TypeFormatter`: computes the sizes of types, and prints the signatures of functions and ids.

ghost use Rattle.std.specs.Prelude.{◌≡◌, [], IfOk, OnOk, OnErr, MatchResult};
ghost use Rattle.std.specs.Option.{option_copied};
ghost use Rattle.pdb_errors.specs.declared.error.Error.TheVariants.{OutOfMemory};
ghost use Rattle.pdb_types.specs.FailedParts.{with_met};
ghost use Rattle.pdb_errors.specs.Outcomes.{Gives};
ghost use Rattle.pdb_types.specs.TypeInputs.{program_pointer_size};
ghost use Rattle.pdb_types.specs.TypeSizes.{size_of};
ghost use Rattle.pdb_type_texts.specs.PrintedTexts.{AnswersText, AnswersWritten};
ghost use Rattle.pdb_type_texts.specs.BrokenParts.{AddsBroken};
ghost use Rattle.pdb_type_texts.specs.Printed.{signature_run, id_run};
ghost use Rattle.pdb_type_texts.specs.PrintInputs.{formatter_inputs};

use pdb_errors::Result;
use pdb_records::{
    DebugInformation, IdIndex, IdInformation, Module, ModuleProvider, StringTable, TypeIndex,
    TypeInformation,
};
use pdb_type_texts::printed_texts::{printed_text, write_printed};
use pdb_types::{TypeCache, TypeFormatterFlags, TypeInputs};
use std::alloc::Global;
use std::fmt;
use std::marker::Model;

/// Computes the sizes of types, and prints the signatures of functions and ids.
///
/// Its inputs are the records with which it was made. Between questions it remembers only one thing that can change a
/// later answer: which parts of the records it found broken.
pub struct TypeFormatter<'a, P: ModuleProvider> {
    pub(crate) type_inputs: TypeInputs<'a, P>,
    pub(crate) cache: TypeCache<'a>,
}

impl<'a, P: ModuleProvider> Model for TypeFormatter<'a, P> {
    ghost use Rattle.pdb_type_printer.specs.Formatters.{Formatter};
    ghost use Rattle.pdb_types.specs.TypeCache.{IsCacheOf};

    ghost Value = { Formatter P };

    ghost view = { λ f. record { type_inputs = f.type_inputs; failed = f.cache.failed } };

    ghost invariant = { λ f. IsCacheOf P.info f.type_inputs f.cache };
}

impl<P: ModuleProvider> Drop for TypeFormatter<'_, P> {
    fn drop(self) {
        let TypeFormatter {
            type_inputs: _,
            cache: _,
        } = self;
    }
}

impl<'a, P: ModuleProvider> TypeFormatter<'a, P> {
    /// Makes a formatter whose inputs are these records. Of the debug information only the machine is used.
    ///
    /// # Errors
    ///
    /// [`Error::PdbError`](crate::Error::PdbError) if the machine can't be read.
    pub fn new_from_parts(
        alloc: Global,
        provider: &'a P,
        modules: Vec<Module>,
        debug_information: &DebugInformation,
        type_information: &'a TypeInformation,
        id_information: &'a IdInformation,
        string_table: Option<&'a StringTable>,
        flags: TypeFormatterFlags,
    ) -> Result<Self>
        ensures pointer_size { Gives (λ f. f.type_inputs.pointer_size) result
            (program_pointer_size debug_information.now.machine_type) }
        ensures type_inputs { IfOk result (λ f. f.type_inputs ≡ record {
          provider = provider.now;
          modules = modules.items;
          strings = option_copied string_table.entry;
          pointer_size = f.type_inputs.pointer_size;
          types = type_information.now.items;
          ids = id_information.now.items;
          flags = flags;
        }) }
        ensures failed { IfOk result (λ f. f.failed ≡ []) }
    {
        let type_inputs = TypeInputs::new(
            alloc,
            provider,
            modules,
            debug_information,
            type_information,
            id_information,
            string_table,
            flags,
        )?;
        let cache = type_inputs.empty_cache();
        Ok(TypeFormatter { type_inputs, cache })
    }

    /// The modules with which the formatter was made, in their order.
    pub fn modules(&self) -> &[Module]
        ensures { result.now ≡ self.now.type_inputs.modules }
    {
        self.type_inputs.modules()
    }

    /// The size of a type in bytes. Its index is one that the module at `module_index` uses.
    ///
    /// An enumeration and a modifier have the size of the type underneath. The size is 0 for a type that can't be read,
    /// and for one that is underneath itself. If a part of the records is found broken, it is remembered.
    ///
    /// # Errors
    ///
    /// `OutOfMemory` if memory runs out. The formatter then stays as it was.
    pub fn get_type_size(&mut self, module_index: usize, index: TypeIndex) -> Result<u64>
        ensures answer { MatchResult result
            (λ size. size ≡ (size_of P.info self.old.type_inputs module_index index.0).size)
            (λ e. e ≡ OutOfMemory) }
        ensures type_inputs { self.new.type_inputs ≡ self.old.type_inputs }
        ensures failed { OnOk result (self.new.failed ≡
            with_met self.old.failed (size_of P.info self.old.type_inputs module_index index.0).met) }
        ensures unchanged_if_refused { OnErr result (self.new.failed ≡ self.old.failed) }
    {
        let found = self
            .type_inputs
            .type_size(&mut self.cache, module_index, index)?;
        self.type_inputs.remember(&mut self.cache, found.met)?;
        Ok(found.size)
    }

    /// The signature of a function with this name and type. The type's index is one that the module at `module_index`
    /// uses. Index 0 means no type. Without a type, or if it isn't a function type, the result is only the name.
    ///
    /// # Errors
    ///
    /// The first error during printing: [`Error::CircularTypeDefinition`](crate::Error) for an index that occurs inside
    /// itself or an array that is among its own elements, and the errors of types that can't be read. A broken part of
    /// the records gives its own error the first time, and afterwards the error that it failed before. Missing types
    /// and types of unknown kinds get a note in the text if they are printed by themselves.
    pub fn format_function(
        &mut self,
        name: &str,
        module_index: usize,
        index: TypeIndex,
    ) -> Result<String>
        ensures answer { AnswersText
            (signature_run P.info self.old.type_inputs module_index name.now index.0 self.old.failed)
            result self.new.failed }
        ensures type_inputs { self.new.type_inputs ≡ self.old.type_inputs }
        ensures broken { AddsBroken (formatter_inputs P.info self.old.type_inputs module_index)
            self.old.failed self.new.failed }
    {
        printed_text(self.print_function(name, module_index, index)?)
    }

    /// Writes the signature that [`TypeFormatter::format_function`] returns.
    ///
    /// # Errors
    ///
    /// Those of [`TypeFormatter::format_function`]. The text before the error is then written, except if memory ran
    /// out: then nothing is. [`Error::FormatError`](crate::Error) if the writer refuses the text.
    pub fn emit_function<W: fmt::Write>(
        &mut self,
        writer: &mut W,
        name: &str,
        module_index: usize,
        index: TypeIndex,
    ) -> Result<()>
        ensures answer { AnswersWritten W.write_str_gives
            (signature_run P.info self.old.type_inputs module_index name.now index.0 self.old.failed)
            writer.old writer.new result self.new.failed }
        ensures type_inputs { self.new.type_inputs ≡ self.old.type_inputs }
        ensures broken { AddsBroken (formatter_inputs P.info self.old.type_inputs module_index)
            self.old.failed self.new.failed }
    {
        let printed = self.print_function(name, module_index, index)?;
        write_printed(writer, printed)
    }

    /// An id as text: a member function with its class, another function with its scopes, a string, or strings in
    /// quotation marks. The id's index is one that the module at `module_index` uses.
    ///
    /// # Errors
    ///
    /// The first error during printing: [`Error::CircularTypeDefinition`](crate::Error) for an id that is a scope of
    /// itself, and as in [`TypeFormatter::format_function`];
    /// [`Error::MemberFunctionIdIsNotMemberFunctionType`](crate::Error) and
    /// [`Error::FunctionIdIsNotProcedureType`](crate::Error) for a function whose type has another kind; and the errors
    /// of types and ids that can't be read. A broken part of the records gives its own error the first time, whether
    /// for a type or for an id, and afterwards the error that it failed before. Missing ids, ids of unknown kinds, and
    /// such types that are printed by themselves get a note in the text.
    pub fn format_id(&mut self, module_index: usize, index: IdIndex) -> Result<String>
        ensures answer { AnswersText
            (id_run P.info self.old.type_inputs module_index index.0 self.old.failed)
            result self.new.failed }
        ensures type_inputs { self.new.type_inputs ≡ self.old.type_inputs }
        ensures broken { AddsBroken (formatter_inputs P.info self.old.type_inputs module_index)
            self.old.failed self.new.failed }
    {
        printed_text(self.print_id(module_index, index)?)
    }

    /// Writes the text that [`TypeFormatter::format_id`] returns.
    ///
    /// # Errors
    ///
    /// Those of [`TypeFormatter::format_id`]. The text before the error is then written, except if memory ran out: then
    /// nothing is. [`Error::FormatError`](crate::Error) if the writer refuses the text.
    pub fn emit_id<W: fmt::Write>(
        &mut self,
        writer: &mut W,
        module_index: usize,
        index: IdIndex,
    ) -> Result<()>
        ensures answer { AnswersWritten W.write_str_gives
            (id_run P.info self.old.type_inputs module_index index.0 self.old.failed)
            writer.old writer.new result self.new.failed }
        ensures type_inputs { self.new.type_inputs ≡ self.old.type_inputs }
        ensures broken { AddsBroken (formatter_inputs P.info self.old.type_inputs module_index)
            self.old.failed self.new.failed }
    {
        let printed = self.print_id(module_index, index)?;
        write_printed(writer, printed)
    }

    // The allocator.
    pub(crate) fn allocator(&self) -> Global {
        self.type_inputs.allocator()
    }
}
