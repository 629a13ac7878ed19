//! Reads types and ids for printing, and handles those that can't be read.

ghost use Rattle.std.specs.Prelude.{◌≡◌, None, IfOk, OnOk};
ghost use Rattle.std.specs.Option.{option_copied};
ghost use Rattle.pdb_errors.specs.declared.error.Error.{Error};
ghost use Rattle.pdb_types.specs.declared.read_error.Part.{Part};
ghost use Rattle.pdb_types.specs.declared.read_error.ReadError.TheVariants.{Broken};
ghost use Rattle.pdb_types.specs.ReadError.{Matches};
ghost use Rattle.pdb_type_texts.specs.BrokenParts.{IsBroken, AddsBroken};
ghost use Rattle.pdb_type_texts.specs.PrintInputs.{PrintInputs, formatter_inputs};
ghost use Rattle.pdb_type_printer.specs.Formatters.{IsLater};
ghost use Rattle.pdb_type_printer.specs.PendingPlans.{IsRefused, IsNoted, Entered, EnteredAlone};

use crate::type_formatter::TypeFormatter;
use pdb_errors::Error;
use pdb_records::{IdData, IdIndex, ModuleProvider, TypeData, TypeIndex};
use pdb_type_texts::print_error::PrintError;
use pdb_type_texts::progress::Progress;
use pdb_type_texts::wording::Wording;
use pdb_types::{ReadError, TypeFormatterFlags};
use std::alloc::AllocError;

// Reading types and ids, and handling those that can't be read.
impl<'a, P: ModuleProvider> TypeFormatter<'a, P> {
    // The flags for printing signatures.
    pub(crate) fn flags(&self) -> TypeFormatterFlags
        ensures { result ≡ self.now.type_inputs.flags }
    {
        self.type_inputs.flags()
    }

    // The type with an index that the module at a module index uses.
    #[tactic(auto, unfolding(pdb_type_texts::specs::PrintInputs::type_at))]
    pub(crate) fn printed_type(
        &mut self,
        module_index: usize,
        index: TypeIndex,
    ) -> Result<&'a TypeData, ReadError>
        ensures answer { Matches (λ t. t.now) result
            ((formatter_inputs P.info self.old.type_inputs module_index).read index.0) }
        ensures unchanged { self.new ≡ self.old }
    {
        let (_, type_data) = self
            .type_inputs
            .read_type(&mut self.cache, module_index, index)?;
        Ok(type_data)
    }

    // The id with an index that the module at a module index uses.
    #[tactic(auto, unfolding(pdb_type_texts::specs::PrintInputs::id_at))]
    pub(crate) fn printed_id(
        &mut self,
        module_index: usize,
        index: IdIndex,
    ) -> Result<&'a IdData, ReadError>
        ensures answer { Matches (λ i. i.now) result
            ((formatter_inputs P.info self.old.type_inputs module_index).read_id index.0) }
        ensures unchanged { self.new ≡ self.old }
    {
        let (_, id_data) = self
            .type_inputs
            .read_id(&mut self.cache, module_index, index)?;
        Ok(id_data)
    }

    // Makes printing fail, because a needed type or id can't be read.
    pub(crate) fn refuse(
        &mut self,
        progress: &mut Progress<'_>,
        read_error: ReadError,
    ) -> Result<(), AllocError>
        requires no_failure { progress.old.failure ≡ None }
        ensures type_inputs { self.new.type_inputs ≡ self.old.type_inputs }
        ensures broken { (w : PrintInputs)
            → ((part : Part) (e : Error) → read_error ≡ Broken part e → IsBroken w part)
            → AddsBroken w self.old.failed self.new.failed }
        ensures fails { OnOk result
            (IsRefused read_error progress.old self.old.failed progress.new self.new.failed) }
    {
        match read_error {
            ReadError::OutOfMemory => Err(AllocError),
            ReadError::Missing(index) => {
                progress.fail(PrintError::TypeNotFound(index));
                Ok(())
            }
            ReadError::Unimplemented(kind) => {
                let error = pdb_records::Error::UnimplementedTypeKind(kind);
                progress.fail(PrintError::OfError(Error::from(error)));
                Ok(())
            }
            ReadError::Refused(error) => {
                progress.fail(PrintError::OfError(error));
                Ok(())
            }
            ReadError::Broken(part, error) => {
                let answered = self.type_inputs.fail(&mut self.cache, part, error)?;
                progress.fail(PrintError::OfError(answered));
                Ok(())
            }
        }
    }

    // Prints a note in place of a type or id that is missing or of an unknown kind. For any other error, printing
    // fails.
    pub(crate) fn note(
        &mut self,
        progress: &mut Progress<'_>,
        read_error: ReadError,
    ) -> Result<(), AllocError>
        requires no_failure { progress.old.failure ≡ None }
        ensures type_inputs { self.new.type_inputs ≡ self.old.type_inputs }
        ensures broken { (w : PrintInputs)
            → ((part : Part) (e : Error) → read_error ≡ Broken part e → IsBroken w part)
            → AddsBroken w self.old.failed self.new.failed }
        ensures noted { OnOk result
            (IsNoted read_error progress.old self.old.failed progress.new self.new.failed) }
    {
        match read_error {
            ReadError::Missing(index) => {
                progress.write(self.flags(), &Wording::MissingType(index))
            }
            ReadError::Unimplemented(kind) => {
                progress.write(self.flags(), &Wording::UnimplementedKind(kind))
            }
            other => self.refuse(progress, other),
        }
    }

    // Opens an index, and reads its type, which is needed. If it is already open or can't be read, printing fails.
    pub(crate) fn enter(
        &mut self,
        module_index: usize,
        progress: &mut Progress<'_>,
        index: TypeIndex,
    ) -> Result<Option<&'a TypeData>, AllocError>
        requires no_failure { progress.old.failure ≡ None }
        ensures monotone { IsLater P.info module_index self.old self.new }
        ensures entered { IfOk result (λ found.
            Entered (formatter_inputs P.info self.old.type_inputs module_index) index.0
            progress.old self.old.failed progress.new self.new.failed (option_copied found)) }
    {
        if !progress.open(index.0)? {
            return Ok(None);
        }
        match self.printed_type(module_index, index) {
            Ok(type_data) => Ok(Some(type_data)),
            Err(read_error) => {
                self.refuse(progress, read_error)?;
                Ok(None)
            }
        }
    }

    // Reads the type of an index, which is needed, and begins an id in which only that index is open. If it can't be
    // read, printing fails.
    pub(crate) fn enter_alone(
        &mut self,
        module_index: usize,
        progress: &mut Progress<'_>,
        index: TypeIndex,
    ) -> Result<Option<&'a TypeData>, AllocError>
        requires no_failure { progress.old.failure ≡ None }
        ensures monotone { IsLater P.info module_index self.old self.new }
        ensures entered { IfOk result (λ found.
            EnteredAlone (formatter_inputs P.info self.old.type_inputs module_index) index.0
            progress.old self.old.failed progress.new self.new.failed (option_copied found)) }
    {
        match self.printed_type(module_index, index) {
            Ok(type_data) => {
                progress.open_alone(Some(index.0))?;
                Ok(Some(type_data))
            }
            Err(read_error) => {
                self.refuse(progress, read_error)?;
                Ok(None)
            }
        }
    }
}
