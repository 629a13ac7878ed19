//! `ContextPdbData`: owns or borrows the records of a program, and makes contexts and formatters over them.

ghost use Rattle.std.specs.Prelude.{◌≡◌, [], None, Some, IfOk};
ghost use Rattle.pdb_records.specs.Provided.{provided};
ghost use Rattle.pdb_errors.specs.Outcomes.{Gives, Refuses};
ghost use Rattle.pdb_addr2line.specs.ContextData.{records_refusal, formatter_refusal, sections_read, info_at};
ghost use Rattle.pdb_addr2line.specs.ContextData.{default_flags, context_over, context_of, formatter_of};
ghost use Rattle.std.specs.Borrow.{sem};
ghost use Rattle.std.specs.Io.BufRead.{Rests};
ghost use Rattle.pdb_records.specs.contracts.pdb.PDB.{the_row};

use crate::context::Context;
use pdb_errors::{Error, Result};
use pdb_records::{
    DebugInformation, ImageSectionHeader, Module, ModuleInfo, ModuleProvider, PDB, StreamError,
};
use pdb_type_printer::TypeFormatter;
use pdb_types::TypeFormatterFlags;
use std::alloc::{AllocError, Global};
use std::marker::Model;

// The records, owned or borrowed.
#[derive(Drop)]
enum MaybeOwned<'p> {
    Owned(PDB),
    Lent(&'p PDB),
}

/// Owns or borrows the records of a program, and makes a [`Context`] over them.
///
/// Answers of a context may borrow from the records. So the records have an owner other than the context.
pub struct ContextPdbData<'p> {
    alloc: Global,
    maybe_owned: MaybeOwned<'p>,
}

impl Drop for ContextPdbData<'_> {
    fn drop(self) {
        let ContextPdbData {
            alloc: _,
            maybe_owned: _,
        } = self;
    }
}

impl<'p> Model for ContextPdbData<'p> {
    ghost use Rattle.std.specs.Prelude.{◌≡◌, None};
    ghost use Rattle.pdb_records.specs.Records.{Records};

    ghost Value = { Records };

    ghost use Rattle.pdb_addr2line.specs.MaybeOwned.{records};
    ghost use Rattle.pdb_addr2line.specs.ContextData.{records_refusal};

    ghost view = { λ d. records d.maybe_owned };

    ghost invariant = { λ d. records_refusal (records d.maybe_owned) ≡ None };
}

// Turns a mutable borrow of records into a shared one. The records end as they were.
fn shared<'p>(pdb: &'p mut PDB) -> &'p PDB
    ensures answer { result.now ≡ pdb.old }
    ensures* unchanged { sem 𝓛 (Rests the_row pdb.entry (λ last. last ≡ pdb.old)) }
{
    pdb
}

// Refuses records in which a stream can't be read that a context needs.
fn check_streams(pdb: &PDB) -> Result<()>
    ensures { Refuses result (records_refusal pdb.now) }
{
    let failed = pdb
        .global_symbols
        .as_ref()
        .err()
        .or(pdb.debug_information.as_ref().err())
        .or(pdb.type_information.as_ref().err())
        .or(pdb.id_information.as_ref().err())
        .or(pdb.address_map.as_ref().err());
    match failed {
        None => Ok(()),
        Some(fault) => Err(Error::from(*fault)),
    }
}

impl<'p> ContextPdbData<'p> {
    /// Takes ownership of these records.
    ///
    /// # Errors
    ///
    /// [`Error::PdbError`] with the error of the first stream that can't be read, in the order global symbols, debug
    /// information, types, ids, address map. A string table that can't be read counts as missing.
    pub fn try_from_pdb(alloc: Global, pdb: PDB) -> Result<Self>
        ensures answer { IfOk result (λ d. d ≡ pdb) }
        ensures refused { Refuses result (records_refusal pdb) }
    {
        check_streams(&pdb)?;
        Ok(ContextPdbData {
            alloc,
            maybe_owned: MaybeOwned::Owned(pdb),
        })
    }

    /// Borrows these records, with the errors of [`ContextPdbData::try_from_pdb`]. They are only read, and stay as they
    /// are, also if they are refused.
    pub fn try_from_pdb_ref(alloc: Global, pdb: &'p mut PDB) -> Result<Self>
        ensures answer { IfOk result (λ d. d ≡ pdb.old) }
        ensures refused { Refuses result (records_refusal pdb.old) }
    {
        ContextPdbData::try_from_shared_pdb(alloc, shared(pdb))
    }

    /// Borrows these records, with the errors of [`ContextPdbData::try_from_pdb`].
    pub fn try_from_shared_pdb(alloc: Global, pdb: &'p PDB) -> Result<Self>
        ensures answer { IfOk result (λ d. d ≡ pdb.now) }
        ensures refused { Refuses result (records_refusal pdb.now) }
    {
        check_streams(pdb)?;
        Ok(ContextPdbData {
            alloc,
            maybe_owned: MaybeOwned::Lent(pdb),
        })
    }

    /// Makes a context over these records. It prints names with the default flags.
    ///
    /// # Errors
    ///
    /// Those of [`ContextPdbData::make_context_with_formatter_flags`].
    pub fn make_context(&self) -> Result<Context<'_, Self>>
        ensures answer { Gives (λ c. c.inputs) result (context_of default_flags self.now) }
        ensures failed { IfOk result (λ c. (c.failed ≡ []) × (c.code_failed ≡ [])) }
    {
        self.make_context_with_formatter_flags(TypeFormatterFlags::default())
    }

    /// Makes a context over these records. It prints names with these flags.
    ///
    /// # Errors
    ///
    /// [`Error::PdbError`] if one of these has a fault or can't be read, in this order: the list of modules, the
    /// machine type, the sections, the global symbols. Then the errors of
    /// [`compute_section_contributions`](crate::parts::compute_section_contributions).
    pub fn make_context_with_formatter_flags(
        &self,
        flags: TypeFormatterFlags,
    ) -> Result<Context<'_, Self>>
        ensures answer { Gives (λ c. c.inputs) result (context_of flags self.now) }
        ensures failed { IfOk result (λ c. (c.failed ≡ []) × (c.code_failed ≡ [])) }
    {
        let formatter = self.make_type_formatter_with_flags(flags)?;
        self.context_with(formatter)
    }

    // Makes a context over these records. It prints names with this formatter.
    fn context_with<'c>(&'c self, formatter: TypeFormatter<'c, Self>) -> Result<Context<'c, Self>>
        ensures answer { Gives (λ c. c.inputs) result (context_over self.now formatter.entry.type_inputs) }
        ensures failed { IfOk result (λ c. c.failed ≡ formatter.entry.failed) }
        ensures code_failed { IfOk result (λ c. c.code_failed ≡ []) }
    {
        let pdb = self.pdb();
        let (Ok(debug), Ok(symbols), Ok(address_map)) = (
            &pdb.debug_information,
            &pdb.global_symbols,
            &pdb.address_map,
        ) else {
            unreachable!();
        };
        let sections = sections_of(pdb)?;
        let strings = pdb.string_table.as_ref().ok();
        Context::new_from_parts(
            self.alloc,
            self,
            sections,
            address_map,
            symbols,
            strings,
            debug,
            formatter,
        )
    }

    /// Makes a type formatter over these records, with the default flags.
    ///
    /// # Errors
    ///
    /// Those of [`ContextPdbData::make_type_formatter_with_flags`].
    pub fn make_type_formatter(&self) -> Result<TypeFormatter<'_, Self>>
        ensures answer { Gives (λ f. f.type_inputs) result (formatter_of default_flags self.now) }
        ensures failed { IfOk result (λ f. f.failed ≡ []) }
    {
        self.make_type_formatter_with_flags(TypeFormatterFlags::default())
    }

    /// Makes a type formatter over these records. A string table that can't be read counts as missing.
    ///
    /// # Errors
    ///
    /// [`Error::PdbError`] if the list of modules has a fault, or else if the machine type can't be read.
    pub fn make_type_formatter_with_flags(
        &self,
        flags: TypeFormatterFlags,
    ) -> Result<TypeFormatter<'_, Self>>
        ensures answer { Gives (λ f. f.type_inputs) result (formatter_of flags self.now) }
        ensures failed { IfOk result (λ f. f.failed ≡ []) }
    {
        let pdb = self.pdb();
        let (Ok(debug_information), Ok(types), Ok(ids)) = (
            &pdb.debug_information,
            &pdb.type_information,
            &pdb.id_information,
        ) else {
            unreachable!();
        };
        check_machine(debug_information)?;
        let modules = copies_of(self.alloc, &debug_information.modules.items)?;
        let strings = pdb.string_table.as_ref().ok();
        TypeFormatter::new_from_parts(
            self.alloc,
            self,
            modules,
            debug_information,
            types,
            ids,
            strings,
            flags,
        )
    }

    // The records.
    fn pdb(&self) -> &PDB
        ensures answer { result.now ≡ self.now }
        ensures accepted { records_refusal self.now ≡ None }
    {
        match &self.maybe_owned {
            MaybeOwned::Owned(pdb) => pdb,
            MaybeOwned::Lent(pdb) => pdb,
        }
    }
}

// Refuses a list of modules with a fault, and then a machine type that could not be read.
fn check_machine(debug: &DebugInformation) -> Result<()>
    ensures { Refuses result (formatter_refusal debug.now) }
{
    if let Some(fault) = debug.modules.fault {
        return Err(Error::from(fault));
    }
    match debug.machine_type {
        Ok(_) => Ok(()),
        Err(fault) => Err(Error::from(fault)),
    }
}

// The section headers; empty if the records have none.
fn sections_of(pdb: &PDB) -> Result<&[ImageSectionHeader]>
    ensures { Gives (λ s. s.now) result (sections_read pdb.now) }
{
    match &pdb.sections {
        Ok(Some(sections)) => Ok(sections),
        Ok(None) => Ok(&[]),
        Err(fault) => Err(Error::from(*fault)),
    }
}

// A copy of a module.
fn copy_of(module: &Module) -> Result<Module, AllocError>
    ensures { IfOk result (λ m. m ≡ «module».now) }
{
    module.clone()
}

// A copy of the list of modules.
fn copies_of(alloc: Global, modules: &[Module]) -> Result<Vec<Module>, AllocError>
    ensures { IfOk result (λ v. v.items ≡ modules.now) }
{
    let mut copies = Vec::new(alloc);
    for module in modules {
        copies.push(copy_of(module)?)?;
    }
    Ok(copies)
}

impl<'p> ModuleProvider for ContextPdbData<'p> {
    ghost info = { λ records index _. info_at records index };

    /// The records of the module at this module index. The module's entry in the list isn't used.
    fn get_module_info(
        &self,
        module_index: usize,
        _module: &Module,
    ) -> std::result::Result<Option<&ModuleInfo>, StreamError> {
        match self.pdb().module_infos.get(module_index) {
            None => Ok(None),
            Some(Err(fault)) => Err(*fault),
            Some(Ok(info)) => Ok(info.as_ref()),
        }
    }
}
