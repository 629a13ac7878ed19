//! `TypeInputs`: the data from which answers about types are computed.

ghost use Rattle.std.specs.Prelude.{◌≡◌, [], IfOk, OnOk, OnErr};
ghost use Rattle.pdb_errors.specs.Errors.{error_view};
ghost use Rattle.pdb_types.specs.FailedParts.{with_part, with_met, part_error};
ghost use Rattle.std.specs.Option.{option_copied};
ghost use Rattle.pdb_errors.specs.Outcomes.{Gives};
ghost use Rattle.pdb_types.specs.TypeInputs.{program_pointer_size};
ghost use Rattle.pdb_types.specs.TypeCache.{IsCacheOf};

use crate::flags::TypeFormatterFlags;
use crate::module_list::ModuleList;
use crate::read_error::Part;
use crate::sizes::pointer_size;
use crate::texts::Texts;
use crate::type_cache::TypeCache;
use pdb_errors::{Error, Result};
use pdb_records::{
    DebugInformation, IdInformation, MachineType, Module, ModuleProvider, StreamError, StringTable,
    TypeInformation,
};
use std::alloc::{AllocError, Global};
use std::marker::Model;

/// The type inputs: the data from which answers about types are computed. They are only read.
pub struct TypeInputs<'a, P: ModuleProvider> {
    pub(crate) alloc: Global,
    pub(crate) provider: &'a P,
    pub(crate) modules: ModuleList,
    pub(crate) strings: Option<Texts<'a>>,
    pub(crate) pointer_size: u64,
    pub(crate) types: &'a TypeInformation,
    pub(crate) ids: &'a IdInformation,
    pub(crate) flags: TypeFormatterFlags,
}

impl<'a, P: ModuleProvider> Model for TypeInputs<'a, P> {
    ghost use Rattle.pdb_types.specs.TypeInputs.{TypeInputs};

    ghost Value = { TypeInputs P };

    ghost view = { λ s. record {
      provider = s.provider.now;
      modules = s.modules;
      strings = s.strings;
      pointer_size = s.pointer_size;
      types = s.types.now.items;
      ids = s.ids.now.items;
      flags = s.flags;
    } };
}

impl<P: ModuleProvider> Drop for TypeInputs<'_, P> {
    fn drop(self) {
        let TypeInputs {
            alloc: _,
            provider: _,
            modules: _,
            strings: _,
            pointer_size: _,
            types: _,
            ids: _,
            flags: _,
        } = self;
    }
}

// The size of a pointer in a program, if its machine could be read.
fn program_pointer_size(machine_type: &Result<MachineType, StreamError>) -> Result<u64>
    ensures { result ≡ program_pointer_size machine_type.now }
{
    match machine_type {
        Ok(machine) => Ok(pointer_size(*machine)),
        Err(fault) => Err(Error::from(*fault)),
    }
}

// A table of the strings, if there are any.
fn texts_of(alloc: Global, strings: Option<&StringTable>) -> Result<Option<Texts<'_>>, AllocError>
    ensures { IfOk result (λ texts. texts ≡ option_copied strings.entry) }
{
    match strings {
        Some(strings) => {
            let texts = Texts::new(alloc, strings)?;
            Ok(Some(texts))
        }
        None => Ok(None),
    }
}

impl<'a, P: ModuleProvider> TypeInputs<'a, P> {
    /// Makes the type inputs of these records. Of the debug information only the machine is used.
    ///
    /// # Errors
    ///
    /// [`Error::PdbError`] if the machine can't be read.
    pub fn new(
        alloc: Global,
        provider: &'a P,
        modules: Vec<Module>,
        debug_information: &DebugInformation,
        types: &'a TypeInformation,
        ids: &'a IdInformation,
        strings: Option<&'a StringTable>,
        flags: TypeFormatterFlags,
    ) -> Result<Self>
        ensures pointer_size { Gives (λ inputs. inputs.pointer_size) result
            (program_pointer_size debug_information.now.machine_type) }
        ensures type_inputs { IfOk result (λ inputs. inputs ≡ record {
          provider = provider.now;
          modules = modules.items;
          strings = option_copied strings.entry;
          pointer_size = inputs.pointer_size;
          types = types.now.items;
          ids = ids.now.items;
          flags = flags;
        }) }
    {
        let pointer_size = program_pointer_size(&debug_information.machine_type)?;
        Ok(TypeInputs {
            alloc,
            provider,
            modules: ModuleList::new(alloc, modules)?,
            strings: texts_of(alloc, strings)?,
            pointer_size,
            types,
            ids,
            flags,
        })
    }

    /// The modules in their order.
    pub fn modules(&self) -> &[Module]
        ensures { result.now ≡ self.now.modules }
    {
        self.modules.modules()
    }

    /// The allocator.
    pub fn allocator(&self) -> Global {
        self.alloc
    }

    /// The flags for printing signatures.
    pub fn flags(&self) -> TypeFormatterFlags
        ensures { result ≡ self.now.flags }
    {
        self.flags
    }

    /// An empty type cache. It takes no memory.
    pub fn empty_cache(&self) -> TypeCache<'a>
        ensures is_cache { IsCacheOf P.info self.now result }
        ensures failed { result.failed ≡ [] }
    {
        TypeCache::new(self.alloc, self.types, self.ids)
    }

    /// Remembers a part of the records that was found broken, if there is one. `AllocError` if memory runs out; then
    /// the failed parts don't change.
    pub fn remember(&self, cache: &mut TypeCache<'a>, met: Option<Part>) -> Result<(), AllocError>
        requires is_cache { IsCacheOf P.info self.now cache.old }
        ensures is_cache { IsCacheOf P.info self.now cache.new }
        ensures failed { OnOk result (cache.new.failed ≡ with_met cache.old.failed met) }
        ensures unchanged_if_refused { OnErr result (cache.new.failed ≡ cache.old.failed) }
    {
        cache.failed.add_met(met)
    }

    /// The error for a part that was found broken: its own error the first time, when it is remembered; later the error
    /// that it failed before. `AllocError` if memory runs out; then the failed parts don't change.
    pub fn fail(
        &self,
        cache: &mut TypeCache<'a>,
        part: Part,
        error: Error,
    ) -> Result<Error, AllocError>
        requires is_cache { IsCacheOf P.info self.now cache.old }
        ensures is_cache { IsCacheOf P.info self.now cache.new }
        ensures answer { IfOk result (λ e. error_view e ≡ part_error cache.old.failed part (error_view error)) }
        ensures failed { OnOk result (cache.new.failed ≡ with_part cache.old.failed part) }
        ensures unchanged_if_refused { OnErr result (cache.new.failed ≡ cache.old.failed) }
    {
        cache.failed.fail(part, error)
    }
}
