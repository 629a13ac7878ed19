//! Resolves cross-module indices: by the imports of a module, the name of the other module, and its exports.

ghost use Rattle.std.specs.Prelude.{◌≡◌, Some};
ghost use Rattle.pdb_errors.specs.Outcomes.{lent, streamed};
ghost use Rattle.pdb_types.specs.ReadError.{Matches};
ghost use Rattle.pdb_types.specs.TypeInputs.{link_inputs};
ghost use Rattle.pdb_types.specs.Resolution.{module_info, imports, exports, module_named, module_under};
ghost use Rattle.pdb_types.specs.Resolution.{found_export, export_of, import_target, across, resolved};
ghost use Rattle.pdb_types.specs.TypeCache.{IsCacheOf, IsCacheAfter};

use crate::exports::ExportTable;
use crate::module_list::lower_case;
use crate::read_error::{Part, ReadError};
use crate::texts::Texts;
use crate::type_cache::{NamedModule, TypeCache};
use crate::type_inputs::TypeInputs;
use pdb_errors::{Error, Result};
use pdb_records::{
    CrossModuleExports, CrossModuleImports, ModuleInfo, ModuleProvider, RawString, StreamError,
    StringRef,
};

// The bit that marks a cross-module index.
const CROSS_MODULE: u32 = 1 << 31;

// A stream's content, or the error of one that can't be read.
fn streamed<A>(content: &Result<A, StreamError>) -> Result<&A>
    ensures { lent result ≡ streamed content.now }
{
    match content {
        Ok(content) => Ok(content),
        Err(fault) => Err(Error::from(*fault)),
    }
}

// The index that was found for a number in a module's exports, or the error if there is none.
fn found_export(local: u32, found: Option<u32>) -> Result<u32, ReadError>
    ensures { Matches (λ index. index) result (found_export local found) }
{
    match found {
        Some(index) => Ok(index),
        None => Err(ReadError::Refused(Error::LocalIndexNotInExports(local))),
    }
}

impl<'a, P: ModuleProvider> TypeInputs<'a, P> {
    // The records of the module at a module index.
    fn module_info(&self, module_index: usize) -> Result<&'a ModuleInfo>
        ensures { lent result ≡ module_info (link_inputs P.info self.now) module_index }
    {
        let provider = self.provider;
        let Some(module) = self.modules().get(module_index) else {
            return Err(Error::OutOfRangeModuleIndex(module_index));
        };
        match provider.get_module_info(module_index, module) {
            Ok(Some(info)) => Ok(info),
            Ok(None) => Err(Error::ModuleInfoNotFound(module_index)),
            Err(fault) => Err(Error::from(fault)),
        }
    }

    // The imports of the module at a module index.
    fn imports(&self, module_index: usize) -> Result<&'a CrossModuleImports>
        ensures { lent result ≡ imports (link_inputs P.info self.now) module_index }
    {
        streamed(&self.module_info(module_index)?.imports)
    }

    // The exports of the module at a module index.
    fn exports(&self, module_index: usize) -> Result<&'a CrossModuleExports>
        ensures { lent result ≡ exports (link_inputs P.info self.now) module_index }
    {
        streamed(&self.module_info(module_index)?.exports)
    }

    // The module index of the module with this name.
    fn module_named(&self, name: &RawString) -> Result<usize, ReadError>
        ensures { Matches (λ module_index. module_index) result (module_named self.now.modules name.now) }
    {
        let lower_name = lower_case(self.alloc, name)?;
        match self.modules.last_named(lower_name.as_str()) {
            Some(module_index) => Ok(module_index),
            None => Err(ReadError::Refused(Error::ModuleNameNotFound(lower_name))),
        }
    }

    // The module index of the module whose name has this reference. It is searched once.
    fn module_under(
        &self,
        cache: &mut TypeCache<'a>,
        strings: &Texts<'a>,
        reference: StringRef,
    ) -> Result<usize, ReadError>
        requires is_cache { IsCacheOf P.info self.now cache.old }
        requires strings { self.now.strings ≡ Some strings.now }
        ensures answer { Matches (λ module_index. module_index) result
            (module_under self.now.modules strings.now reference) }
        ensures state { IsCacheAfter P.info self.now cache.old cache.new }
    {
        if let Some(module_index) = cache.named.get(&reference.0) {
            return Ok(module_index.0);
        }
        let Some(name) = strings.get(reference) else {
            return Err(ReadError::from(pdb_records::Error::StringNotFound(reference.0)));
        };
        let module_index = self.module_named(name)?;
        cache.named.insert(reference.0, NamedModule(module_index))?;
        Ok(module_index)
    }

    // The index that the module at a module index exports for a number. Its exports are read once.
    fn export_of(
        &self,
        cache: &mut TypeCache<'a>,
        local: u32,
        module_index: usize,
    ) -> Result<u32, ReadError>
        requires is_cache { IsCacheOf P.info self.now cache.old }
        ensures answer { Matches (λ index. index) result (export_of (link_inputs P.info self.now) local module_index) }
        ensures state { IsCacheAfter P.info self.now cache.old cache.new }
    {
        if let Some(table) = cache.exports.get(&module_index) {
            return found_export(local, table.get(local));
        }
        let exports = match self.exports(module_index) {
            Ok(exports) => exports,
            Err(error) => return Err(ReadError::Broken(Part::Exports(module_index), error)),
        };
        let table = ExportTable::new(self.alloc, exports)?;
        let found = table.get(local);
        cache.exports.insert(module_index, table)?;
        found_export(local, found)
    }

    // The index to which an import leads, by the name of the other module and the number there.
    fn import_target(
        &self,
        cache: &mut TypeCache<'a>,
        strings: &Texts<'a>,
        target: (StringRef, u32),
    ) -> Result<u32, ReadError>
        requires is_cache { IsCacheOf P.info self.now cache.old }
        requires strings { self.now.strings ≡ Some strings.now }
        ensures answer { Matches (λ index. index) result
            (import_target (link_inputs P.info self.now) strings.now target) }
        ensures state { IsCacheAfter P.info self.now cache.old cache.new }
    {
        let (reference, local) = target;
        let module_index = self.module_under(cache, strings, reference)?;
        self.export_of(cache, local, module_index)
    }

    // The index to which a cross-module index leads, if the module at a module index uses it.
    fn across(
        &self,
        cache: &mut TypeCache<'a>,
        module_index: usize,
        index: u32,
    ) -> Result<u32, ReadError>
        requires is_cache { IsCacheOf P.info self.now cache.old }
        ensures answer { Matches (λ index. index) result (across (link_inputs P.info self.now) module_index index) }
        ensures state { IsCacheAfter P.info self.now cache.old cache.new }
    {
        let Some(strings) = &self.strings else {
            let refusal = Error::CantResolveCrossModuleRefWithoutStringTable;
            return Err(ReadError::Refused(refusal));
        };
        let imports = match self.imports(module_index) {
            Ok(imports) => imports,
            Err(error) => return Err(ReadError::Broken(Part::Imports(module_index), error)),
        };
        match imports.resolve_import(index) {
            Ok(target) => self.import_target(cache, strings, target),
            Err(error) => Err(ReadError::from(error)),
        }
    }

    // The index to which an index leads, if the module at a module index uses it. An ordinary index leads to itself.
    pub(crate) fn resolve(
        &self,
        cache: &mut TypeCache<'a>,
        module_index: usize,
        index: u32,
    ) -> Result<u32, ReadError>
        requires is_cache { IsCacheOf P.info self.now cache.old }
        ensures answer { Matches (λ index. index) result (resolved (link_inputs P.info self.now) module_index index) }
        ensures state { IsCacheAfter P.info self.now cache.old cache.new }
    {
        if index < CROSS_MODULE {
            return Ok(index);
        }
        self.across(cache, module_index, index)
    }
}
