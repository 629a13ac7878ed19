//! `BasicModuleInfoCache`: caches modules' records and procedures by module index. Each is read once from the provider.

ghost use Rattle.std.specs.Prelude.{◌≡◌, ◌+◌, ◌<◌, ◌≤◌, [], true, Some, IfSome, IfOk, OnOk};
ghost use Rattle.std.specs.Prelude.{length, option_map, slice_get};
ghost use Rattle.std.specs.Borrow.{sem};
ghost use Rattle.std.specs.Io.BufRead.{Rests};
ghost use Rattle.std.specs.Option.{option_copied, option_map_or};
ghost use Rattle.pdb_tables.specs.Pick.{pick};
ghost use Rattle.pdb_tables.specs.Probes.{digits};
ghost use Rattle.pdb_tables.specs.Slots.{held};
ghost use Rattle.pdb_records.specs.Provided.{ProviderInfos};
ghost use Rattle.pdb_functions.specs.FunctionMatches.{procedures_of_module};
ghost use Rattle.pdb_functions.specs.Procedures.{info_procedures, module_procedure};
ghost use Rattle.pdb_functions.specs.Spans.{procedure_covers};
ghost use Rattle.pdb_functions.specs.ModuleInfoCache.{readable_info, IsModuleInfoCache, IsCachedInfo};
ghost use mir.Syntax.{named};

use crate::module_info::BasicModuleInfo;
use crate::named_info::NamedInfo;
use crate::procedures::ProcedureSymbolFunction;
use pdb_records::{Module, ModuleProvider, PdbInternalSectionOffset, RawString};
use pdb_tables::{Probes, make_slot};
use std::alloc::{AllocError, Global};
use std::marker::Model;

// The result of the last search: its module index, and its position among the module's procedures.
#[derive(Clone, Copy)]
struct LastProcedure {
    module_index: usize,
    position: Option<usize>,
}

impl LastProcedure {
    // The position of the result, if it belongs to the module at a module index.
    fn position_in(self, module_index: usize) -> Option<usize> {
        if module_index == self.module_index {
            self.position
        } else {
            None
        }
    }
}

/// A cache of modules' procedures, so that they are read once.
///
/// Each call may pass another list of modules. A cached entry is used only for a module with the name for which it was
/// read.
pub struct BasicModuleInfoCache<'a, P: ModuleProvider> {
    alloc: Global,
    provider: &'a P,
    // The cached entries, by module index.
    cached: Vec<Option<NamedInfo<'a>>>,
    last: LastProcedure,
}

impl<P: ModuleProvider> Drop for BasicModuleInfoCache<'_, P> {
    fn drop(self) {
        let BasicModuleInfoCache {
            alloc: _,
            provider: _,
            cached: _,
            last: _,
        } = self;
    }
}

// Contracts see the provider, from which alone all answers are computed, and the cached entries.
impl<'a, P: ModuleProvider> Model for BasicModuleInfoCache<'a, P> {
    ghost use Rattle.pdb_functions.specs.ModuleInfoCache.{InfoCache, IsModuleInfoCache};

    ghost Value = { InfoCache P };

    ghost view = { λ c. record { provider = c.provider.now; cached = c.cached.items } };

    ghost invariant = { λ c. IsModuleInfoCache (P.info c.provider.now) c.cached.items };
}

// Reads the procedures of the module at a module index, if it has records that can be read.
fn read_info<'a, P: ModuleProvider>(
    alloc: Global,
    provider: &'a P,
    modules: &[Module],
    module_index: usize,
) -> Result<Option<BasicModuleInfo<'a>>, AllocError>
    ensures { IfOk result (λ info. info ≡ readable_info (P.info provider.now) modules.now module_index) }
{
    let Some(module) = modules.get(module_index) else {
        return Ok(None);
    };
    match provider.get_module_info(module_index, module) {
        Ok(Some(info)) => match BasicModuleInfo::try_from_module_info(alloc, info) {
            Ok(info) => Ok(Some(info)),
            Err(error) => {
                error.unless_out_of_memory()?;
                Ok(None)
            }
        },
        _ => Ok(None),
    }
}

// The cached entry at a module index.
fn cached_at<'k, 'a>(
    cached: &'k [Option<NamedInfo<'a>>],
    module_index: usize,
) -> Option<&'k NamedInfo<'a>>
    ensures { option_copied result ≡ held cached.now module_index }
{
    match cached.get(module_index) {
        Some(entry) => entry.as_ref(),
        None => None,
    }
}

// Whether there is a cached entry at a module index, with this name.
fn serves(cached: &[Option<NamedInfo<'_>>], module_index: usize, name: &RawString) -> bool
    ensures { result ≡ true → IsCachedInfo cached.now module_index name.now }
{
    match cached_at(cached, module_index) {
        Some(entry) => entry.name.0 == name.0,
        None => false,
    }
}

// Stores the entry of the module at a module index, in place of an older one.
fn cache_info<'a, P: ModuleProvider>(
    provider: &'a P,
    cached: &mut Vec<Option<NamedInfo<'a>>>,
    modules: &[Module],
    module_index: usize,
    entry: NamedInfo<'a>,
) -> Result<(), AllocError>
    requires is_cache { IsModuleInfoCache (P.info provider.now) cached.old.items }
    requires module_there { slice_get modules.now module_index ≡ Some (record { name = entry.name }) }
    requires info { entry.info ≡ readable_info (P.info provider.now) modules.now module_index }
    ensures is_cache { IsModuleInfoCache (P.info provider.now) cached.new.items }
    ensures cached { OnOk result (IsCachedInfo cached.new.items module_index entry.entry.name) }
{
    make_slot(cached, module_index)?;
    cached[module_index] = Some(entry);
    Ok(())
}

// Makes sure that the entry of a module is cached.
fn cache_info_of<'a, P: ModuleProvider>(
    alloc: Global,
    provider: &'a P,
    cached: &mut Vec<Option<NamedInfo<'a>>>,
    modules: &[Module],
    module_index: usize,
    name: &RawString,
) -> Result<(), AllocError>
    requires is_cache { IsModuleInfoCache (P.info provider.now) cached.old.items }
    requires module_there { slice_get modules.now module_index ≡ Some (record { name = name.now }) }
    ensures is_cache { IsModuleInfoCache (P.info provider.now) cached.new.items }
    ensures cached { OnOk result (IsCachedInfo cached.new.items module_index name.now) }
{
    if serves(cached, module_index, name) {
        return Ok(());
    }
    let info = read_info(alloc, provider, modules, module_index)?;
    let name = name.clone()?;
    cache_info(
        provider,
        cached,
        modules,
        module_index,
        NamedInfo { name, info },
    )
}

impl<'a, P: ModuleProvider> BasicModuleInfoCache<'a, P> {
    ghost use Rattle.pdb_functions.specs.contracts.module_info_cache.BasicModuleInfoCache.{the_row};

    /// An empty cache over a provider of modules' records. It takes no memory.
    pub fn new(alloc: Global, provider: &'a P) -> Self
        ensures { result.provider ≡ provider.now }
    {
        BasicModuleInfoCache {
            alloc,
            provider,
            cached: Vec::new(alloc),
            last: LastProcedure {
                module_index: 0,
                position: None,
            },
        }
    }

    // Makes sure that the entry of the module at a module index is cached, if there is such a module.
    fn learn(&mut self, modules: &[Module], module_index: usize) -> Result<(), AllocError>
        ensures provider { self.new.provider ≡ self.old.provider }
        ensures cached { OnOk result (IfSome (slice_get modules.now module_index)
            (λ m. IsCachedInfo self.new.cached module_index m.name)) }
    {
        let Some(module) = modules.get(module_index) else {
            return Ok(());
        };
        let provider = self.provider;
        cache_info_of(
            self.alloc,
            provider,
            &mut self.cached,
            modules,
            module_index,
            &module.name,
        )
    }

    // The cached procedures of the module at a module index, if there are any.
    fn look_up(&self, modules: &[Module], module_index: usize) -> Option<&BasicModuleInfo<'a>>
        requires cached { IfSome (slice_get modules.now module_index)
            (λ m. IsCachedInfo self.now.cached module_index m.name) }
        ensures { option_copied result ≡ readable_info (P.info self.now.provider) modules.now module_index }
    {
        if module_index >= modules.len() {
            return None;
        }
        match cached_at(&self.cached, module_index) {
            Some(entry) => entry.info.as_ref(),
            None => None,
        }
    }

    /// The procedures of the module at a module index of a list.
    ///
    /// `None` if the module index is after the end of the list, if the provider has no records of the module or returns
    /// a fault, or if the list of the module's symbols ends early.
    ///
    /// `AllocError` if memory runs out. The same call may succeed later.
    pub fn get_basic_module_info(
        &mut self,
        modules: &[Module],
        module_index: usize,
    ) -> Result<Option<&BasicModuleInfo<'a>>, AllocError>
        ensures answer { IfOk result (λ info.
            option_copied info ≡ readable_info (P.info self.old.provider) modules.now module_index) }
        ensures procedures { IfOk result (λ info.
            option_map_or info_procedures (option_copied info) []
            ≡ procedures_of_module (P.info self.old.provider) modules.now module_index) }
        ensures* provider { sem 𝓛 (Rests (the_row (record { mir = named 1; lft = [] }) P.row P.ModuleProvider)
            self.entry (λ last. last.provider ≡ self.old.provider)) }
    {
        self.learn(modules, module_index)?;
        Ok(self.look_up(modules, module_index))
    }

    /// The last-starting procedure, of the module at a module index of a list, that contains a section offset. `None`
    /// also if [`get_basic_module_info`](Self::get_basic_module_info) returns it.
    ///
    /// The result of the last search and the procedure after it are tried first; otherwise there is a binary search.
    /// `probes` counts the entries that are compared: at most five more than the number of the module's procedures has
    /// binary digits. Reading a module that isn't cached is not counted. `AllocError` if memory runs out. The same call
    /// may succeed later.
    pub fn procedure_over(
        &mut self,
        modules: &[Module],
        module_index: usize,
        section_offset: PdbInternalSectionOffset,
        probes: &mut Probes,
    ) -> Result<Option<ProcedureSymbolFunction<'a>>, AllocError>
        ensures answer { IfOk result (λ found. option_map module_procedure found
            ≡ pick (procedure_covers section_offset) (λ p. p.offset.offset)
            (procedures_of_module (P.info self.old.provider) modules.now module_index)) }
        ensures bound { probes.new ≤ probes.old
            + digits (length (procedures_of_module (P.info self.old.provider) modules.now module_index)) + 5 }
        ensures provider { self.new.provider ≡ self.old.provider }
    {
        let mut position = self.last.position_in(module_index);
        let Some(info) = self.get_basic_module_info(modules, module_index)? else {
            return Ok(None);
        };
        let found = info.procedure_near(section_offset, &mut position, probes);
        self.last = LastProcedure {
            module_index,
            position,
        };
        Ok(found)
    }
}
