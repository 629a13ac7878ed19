//! Contexts and formatters made from parts, and a provider that counts.

use pdb_addr2line::pdb::{Module, ModuleInfo, PDB, StreamError};
use pdb_addr2line::{Context, ModuleProvider, TypeFormatter, TypeFormatterFlags};
use std::alloc::{AllocError, Global};
use std::cell::Cell;

/// A provider that counts the calls to another one.
#[derive(Drop)]
pub(crate) struct Counting<'p, P: ModuleProvider> {
    pub(crate) provider: &'p P,
    pub(crate) asked: Cell<u32>,
}

impl<'p, P: ModuleProvider> ModuleProvider for Counting<'p, P> {
    ghost info = { λ counting. P.info counting.provider.now };

    fn get_module_info(
        &self,
        module_index: usize,
        module: &Module,
    ) -> Result<Option<&ModuleInfo>, StreamError> {
        self.asked.set(self.asked.get().saturating_add(1));
        self.provider.get_module_info(module_index, module)
    }
}

/// A context over these records, with this provider of their modules and this formatter.
pub(crate) fn context_of<'a, P: ModuleProvider>(
    alloc: Global,
    provider: &'a P,
    pdb: &'a PDB,
    formatter: TypeFormatter<'a, P>,
) -> Option<Context<'a, P>> {
    let (Ok(debug), Ok(symbols), Ok(address_map), Ok(Some(sections))) = (
        &pdb.debug_information,
        &pdb.global_symbols,
        &pdb.address_map,
        &pdb.sections,
    ) else {
        return None;
    };
    let strings = pdb.string_table.as_ref().ok();
    Context::new_from_parts(
        alloc,
        provider,
        sections,
        address_map,
        symbols,
        strings,
        debug,
        formatter,
    )
    .ok()
}

/// A copy of the list of modules.
fn copies(alloc: Global, modules: &[Module]) -> Result<Vec<Module>, AllocError> {
    let mut copies = Vec::new(alloc);
    for module in modules {
        copies.push(module.clone()?)?;
    }
    Ok(copies)
}

/// A formatter over these records, with this provider of their modules.
fn formatter_of<'a, P: ModuleProvider>(
    alloc: Global,
    provider: &'a P,
    pdb: &'a PDB,
) -> Option<TypeFormatter<'a, P>> {
    let (Ok(debug), Ok(types), Ok(ids)) = (
        &pdb.debug_information,
        &pdb.type_information,
        &pdb.id_information,
    ) else {
        return None;
    };
    let modules = copies(alloc, &debug.modules.items).ok()?;
    let strings = pdb.string_table.as_ref().ok();
    let flags = TypeFormatterFlags::default();
    TypeFormatter::new_from_parts(alloc, provider, modules, debug, types, ids, strings, flags).ok()
}

/// A context over these records, with this provider of their modules.
pub(crate) fn context_over<'a, P: ModuleProvider>(
    alloc: Global,
    provider: &'a P,
    pdb: &'a PDB,
) -> Option<Context<'a, P>> {
    let formatter = formatter_of(alloc, provider, pdb)?;
    context_of(alloc, provider, pdb, formatter)
}
