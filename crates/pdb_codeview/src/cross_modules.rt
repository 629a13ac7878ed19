//! Reads the lists of a module's imports from other modules and exports to them.

ghost use Rattle.std.specs.Prelude.{◌≡◌};
ghost use Rattle.pdb_msf.specs.Faults.{Gives};
ghost use Rattle.pdb_codeview.specs.CrossModules.{exports, imports};

use pdb_msf::faults::Fault;
use pdb_msf::{Bytes, ItemReader, read_all_items, take_numbers, u32_at};
use pdb_records::{CrossModuleExports, CrossModuleImports, ImportedModule, StringRef};
use std::alloc::Global;

/// The size of an export in bytes.
const EXPORT: usize = 8;

/// Reads a module's imports.
pub fn read_imports(alloc: Global, bytes: &[u8]) -> Result<CrossModuleImports, Fault>
    ensures { Gives (λ read. read) result (imports bytes.now) }
{
    let modules = read_all_items(alloc, &Imports { alloc }, bytes)?;
    Ok(CrossModuleImports { modules })
}

/// Reads the imports from one module each.
#[derive(Drop)]
struct Imports {
    alloc: Global,
}

impl<'a> ItemReader<'a> for Imports {
    type Item = ImportedModule;

    ghost use Rattle.pdb_codeview.specs.CrossModules.{first_import};

    ghost first = { λ _. first_import };

    #[tactic(auto, unfolding(pdb_msf::specs::NumberLists::listed))]
    fn take(&self, rest: &mut Bytes<'a>) -> Result<ImportedModule, Fault> {
        let module = StringRef(rest.u32()?);
        let count = rest.u32()? as usize;
        let locals = take_numbers(self.alloc, rest, count)?;
        Ok(ImportedModule { module, locals })
    }
}

/// Reads a module's exports.
pub fn read_exports(alloc: Global, bytes: &[u8]) -> Result<CrossModuleExports, Fault>
    ensures { Gives (λ read. read) result (exports bytes.now) }
{
    let exports = read_all_items(alloc, &Exports, bytes)?;
    Ok(CrossModuleExports { exports })
}

/// Reads exports, which are pairs of a local and a global index.
struct Exports;

impl<'a> ItemReader<'a> for Exports {
    type Item = (u32, u32);

    ghost use Rattle.pdb_codeview.specs.CrossModules.{first_export};

    ghost first = { λ _. first_export };

    fn take(&self, rest: &mut Bytes<'a>) -> Result<(u32, u32), Fault> {
        let pair = rest.take(EXPORT)?;
        Ok((u32_at(pair, 0), u32_at(pair, 4)))
    }
}
