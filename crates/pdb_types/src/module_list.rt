//! `ModuleList`: the list of modules, with a table by name.

ghost use Rattle.std.specs.Prelude.{◌≡◌, ℕ, List, Some, IfOk, OnOk, string_bytes, if◌then◌else◌};
ghost use Rattle.std.specs.BTreeMap.{get_by_text};
ghost use Rattle.std.specs.Str.{bytes_eq, str_to_ascii_lowercase};
ghost use Rattle.pdb_records.specs.Names.{lossy};
ghost use Rattle.pdb_types.specs.ModuleNames.{has_lower_name, last_position_from};

use pdb_records::{Module, RawString};
use std::alloc::{AllocError, Global};
use std::collections::BTreeMap;
use std::marker::Model;

// The modules of a program, with a table by name that is made once.
#[derive(Drop)]
pub(crate) struct ModuleList {
    modules: Vec<Module>,
    positions: BTreeMap<String, usize>,
}

impl Model for ModuleList {
    ghost use Rattle.std.specs.Prelude.{List};
    ghost use Rattle.pdb_records.specs.declared.debug_information.Module.{Module};
    ghost use Rattle.pdb_types.specs.ModuleNames.{KnowsPositions};

    ghost Value = { List Module };

    ghost view = { λ l. l.modules.items };

    ghost invariant = { λ l. KnowsPositions l.modules.items l.positions };
}

// A name as text, with its ASCII letters in lower case.
pub(crate) fn lower_case(alloc: Global, name: &RawString) -> Result<String, AllocError>
    ensures { IfOk result (λ text. string_bytes text ≡ str_to_ascii_lowercase (lossy name.now)) }
{
    let mut text = name.to_string_lossy(alloc)?.into_owned(alloc)?;
    text.make_ascii_lowercase();
    Ok(text)
}

// Stores a module index under the module's name, in place of an earlier one.
fn put(
    positions: &mut BTreeMap<String, usize>,
    lower_name: String,
    module_index: usize,
) -> Result<(), AllocError>
    ensures { OnOk result ((lower : List ℕ) → get_by_text positions.new lower
        ≡ (if bytes_eq (string_bytes lower_name) lower then Some module_index else get_by_text positions.old lower)) }
{
    positions.insert(lower_name, module_index)?;
    Ok(())
}

impl ModuleList {
    // The modules, with a table of their names. If several have the same name, the last one is found.
    pub(crate) fn new(alloc: Global, modules: Vec<Module>) -> Result<Self, AllocError>
        ensures { IfOk result (λ list. list ≡ modules.items) }
    {
        let mut positions = BTreeMap::new(alloc);
        for (module_index, module) in modules.iter().enumerate() {
            let lower_name = lower_case(alloc, &module.name)?;
            put(&mut positions, lower_name, module_index)?;
        }
        Ok(ModuleList { modules, positions })
    }

    // The modules in their order.
    pub(crate) fn modules(&self) -> &[Module]
        ensures { result.now ≡ self.now }
    {
        &self.modules
    }

    // The greatest module index with this name in lower case.
    pub(crate) fn last_named(&self, lower_name: &str) -> Option<usize>
        ensures { result ≡ last_position_from 0 (has_lower_name lower_name.now) self.now }
    {
        match self.positions.get(lower_name) {
            Some(module_index) => Some(*module_index),
            None => None,
        }
    }
}
