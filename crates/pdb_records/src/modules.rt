//! The records of one module, with its imports from other modules and exports to them.

ghost use Rattle.std.specs.Prelude.{◌≡◌};
ghost use Rattle.pdb_records.specs.References.{imported, exported};

use crate::error::{Error, StreamError};
use crate::ids::IdIndex;
use crate::lines::LineProgram;
use crate::reading::Reading;
use crate::strings::StringRef;
use crate::symbols::Symbol;
use std::marker::Model;

// The number of low bits of an import's index: a position among the imports from one module.
const LOCAL_BITS: u32 = 20;

// The number of bits above these: a position among the modules from which this one imports.
const MODULE_BITS: u32 = 11;

/// The records of one module.
pub struct ModuleInfo {
    pub symbols: Reading<Symbol>,
    pub line_program: Result<LineProgram, StreamError>,
    /// The functions that are inlined in the module's code.
    pub inlinees: Reading<Inlinee>,
    pub imports: Result<CrossModuleImports, StreamError>,
    pub exports: Result<CrossModuleExports, StreamError>,
}

impl Drop for ModuleInfo {
    fn drop(self) {
        let ModuleInfo {
            symbols: _,
            line_program: _,
            inlinees: _,
            imports: _,
            exports: _,
        } = self;
    }
}

/// A function that is inlined in a module's code.
#[derive(Clone, Copy)]
pub struct Inlinee {
    pub index: IdIndex,
}

/// The imports of a module from others.
pub struct CrossModuleImports {
    pub modules: Vec<ImportedModule>,
}

impl Drop for CrossModuleImports {
    fn drop(self) {
        let CrossModuleImports { modules: _ } = self;
    }
}

impl Model for CrossModuleImports {
    ghost use Rattle.std.specs.Prelude.{List};
    ghost use Rattle.pdb_records.specs.Imports.{Imported};

    ghost Value = { List Imported };

    ghost view = { λ i. i.modules.items };
}

/// The imports of a module from one other module.
pub struct ImportedModule {
    /// The reference of the other module's name in the string table.
    pub module: StringRef,
    /// The numbers for which the other module exports them.
    pub locals: Vec<u32>,
}

impl Drop for ImportedModule {
    fn drop(self) {
        let ImportedModule {
            module: _,
            locals: _,
        } = self;
    }
}

impl Model for ImportedModule {
    ghost use Rattle.pdb_records.specs.Imports.{Imported};

    ghost Value = { Imported };

    ghost view = { λ i. record { module_name = i.«module»; locals = i.locals.items } };
}

/// The exports of a module to others: pairs of a number and the index of a type or id.
pub struct CrossModuleExports {
    pub exports: Vec<(u32, u32)>,
}

impl Drop for CrossModuleExports {
    fn drop(self) {
        let CrossModuleExports { exports: _ } = self;
    }
}

impl Model for CrossModuleExports {
    ghost use Rattle.std.specs.Prelude.{List, ℕ};

    ghost Value = { List (ℕ × ℕ) };

    ghost view = { λ e. e.exports.items };
}

impl CrossModuleImports {
    /// The name of the module from which an index is imported, and the number for which that module exports it.
    ///
    /// Bits 20 to 30 of the index are a position in `modules`, and bits 0 to 19 one in its `locals`. If either doesn't
    /// exist, the result is [`Error::CrossModuleRefNotFound`] with the whole index.
    pub fn resolve_import(&self, index: u32) -> Result<(StringRef, u32), Error>
        ensures { result ≡ imported self.now index }
    {
        let module = (index >> LOCAL_BITS) as usize % (1 << MODULE_BITS);
        let local = index as usize % (1 << LOCAL_BITS);
        let missing = Err(Error::CrossModuleRefNotFound(index));
        let Some(from) = self.modules.get(module) else {
            return missing;
        };
        match from.locals.get(local) {
            Some(number) => Ok((from.module, *number)),
            None => missing,
        }
    }
}

impl CrossModuleExports {
    /// The index of the first export with this number.
    pub fn resolve_import(&self, local: u32) -> Option<u32>
        ensures { result ≡ exported local self.now }
    {
        for &(number, global) in &self.exports {
            if number == local {
                return Some(global);
            }
        }
        None
    }
}
