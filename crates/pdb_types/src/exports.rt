//! `ExportTable`: a table of a module's exports by number.

ghost use Rattle.std.specs.FinMap.{nat_cmp-IsAntisymmetric};
ghost use Rattle.std.specs.Prelude.{◌≡◌, IfOk};
ghost use Rattle.pdb_records.specs.References.{exported};
ghost use Rattle.pdb_types.specs.TypeCache.{AreExportsOf};
ghost use Rattle.pdb_types.specs.TypeInputs.{LinkInputs};

use crate::ascending::Numbered;
use crate::numbered_table::NumberedTable;
use pdb_records::CrossModuleExports;
use pdb_tables::Once;
use std::alloc::{AllocError, Global};
use std::marker::Model;

impl Numbered for (u32, u32) {
    ghost number_of = { λ export. export.0 };

    fn number(&self) -> u32 {
        self.0
    }
}

// The exports of a module, found by their numbers. The table is made once.
pub(crate) struct ExportTable<'a> {
    exports: NumberedTable<'a, (u32, u32)>,
}

impl<'a> Model for ExportTable<'a> {
    ghost use Rattle.std.specs.Prelude.{List, ℕ};

    ghost Value = { List (ℕ × ℕ) };

    ghost view = { λ t. t.exports };
}

// A table is made once for each module index.
impl Once<usize> for ExportTable<'_> {
    ghost Source = { LinkInputs };

    ghost fits = { AreExportsOf };

    ghost antisymmetric = { nat_cmp-IsAntisymmetric };
}

impl Drop for ExportTable<'_> {
    fn drop(self) {
        let ExportTable { exports: _ } = self;
    }
}

impl<'a> ExportTable<'a> {
    // A table of all exports.
    pub(crate) fn new(alloc: Global, exports: &'a CrossModuleExports) -> Result<Self, AllocError>
        ensures { IfOk result (λ table. table ≡ exports.now) }
    {
        let exports = NumberedTable::new(alloc, &exports.exports)?;
        Ok(ExportTable { exports })
    }

    // The index of the first export with this number.
    pub(crate) fn get(&self, local: u32) -> Option<u32>
        ensures { result ≡ exported local self.now }
    {
        match self.exports.get(local) {
            Some(export) => Some(export.1),
            None => None,
        }
    }
}
