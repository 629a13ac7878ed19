//! `Texts`: a table of the strings of the string table by reference.

ghost use Rattle.std.specs.Prelude.{◌≡◌, IfOk};
ghost use Rattle.std.specs.Option.{option_copied};
ghost use Rattle.pdb_records.specs.Strings.{string_at};

use crate::ascending::Numbered;
use crate::numbered_table::NumberedTable;
use pdb_records::{RawString, StringRef, StringTable};
use std::alloc::{AllocError, Global};
use std::marker::Model;

impl Numbered for (StringRef, RawString) {
    ghost number_of = { λ entry. entry.0.0 };

    fn number(&self) -> u32 {
        self.0.0
    }
}

// The strings of the string table, found by reference. The table is made once.
pub(crate) struct Texts<'a> {
    strings: NumberedTable<'a, (StringRef, RawString)>,
}

impl<'a> Model for Texts<'a> {
    ghost use Rattle.std.specs.Prelude.{List, ℕ};
    ghost use Rattle.pdb_records.specs.declared.strings.StringRef.{StringRef};

    ghost Value = { List (StringRef × List ℕ) };

    ghost view = { λ t. t.strings };
}

impl Drop for Texts<'_> {
    fn drop(self) {
        let Texts { strings: _ } = self;
    }
}

impl<'a> Texts<'a> {
    // Makes a table of all strings.
    pub(crate) fn new(alloc: Global, strings: &'a StringTable) -> Result<Self, AllocError>
        ensures { IfOk result (λ texts. texts ≡ strings.now) }
    {
        let strings = NumberedTable::new(alloc, &strings.strings)?;
        Ok(Texts { strings })
    }

    // The string of the first entry with this reference.
    pub(crate) fn get(&self, reference: StringRef) -> Option<&'a RawString>
        ensures { option_copied result ≡ string_at reference self.now }
    {
        match self.strings.get(reference.0) {
            Some((_, text)) => Some(text),
            None => None,
        }
    }
}
