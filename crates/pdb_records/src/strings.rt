//! The string table: names of files and modules, by their references.

ghost use Rattle.std.specs.Prelude.{◌≡◌};
ghost use Rattle.std.specs.Option.{option_copied};
ghost use Rattle.pdb_records.specs.Strings.{string_at};

use crate::raw_string::RawString;
use std::marker::Model;

/// The reference of a string in the string table.
#[derive(Clone, Copy, PartialEq, Eq, PartialOrd, Ord, Hash)]
pub struct StringRef(pub u32);

/// The strings to which the records refer, such as names of files and modules.
pub struct StringTable {
    pub strings: Vec<(StringRef, RawString)>,
}

impl Drop for StringTable {
    fn drop(self) {
        let StringTable { strings: _ } = self;
    }
}

impl Model for StringTable {
    ghost use Rattle.std.specs.Prelude.{List, ℕ};
    ghost use Rattle.pdb_records.specs.declared.strings.StringRef.{StringRef};

    ghost Value = { List (StringRef × List ℕ) };

    ghost view = { λ t. t.strings.items };
}

impl StringTable {
    /// The string of the first entry with this reference.
    pub fn get(&self, reference: StringRef) -> Option<&RawString>
        ensures { option_copied result ≡ string_at reference self.now }
    {
        for (key, text) in &self.strings {
            if *key == reference {
                return Some(text);
            }
        }
        None
    }
}
