//! `FileNames`: a table of the names of source files by their references.

ghost use Rattle.std.specs.Prelude.{◌≡◌, ◌==◌, ℕ, Some, None, option_map, IfOk, OnOk, if◌then◌else◌};
ghost use Rattle.std.specs.BTreeMap.{get};
ghost use Rattle.std.specs.Option.{option_copied, option_or};
ghost use Rattle.std.specs.Ordering.{nat_cmp};
ghost use Rattle.pdb_frames.specs.SourceFiles.{file_name_of};
ghost use Rattle.pdb_frames.specs.FileNames.{KnowsNames};
ghost use Rattle.pdb_frames.specs.Lines.{file_name};

use crate::copies::again;
use crate::lent_names::LentNames;
use pdb_records::{FileIndex, LineProgram, StringTable};
use pdb_tables::insert_first;
use std::alloc::{AllocError, Global};
use std::borrow::CowStr;
use std::collections::BTreeMap;
use std::marker::Model;

// The strings of a table, by the numbers of their references.
fn names_of(alloc: Global, table: &StringTable) -> Result<BTreeMap<u32, CowStr<'_>>, AllocError>
    ensures { IfOk result (λ names. KnowsNames (Some table.now) names) }
{
    let mut names = BTreeMap::new(alloc);
    for (reference, text) in &table.strings {
        insert_first(&mut names, reference.0, text.to_string_lossy(alloc)?)?;
    }
    Ok(names)
}

/// The names of source files, by their references, in a table that is made once.
///
/// Making the table takes O(n log n) time for n entries, plus linear time for their bytes. Finding a name takes O(log
/// n), and mostly O(1). A name in UTF-8 is borrowed from the records.
pub struct FileNames<'a> {
    strings: Option<&'a StringTable>,
    names: BTreeMap<u32, CowStr<'a>>,
    lent: LentNames<'a>,
}

// Contracts see the table as the string table, if there is one.
impl<'a> Model for FileNames<'a> {
    ghost use Rattle.std.specs.Prelude.{List, Option, ℕ};
    ghost use Rattle.std.specs.Option.{option_copied};
    ghost use Rattle.pdb_records.specs.declared.strings.StringRef.{StringRef};
    ghost use Rattle.pdb_frames.specs.FileNames.{KnowsNames, AreLent};

    ghost Value = { Option (List (StringRef × List ℕ)) };

    ghost view = { λ f. option_copied f.strings };

    ghost invariant = { λ f. record {
      names : KnowsNames (option_copied f.strings) f.names;
      lent : AreLent (option_copied f.strings) f.lent.slots.items;
    } };
}

impl Drop for FileNames<'_> {
    fn drop(self) {
        let FileNames {
            strings: _,
            names: _,
            lent: _,
        } = self;
    }
}

impl<'a> FileNames<'a> {
    /// Makes a table of all strings; empty if there is no string table. `AllocError` if memory runs out.
    pub fn new(alloc: Global, strings: Option<&'a StringTable>) -> Result<Self, AllocError>
        ensures { IfOk result (λ names. names ≡ option_copied strings.entry) }
    {
        let Some(table) = strings else {
            return Ok(FileNames {
                strings: None,
                names: BTreeMap::new(alloc),
                lent: LentNames::none(alloc),
            });
        };
        let names = names_of(alloc, table)?;
        let lent = LentNames::new(alloc, table, &names)?;
        Ok(FileNames {
            strings,
            names,
            lent,
        })
    }

    /// The name of a file of a module. A name in UTF-8 is borrowed from the records. `None` if there is no string
    /// table, if the module has no such file, or if the table has no such string. `AllocError` if memory runs out.
    pub fn name(
        &self,
        line_program: &LineProgram,
        index: FileIndex,
    ) -> Result<Option<CowStr<'a>>, AllocError>
        ensures { IfOk result (λ name. option_map file_name_of name
            ≡ file_name self.now line_program.now index) }
    {
        let Some(file) = line_program.get_file_info(index) else {
            return Ok(None);
        };
        let number = file.name.0;
        if let Some(name) = self.lent.name(number) {
            return Ok(Some(CowStr::Borrowed(name)));
        }
        match self.names.get(&number) {
            Some(name) => Ok(Some(again(name)?)),
            None => Ok(None),
        }
    }
}
