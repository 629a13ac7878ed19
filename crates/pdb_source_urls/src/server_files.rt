//! `ServerFiles`: the source files of source server data, with a table by name.

ghost use Rattle.std.specs.Prelude.{◌≡◌, ◌∷◌, ◌++◌, [], IfOk, OnErr, OnOk, option_map, slice_get};
ghost use Rattle.std.specs.Str.{str_to_ascii_lowercase};
ghost use Rattle.pdb_source_urls.specs.TextCuts.{first_field};

use crate::path_names::lower_case;
use crate::text_cuts::first_field;
use pdb_tables::insert_first;
use std::alloc::{AllocError, Global};
use std::collections::BTreeMap;
use std::marker::Model;

/// The source files of source server data.
///
/// There may be 10,000 lines, and each frame asks for a file. So the lines have a table by name.
#[derive(Drop)]
pub(crate) struct ServerFiles {
    /// A line has fields with a `*` between them. The first field is the name of the file.
    lines: Vec<Vec<u8>>,
    /// The position of the first line of each name, by the name in lower case.
    positions: BTreeMap<Vec<u8>, usize>,
}

impl Model for ServerFiles {
    ghost use Rattle.std.specs.Prelude.{List};
    ghost use Rattle.pdb_source_urls.specs.ServerFiles.{File, KnowsFirsts, files_of};

    ghost Value = { List File };

    ghost view = { λ files. files_of files.lines.items };

    ghost invariant = { λ files. KnowsFirsts files.positions (files_of files.lines.items) };
}

impl ServerFiles {
    ghost use Rattle.pdb_source_urls.specs.ServerFiles.{file_of, first_position};
    ghost use Rattle.pdb_source_urls.specs.ServerUrls.{file_line};

    /// No source files.
    pub(crate) fn new(alloc: Global) -> Self
        ensures { result ≡ [] }
    {
        ServerFiles {
            lines: Vec::new(alloc),
            positions: BTreeMap::new(alloc),
        }
    }

    /// Adds the source file of a line.
    pub(crate) fn push(&mut self, line: &[u8]) -> Result<(), AllocError>
        ensures state { OnOk result (self.new ≡ self.old ++ file_of line.now ∷ []) }
        ensures unchanged_if_refused { OnErr result (self.new ≡ self.old) }
    {
        let alloc = *self.lines.allocator();
        let lower_name = lower_case(alloc, first_field(line))?;
        let line = Vec::from_slice(alloc, line)?;
        self.push_line(lower_name, line)
    }

    // Adds a line to the list, and its name to the table.
    fn push_line(&mut self, lower_name: Vec<u8>, line: Vec<u8>) -> Result<(), AllocError>
        requires { lower_name.items ≡ str_to_ascii_lowercase (first_field line.items) }
        ensures state { OnOk result (self.new ≡ self.old ++ file_of line.items ∷ []) }
        ensures unchanged_if_refused { OnErr result (self.new ≡ self.old) }
    {
        let position = self.lines.len();
        self.lines.push(line)?;
        match insert_first(&mut self.positions, lower_name, position) {
            Ok(()) => Ok(()),
            Err(error) => {
                self.lines.truncate(position);
                Err(error)
            }
        }
    }

    /// The line of the first source file of this name.
    #[tactic(auto, using(crate::proofs::ServerFileLemmas::file_line_by_position))]
    pub(crate) fn line(&self, alloc: Global, name: &str) -> Result<Option<&[u8]>, AllocError>
        ensures { IfOk result (λ line. option_map (λ line. line.now) line ≡ file_line name.now self.now) }
    {
        match self.position_of(alloc, name)? {
            Some(position) => Ok(self.line_at(position)),
            None => Ok(None),
        }
    }

    // The position of the first source file of this name.
    fn position_of(&self, alloc: Global, name: &str) -> Result<Option<usize>, AllocError>
        ensures { IfOk result (λ found. found ≡ first_position (str_to_ascii_lowercase name.now) self.now) }
    {
        let lower_name = lower_case(alloc, name.as_bytes())?;
        Ok(self.positions.get(&lower_name).copied())
    }

    fn line_at(&self, position: usize) -> Option<&[u8]>
        ensures { option_map (λ line. line.now) result ≡ option_map (λ file. file.line) (slice_get self.now position) }
    {
        match self.lines.get(position) {
            Some(line) => Some(line.as_slice()),
            None => None,
        }
    }
}
