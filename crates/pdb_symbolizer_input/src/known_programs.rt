//! `KnownProgram`: a program's image base, its id, and the PDB file that it names.

use crate::file_cache::FileCache;
use crate::run_errors::RunError;
use pdb_identity::{CodeId, CodeView, DebugId, read_program};
use std::alloc::Global;

/// How many bytes a cached program counts as, without the path of its PDB file.
const SIZE: u64 = 1024;

/// What is needed of a program that names its PDB file.
#[derive(Drop)]
pub struct KnownProgram {
    pub image_base: u64,
    pub code_id: CodeId,
    debug_id: DebugId,
    pdb_path: Vec<u8>,
}

/// Programs that earlier lines of the input named.
pub type KnownPrograms = FileCache<KnownProgram>;

impl KnownProgram {
    /// Reads a program from its bytes. `None` if the file isn't a program; an error if the program names no PDB file.
    pub fn of_bytes(alloc: Global, path: &str, bytes: &[u8]) -> Result<Option<Self>, RunError> {
        let program = match read_program(alloc, bytes) {
            Ok(Some(program)) => program,
            Ok(None) => return Ok(None),
            Err(_) => return Err(RunError::want_of_memory()),
        };
        let Some(code_view) = &program.code_view else {
            return Err(RunError::NoPdbFile(format!(in alloc; "{path}: it names no PDB file")?));
        };
        Ok(Some(KnownProgram {
            image_base: program.image_base,
            code_id: program.code_id,
            debug_id: code_view.debug_id,
            pdb_path: Vec::from_slice(alloc, code_view.path)?,
        }))
    }

    /// How many bytes the program counts as in the cache.
    pub fn size(&self) -> u64 {
        SIZE.saturating_add(self.pdb_path.len() as u64)
    }

    /// The program's CodeView record, which names its PDB file.
    pub fn code_view(&self) -> CodeView<'_> {
        CodeView {
            debug_id: self.debug_id,
            path: self.pdb_path.as_slice(),
        }
    }
}
