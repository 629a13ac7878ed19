//! `FrameSource`: what a symbol file is written from, such as a session with all records.

ghost use Rattle.std.specs.Prelude.{ℕ, Option, IfOk};
ghost use Rattle.pdb_frames.specs.Frame.{FramesInfo};
ghost use Rattle.pdb_breakpad.specs.FrameSource.{KeepsAnswers};
ghost use Rattle.pdb_breakpad.specs.Pieces.{ArePieces};

use crate::symbol_file_error::SymbolFileError;
use pdb_addr2line::FunctionFrames;
use pdb_change_points::change_points;
use pdb_session::SessionContext;
use std::alloc::Global;

/// Answers the frames at addresses of a program. Each address always has the same answer.
pub trait FrameSource<'a> {
    /// Whether these frames are the answer at an address.
    ghost answers: { Self → ℕ → Option FramesInfo → Type 0 };

    /// The first address of each piece of the program, in ascending order; the first one is 0. All addresses of a piece
    /// have the same answer.
    fn piece_starts(&mut self, alloc: Global) -> Result<Vec<u32>, SymbolFileError>
        ensures pieces { IfOk result (λ starts. ArePieces answers self.new starts.items) }
        ensures inputs { KeepsAnswers answers self.old self.new };

    /// The frames at an address, from the innermost inlined function to the containing function. `None` if no function
    /// is known there.
    fn find_frames(&mut self, address: u32) -> Result<Option<FunctionFrames<'a>>, SymbolFileError>
        ensures answer { IfOk result (λ found. answers self.old address found) }
        ensures inputs { KeepsAnswers answers self.old self.new };

    /// Frees the memory of cached results.
    fn clear_caches(&mut self)
        ensures inputs { KeepsAnswers answers self.old self.new };
}

impl<'a> FrameSource<'a> for SessionContext<'a, '_> {
    ghost use Rattle.pdb_breakpad.specs.SessionAnswers.{IsAnswerOverAll};

    ghost answers = { λ context address answer. IsAnswerOverAll context address answer };

    fn piece_starts(&mut self, alloc: Global) -> Result<Vec<u32>, SymbolFileError> {
        match self.all_records() {
            Some(records) => Ok(change_points(alloc, records)?),
            None => Err(SymbolFileError::NotRead),
        }
    }

    fn find_frames(&mut self, address: u32) -> Result<Option<FunctionFrames<'a>>, SymbolFileError> {
        match SessionContext::find_frames(self, address) {
            Ok(found) => Ok(found),
            Err(fault) => Err(SymbolFileError::from(fault)),
        }
    }

    fn clear_caches(&mut self) {
        SessionContext::clear_caches(self);
    }
}
