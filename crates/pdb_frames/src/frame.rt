//! `Frame` and `FunctionFrames`: the functions, files and lines at an address, and copies of them.

ghost use Rattle.std.specs.Prelude.{◌≡◌, IfOk};

use crate::copies::{copy_of_file, copy_of_name};
use std::alloc::{AllocError, Global};
use std::borrow::CowStr;
use std::marker::Model;

/// A function at an address: the one that was called, or one that was inlined there.
#[derive(Drop)]
pub struct Frame<'a> {
    /// The function's name, if it is known. That of a procedure is its signature, according to the formatter's flags.
    /// That of a public symbol may be decorated.
    pub function: Option<String>,
    /// The name of the source file of the code, if it is known. It is borrowed from the records if it is UTF-8 there.
    pub file: Option<CowStr<'a>>,
    /// The line in that file, if it is known.
    pub line: Option<u32>,
}

impl<'a> Model for Frame<'a> {
    ghost use Rattle.std.specs.Prelude.{option_map, string_bytes};
    ghost use Rattle.pdb_frames.specs.Frame.{FrameInfo};
    ghost use Rattle.pdb_frames.specs.SourceFiles.{file_name_of};

    ghost Value = { FrameInfo };

    ghost view = { λ f. record {
      function = option_map string_bytes f.function;
      file = option_map file_name_of f.file;
      line = f.line;
    } };
}

/// A function's addresses, and its frames at an address in its code.
#[derive(Drop)]
pub struct FunctionFrames<'a> {
    /// The start of the function, relative to where the program is loaded.
    pub start_rva: u32,
    /// The address just after the function, if it is known and fits 32 bits.
    pub end_rva: Option<u32>,
    /// The frames: the innermost inlined body first, and the containing function last.
    pub frames: Vec<Frame<'a>>,
}

impl<'a> Model for FunctionFrames<'a> {
    ghost use Rattle.pdb_frames.specs.Frame.{FramesInfo};

    ghost Value = { FramesInfo };

    ghost view = { λ f. record { start_rva = f.start_rva; end_rva = f.end_rva; frames = f.frames.items } };
}

// Copies of frames.
fn copies_of<'a>(alloc: Global, frames: &[Frame<'a>]) -> Result<Vec<Frame<'a>>, AllocError>
    ensures { IfOk result (λ v. v.items ≡ frames.now) }
{
    let mut copies = Vec::with_capacity(alloc, frames.len())?;
    for frame in frames {
        copies.push(frame.clone()?)?;
    }
    Ok(copies)
}

impl<'a> Frame<'a> {
    /// A copy of the frame.
    pub fn clone(&self) -> Result<Self, AllocError>
        ensures { IfOk result (λ f. f ≡ self.now) }
    {
        Ok(Frame {
            function: copy_of_name(&self.function)?,
            file: copy_of_file(&self.file)?,
            line: self.line,
        })
    }
}

impl<'a> FunctionFrames<'a> {
    /// A copy of the frames, with the same addresses.
    pub fn clone(&self) -> Result<Self, AllocError>
        ensures { IfOk result (λ f. f ≡ self.now) }
    {
        Ok(FunctionFrames {
            start_rva: self.start_rva,
            end_rva: self.end_rva,
            frames: copies_of(*self.frames.allocator(), &self.frames)?,
        })
    }
}
