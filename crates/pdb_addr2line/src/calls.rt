//! `Call` and `Answer`: questions to a context as values, and the answers to them.

use pdb_errors::Result;
use pdb_frames::FunctionFrames;
use pdb_function_info::Function;
use pdb_records::{IdIndex, TypeIndex};

/// A question to a [`Context`](crate::Context). Module indices are those of its formatter's list.
#[derive(Clone, Copy)]
pub enum Call<'n> {
    /// [`Context::find_function`](crate::Context::find_function) of an address.
    FindFunction(u32),
    /// [`Context::find_frames`](crate::Context::find_frames) of an address.
    FindFrames(u32),
    /// All functions of the program, as [`Context::functions`](crate::Context::functions) answers them.
    Functions,
    /// [`Context::function_count`](crate::Context::function_count).
    FunctionCount,
    /// The size of a type in bytes. Its index is one that the module at this module index uses.
    TypeSize(usize, TypeIndex),
    /// The signature of a function with this name and type. The type's index is one that the module at this module
    /// index uses.
    FormatFunction(&'n str, usize, TypeIndex),
    /// The text of an id. Its index is one that the module at this module index uses.
    FormatId(usize, IdIndex),
}

/// The answer of a [`Context`](crate::Context) to a [`Call`]. It never contains
/// [`Error::OutOfMemory`](crate::Error::OutOfMemory).
#[derive(Drop)]
pub enum Answer<'a> {
    /// The answer to [`Call::FindFunction`].
    Function(Option<Function>),
    /// The answer to [`Call::FindFrames`].
    Frames(Result<Option<FunctionFrames<'a>>>),
    /// The answer to [`Call::Functions`], sorted by start.
    Functions(Vec<Function>),
    /// The answer to [`Call::FunctionCount`].
    Count(usize),
    /// The answer to [`Call::TypeSize`], in bytes.
    Size(u64),
    /// The answer to [`Call::FormatFunction`] and [`Call::FormatId`].
    Text(Result<String>),
}
