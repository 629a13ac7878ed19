//! Makes the function info and frames info of a function that was found: its addresses, its name and its frames.
//!
//! A formatter prints the names of procedures and of inlined bodies. [`FunctionNames`] caches each name, so that it is
//! printed once.
#![tactic(auto)]

mod cached_names;
mod cached_signatures;
mod cached_texts;
mod frames;
mod function;
mod function_names;
mod hints;
mod name_keys;
mod name_texts;
mod positions;
mod printed_names;

pub use frames::frames_info;
pub use function::{Function, function_info};
pub use function_names::FunctionNames;
pub use name_texts::symbol_name;
