//! Readers for the parts of a records file: lists, symbols, lines, types, ids, and all of them together.
//!
//! The records of modules may be in other files; the crate above inserts them.
//!
//! Each object of the format has a definition in `specs/`, and a reader here in a file of its subject: an `impl` of
//! [`FromJson`] for the record that it describes. They are in one crate, because a trait can be implemented for another
//! crate's type only in the crate of the trait.
#![tactic(auto)]

mod all_records;
mod debug_information;
mod ids;
mod items;
mod lines;
mod members;
mod modules;
mod name_values;
mod numbers;
mod sections;
mod strings;
mod symbols;
mod types;

pub use all_records::shared_records;
pub use debug_information::MACHINES;
pub use members::{FromJson, element, member};
pub use name_values::Text;
pub use types::{CLASS_KINDS, POINTER_MODES, PRIMITIVE_KINDS};
