//! Prints C++ signatures of functions, types and ids, and computes the sizes of types.
//!
//! [`TypeFormatter`] prints a signature with one loop over the tasks that are still to be done. So types may be nested
//! as deep as memory allows. Its results equal the definitions, on which there are laws.
#![tactic(auto)]

mod arrays;
mod function_parts;
mod id_names;
mod methods;
mod pointers;
mod referenced_items;
mod signature_printer;
mod turns;
mod type_formatter;
mod type_rules;

pub use pdb_errors::{Error, Result};
pub use pdb_records::ModuleProvider;
pub use pdb_type_texts::{seen, signature_laws};
pub use pdb_types::{IdMap, ItemIndex, ItemMap, TypeFormatterFlags, TypeMap, TypeSizeCache};
pub use type_formatter::TypeFormatter;
