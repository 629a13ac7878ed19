//! Finds types and ids by their index, in one module or across modules, and the sizes of types.
//!
//! [`TypeInputs`] is the data from which answers about types are computed; it is only read. [`TypeCache`] is what was
//! found so far. They are for the crates above, whose types combine the two.
#![tactic(auto)]

mod aggregates;
mod ascending;
mod cached_entries;
mod exports;
mod failed_parts;
mod flags;
mod forward_references;
mod forward_sizes;
mod item_map;
mod item_reading;
mod module_list;
mod numbered_table;
mod read_error;
mod resolution;
pub mod size_laws;
mod sizes;
mod texts;
mod type_cache;
mod type_inputs;
mod type_sizes;

pub use failed_parts::FailedParts;
pub use flags::TypeFormatterFlags;
pub use forward_references::TypeSizeCache;
pub use item_map::{IdMap, ItemIndex, ItemMap, TypeMap};
pub use read_error::{Part, ReadError};
pub use type_cache::TypeCache;
pub use type_inputs::TypeInputs;
pub use type_sizes::TypeSize;
