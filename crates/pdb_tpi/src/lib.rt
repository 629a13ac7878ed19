//! Reads the types and the ids of a PDB file (TPI and IPI): the records of each stream, and the content of each record.
//!
//! The meaning of their bytes is defined in `specs/`. Each call returns this meaning, or that memory ran out.
#![tactic(auto)]

mod aggregate_leaves;
mod contents;
mod id_leaves;
mod index_lists;
mod item_streams;
mod numeric_leaves;
mod primitives;
mod record_window;
mod type_leaves;
mod type_names;
mod type_places;
mod type_records;
mod type_stream_header;

pub use id_leaves::no_ids;
pub use item_streams::ItemIndex;
pub use primitives::primitive_types;
pub use record_window::RecordWindow;
pub use type_places::{TypePlaces, read_items};
