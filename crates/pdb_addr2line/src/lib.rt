//! Turns addresses of a Windows program into functions, files, lines and stacks of inlined calls.
//!
//! It does so over the records of a program database, which come from a reader as a [`pdb::PDB`].
//! [`ContextPdbData`] holds them, and makes a [`Context`] that answers questions:
//!
//! ```
//! let data = ContextPdbData::try_from_pdb(alloc, records)?;
//! let mut context = data.make_context()?;
//! if let Some(found) = context.find_frames(0x1020)? {
//!     // found.start_rva, found.end_rva
//!     for frame in &found.frames {
//!         // frame.function, frame.file, frame.line
//!     }
//! }
//! ```
//!
//! Addresses are relative to where the program is loaded. The name of a procedure is its C++ signature,
//! which a [`TypeFormatter`] prints: [`ContextPdbData::make_context_with_formatter_flags`] chooses how.
#![tactic(auto)]

pub use pdb_records as pdb;

mod answer_laws;
mod caches;
mod calls;
mod context;
mod context_data;
mod function_iter;
mod function_laws;
pub mod laws;
mod lookups;
mod named_functions;
mod next_start;
pub mod parts;
mod run_calls;
mod start_addresses;

pub use calls::{Answer, Call};
pub use context::Context;
pub use context_data::ContextPdbData;
pub use function_iter::FunctionIter;
pub use pdb_errors::{Error, Result};
pub use pdb_frames::{Frame, FunctionFrames};
pub use pdb_function_info::Function;
pub use pdb_functions::ModuleSectionContribution;
pub use pdb_records::ModuleProvider;
pub use pdb_tables::RangeSet;
pub use pdb_type_printer::TypeFormatter;
pub use pdb_types::{IdMap, ItemIndex, ItemMap, TypeFormatterFlags, TypeMap, TypeSizeCache};
