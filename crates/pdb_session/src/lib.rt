//! Reads a PDB file piece by piece: only the modules, types and ids that answers about addresses depend on.
//!
//! A [`PdbSession`] has the records that were read so far. [`PdbSession::read_for`] reads what is missing for some
//! addresses. A [`SessionContext`] then gives the same answers as a context over all records of the file after repairs.
//!
//! It is proved that the records that were read are a part of all records, for any source that says the bytes of its
//! file. The code that chooses which types and ids to read isn't trusted: a check looks for references to records that
//! weren't read. If it finds any, the rest of the file is read.
#![tactic(auto)]

mod code_owners;
mod definitions;
mod front_records;
mod front_streams;
mod items_read;
mod module_reader;
mod module_reads;
mod reachable_types;
mod read_plan;
mod session;
mod session_context;
mod session_error;
mod type_lists;
mod untold_repairs;
mod whole_calls;

pub use session::{Opened, PdbSession};
pub use session_context::{QuestionError, SessionContext, SessionData};
pub use session_error::SessionError;
