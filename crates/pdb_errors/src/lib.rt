//! The errors of calls, and sets of parts of the records that were found broken.
#![tactic(auto)]

mod error;
mod part_set;

pub use error::{Error, Result};
pub use part_set::{BrokenPart, PartSet};
