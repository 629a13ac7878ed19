//! Records that were read of a file so far, and a check whether they give the same answers as all records.
//!
//! [`KnownRecords`] has the records that were read, and [`is_closed`] says whether an index leads to a record that
//! wasn't. Each function of [`known_answers`], [`part_answers`] and [`part_names`] does nothing: its contract states a
//! law, which the checker proves for all records.
#![tactic(auto)]

mod closedness;
mod entries_behind;
pub mod known_answers;
mod known_records;
pub mod part_answers;
pub mod part_names;

pub use closedness::is_closed;
pub use known_records::{EntriesRead, KnownRecords};
