//! Laws on repairs of records: on repaired records, and on the repairs that a session returns.
//!
//! Each function here does nothing. Its contract states a law, which the checker proves for all records.
#![tactic(auto)]

pub mod repaired_frames;
pub mod returned_repairs;
