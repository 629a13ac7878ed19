//! Laws on what answers depend on: which part of the records gives the same answers as all of them.
//!
//! Each function here does nothing. Its contract states a law, which the checker proves for all records.
#![tactic(auto)]

pub mod printing;
pub mod type_chains;
