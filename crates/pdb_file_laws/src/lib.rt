//! Laws on the records of PDB files, which follow from the definitions of the crates below.
//!
//! Each function here does nothing. Its contract states a law, which the checker proves for all files.
#![tactic(auto)]

pub mod fronts;
pub mod module_laws;
pub mod stream_laws;
