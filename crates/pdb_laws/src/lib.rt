//! Laws that follow from the definitions of the crates below, and that no code needs.
//!
//! Each function here does nothing. Its contract states a law, which the checker proves for all records. Laws that are
//! next to the code to which they apply are in the modules `laws` of the crates below.
#![tactic(auto)]

pub mod blame;
pub mod circles;
pub mod picks;
pub mod refusals;
