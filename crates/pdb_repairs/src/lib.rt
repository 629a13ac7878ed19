//! Removes broken parts from a program's records, so that everything else can be answered.
//!
//! Without repairs, lookups return an error if they need a broken part. If a part of the whole program is broken, no
//! lookup is possible at all. A caller that wants as many answers as possible calls [`repair_records`] first. It
//! removes the broken parts, and returns a list of them. If rows of inline sites end early, this is listed too, but the
//! rows before stay.
//!
//! The repaired records and the list are defined by `repaired` and `repairs_of` in specs/Repaired.antt. Each call is
//! proved to follow these definitions, unless memory runs out.
#![tactic(auto)]

mod claims;
mod intervals;
mod module_repairs;
mod overlaps;
mod repairs;
mod retained;
mod row_faults;

pub use repairs::{Repair, repair_module_info, repair_records};
