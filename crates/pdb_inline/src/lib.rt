//! Finds the ranges of a procedure's code that came from inlined bodies, and the stacks that they form.
//!
//! A walk over the procedure's symbols finds the inline sites, where a call was replaced by the callee's body. The rows
//! of each site say which code that is. The ranges of a site also cover the code of the sites inside it. The ranges at
//! one offset form a stack of inlined bodies.
#![tactic(auto)]

mod depth_tables;
pub mod inline_range_laws;
mod inline_ranges;
mod inline_stacks;
mod listed_ranges;
mod missing_rows;
mod procedure_stacks;
mod range_bounds;
mod site_rows;
mod sites;
mod stack_table;

pub use inline_ranges::{InlineRange, inline_ranges_of_procedure};
pub use inline_stacks::inline_stack;
pub use procedure_stacks::ProcedureStacks;
pub use stack_table::StackTable;
