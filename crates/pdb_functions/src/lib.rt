//! Lists the functions of a program, and finds the one that contains a section offset.
//!
//! The tables are made from the records' sections, contributions, public symbols and procedures. A search in them finds
//! the same as a plain scan of the records.
#![tactic(auto)]

mod code_sections;
mod contribution_table;
mod function_matches;
mod global_function_table;
mod global_functions;
pub mod lookup_laws;
mod merged_contributions;
mod module_info;
mod module_info_cache;
mod named_info;
mod procedure_table;
mod procedures;
mod section_table;
mod span_table;

pub use contribution_table::ContributionTable;
pub use function_matches::{FunctionMatch, global_function_in};
pub use global_function_table::GlobalFunctionTable;
pub use global_functions::{GlobalFunction, compute_global_functions};
pub use merged_contributions::{ModuleSectionContribution, compute_section_contributions};
pub use module_info::BasicModuleInfo;
pub use module_info_cache::BasicModuleInfoCache;
pub use procedures::ProcedureSymbolFunction;
pub use section_table::SectionTable;
