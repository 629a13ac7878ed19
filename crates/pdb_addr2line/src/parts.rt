//! The tables inside a [`Context`](crate::Context), for callers that need only one of them.

pub use pdb_frames::compute_procedure_inline_ranges;
pub use pdb_functions::{
    BasicModuleInfo, BasicModuleInfoCache, ModuleSectionContribution, ProcedureSymbolFunction,
    compute_section_contributions,
};
pub use pdb_inline::{InlineRange, StackTable};
pub use pdb_tables::{Probes, RangeSet, Segment, Segments};
pub use pdb_type_printer::seen::{AlreadySeenError, Seen, SeenError};
pub use pdb_types::{IdMap, ItemIndex, ItemMap, TypeMap, TypeSizeCache};
