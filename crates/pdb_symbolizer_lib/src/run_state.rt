//! `RunState`: what a run keeps from one answer to the next, besides files.

use crate::base_hints::BaseHint;
use crate::source_lines::SourceTexts;
use std::alloc::Global;

/// What a run keeps from one answer to the next.
#[derive(Drop)]
pub struct RunState {
    pub hint: BaseHint,
    pub sources: SourceTexts,
    /// Whether a line named a file that can't be opened.
    pub unopened: bool,
}

impl RunState {
    /// The state at the start of a run.
    pub fn new(alloc: Global) -> Self {
        RunState {
            hint: BaseHint::ToBePrinted,
            sources: SourceTexts::new(alloc),
            unopened: false,
        }
    }
}
