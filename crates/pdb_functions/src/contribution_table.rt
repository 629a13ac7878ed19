//! `ContributionTable`: finds the merged contribution that contains a section offset.

ghost use Rattle.std.specs.Prelude.{◌≡◌, ◌+◌, ◌*◌, ◌≤◌, find, length, IfOk};
ghost use Rattle.pdb_tables.specs.Probes.{digits};
ghost use Rattle.pdb_functions.specs.Spans.{contribution_covers};

use crate::merged_contributions::ModuleSectionContribution;
use crate::span_table::{Keys, Span, find, key, segments_of};
use pdb_records::PdbInternalSectionOffset;
use pdb_tables::{Probes, Segments};
use std::alloc::{AllocError, Global};
use std::marker::Model;

impl Span for ModuleSectionContribution {
    ghost is_over = { λ section_offset c. contribution_covers section_offset c };

    fn keys(&self) -> Keys {
        let section = self.section_index;
        let start = PdbInternalSectionOffset {
            section,
            offset: self.start_offset,
        };
        let end = PdbInternalSectionOffset {
            section,
            offset: self.end_offset,
        };
        Keys {
            start: key(start),
            end: key(end),
        }
    }
}

/// A list of contributions, with a table of the first one that contains each section offset.
#[derive(Drop)]
pub struct ContributionTable {
    last_first: Vec<ModuleSectionContribution>,
    segments: Segments<usize>,
}

// Contracts see a table as the list of contributions.
impl Model for ContributionTable {
    ghost use Rattle.std.specs.Prelude.{◌≡◌, ◌*◌, ◌^◌, ◌<◌, ◌≤◌, List, find, length, reverse};
    ghost use Rattle.std.specs.Prelude.{slice_get, option_and_then};
    ghost use Rattle.pdb_records.specs.declared.addresses.PdbInternalSectionOffset.{PdbInternalSectionOffset};
    ghost use Rattle.pdb_tables.specs.Segments.{value_at};
    ghost use Rattle.pdb_functions.specs.declared.merged_contributions.ModuleSectionContribution.{ModuleSectionContribution};
    ghost use Rattle.pdb_functions.specs.Keys.{key};
    ghost use Rattle.pdb_functions.specs.Spans.{contribution_covers};

    ghost Value = { List ModuleSectionContribution };

    ghost view = { λ t. reverse t.last_first.items };

    ghost invariant = { λ t. record {
      firsts : (section_offset : PdbInternalSectionOffset) → section_offset.offset < 2 ^ 32
          → option_and_then (slice_get t.last_first.items) (value_at t.segments (key section_offset))
          ≡ find (contribution_covers section_offset) (reverse t.last_first.items);
      at_most_two_each : length t.segments ≤ 2 * length t.last_first.items;
    } };
}

impl ContributionTable {
    /// Makes a table of contributions, in any order. Takes O(n log n) time for n of them. `AllocError` if memory runs
    /// out.
    pub fn new(
        alloc: Global,
        contributions: Vec<ModuleSectionContribution>,
    ) -> Result<Self, AllocError>
        ensures { IfOk result (λ table. table ≡ contributions.items) }
    {
        let mut last_first = contributions;
        last_first.reverse();
        let segments = segments_of(alloc, &last_first)?;
        Ok(ContributionTable {
            last_first,
            segments,
        })
    }

    /// The first contribution of the list that contains a section offset.
    ///
    /// It is found by a binary search. `probes` counts the entries of the table that are compared: at most one more
    /// than the number of contributions has binary digits.
    pub fn contribution_over(
        &self,
        section_offset: PdbInternalSectionOffset,
        probes: &mut Probes,
    ) -> Option<ModuleSectionContribution>
        ensures answer { result ≡ find (contribution_covers section_offset) self.now }
        ensures bound { probes.new ≤ probes.old + digits (length self.now) + 1 }
    {
        find(
            &self.last_first,
            &self.segments,
            section_offset,
            &mut None,
            probes,
        )
    }
}
