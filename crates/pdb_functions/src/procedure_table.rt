//! `ProcedureTable`: finds the last-starting procedure of a module that contains a section offset.

ghost use Rattle.std.specs.Prelude.{◌≡◌, ◌+◌, ◌*◌, ◌≤◌, true, None, Some, map, option_map, length, IfOk, IfSome};
ghost use Rattle.std.specs.Option.{option_copied};
ghost use Rattle.pdb_tables.specs.Pick.{pick};
ghost use Rattle.pdb_tables.specs.Probes.{digits};
ghost use Rattle.pdb_functions.specs.Procedures.{module_procedure};
ghost use Rattle.pdb_functions.specs.Spans.{procedure_covers};
ghost use Rattle.pdb_functions.specs.Starts.{is_before, StartsAscend};

use crate::procedures::ProcedureSymbolFunction;
use crate::span_table::{Keys, Span, find, key, segments_of};
use pdb_records::PdbInternalSectionOffset;
use pdb_tables::{Probes, Segments};
use std::alloc::{AllocError, Global};
use std::marker::Model;

impl Span for ProcedureSymbolFunction<'_> {
    ghost is_over = { λ section_offset p. procedure_covers section_offset (module_procedure p) };

    fn keys(&self) -> Keys {
        let start = key(self.offset);
        Keys {
            start,
            end: start + u64::from(self.len),
        }
    }
}

// Whether a procedure contains a section offset.
fn covers(procedure: ProcedureSymbolFunction<'_>, section_offset: PdbInternalSectionOffset) -> bool
    ensures { result ≡ procedure_covers section_offset (module_procedure procedure.entry) }
{
    let start = procedure.offset;
    let end = u64::from(start.offset) + u64::from(procedure.len);
    start.section == section_offset.section
        && start.offset <= section_offset.offset
        && u64::from(section_offset.offset) < end
}

// Whether a procedure starts after a section offset; also if there is no procedure.
fn starts_behind(
    procedure: Option<&ProcedureSymbolFunction<'_>>,
    section_offset: PdbInternalSectionOffset,
) -> bool
    ensures { result ≡ true → IfSome (option_copied procedure.entry) (λ p. is_before section_offset p.offset ≡ true) }
{
    match procedure {
        Some(procedure) => section_offset < procedure.offset,
        None => true,
    }
}

// The procedures of a module, sorted by section and start, with a table of the one to pick at each section offset.
#[derive(Drop)]
pub(crate) struct ProcedureTable<'a> {
    procedures: Vec<ProcedureSymbolFunction<'a>>,
    segments: Segments<usize>,
}

// Contracts see a table as the list of procedures.
impl<'a> Model for ProcedureTable<'a> {
    ghost use Rattle.std.specs.Prelude.{◌≡◌, ◌*◌, ◌^◌, ◌<◌, ◌≤◌, List, map, length};
    ghost use Rattle.std.specs.Prelude.{option_map, option_and_then, slice_get};
    ghost use Rattle.pdb_records.specs.declared.addresses.PdbInternalSectionOffset.{PdbInternalSectionOffset};
    ghost use Rattle.pdb_tables.specs.Pick.{pick};
    ghost use Rattle.pdb_tables.specs.Segments.{value_at};
    ghost use Rattle.pdb_functions.specs.Keys.{key};
    ghost use Rattle.pdb_functions.specs.Procedures.{ModuleProcedure, module_procedure};
    ghost use Rattle.pdb_functions.specs.Spans.{procedure_covers};
    ghost use Rattle.pdb_functions.specs.Starts.{StartsAscend};

    ghost Value = { List ModuleProcedure };

    ghost view = { λ t. map module_procedure t.procedures.items };

    ghost invariant = { λ t. record {
      picks : (section_offset : PdbInternalSectionOffset) → section_offset.offset < 2 ^ 32
          → option_map module_procedure
          (option_and_then (slice_get t.procedures.items) (value_at t.segments (key section_offset)))
          ≡ pick (procedure_covers section_offset) (λ p. p.offset.offset) (map module_procedure t.procedures.items);
      ascend : StartsAscend (λ p. p.offset) t.procedures.items;
      at_most_two_each : length t.segments ≤ 2 * length t.procedures.items;
    } };
}

impl<'a> ProcedureTable<'a> {
    // Makes a table of procedures that are sorted by section and start, each start once.
    pub(crate) fn new(
        alloc: Global,
        procedures: Vec<ProcedureSymbolFunction<'a>>,
    ) -> Result<Self, AllocError>
        requires { StartsAscend (λ p. p.offset) procedures.items }
        ensures { IfOk result (λ table. table ≡ map module_procedure procedures.entry.items) }
    {
        let segments = segments_of(alloc, &procedures)?;
        Ok(ProcedureTable {
            procedures,
            segments,
        })
    }

    // The procedures.
    pub(crate) fn as_slice(&self) -> &[ProcedureSymbolFunction<'a>]
        ensures { map module_procedure result.now ≡ self.now }
    {
        &self.procedures
    }

    // The last-starting procedure that contains a section offset, and its position. `probes` counts the entries of the
    // table that are compared.
    fn search(
        &self,
        section_offset: PdbInternalSectionOffset,
        position: &mut Option<usize>,
        probes: &mut Probes,
    ) -> Option<ProcedureSymbolFunction<'a>>
        ensures answer { option_map module_procedure result
            ≡ pick (procedure_covers section_offset) (λ p. p.offset.offset) self.now }
        ensures bound { probes.new ≤ probes.old + digits (length self.now) + 1 }
    {
        find(
            &self.procedures,
            &self.segments,
            section_offset,
            position,
            probes,
        )
    }

    // The procedure at a position, if it is the last-starting one that contains a section offset. This counts as two
    // comparisons: with this procedure and with the next one.
    fn procedure_at(
        &self,
        position: usize,
        section_offset: PdbInternalSectionOffset,
        probes: &mut Probes,
    ) -> Option<ProcedureSymbolFunction<'a>>
        ensures answer { IfSome result (λ p. Some (module_procedure p)
            ≡ pick (procedure_covers section_offset) (λ p. p.offset.offset) self.now) }
        ensures bound { probes.new ≤ probes.old + 2 }
    {
        if position >= self.procedures.len() {
            return None;
        }
        probes.tick();
        probes.tick();
        let procedure = self.procedures[position];
        if covers(procedure, section_offset)
            && starts_behind(self.procedures.get(position + 1), section_offset)
        {
            Some(procedure)
        } else {
            None
        }
    }

    // The last-starting procedure that contains a section offset. If `position` is given, the procedure there is tried
    // first, and then the next one. Afterwards `position` is that of the result. `probes` counts all comparisons.
    pub(crate) fn procedure_near(
        &self,
        section_offset: PdbInternalSectionOffset,
        position: &mut Option<usize>,
        probes: &mut Probes,
    ) -> Option<ProcedureSymbolFunction<'a>>
        ensures answer { option_map module_procedure result
            ≡ pick (procedure_covers section_offset) (λ p. p.offset.offset) self.now }
        ensures bound { probes.new ≤ probes.old + digits (length self.now) + 5 }
        ensures few_without_position { position.old ≡ None → probes.new ≤ probes.old + digits (length self.now) + 1 }
    {
        if let Some(last) = *position {
            if let Some(procedure) = self.procedure_at(last, section_offset, probes) {
                return Some(procedure);
            }
            let next = last.saturating_add(1);
            if let Some(procedure) = self.procedure_at(next, section_offset, probes) {
                *position = Some(next);
                return Some(procedure);
            }
        }
        self.search(section_offset, position, probes)
    }
}
