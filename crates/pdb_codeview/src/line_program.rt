//! Makes the entries of a module's line program: one for each subsection of lines, and for each procedure inside one.

ghost use Rattle.std.specs.Prelude.{◌≡◌, ◌≤◌, ◌++◌, ℕ, List, map, IfOk, OnOk};
ghost use Rattle.pdb_records.specs.declared.lines.LineInfo.{LineInfo};
ghost use Rattle.pdb_codeview.specs.LineProgram.{starts_at, starts_behind, starts_in};
ghost use Rattle.pdb_codeview.specs.LineProgram.{subsection_end, subsection_entry, procedure_entry};
ghost use Rattle.pdb_codeview.specs.LineProgram.{subsection_entries, next_place, entries_of, program_entries};
ghost use Rattle.pdb_codeview.specs.Places.{place, from_last, front};

use crate::line_rows::{begun_rows, begun_rows_before, rows_with_bytes};
use crate::line_subsections::LineSubsection;
use crate::places::{HasPlace, first_of_each_place, place, sort_by_place, walked_to};
use crate::procedure_spans::{ProcedureSpan, RowBounds, row_bounds};
use pdb_records::{LineInfo, Reading, SymbolLines};
use std::alloc::{AllocError, Global};

impl HasPlace for LineSubsection {
    ghost use Rattle.pdb_codeview.specs.Places.{place};

    ghost place_of = { λ subsection. place subsection.offset };

    fn place(&self) -> u64 {
        place(self.offset)
    }
}

fn starts_at(x: u64, procedures: &[RowBounds]) -> bool
    ensures { result ≡ starts_at x procedures.now }
{
    match procedures.first() {
        Some(bounds) => place(bounds.start) == x,
        None => false,
    }
}

fn starts_behind(x: u64, procedures: &[RowBounds]) -> &[RowBounds]
    ensures { result.now ≡ starts_behind x procedures.now }
{
    match procedures.split_first() {
        Some((bounds, others)) if place(bounds.start) <= x => others,
        _ => procedures,
    }
}

fn subsection_end(subsection: &LineSubsection) -> u64
    ensures { result ≡ subsection_end subsection.now }
{
    u64::from(subsection.offset.offset) + u64::from(subsection.size)
}

fn starts_in(subsection: &LineSubsection, next: u64, bounds: RowBounds) -> bool
    ensures { result ≡ starts_in subsection.now next bounds }
{
    bounds.start.section == subsection.offset.section
        && u64::from(bounds.start.offset) < subsection_end(subsection)
        && place(bounds.start) < next
}

// The entry at the start of a subsection. If a procedure starts there too, the entry's first row begins at that start.
fn subsection_entry(
    alloc: Global,
    subsection: &LineSubsection,
    rows: &[LineInfo],
    here: &[RowBounds],
) -> Result<SymbolLines, AllocError>
    ensures { IfOk result (λ entry. entry ≡ subsection_entry subsection.now rows.now here.now) }
{
    let start = subsection.offset.offset;
    let items = if starts_at(place(subsection.offset), here) {
        let over = walked_to(rows, rows, 0, u64::from(start));
        begun_rows(alloc, over, start)?
    } else {
        Vec::from_slice(alloc, rows)?
    };
    Ok(SymbolLines {
        offset: subsection.offset,
        lines: Reading {
            items,
            fault: subsection.rows.fault,
        },
    })
}

// The entry of a procedure. `over` begins with the row that covers its start.
fn procedure_entry(
    alloc: Global,
    subsection: &LineSubsection,
    over: &[LineInfo],
    bounds: RowBounds,
) -> Result<SymbolLines, AllocError>
    ensures { (rows : List LineInfo) → over.now ≡ from_last (λ row. row.offset) bounds.start.offset rows
        → IfOk result (λ entry. entry ≡ procedure_entry subsection.now rows bounds) }
{
    let end = bounds.end.min(subsection_end(subsection));
    let items = begun_rows_before(alloc, over, bounds.start.offset, end)?;
    Ok(SymbolLines {
        offset: bounds.start,
        lines: Reading {
            items,
            fault: subsection.rows.fault,
        },
    })
}

// Appends the entries of the first procedures, as long as they start in the subsection.
fn push_procedure_entries(
    alloc: Global,
    subsection: &LineSubsection,
    rows: &[LineInfo],
    next: u64,
    procedures: &[RowBounds],
    entries: &mut Vec<SymbolLines>,
) -> Result<(), AllocError>
    ensures { OnOk result (entries.new.items ≡ entries.old.items
        ++ map (procedure_entry subsection.now rows.now) (front (starts_in subsection.now next) procedures.now)) }
{
    let mut over = rows;
    let mut asked = 0;
    for &bounds in procedures {
        if !starts_in(subsection, next, bounds) {
            return Ok(());
        }
        let start = u64::from(bounds.start.offset);
        over = walked_to(rows, over, asked, start);
        asked = start;
        entries.push(procedure_entry(alloc, subsection, over, bounds)?)?;
    }
    Ok(())
}

// Appends the entries of a subsection. `here` begins with the last procedure that starts at or before it.
fn push_subsection_entries(
    alloc: Global,
    subsection: &LineSubsection,
    next: u64,
    here: &[RowBounds],
    entries: &mut Vec<SymbolLines>,
) -> Result<(), AllocError>
    ensures { OnOk result (entries.new.items ≡ entries.old.items ++ subsection_entries subsection.now next here.now) }
{
    let rows = rows_with_bytes(alloc, &subsection.rows.items)?;
    entries.push(subsection_entry(alloc, subsection, &rows, here)?)?;
    let behind = starts_behind(place(subsection.offset), here);
    push_procedure_entries(alloc, subsection, &rows, next, behind, entries)
}

// The place where the next subsection starts, or the greatest place if there is none.
fn next_place(subsections: &[LineSubsection]) -> u64
    ensures { result ≡ next_place subsections.now }
{
    match subsections.first() {
        Some(subsection) => place(subsection.offset),
        None => u64::MAX,
    }
}

// The entries of subsections, which are sorted by start, each followed by those of its procedures. Each list is walked
// over once.
fn entries_of(
    alloc: Global,
    procedures: &[RowBounds],
    subsections: &[LineSubsection],
) -> Result<Vec<SymbolLines>, AllocError>
    ensures { IfOk result (λ v. v.items ≡ entries_of procedures.now subsections.now) }
{
    let mut entries = Vec::new(alloc);
    let mut here = procedures;
    let mut asked = 0;
    let mut rest = subsections;
    while let [subsection, others @ ..] = rest {
        let start = place(subsection.offset);
        here = walked_to(procedures, here, asked, start);
        asked = start;
        push_subsection_entries(alloc, subsection, next_place(others), here, &mut entries)?;
        rest = others;
    }
    Ok(entries)
}

/// The entries of a module's line program: one for each subsection of lines, and one for each procedure that starts
/// further on in a subsection. The rows of each procedure are therefore found under its own start.
pub fn program_entries(
    alloc: Global,
    mut subsections: Vec<LineSubsection>,
    procedures: Vec<ProcedureSpan>,
) -> Result<Vec<SymbolLines>, AllocError>
    ensures { IfOk result (λ v. v.items ≡ program_entries subsections.items procedures.items) }
{
    sort_by_place(&mut subsections)?;
    let spans = first_of_each_place(alloc, procedures)?;
    let bounds = row_bounds(alloc, &spans)?;
    entries_of(alloc, &bounds, &subsections)
}
