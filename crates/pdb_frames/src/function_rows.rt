//! `FunctionRows`: the line rows of a function sorted by offset, for a binary search.

ghost use Rattle.std.specs.Prelude.{◌≡◌, ◌+◌, ◌≤◌, ℕ, length, IfOk};
ghost use Rattle.std.specs.Option.{option_copied};
ghost use Rattle.pdb_tables.specs.Probes.{digits};
ghost use Rattle.pdb_records.specs.LinePrograms.{Lines};
ghost use Rattle.pdb_records.specs.Lines.{lines_at};
ghost use Rattle.pdb_records.specs.declared.addresses.PdbInternalSectionOffset.{PdbInternalSectionOffset};
ghost use Rattle.pdb_frames.specs.FunctionRows.{OffsetsAscend, row_in};
ghost use Rattle.pdb_frames.specs.Lines.{row_over, function_row};

use pdb_errors::{Error, Result};
use pdb_records::{LineInfo, Reading, StreamError};
use pdb_tables::{Keyed, Probes, first_of_each_key, neighbours_of};
use std::alloc::{AllocError, Global};
use std::marker::Model;

// A row, sorted by its offset.
#[derive(Clone, Copy, Drop)]
struct Row(LineInfo);

// Contracts see it as the row in the records.
impl Model for Row {
    ghost use Rattle.pdb_records.specs.declared.lines.LineInfo.{LineInfo};

    ghost Value = { LineInfo };

    ghost view = { λ row. row.0 };

    ghost inverse = { λ info. record { 0 = info } };
}

impl Keyed for Row {
    type Key = u32;

    ghost key_of = { λ row. row.offset };

    fn key(&self) -> u32 {
        self.0.offset
    }
}

// The rows, in file order.
fn listed(alloc: Global, rows: &[LineInfo]) -> Result<Vec<Row>, AllocError>
    ensures { IfOk result (λ v. v.items ≡ rows.now) }
{
    let mut all = Vec::with_capacity(alloc, rows.len())?;
    for &row in rows {
        all.push(Row(row))?;
    }
    Ok(all)
}

// The rows sorted by offset. Of several rows at the same offset, the first one in the file is kept.
#[tactic(auto, using(crate::proofs::RowLemmas::firsts_ascend, crate::proofs::RowLemmas::row_over_firsts))]
fn first_of_each_offset(alloc: Global, rows: &[LineInfo]) -> Result<Vec<Row>, AllocError>
    ensures ascend { IfOk result (λ v. OffsetsAscend v.items) }
    ensures over { IfOk result (λ v. (x : ℕ) → row_over v.items x ≡ row_over rows.now x) }
{
    let all = listed(alloc, rows)?;
    let firsts = first_of_each_key(alloc, all)?;
    Ok(firsts)
}

// The line rows of a function, sorted by offset. Of several rows at the same offset, the first one in the file is kept.
#[derive(Drop)]
pub(crate) struct FunctionRows {
    rows: Vec<Row>,
    fault: Option<StreamError>,
}

// Contracts see the rows as a reading.
impl Model for FunctionRows {
    ghost use Rattle.pdb_records.specs.Readings.{Read};
    ghost use Rattle.pdb_records.specs.declared.lines.LineInfo.{LineInfo};
    ghost use Rattle.pdb_frames.specs.FunctionRows.{OffsetsAscend};

    ghost Value = { Read LineInfo };

    ghost view = { λ f. record { items = f.rows.items; fault = f.fault } };

    ghost invariant = { λ f. OffsetsAscend f.rows.items };
}

impl FunctionRows {
    // The rows that a line program has for a function, if it has any. If they end early, none are kept.
    pub(crate) fn new(alloc: Global, read: Option<&Reading<LineInfo>>) -> Result<Self, AllocError>
        ensures { IfOk result (λ counted. (program : Lines) (start : PdbInternalSectionOffset)
            → lines_at start program.entries ≡ option_copied read.entry
            → (x : ℕ) → row_in counted x ≡ function_row program start x) }
    {
        let Some(read) = read else {
            return Ok(FunctionRows {
                rows: Vec::new(alloc),
                fault: None,
            });
        };
        if read.fault.is_some() {
            return Ok(FunctionRows {
                rows: Vec::new(alloc),
                fault: read.fault,
            });
        }
        Ok(FunctionRows {
            rows: first_of_each_offset(alloc, &read.items)?,
            fault: None,
        })
    }

    // The last row at or below an offset. `probes` counts the rows that are compared.
    #[tactic(auto, using(crate::proofs::RowLemmas::row_is_last))]
    fn search(&self, offset: u32, probes: &mut Probes) -> Option<LineInfo>
        ensures answer { result ≡ row_over self.now.items offset }
        ensures bound { probes.new ≤ probes.old + digits (length self.now.items) }
    {
        let row = neighbours_of(&self.rows, offset, probes).up_to?;
        Some(row.0)
    }

    // The row at an offset: the last one at or below it. Refused if the rows end early.
    pub(crate) fn row(&self, offset: u32) -> Result<Option<LineInfo>>
        ensures { result ≡ row_in self.now offset }
    {
        if let Some(fault) = self.fault {
            return Err(Error::from(fault));
        }
        Ok(self.search(offset, &mut Probes::new()))
    }
}
