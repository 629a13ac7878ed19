//! Reports that `report` itself writes into writers that refuse.

use crate::writers::Narrow;
use pdb_addr2line::{Context, ContextPdbData};
use pdb_json::read_records;
use pdb_report_lib::{Command, Out, ReportFault, Sink, report};
use std::alloc::Global;
use std::io::{self, BufWriter};

/// The size of a report of two addresses outside all sections.
const REPORTED: usize = 44;

/// Whether a report to a writer with this much room ended as it should.
fn ends_as_it_should(ended: &Result<(), ReportFault>, room: usize) -> bool {
    match ended {
        Ok(()) => room >= REPORTED,
        Err(ReportFault::Write) => room < REPORTED,
        Err(ReportFault::Lookup(_)) => false,
    }
}

/// Whether a report of two addresses is refused exactly if the writer has too little room.
fn reports_into(alloc: Global, context: &mut Context<'_, ContextPdbData<'_>>, room: usize) -> bool {
    let mut sink = Out::new(Narrow::new(alloc, room));
    let ended = report(alloc, context, Command::Names, &[1, 2], &mut sink);
    ends_as_it_should(&ended, room) && sink.failed() == (room < REPORTED)
}

/// Whether reports are refused until the writer has enough room.
fn reports_into_all(alloc: Global, context: &mut Context<'_, ContextPdbData<'_>>) -> bool {
    (0..=REPORTED).all(|room| reports_into(alloc, context, room))
}

/// Whether a context made from this data reports as it should.
fn reports_over(alloc: Global, data: &ContextPdbData<'_>) -> bool {
    data.make_context()
        .is_ok_and(|mut context| reports_into_all(alloc, &mut context))
}

/// The data of a context, from the text of a records file.
fn data_of(alloc: Global, file: &[u8]) -> Option<ContextPdbData<'static>> {
    let records = read_records(alloc, file).ok()?;
    ContextPdbData::try_from_pdb(alloc, records).ok()
}

/// Whether flushing a writer is refused if there is too little room for its buffer.
fn is_refused_late(alloc: Global, room: usize, refused: bool) -> io::Result<bool> {
    let mut sink = Out::new(BufWriter::new(alloc, Narrow::new(alloc, room))?);
    let taken = sink.put(b"0x100").is_ok() && !sink.failed();
    Ok(taken && sink.flush().is_err() == refused && sink.failed() == refused)
}

/// Whether reports over a records file without sections, and flushes of them, end as they should with writers that
/// refuse.
pub(crate) fn end_as_they_should(alloc: Global, file: &[u8]) -> bool {
    data_of(alloc, file).is_some_and(|data| reports_over(alloc, &data))
        && matches!(is_refused_late(alloc, 5, false), Ok(true))
        && matches!(is_refused_late(alloc, 4, true), Ok(true))
}
