//! Opens records files into handles, and writes reports over them.
ghost use Rattle.pdb_json.specs.ModuleFiles.{contents};
ghost use Rattle.pdb_c.specs.ReportTexts.{Agrees};
ghost use Rattle.pdb_c.specs.Openings.{accepted_records, records_to_open, context_to_open, LeavesOpened};
ghost use Rattle.pdb_c.specs.Questions.{text_of_handle, LeavesReported};

use crate::call_error::CallError;
use crate::found_frames::Question;
use crate::handle::Handle;
use crate::report_texts::records_in;
use pdb_addr2line::ContextPdbData;
use pdb_addr2line::pdb::PDB;
use pdb_report_lib::Command;
use std::alloc::Global;

// Prepares records for contexts, in their own allocation. Refused if a stream that contexts need can't be read.
pub(crate) fn accepted_records(
    alloc: Global,
    records: PDB,
) -> Result<Box<ContextPdbData<'static>>, CallError>
    ensures { Agrees (λ records. records.value) result (accepted_records records) }
{
    let context_data = ContextPdbData::try_from_pdb(alloc, records)?;
    match Box::new(alloc, context_data) {
        Ok(records) => Ok(records),
        Err(_) => Err(CallError::OutOfMemory),
    }
}

// Reads the records of a records file and its module files, in their own allocation.
fn records_to_open(
    alloc: Global,
    bytes: &[u8],
    files: &[Vec<u8>],
) -> Result<Box<ContextPdbData<'static>>, CallError>
    ensures { Agrees (λ records. records.value) result (records_to_open bytes.now (contents files.now)) }
{
    let records = records_in(alloc, bytes, files)?;
    accepted_records(alloc, records)
}

// Opens the records of a records file and its module files in a closed handle.
pub(crate) fn open_records(
    alloc: Global,
    bytes: &[u8],
    files: &[Vec<u8>],
    handle: &mut Handle,
) -> Result<(), CallError>
    ensures { LeavesOpened result (context_to_open bytes.now (contents files.now)) handle.old.held handle.new.held }
{
    let records = records_to_open(alloc, bytes, files)?;
    handle.open(records)
}

// The text of a report over an open handle.
pub(crate) fn text_of_handle(
    alloc: Global,
    command: Command,
    handle: &mut Handle,
    addresses: &[u32],
) -> Result<Vec<u8>, CallError>
    ensures answer { Agrees (λ text. text.items) result (text_of_handle command handle.old.held addresses.now) }
    ensures state { LeavesReported result handle.old.held command addresses.now handle.new.held }
{
    let found = handle.answer(alloc, Question::Report(command, addresses))?;
    Ok(found.texts)
}
