//! Writes the text of a report into memory, over a records file or over records.

ghost use Rattle.pdb_addr2line.specs.ContextData.{default_flags, context_of};
ghost use Rattle.pdb_json.specs.ModuleFiles.{contents};
ghost use Rattle.pdb_report_lib.specs.FileReports.{opened};
ghost use Rattle.pdb_c.specs.ReportTexts.{Agrees, records_in, text_of_context, text_over, text_in, asked_text};
ghost use Rattle.pdb_c.specs.Questions.{IsLeftWithText};

use crate::call_error::CallError;
use pdb_addr2line::pdb::PDB;
use pdb_addr2line::{Context, ContextPdbData};
use pdb_json::read_records_with;
use pdb_report_lib::{Command, Out, report};
use std::alloc::Global;

// The text of a report over a context.
pub(crate) fn report_in(
    alloc: Global,
    context: &mut Context<'_, ContextPdbData<'_>>,
    command: Command,
    addresses: &[u32],
) -> Result<Vec<u8>, CallError>
    ensures answer { Agrees (λ text. text.items) result (text_of_context command context.old addresses.now) }
    ensures state { IsLeftWithText result context.old context.new command addresses.now }
{
    let mut out = Out::new(Vec::new(alloc));
    report(alloc, context, command, addresses, &mut out)?;
    Ok(out.into_inner())
}

// The text of a report over prepared records.
fn text_over(
    alloc: Global,
    command: Command,
    context_data: &ContextPdbData<'_>,
    addresses: &[u32],
) -> Result<Vec<u8>, CallError>
    ensures { Agrees (λ text. text.items) result
        (text_over command (context_of default_flags context_data.now) addresses.now) }
{
    let mut context = context_data.make_context()?;
    report_in(alloc, &mut context, command, addresses)
}

// The text of a report over records.
fn text_of_records(
    alloc: Global,
    command: Command,
    records: PDB,
    addresses: &[u32],
) -> Result<Vec<u8>, CallError>
    ensures { Agrees (λ text. text.items) result (text_over command (opened records) addresses.now) }
{
    let context_data = ContextPdbData::try_from_pdb(alloc, records)?;
    text_over(alloc, command, &context_data, addresses)
}

// Reads the records of a records file and its module files.
pub(crate) fn records_in(alloc: Global, bytes: &[u8], files: &[Vec<u8>]) -> Result<PDB, CallError>
    ensures { Agrees (λ records. records) result (records_in bytes.now (contents files.now)) }
{
    let records = read_records_with(alloc, bytes, files)?;
    Ok(records)
}

// The text of a report over a records file.
fn text_in(
    alloc: Global,
    command: Command,
    bytes: &[u8],
    addresses: &[u32],
) -> Result<Vec<u8>, CallError>
    ensures { Agrees (λ text. text.items) result (text_in command bytes.now addresses.now) }
{
    let records = records_in(alloc, bytes, &[])?;
    text_of_records(alloc, command, records, addresses)
}

// The text of a report over a records file. A report of no address is refused.
pub(crate) fn asked_text(
    alloc: Global,
    command: Command,
    bytes: &[u8],
    addresses: &[u32],
) -> Result<Vec<u8>, CallError>
    ensures { Agrees (λ text. text.items) result (asked_text command bytes.now addresses.now) }
{
    if addresses.is_empty() {
        return Err(CallError::NoAddresses);
    }
    text_in(alloc, command, bytes, addresses)
}
