//! Writes a report over the records of a file, or returns why there is none.

ghost use Rattle.std.specs.Prelude.{OnOk, IfErr};
ghost use Rattle.pdb_json.specs.ModuleFiles.{contents};
ghost use Rattle.pdb_addr2line.specs.ContextData.{default_flags, context_of};
ghost use Rattle.pdb_json.specs.RecordsFile.{records_of};
ghost use Rattle.serde_json.specs.View.{view};
ghost use Rattle.pdb_report_lib.specs.FileReports.{opened, TakesTexts, EndsOver};
ghost use Rattle.pdb_report_lib.specs.CommandError.{Ends, EndsOverFile};

use crate::command_error::CommandError;
use crate::report_arguments::ReportArguments;
use crate::reports::{ReportFault, report};
use crate::sinks::Sink;
use pdb_addr2line::ContextPdbData;
use pdb_addr2line::pdb::PDB;
use pdb_json::{RecordFault, RecordsFile};
use std::alloc::Global;

// Writes the report of a request, over prepared records.
fn report_data<W: Sink>(
    alloc: Global,
    request: &ReportArguments<'_>,
    context_data: &ContextPdbData<'_>,
    sink: &mut W,
) -> Result<(), ReportFault>
    ensures text { OnOk result (TakesTexts request.now.command request.now.addresses.items
        (context_of default_flags context_data.now) (W.state sink.old) (W.state sink.new)) }
    ensures refused { IfErr result (EndsOver request.now.command request.now.addresses.items
        (context_of default_flags context_data.now) (W.state sink.old) (W.state sink.new)) }
{
    let mut context = context_data.make_context()?;
    report(
        alloc,
        &mut context,
        request.command,
        &request.addresses,
        sink,
    )
}

// Writes the report of a request, over records.
fn report_records<W: Sink>(
    alloc: Global,
    request: &ReportArguments<'_>,
    records: PDB,
    sink: &mut W,
) -> Result<(), ReportFault>
    ensures text { OnOk result (TakesTexts
        request.now.command request.now.addresses.items (opened records) (W.state sink.old) (W.state sink.new)) }
    ensures refused { IfErr result (EndsOver
        request.now.command request.now.addresses.items (opened records) (W.state sink.old) (W.state sink.new)) }
{
    let data = ContextPdbData::try_from_pdb(alloc, records)?;
    report_data(alloc, request, &data, sink)
}

/// Writes the report of a request, over the records of its file if they could be read.
///
/// # Errors
///
/// [`CommandError::Records`] with the path and the fault if the file can't be read as a records file,
/// [`CommandError::Refused`] if the records or an address are refused or memory runs out, and
/// [`CommandError::CannotWrite`] if the sink refuses a text. The sink then has only the texts of the addresses before
/// the one with the error.
pub fn report_read<'w, W: Sink>(
    alloc: Global,
    request: &ReportArguments<'w>,
    read: Result<PDB, RecordFault>,
    sink: &mut W,
) -> Result<(), CommandError<'w>>
    ensures { Ends request.now.path.now request.now.command request.now.addresses.items read
        (W.state sink.old) (W.state sink.new) result }
{
    match read {
        Ok(records) => {
            report_records(alloc, request, records, sink)?;
            Ok(())
        }
        Err(fault) => Err(CommandError::Records(request.path, fault)),
    }
}

/// Writes the report of a request, over its records file and the bytes of the module files that this one names.
///
/// # Errors
///
/// Those of [`report_read`].
pub fn report_file<'w, W: Sink>(
    alloc: Global,
    request: &ReportArguments<'w>,
    file: RecordsFile,
    files: &[Vec<u8>],
    sink: &mut W,
) -> Result<(), CommandError<'w>>
    ensures { EndsOverFile request.now.path.now request.now.command request.now.addresses.items
        (records_of (contents files.now) (view file.value))
        (W.state sink.old) (W.state sink.new) result }
{
    let read = file.read_records(files);
    report_read(alloc, request, read, sink)
}
