//! Makes the STACK WIN records of a program for x86 and the sizes of parameters, from its frame data and FPO data.

ghost use Rattle.std.specs.Prelude.{◌≡◌, ◌≤◌, take, IfErr, IfOk, OnOk};
ghost use Rattle.std.specs.List.{list_all};
ghost use Rattle.pdb_container.specs.DebugRecords.{of_file};
ghost use Rattle.pdb_frame_data.specs.StackWin.{add_fpo, add_frame_data, code_fault, frame_program, is_printed};
ghost use Rattle.pdb_frame_data.specs.StackWin.{leave_out, program_in, records_by, stack_win, text_of, text_seen, with_fpo};
ghost use Rattle.pdb_frame_data.specs.StackWin.{with_frame_data};
ghost use Rattle.pdb_msf.specs.MsfLayout.{IfFile, Reads, bytes_read};

use crate::fpo_data::{FpoData, read_fpo_data};
use crate::frame_data::{FrameData, read_frame_data};
use crate::frame_streams::FrameStreams;
use crate::omitted_frame_data::{FrameDataError, OmittedFrameData};
use crate::parameter_sizes::parameter_sizes;
use crate::stack_win_text::{push_fpo, push_frame_data};
use pdb_msf::{Bytes, ContainerError, MsfLayout, OpenError, Source, bytes_from, nothing_read};
use pdb_records::StreamError;
use pdb_tables::Segment;
use std::alloc::{AllocError, Global};
use std::marker::Model;

/// The number of bytes before the program strings.
const STRINGS_FRONT: usize = 12;

/// The maximum size of a program string in bytes, with its zero.
const MOST_PROGRAM: usize = 4096;

/// The STACK WIN records of a program, as text.
#[derive(Drop)]
pub struct StackWinRecords {
    /// One line for each record.
    pub text: String,
    /// The entries that get no record, in file order.
    pub left_out: Vec<OmittedFrameData>,
    /// Why the frame data ends early, if it does.
    pub frame_data_fault: Option<StreamError>,
    /// Why the FPO data ends early, if it does.
    pub fpo_fault: Option<StreamError>,
    /// How many bytes of parameters code takes from the stack. If several entries cover an address, the last one
    /// counts.
    pub parameter_sizes: Vec<Segment<u32>>,
}

impl Model for StackWinRecords {
    ghost use Rattle.std.specs.Prelude.{string_bytes};
    ghost use Rattle.pdb_frame_data.specs.StackWin.{Records};

    ghost Value = { Records };

    ghost view = { λ r. record {
      text = string_bytes r.text;
      left_out = r.left_out.items;
      frame_data_fault = r.frame_data_fault;
      fpo_fault = r.fpo_fault;
      parameter_sizes = r.parameter_sizes.items;
    } };
}

/// Reads the STACK WIN records of a PDB file of this length: those of its frame data, and then those of its FPO data.
/// Files for other machines than x86 have neither. The errors are those of
/// [`MsfLayout::read`](pdb_msf::MsfLayout::read).
#[tactic(auto, unfolding(crate::specs::StackWin::stack_win))]
pub fn read_stack_win<S: Source>(
    alloc: Global,
    source: &mut S,
    file_length: usize,
) -> Result<StackWinRecords, OpenError>
    ensures answer { IfFile (S.bytes source.old) file_length (λ file.
        Reads (λ records. records) result (of_file stack_win file)) }
    ensures refused { IfErr result (λ fault. fault ≡ OpenError.Unreadable → S.refuses_from source.old ≤ file_length) }
    ensures inputs { S.bytes source.new ≡ S.bytes source.old }
    ensures refusals { S.refuses_from source.new ≡ S.refuses_from source.old }
{
    let map = MsfLayout::read(alloc, source, file_length)?;
    let streams = FrameStreams::read(alloc, &map, source)?;
    match records_by(alloc, &streams) {
        Ok(records) => Ok(records),
        Err(_) => Err(OpenError::Container(ContainerError::OutOfMemory)),
    }
}

// Makes the records from the streams with frame data, FPO data and program strings.
fn records_by(alloc: Global, streams: &FrameStreams) -> Result<StackWinRecords, AllocError>
    ensures { IfOk result (λ records. records ≡ records_by (bytes_read streams.now.frame_data)
        (bytes_read streams.now.fpo) streams.now.strings.items) }
{
    let frame_data = match &streams.frame_data {
        Ok(stream) => read_frame_data(alloc, stream)?,
        Err(error) => nothing_read(alloc, Some(*error)),
    };
    let fpo = match &streams.fpo {
        Ok(stream) => read_fpo_data(alloc, stream)?,
        Err(error) => nothing_read(alloc, Some(*error)),
    };
    let mut records = StackWinRecords {
        text: String::new(alloc),
        left_out: Vec::new(alloc),
        frame_data_fault: frame_data.fault,
        fpo_fault: fpo.fault,
        parameter_sizes: parameter_sizes(alloc, &fpo.items, &frame_data.items)?,
    };
    with_frame_data(&mut records, &streams.strings, &frame_data.items)?;
    with_fpo(&mut records, &fpo.items)?;
    Ok(records)
}

// Adds the records of frame data.
fn with_frame_data(
    records: &mut StackWinRecords,
    strings: &[u8],
    entries: &[FrameData],
) -> Result<(), AllocError>
    ensures { OnOk result (records.new ≡ with_frame_data strings.now entries.now records.old) }
{
    for &entry in entries {
        add_frame_data(records, strings, entry)?;
    }
    Ok(())
}

// Adds the records of FPO data.
fn with_fpo(records: &mut StackWinRecords, entries: &[FpoData]) -> Result<(), AllocError>
    ensures { OnOk result (records.new ≡ with_fpo entries.now records.old) }
{
    for &entry in entries {
        add_fpo(records, entry)?;
    }
    Ok(())
}

// Adds the record of an entry of frame data, or lists the entry as one without a record.
fn add_frame_data(
    records: &mut StackWinRecords,
    strings: &[u8],
    entry: FrameData,
) -> Result<(), AllocError>
    ensures { OnOk result (records.new ≡ add_frame_data strings.now entry records.old) }
{
    match frame_program(strings, entry) {
        Ok(program) => push_frame_data(&mut records.text, entry, program),
        Err(why) => leave_out(records, entry.rva, why),
    }
}

// Adds the record of an entry of FPO data, or lists the entry as one without a record.
fn add_fpo(records: &mut StackWinRecords, entry: FpoData) -> Result<(), AllocError>
    ensures { OnOk result (records.new ≡ add_fpo entry records.old) }
{
    match code_fault(entry.rva, entry.size) {
        None => push_fpo(&mut records.text, entry),
        Some(why) => leave_out(records, entry.rva, why),
    }
}

// Lists an entry as one without a record.
fn leave_out(records: &mut StackWinRecords, rva: u32, why: FrameDataError) -> Result<(), AllocError>
    ensures { OnOk result (records.new ≡ leave_out rva why records.old) }
{
    records.left_out.push(OmittedFrameData { rva, why })?;
    Ok(())
}

// Why code with this address and size gets no record, if it doesn't.
fn code_fault(rva: u32, size: u32) -> Option<FrameDataError>
    ensures { result ≡ code_fault rva size }
{
    if size == 0 {
        return Some(FrameDataError::Empty);
    }
    if u32::MAX - rva < size - 1 {
        return Some(FrameDataError::TooLarge);
    }
    None
}

// The program of an entry of frame data, or why the entry gets no record.
fn frame_program(strings: &[u8], entry: FrameData) -> Result<&str, FrameDataError>
    ensures { text_seen result ≡ frame_program strings.now entry }
{
    if let Some(why) = code_fault(entry.rva, entry.size) {
        return Err(why);
    }
    program_in(bytes_from(strings, STRINGS_FRONT + entry.program as usize))
}

// The program at the start of these bytes.
fn program_in(rest: &[u8]) -> Result<&str, FrameDataError>
    ensures { text_seen result ≡ program_in rest.now }
{
    match Bytes::new(first_bytes(rest, MOST_PROGRAM)).text() {
        Ok(program) => text_of(program),
        Err(_) if rest.len() < MOST_PROGRAM => Err(FrameDataError::NoProgram),
        Err(_) => Err(FrameDataError::LongProgram),
    }
}

// The first `count` bytes, or all if there are fewer.
fn first_bytes(bytes: &[u8], count: usize) -> &[u8]
    ensures { result.now ≡ take count bytes.now }
{
    if bytes.len() < count {
        return bytes;
    }
    let (first, _) = bytes.split_at(count);
    first
}

// These bytes as text, which must be a single line.
#[tactic(auto, using(crate::proofs::TextLemmas::by_utf8))]
fn text_of(bytes: &[u8]) -> Result<&str, FrameDataError>
    ensures { text_seen result ≡ text_of bytes.now }
{
    if !is_line(bytes) {
        return Err(FrameDataError::BadProgram);
    }
    match str::from_utf8(bytes) {
        Ok(text) => Ok(text),
        Err(_) => Err(FrameDataError::BadProgram),
    }
}

// Whether bytes have no control characters.
fn is_line(bytes: &[u8]) -> bool
    ensures { result ≡ list_all is_printed bytes.now }
{
    for &byte in bytes {
        if byte < 0x20 {
            return false;
        }
    }
    true
}
