//! Reads a PDB file for x86, and has `pdb_frame_data` make its STACK WIN records and the sizes of parameters.

use pdb_container::Machine;
use pdb_frame_data::{StackWinRecords, read_stack_win};
use pdb_msf::faults::fault_text;
use pdb_records::StreamError;
use pdb_symbolizer_input::input_files::{SourceFile, open_error};
use pdb_symbolizer_input::run_errors::RunError;
use pdb_tables::Segments;
use std::alloc::{AllocError, Global};
use std::io::{Read, Seek};

/// The machine of programs for x86.
const X86: Machine = Machine(0x14c);

/// The unwind records of a symbol file, by which a debugger finds callers.
#[derive(Drop)]
pub struct FrameRecords {
    /// The STACK WIN and STACK CFI records.
    pub text: String,
    /// How many bytes of parameters the function at an address takes from the stack.
    pub parameters: Segments<u32>,
}

/// The STACK WIN records and the sizes of parameters of a PDB file for x86; empty for other machines. Prints a line on
/// standard error for each entry that gets no record.
pub fn frame_data_records<R: Eprint + AllocGlobal, F: Read + Seek + Drop>(
    rt: &R,
    source: &mut SourceFile<F>,
    machine: Option<Machine>,
) -> Result<FrameRecords, RunError> {
    if machine != Some(X86) {
        return Ok(FrameRecords {
            text: String::new(rt.alloc()),
            parameters: Segments::new(rt.alloc()),
        });
    }
    let length = source.bytes.length();
    match read_stack_win(rt.alloc(), &mut source.bytes, length) {
        Ok(records) => {
            print_left_out(rt, source.file.path.as_str(), &records);
            Ok(frame_records(rt.alloc(), records)?)
        }
        Err(fault) => Err(open_error(rt.alloc(), source.file.path.as_str(), fault)),
    }
}

// The records, with a table of the parameter sizes by address.
fn frame_records(alloc: Global, records: StackWinRecords) -> Result<FrameRecords, AllocError> {
    Ok(FrameRecords {
        parameters: Segments::from_overlapping(alloc, &records.parameter_sizes)?,
        text: records.text,
    })
}

// Prints a line for each entry that has no record, and for each stream that ends early.
fn print_left_out<R: Eprint>(rt: &R, path: &str, records: &StackWinRecords) {
    for left_out in &records.left_out {
        let rva = left_out.rva;
        let why = left_out.why;
        let _ = eprintln!(rt; "pdb_symbolizer: {path}: no unwind records at 0x{rva:x}: {why}");
    }
    print_fault(rt, path, "frame data", records.frame_data_fault);
    print_fault(rt, path, "FPO data", records.fpo_fault);
}

// Prints why a stream ends early, if it does.
fn print_fault<R: Eprint>(rt: &R, path: &str, stream: &str, fault: Option<StreamError>) {
    if let Some(fault) = fault {
        let why = fault_text(fault);
        let _ = eprintln!(rt; "pdb_symbolizer: {path}: {stream} ends early: {why}");
    }
}
