//! The unwind records of a symbol file, from the unwind tables of a program for x64 or ARM64.

use pdb_symbolizer_input::file_bytes::FileBytes;
use pdb_symbolizer_input::input_files::open_named_file;
use pdb_symbolizer_input::run_errors::RunError;
use pe_image::{Image, is_arm64, read_image};
use std::alloc::AllocError;
use std::fmt;
use std::rt::Files;

/// The STACK CFI records of a program for x64 or ARM64; empty for other files. Prints a line on standard error for each
/// function whose unwind info can't be read.
pub fn unwind_records<R: Files + Eprint + AllocGlobal>(
    rt: &R,
    path: &str,
) -> Result<String, RunError> {
    if let FileBytes::InMemory(bytes) = open_named_file(rt, path)?
        && let Some(image) = read_image(rt.alloc(), &bytes)?
    {
        return Ok(records_of(rt, path, &image)?);
    }
    Ok(String::new(rt.alloc()))
}

// The records of a program.
fn records_of<R: Eprint + AllocGlobal>(
    rt: &R,
    path: &str,
    image: &Image<'_>,
) -> Result<String, AllocError> {
    if image.is_x64() {
        let records = pe_unwind::unwind_records(rt.alloc(), image)?;
        for left_out in &records.left_out {
            print_left_out(rt, path, left_out.begin, &left_out.why);
        }
        return Ok(records.text);
    }
    if is_arm64(image) {
        let records = pe_unwind_arm64::unwind_records(rt.alloc(), image)?;
        for left_out in &records.left_out {
            print_left_out(rt, path, left_out.begin, &left_out.why);
        }
        return Ok(records.text);
    }
    Ok(String::new(rt.alloc()))
}

// Prints that a function has no records, and why.
fn print_left_out<R: Eprint, W: fmt::Display>(rt: &R, path: &str, begin: u32, why: &W) {
    let _ = eprintln!(rt; "pdb_symbolizer: {path}: no unwind records at 0x{begin:x}: {why}");
}
