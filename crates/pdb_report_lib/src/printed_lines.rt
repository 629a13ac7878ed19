//! Writes the line for a function, at an address or in a list.

ghost use Rattle.std.specs.Prelude.{◌≡◌, Some, option_map, string_bytes, IfOk};
ghost use Rattle.pdb_function_info.specs.Function.{function_view};
ghost use Rattle.pdb_report_lib.specs.PrintedLines.{name_text, end_text, names_line, list_line};

use pdb_addr2line::Function;
use std::alloc::{AllocError, Global};

// The placeholder for an unknown name.
const UNKNOWN_NAME: &str = "<unknown>";

// The placeholder for anything else that isn't known.
pub(crate) const UNKNOWN: &str = "??";

// A name, or a placeholder if it isn't known.
pub(crate) fn name_text(name: &Option<String>) -> &str
    ensures { result.now ≡ name_text (option_map string_bytes name.now) }
{
    match name {
        Some(name) => name.as_str(),
        None => UNKNOWN_NAME,
    }
}

// An end, or a placeholder if it isn't known.
fn end_text(alloc: Global, end: Option<u32>) -> Result<String, AllocError>
    ensures { IfOk result (λ s. string_bytes s ≡ end_text end) }
{
    match end {
        Some(address) => format!(in alloc; "0x{address:x}"),
        None => String::from_str(alloc, UNKNOWN),
    }
}

// The line of an address with a function.
fn function_line(alloc: Global, address: u32, function: &Function) -> Result<String, AllocError>
    ensures { IfOk result (λ s. string_bytes s ≡ names_line address (Some (function_view function.now))) }
{
    let name = name_text(&function.name);
    let start = function.start_rva;
    let end = end_text(alloc, function.end_rva)?;
    format!(in alloc; "0x{address:x} - {name} 0x{start:x}..{end}\n")
}

// The line of a function in a list.
pub(crate) fn list_line(alloc: Global, function: &Function) -> Result<String, AllocError>
    ensures { IfOk result (λ s. string_bytes s ≡ list_line (function_view function.now)) }
{
    let name = name_text(&function.name);
    let start = function.start_rva;
    let end = end_text(alloc, function.end_rva)?;
    format!(in alloc; "0x{start:x}..{end} {name}\n")
}

// The line of an address: the function there, or that there is none.
pub(crate) fn names_line(
    alloc: Global,
    address: u32,
    function: &Option<Function>,
) -> Result<String, AllocError>
    ensures { IfOk result
        (λ s. string_bytes s ≡ names_line address (option_map function_view function.now)) }
{
    match function {
        Some(function) => function_line(alloc, address, function),
        None => format!(in alloc; "{address:x} - no function found\n"),
    }
}
