//! Answers for files that can't be opened.

use crate::outputs::{Output, write_line_answer};
use pdb_answer_printer::{InputLine, InputTarget, Sort, Style, write_json_error, write_unknown};
use pdb_symbolizer_input::options::Options;
use pdb_symbolizer_input::run_errors::RunError;

/// Ends a run whose file, named by an option, can't be opened: prints the error, in JSON as an object.
pub fn end_unopened<R: Print + Eprint + AllocGlobal, W: Output>(
    rt: &R,
    out: &mut W,
    options: &Options<'_>,
    path: &str,
    cause: &RunError,
) -> Result<(), RunError> {
    if options.printer.style != Style::Json {
        cause.print(rt);
        return Ok(());
    }
    let request = InputLine {
        sort: Sort::Code,
        file: path,
        place: InputTarget::Address(0),
    };
    write_error(rt, out, options, &request, cause)
}

/// Answers a line whose file can't be opened: prints the error, and answers that nothing is known. In JSON the answer
/// is an object with the error.
pub fn answer_unopened<R: Print + Eprint + AllocGlobal, W: Output>(
    rt: &R,
    out: &mut W,
    options: &Options<'_>,
    request: &InputLine<'_>,
    cause: &RunError,
) -> Result<(), RunError> {
    if options.printer.style == Style::Json {
        return write_error(rt, out, options, request, cause);
    }
    cause.print(rt);
    let mut text = String::new(rt.alloc());
    write_unknown(&mut text, &options.printer, request)?;
    write_line_answer(out, options.printer.style, text)
}

fn write_error<R: AllocGlobal, W: Output>(
    rt: &R,
    out: &mut W,
    options: &Options<'_>,
    request: &InputLine<'_>,
    cause: &RunError,
) -> Result<(), RunError> {
    let why = format!(in rt.alloc(); "{cause}")?;
    let mut text = String::new(rt.alloc());
    write_json_error(&mut text, request, why.as_str())?;
    write_line_answer(out, options.printer.style, text)
}
