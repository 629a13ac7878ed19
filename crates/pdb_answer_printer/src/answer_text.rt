//! Writes the text of an answer.

ghost use Rattle.std.specs.Prelude.{◌≡◌, ◌++◌, string_bytes, OnOk};
ghost use Rattle.pdb_answer_printer.specs.AnswerText.{answer_of_lines, answer_text, found_lines, unknown_text};
ghost use Rattle.pdb_answer_printer.specs.AnswerLines.{unknown_lines};
ghost use Rattle.pdb_answer_printer.specs.InputLine.{question_of};

use crate::answer_lines::{end_answer, write_address, write_frames, write_unknown_lines};
use crate::input_line::InputLine;
use crate::json_objects::{write_json_answer, write_json_unknown};
use crate::printer_options::{PrinterOptions, Style};
use crate::source_texts::SourceText;
use pdb_frames::Frame;
use std::alloc::AllocError;

/// Appends the answer for a code address: its frames, or that there are none. `sources` has the URL and lines of each
/// frame's source file, in the order of the frames; frames after its end are printed without.
pub fn write_answer(
    out: &mut String,
    options: &PrinterOptions,
    request: &InputLine<'_>,
    frames: &[Frame<'_>],
    sources: &[SourceText],
) -> Result<(), AllocError>
    ensures { OnOk result (string_bytes out.new ≡ string_bytes out.old
        ++ answer_text options.now (question_of request.now) frames.now sources.now) }
{
    match options.style {
        Style::Json => write_json_answer(out, options, request, frames, sources),
        Style::Llvm | Style::Gnu => write_found(out, options, request, frames, sources),
    }
}

fn write_found(
    out: &mut String,
    options: &PrinterOptions,
    request: &InputLine<'_>,
    frames: &[Frame<'_>],
    sources: &[SourceText],
) -> Result<(), AllocError>
    ensures { OnOk result (string_bytes out.new ≡ string_bytes out.old
        ++ answer_of_lines options.now (question_of request.now)
        (found_lines options.now (question_of request.now) frames.now sources.now)) }
{
    if frames.is_empty() {
        return write_nothing(out, options, request);
    }
    write_address(out, options, request)?;
    write_frames(out, options, frames, sources)?;
    end_answer(out, options)
}

/// Appends the answer that nothing is known. It is given for data, for a frame's variables, for a symbol, for a text
/// that isn't a request, and for a file that can't be opened.
pub fn write_unknown(
    out: &mut String,
    options: &PrinterOptions,
    request: &InputLine<'_>,
) -> Result<(), AllocError>
    ensures { OnOk result (string_bytes out.new
        ≡ string_bytes out.old ++ unknown_text options.now (question_of request.now)) }
{
    match options.style {
        Style::Json => write_json_unknown(out, options, request),
        Style::Llvm | Style::Gnu => write_nothing(out, options, request),
    }
}

fn write_nothing(
    out: &mut String,
    options: &PrinterOptions,
    request: &InputLine<'_>,
) -> Result<(), AllocError>
    ensures { let question = question_of request.now in OnOk result (string_bytes out.new ≡ string_bytes out.old
        ++ answer_of_lines options.now question (unknown_lines options.now question.sort question.target)) }
{
    write_address(out, options, request)?;
    write_unknown_lines(out, options, request)?;
    end_answer(out, options)
}
