//! Writes the lines of an answer in the styles of LLVM and GNU.

ghost use Rattle.std.specs.Prelude.{◌≡◌, ◌++◌, [], string_bytes, OnOk};
ghost use Rattle.pdb_answer_printer.specs.AnswerLines.{address_line, answer_end, frame_lines, frames_lines};
ghost use Rattle.pdb_answer_printer.specs.AnswerLines.{location, name_line, outer_start, place_by, unknown_frame};
ghost use Rattle.pdb_answer_printer.specs.AnswerLines.{unknown_lines, url_start};
ghost use Rattle.pdb_answer_printer.specs.InputLine.{target_of};
ghost use Rattle.pdb_answer_printer.specs.SourceTexts.{url_after};

use crate::frame_names::{file_of, function_of, line_of};
use crate::input_line::{InputLine, InputTarget, Sort};
use crate::printer_options::{Detail, NameStyle, PrinterOptions, Style};
use crate::source_texts::{SourceText, first_source, later_sources};
use pdb_frames::Frame;
use std::alloc::AllocError;

// What is printed for an unknown name.
const UNKNOWN: &str = "??";

/// Appends the address before its answer, if the options ask for it.
pub(crate) fn write_address(
    out: &mut String,
    options: &PrinterOptions,
    request: &InputLine<'_>,
) -> Result<(), AllocError>
    ensures { OnOk result (string_bytes out.new
        ≡ string_bytes out.old ++ address_line options.now (target_of request.now.place)) }
{
    match request.place {
        InputTarget::Address(given) if options.address_shown => {
            let end = if options.pretty { ": " } else { "\n" };
            write!(out, "0x{given:x}{end}")
        }
        _ => Ok(()),
    }
}

/// Appends the text after an answer: an empty line in LLVM's style.
pub(crate) fn end_answer(out: &mut String, options: &PrinterOptions) -> Result<(), AllocError>
    ensures { OnOk result (string_bytes out.new ≡ string_bytes out.old ++ answer_end options.now.style) }
{
    match options.style {
        Style::Llvm => out.push_str("\n"),
        _ => Ok(()),
    }
}

/// Appends the lines that say that nothing is known.
pub(crate) fn write_unknown_lines(
    out: &mut String,
    options: &PrinterOptions,
    request: &InputLine<'_>,
) -> Result<(), AllocError>
    ensures { OnOk result (string_bytes out.new
        ≡ string_bytes out.old ++ unknown_lines options.now request.now.sort (target_of request.now.place)) }
{
    match (request.place, request.sort) {
        (InputTarget::Nowhere(_), _) | (_, Sort::Code) => write_unknown_frame(out, options),
        (_, Sort::Data) => write!(out, "{UNKNOWN}\n0 0\n{UNKNOWN}:?\n"),
        (_, Sort::Frame) => write!(out, "{UNKNOWN}\n"),
    }
}

fn write_unknown_frame(out: &mut String, options: &PrinterOptions) -> Result<(), AllocError>
    ensures { OnOk result (string_bytes out.new ≡ string_bytes out.old ++ unknown_frame options.now) }
{
    write_name(out, options, "", UNKNOWN)?;
    write_location(out, options, UNKNOWN, 0, "")
}

/// Appends frames, the innermost first, each with the URL and lines of its source file.
pub(crate) fn write_frames(
    out: &mut String,
    options: &PrinterOptions,
    frames: &[Frame<'_>],
    sources: &[SourceText],
) -> Result<(), AllocError>
    ensures { OnOk result (string_bytes out.new
        ≡ string_bytes out.old ++ frames_lines options.now [] frames.now sources.now) }
{
    let mut start = "";
    let mut later = sources;
    for frame in frames {
        let source = first_source(later);
        write_frame(out, options, start, frame, source.url)?;
        out.push_str(source.lines)?;
        start = outer_start(options);
        later = later_sources(later);
    }
    Ok(())
}

// The text before the name of each frame except the innermost.
fn outer_start(options: &PrinterOptions) -> &'static str
    ensures { result.now ≡ outer_start options.now }
{
    if options.pretty { " (inlined by) " } else { "" }
}

// Appends the lines of a frame, after the text `start`. `url` is that of its source file, and may be empty.
fn write_frame(
    out: &mut String,
    options: &PrinterOptions,
    start: &str,
    frame: &Frame<'_>,
    url: &str,
) -> Result<(), AllocError>
    ensures { OnOk result (string_bytes out.new
        ≡ string_bytes out.old ++ frame_lines options.now start.now frame.now url.now) }
{
    write_name(out, options, start, function_of(frame, UNKNOWN))?;
    write_location(
        out,
        options,
        file_of(options, frame, UNKNOWN),
        line_of(frame),
        url,
    )
}

fn write_name(
    out: &mut String,
    options: &PrinterOptions,
    start: &str,
    name: &str,
) -> Result<(), AllocError>
    ensures { OnOk result (string_bytes out.new
        ≡ string_bytes out.old ++ name_line options.now start.now name.now) }
{
    if options.names == NameStyle::None {
        return Ok(());
    }
    let end = if options.pretty { " at " } else { "\n" };
    write!(out, "{start}{name}{end}")
}

fn write_location(
    out: &mut String,
    options: &PrinterOptions,
    file: &str,
    line: u32,
    url: &str,
) -> Result<(), AllocError>
    ensures { OnOk result (string_bytes out.new
        ≡ string_bytes out.old ++ location options.now file.now line url.now) }
{
    write_place(out, options, file, line)?;
    write_url(out, options, url)?;
    out.push_str("\n")
}

// Appends file, line and column, without the end of the line.
fn write_place(
    out: &mut String,
    options: &PrinterOptions,
    file: &str,
    line: u32,
) -> Result<(), AllocError>
    ensures { OnOk result (string_bytes out.new
        ≡ string_bytes out.old ++ place_by options.now.detail options.now.style file.now line) }
{
    match (options.detail, options.style) {
        (Detail::Verbose, _) => write!(out, "  Filename: {file}\n  Line: {line}\n  Column: 0"),
        (Detail::Brief, Style::Gnu) => write!(out, "{file}:{line}"),
        (Detail::Brief, _) => write!(out, "{file}:{line}:0"),
    }
}

// Appends the URL of a source file, if there is one.
fn write_url(out: &mut String, options: &PrinterOptions, url: &str) -> Result<(), AllocError>
    ensures { OnOk result (string_bytes out.new
        ≡ string_bytes out.old ++ url_after (url_start options.now.detail) url.now) }
{
    if url.is_empty() {
        return Ok(());
    }
    out.push_str(url_start(options.detail))?;
    out.push_str(url)
}

// What stands before a URL.
fn url_start(detail: Detail) -> &'static str
    ensures { result.now ≡ url_start detail }
{
    match detail {
        Detail::Verbose => "\n  SourceUrl: ",
        Detail::Brief => " ",
    }
}
