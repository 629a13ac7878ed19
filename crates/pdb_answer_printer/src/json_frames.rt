//! Writes the JSON objects of frames.

ghost use Rattle.std.specs.Prelude.{◌≡◌, ◌++◌, [], codes, string_bytes, OnOk};
ghost use Rattle.pdb_answer_printer.specs.JsonObjects.{found_frames, frame_object, frames_member, json_frame};
ghost use Rattle.pdb_answer_printer.specs.JsonObjects.{json_frames, json_function};
ghost use Rattle.pdb_answer_printer.specs.JsonObjects.{no_frame, optional_member, source_members};
ghost use Rattle.pdb_answer_printer.specs.SourceTexts.{source_of};

use crate::frame_names::{file_of, function_of, line_of};
use crate::printer_options::{NameStyle, PrinterOptions};
use crate::source_texts::{ShownSource, SourceText, first_source, later_sources, no_source};
use pdb_frames::Frame;
use pdb_symbolication::write_quoted;
use std::alloc::AllocError;

/// Appends the member `Symbol` with the frames. If there are none, it has one frame with empty names.
pub(crate) fn write_frames_member(
    out: &mut String,
    options: &PrinterOptions,
    frames: &[Frame<'_>],
    sources: &[SourceText],
) -> Result<(), AllocError>
    ensures { OnOk result (string_bytes out.new ≡ string_bytes out.old
        ++ frames_member (found_frames options.now frames.now sources.now)) }
{
    out.push_str(",\"Symbol\":[")?;
    write_found_frames(out, options, frames, sources)?;
    out.push_str("]")
}

fn write_found_frames(
    out: &mut String,
    options: &PrinterOptions,
    frames: &[Frame<'_>],
    sources: &[SourceText],
) -> Result<(), AllocError>
    ensures { OnOk result (string_bytes out.new
        ≡ string_bytes out.old ++ found_frames options.now frames.now sources.now) }
{
    if frames.is_empty() {
        return write_no_frame(out);
    }
    write_json_frames(out, options, frames, sources)
}

// Appends frames, the innermost first, with commas between them.
fn write_json_frames(
    out: &mut String,
    options: &PrinterOptions,
    frames: &[Frame<'_>],
    sources: &[SourceText],
) -> Result<(), AllocError>
    ensures { OnOk result (string_bytes out.new
        ≡ string_bytes out.old ++ json_frames options.now [] frames.now sources.now) }
{
    let mut start = "";
    let mut later = sources;
    for frame in frames {
        write_json_frame(out, options, start, frame, first_source(later))?;
        start = separator();
        later = later_sources(later);
    }
    Ok(())
}

// The text before each frame except the first.
fn separator() -> &'static str
    ensures { result.now ≡ codes "," }
{
    ","
}

fn write_no_frame(out: &mut String) -> Result<(), AllocError>
    ensures { OnOk result (string_bytes out.new ≡ string_bytes out.old ++ no_frame) }
{
    write_frame_object(out, "", "", 0, no_source())
}

// Appends a frame, after the text `start`.
fn write_json_frame(
    out: &mut String,
    options: &PrinterOptions,
    start: &str,
    frame: &Frame<'_>,
    source: ShownSource<'_>,
) -> Result<(), AllocError>
    ensures { OnOk result (string_bytes out.new
        ≡ string_bytes out.old ++ (start.now ++ json_frame options.now frame.now (source_of source.entry))) }
{
    let file = file_of(options, frame, "");
    let function = json_function(options, frame);
    out.push_str(start)?;
    write_frame_object(out, file, function, line_of(frame), source)
}

// The name of a frame's function; empty if the options want no names.
fn json_function<'f>(options: &PrinterOptions, frame: &'f Frame<'_>) -> &'f str
    ensures { result.now ≡ json_function options.now.names frame.now }
{
    match options.names {
        NameStyle::None => "",
        _ => function_of(frame, ""),
    }
}

fn write_frame_object(
    out: &mut String,
    file: &str,
    function: &str,
    line: u32,
    source: ShownSource<'_>,
) -> Result<(), AllocError>
    ensures { OnOk result (string_bytes out.new
        ≡ string_bytes out.old ++ frame_object file.now function.now line (source_of source.entry)) }
{
    out.push_str("{\"Column\":0,\"Discriminator\":0,\"FileName\":")?;
    write_quoted(out, file)?;
    out.push_str(",\"FunctionName\":")?;
    write_quoted(out, function)?;
    write!(out, ",\"Line\":{line}")?;
    write_source_members(out, source)?;
    out.push_str(",\"StartAddress\":\"\",\"StartFileName\":\"\",\"StartLine\":0}")
}

// Appends the lines and the URL of the source file, each if there is one.
fn write_source_members(out: &mut String, source: ShownSource<'_>) -> Result<(), AllocError>
    ensures { OnOk result (string_bytes out.new
        ≡ string_bytes out.old ++ source_members (source_of source.entry)) }
{
    write_optional_member(out, ",\"Source\":", source.lines)?;
    write_optional_member(out, ",\"SourceUrl\":", source.url)
}

// Appends a member with this text after its name, unless the text is empty.
fn write_optional_member(out: &mut String, name: &str, text: &str) -> Result<(), AllocError>
    ensures { OnOk result (string_bytes out.new ≡ string_bytes out.old ++ optional_member name.now text.now) }
{
    if text.is_empty() {
        return Ok(());
    }
    out.push_str(name)?;
    write_quoted(out, text)
}
