//! Writes the JSON object of an answer. Its members are sorted by name, as `llvm-symbolizer` has them.

ghost use Rattle.std.specs.Prelude.{◌≡◌, ◌++◌, [], codes, string_bytes, OnOk};
ghost use Rattle.pdb_answer_printer.specs.AnswerText.{error_text};
ghost use Rattle.pdb_answer_printer.specs.JsonObjects.{error_member, file_members, json_answer, json_unknown};
ghost use Rattle.pdb_answer_printer.specs.JsonObjects.{object, object_front, symbol_member};
ghost use Rattle.pdb_answer_printer.specs.InputLine.{question_of, target_of};
ghost use Rattle.pdb_symbolication.specs.JsonTexts.{quoted};

use crate::input_line::{InputLine, InputTarget, Sort};
use crate::json_frames::write_frames_member;
use crate::printer_options::PrinterOptions;
use crate::source_texts::SourceText;
use pdb_frames::Frame;
use pdb_symbolication::write_quoted;
use std::alloc::AllocError;

/// Appends the object of an answer with frames. If there are none, it has one frame with empty names.
pub(crate) fn write_json_answer(
    out: &mut String,
    options: &PrinterOptions,
    request: &InputLine<'_>,
    frames: &[Frame<'_>],
    sources: &[SourceText],
) -> Result<(), AllocError>
    ensures { OnOk result (string_bytes out.new ≡ string_bytes out.old
        ++ json_answer options.now (question_of request.now) frames.now sources.now) }
{
    open_object(out, request)?;
    write_file(out, request)?;
    write_frames_member(out, options, frames, sources)?;
    out.push_str("}")
}

/// Appends the object of an answer that nothing is known.
pub(crate) fn write_json_unknown(
    out: &mut String,
    options: &PrinterOptions,
    request: &InputLine<'_>,
) -> Result<(), AllocError>
    ensures { OnOk result (string_bytes out.new ≡ string_bytes out.old ++ json_unknown (question_of request.now)) }
{
    match (request.place, request.sort) {
        (InputTarget::Nowhere(_), _) | (InputTarget::Address(_), Sort::Code) => {
            write_json_answer(out, options, request, &[], &[])
        }
        (InputTarget::Symbol(_), Sort::Code) => write_object_with(out, request, "\"Loc\":[],"),
        (_, Sort::Data) => {
            let known = "\"Data\":{\"Name\":\"\",\"Size\":\"0x0\",\"Start\":\"0x0\"},";
            write_object_with(out, request, known)
        }
        (_, Sort::Frame) => write_object_with(out, request, "\"Frame\":[],"),
    }
}

// Appends an object with the text `members` between the address and the file.
fn write_object_with(
    out: &mut String,
    request: &InputLine<'_>,
    members: &str,
) -> Result<(), AllocError>
    ensures { OnOk result (string_bytes out.new
        ≡ string_bytes out.old ++ object (question_of request.now) members.now []) }
{
    open_object(out, request)?;
    out.push_str(members)?;
    write_file(out, request)?;
    out.push_str("}")
}

/// Appends the object for a file that can't be opened, with the error.
pub fn write_json_error(
    out: &mut String,
    request: &InputLine<'_>,
    why: &str,
) -> Result<(), AllocError>
    ensures { OnOk result (string_bytes out.new
        ≡ string_bytes out.old ++ error_text (question_of request.now) why.now) }
{
    open_object(out, request)?;
    write_error(out, why)?;
    write_file(out, request)?;
    out.push_str("}")
}

fn write_error(out: &mut String, why: &str) -> Result<(), AllocError>
    ensures { OnOk result (string_bytes out.new ≡ string_bytes out.old ++ error_member why.now) }
{
    out.push_str("\"Error\":{\"Message\":")?;
    write_quoted(out, why)?;
    out.push_str("},")
}

// Appends the beginning of an object, with the address if the request has one.
#[tactic(auto, unfolding(crate::specs::JsonObjects::object_front))]
fn open_object(out: &mut String, request: &InputLine<'_>) -> Result<(), AllocError>
    ensures { OnOk result (string_bytes out.new
        ≡ string_bytes out.old ++ object_front (target_of request.now.place)) }
{
    match request.place {
        InputTarget::Address(given) => write!(out, "{{\"Address\":\"0x{given:x}\","),
        _ => out.push_str("{"),
    }
}

// Appends the names of the file and, if the request has one, of the symbol.
fn write_file(out: &mut String, request: &InputLine<'_>) -> Result<(), AllocError>
    ensures { OnOk result (string_bytes out.new
        ≡ string_bytes out.old ++ file_members (question_of request.now)) }
{
    out.push_str("\"ModuleName\":")?;
    write_quoted(out, request.file)?;
    write_symbol(out, request)
}

fn write_symbol(out: &mut String, request: &InputLine<'_>) -> Result<(), AllocError>
    ensures { OnOk result (string_bytes out.new
        ≡ string_bytes out.old ++ symbol_member (target_of request.now.place)) }
{
    match request.place {
        InputTarget::Symbol(name) => write_symbol_name(out, name),
        _ => Ok(()),
    }
}

fn write_symbol_name(out: &mut String, name: &str) -> Result<(), AllocError>
    ensures { OnOk result (string_bytes out.new
        ≡ string_bytes out.old ++ (codes ",\"SymName\":" ++ quoted name.now)) }
{
    out.push_str(",\"SymName\":")?;
    write_quoted(out, name)
}
