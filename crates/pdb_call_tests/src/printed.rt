//! Questions for signatures and ids, with the expected answers.

use crate::texts::{around, hexadecimal, module_index};
use bitflags::Flags;
use pdb_addr2line::pdb::{IdIndex, TypeIndex};
use pdb_addr2line::{ContextPdbData, Error, TypeFormatter, TypeFormatterFlags};
use std::alloc::Global;
use std::fmt;

/// What is to be printed.
#[derive(Clone, Copy)]
pub(crate) enum Asked<'t> {
    /// The signature of a function with this name, and the type of this index.
    Signature(&'t str, TypeIndex),
    /// The id of this index.
    Id(IdIndex),
}

/// A question for a signature or an id, with the expected answer.
#[derive(Clone, Copy)]
pub(crate) struct PrintedQuestion<'t> {
    /// The bits of the flags.
    pub(crate) flags: u32,
    /// The module index of the module that has the index.
    pub(crate) module: usize,
    /// What is to be printed.
    pub(crate) asked: Asked<'t>,
    /// `ok`, or the text of the error.
    pub(crate) outcome: &'t str,
    /// The content of the string afterwards.
    pub(crate) text: &'t str,
}

/// The question in the rest of a line: `INDEX NAME` for a signature, or `INDEX` for an id.
fn asked_of(rest: &str) -> Option<Asked<'_>> {
    match around(rest, " ") {
        Some((index, name)) => Some(Asked::Signature(name, TypeIndex(hexadecimal(index)?))),
        None => Some(Asked::Id(IdIndex(hexadecimal(rest)?))),
    }
}

/// The question in a line `FLAGS MODULE INDEX NAME | OUTCOME | TEXT` for a signature, or
/// `FLAGS MODULE INDEX | OUTCOME | TEXT` for an id, if it is one.
pub(crate) fn printed_question_of(line: &str) -> Option<PrintedQuestion<'_>> {
    let (numbers, rest) = around(line, " | ")?;
    let (outcome, text) = around(rest, " | ")?;
    let (flags, rest) = around(numbers, " ")?;
    let (module, rest) = module_index(rest)?;
    Some(PrintedQuestion {
        flags: flags.parse::<u32>().ok()?,
        module,
        asked: asked_of(rest)?,
        outcome,
        text,
    })
}

/// Makes a formatter write the answer to a question.
fn emit<W: fmt::Write>(
    formatter: &mut TypeFormatter<'_, ContextPdbData<'_>>,
    writer: &mut W,
    question: PrintedQuestion<'_>,
) -> Result<(), Error> {
    match question.asked {
        Asked::Signature(name, index) => {
            formatter.emit_function(writer, name, question.module, index)
        }
        Asked::Id(index) => formatter.emit_id(writer, question.module, index),
    }
}

/// Whether an outcome is exactly the expected one.
fn is_wanted(alloc: Global, outcome: &Result<(), Error>, wanted: &str) -> bool {
    match outcome {
        Ok(()) => wanted == "ok",
        Err(error) => error
            .to_string(alloc)
            .is_ok_and(|text| text.as_str() == wanted),
    }
}

/// A writer that takes texts while there is room for them, and refuses the first that doesn't fit.
#[derive(Drop)]
struct Narrow {
    held: String,
    room: usize,
}

impl fmt::Write for Narrow {
    fn write_str(&mut self, text: &str) -> fmt::Result {
        if self.room < text.len() {
            return Err(fmt::Error);
        }
        self.room -= text.len();
        self.held.push_str(text).map_err(|_| fmt::Error)
    }
}

/// Whether a formatter reports that a writer with this much room refused, after it took the start of the text.
fn answers_refusal(
    alloc: Global,
    formatter: &mut TypeFormatter<'_, ContextPdbData<'_>>,
    question: PrintedQuestion<'_>,
    room: usize,
) -> bool {
    let mut writer = Narrow {
        held: String::new(alloc),
        room,
    };
    let outcome = emit(formatter, &mut writer, question);
    let held = writer.held.as_bytes();
    matches!(outcome, Err(Error::FormatError(_)))
        && question.text.as_bytes().get(..held.len()) == Some(held)
}

/// Whether a formatter reports the refusal of each writer that has less room than the text takes.
fn answers_each_refusal(
    alloc: Global,
    formatter: &mut TypeFormatter<'_, ContextPdbData<'_>>,
    question: PrintedQuestion<'_>,
) -> bool {
    (0..question.text.len()).all(|room| answers_refusal(alloc, formatter, question, room))
}

/// Whether a formatter writes the expected text and has the expected result.
fn answers_whole(
    alloc: Global,
    formatter: &mut TypeFormatter<'_, ContextPdbData<'_>>,
    question: PrintedQuestion<'_>,
) -> bool {
    let mut text = String::new(alloc);
    let outcome = emit(formatter, &mut text, question);
    is_wanted(alloc, &outcome, question.outcome) && text.as_str() == question.text
}

/// Whether a formatter answers a question as expected, also with writers that refuse. If a text is expected, these
/// writers come first, and the formatter must answer as usual afterwards. If an error is expected, they come last,
/// since a broken part of the records returns its own error only once.
pub(crate) fn answers(
    alloc: Global,
    formatter: &mut TypeFormatter<'_, ContextPdbData<'_>>,
    question: PrintedQuestion<'_>,
) -> bool {
    if question.outcome == "ok" {
        return answers_each_refusal(alloc, formatter, question)
            && answers_whole(alloc, formatter, question);
    }
    answers_whole(alloc, formatter, question) && answers_each_refusal(alloc, formatter, question)
}

/// The flags of these bits.
pub(crate) fn flags_of(bits: u32) -> TypeFormatterFlags {
    TypeFormatterFlags::from_bits_retain(bits)
}
