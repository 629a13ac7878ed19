//! Answers the addresses of a command line over one file.

ghost use Rattle.std.specs.Prelude.{◌≡◌, false, map, string_bytes, IfErr, IfOk};
ghost use Rattle.std.specs.List.{filter_map};
ghost use Rattle.pdb_symbolizer_lib.specs.AnsweredRequests.{AnswersText, AreFramesAt, asked_address};
ghost use Rattle.pdb_symbolizer_input.specs.NameOptions.{flags_of};
ghost use Rattle.pdb_symbolizer_input.specs.EndReasons.{EndsWrite};
ghost use Rattle.pdb_symbolizer_lib.specs.EarlyEnds.{EndsAnswers};
ghost use Rattle.pdb_symbolizer_lib.specs.FileRuns.{AnswersOfFile};
ghost use Rattle.pdb_symbolizer_lib.specs.AnswersInOrder.{AnswersInOrder, list_end, list_start, separator, words_text};

use crate::frame_answers::request_text;
use crate::outputs::Output;
use crate::questions::Questions;
use crate::run_state::RunState;
use pdb_answer_printer::Style;
use pdb_session::SessionContext;
use pdb_symbolizer_input::opened_files::OpenedFile;
use pdb_symbolizer_input::run_errors::RunError;
use std::alloc::{AllocError, Global};
use std::io::{Read, Seek};
use std::rt::Files;

/// Answers the addresses of the command line, after reading the modules that own their code.
pub fn answer_words<R: Files + Eprint + AllocGlobal, W: Output, F: Read + Seek + Drop>(
    rt: &R,
    out: &mut W,
    questions: &Questions<'_, '_>,
    state: &mut RunState,
    input: &mut OpenedFile<F>,
) -> Result<(), RunError>
    ensures answer { AnswersInOrder (AnswersOfFile questions.now input.old.session)
        (words_text questions.now.options.now.printer.style)
        (map (λ word. word.now) questions.now.options.now.addresses.items)
        result (W.contents out.old) (W.contents out.new) }
    ensures early { IfErr result (EndsAnswers (W.takes_all out.old) false (string_bytes input.old.path)
        (flags_of questions.now.options.now.printer.names) input.new.session.known.records) }
{
    let words = questions.options.addresses.as_slice();
    let addresses = addresses_of_words(rt.alloc(), questions, words)?;
    input.read_for(rt, &addresses)?;
    let data = input.session.data()?;
    let mut context = data.context(questions.options.flags())?;
    write_words(rt, out, questions, &mut context, state, words)
}

// The code addresses that the words ask for.
fn addresses_of_words(
    alloc: Global,
    questions: &Questions<'_, '_>,
    words: &[&str],
) -> Result<Vec<u32>, AllocError>
    ensures { IfOk result (λ addresses. addresses.items
        ≡ filter_map (asked_address questions.now) (map (λ word. word.now) words.now)) }
{
    let mut addresses = Vec::new(alloc);
    for word in words {
        if let Some(address) = questions.address_in(word) {
            addresses.push(address)?;
        }
    }
    Ok(addresses)
}

// Writes the answers to the words, with one context. In JSON they are one array.
fn write_words<R: Files + Eprint + AllocGlobal, W: Output>(
    rt: &R,
    out: &mut W,
    questions: &Questions<'_, '_>,
    context: &mut SessionContext<'_, '_>,
    state: &mut RunState,
    words: &[&str],
) -> Result<(), RunError>
    ensures answer { AnswersInOrder (AnswersText questions.now (AreFramesAt context.old.known context.old.flags))
        (words_text questions.now.options.now.printer.style) (map (λ word. word.now) words.now)
        result (W.contents out.old) (W.contents out.new) }
    ensures early { IfErr result (EndsWrite (W.takes_all out.old)) }
{
    let style = questions.options.printer.style;
    out.write_text(list_start(style))?;
    for (position, given) in words.iter().enumerate() {
        let text = request_text(rt, questions, context, state, given)?;
        out.write_text(separator(style, position == 0))?;
        out.write_text(text.as_str())?;
    }
    out.write_text(list_end(style))
}

// The text before all answers.
fn list_start(style: Style) -> &'static str
    ensures { result.now ≡ list_start style }
{
    match style {
        Style::Json => "[",
        Style::Llvm | Style::Gnu => "",
    }
}

// The text before an answer.
fn separator(style: Style, first: bool) -> &'static str
    ensures { result.now ≡ separator style first }
{
    match style {
        Style::Json if !first => ",",
        _ => "",
    }
}

// The text after all answers.
fn list_end(style: Style) -> &'static str
    ensures { result.now ≡ list_end style }
{
    match style {
        Style::Json => "]\n",
        Style::Llvm | Style::Gnu => "",
    }
}
