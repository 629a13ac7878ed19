//! Answers the lines of an input over one file.

ghost use Rattle.std.specs.Prelude.{◌≡◌, ◌∷◌, [], true, string_bytes, IfErr};
ghost use Rattle.pdb_symbolizer_lib.specs.AnsweredRequests.{AnswersText, AreFramesAt, AreFramesOver};
ghost use Rattle.pdb_symbolizer_input.specs.NameOptions.{flags_of};
ghost use Rattle.pdb_symbolizer_input.specs.EndReasons.{EndsWrite};
ghost use Rattle.pdb_symbolizer_lib.specs.EarlyEnds.{EndsAnswers, EndsLines};
ghost use Rattle.pdb_symbolizer_lib.specs.FileRuns.{AnswersOfFile};
ghost use Rattle.pdb_symbolizer_lib.specs.AnswersInOrder.{AnswersAllLines, AnswersInOrder, AnswersLines, lines_text};

use crate::frame_answers::request_text;
use crate::line_queue::LineQueue;
use crate::outputs::{Output, write_line_answer};
use crate::questions::Questions;
use crate::run_state::RunState;
use pdb_session::SessionContext;
use pdb_symbolizer_input::opened_files::OpenedFile;
use pdb_symbolizer_input::run_errors::RunError;
use std::alloc::{AllocError, Global};
use std::io::{Read, Seek};
use std::rt::Files;

/// Answers the lines of an input. The modules that all ready lines need are read together.
pub fn answer_input<
    R: Files + Eprint + AllocGlobal,
    W: Output,
    F: Read + Seek + Drop,
    T: Read + Drop,
>(
    rt: &R,
    out: &mut W,
    questions: &Questions<'_, '_>,
    state: &mut RunState,
    input: &mut OpenedFile<F>,
    queue: &mut LineQueue<T>,
) -> Result<(), RunError>
    ensures answer { AnswersAllLines (AnswersOfFile questions.now input.old.session)
        questions.now.options.now.printer.style queue.old result (W.contents out.old) (W.contents out.new) }
    ensures early { IfErr result (EndsAnswers (W.takes_all out.old) true (string_bytes input.old.path)
        (flags_of questions.now.options.now.printer.names) input.new.session.known.records) }
{
    for _ in 0..u64::MAX {
        let addresses = addresses_of_lines(rt.alloc(), questions, queue)?;
        input.read_for(rt, &addresses)?;
        answer_lines(rt, out, questions, state, input, queue)?;
        if queue.first().is_none() {
            return Ok(());
        }
    }
    Err(RunError::CannotReadInput)
}

/// The addresses that the ready lines ask for, up to the first line that names another file.
pub fn addresses_of_lines<T: Read + Drop>(
    alloc: Global,
    questions: &Questions<'_, '_>,
    queue: &LineQueue<T>,
) -> Result<Vec<u32>, AllocError> {
    let mut addresses = Vec::new(alloc);
    for line in queue.ready() {
        let text = line.as_str().trim();
        if questions.names_other_file(text) {
            break;
        }
        if let Some(address) = questions.address_in(text) {
            addresses.push(address)?;
        }
    }
    Ok(addresses)
}

// Answers lines with one context, up to the first line that needs records that weren't read.
fn answer_lines<R: Files + Eprint + AllocGlobal, W: Output, F: Read + Seek + Drop, T: Read + Drop>(
    rt: &R,
    out: &mut W,
    questions: &Questions<'_, '_>,
    state: &mut RunState,
    input: &OpenedFile<F>,
    queue: &mut LineQueue<T>,
) -> Result<(), RunError>
    ensures answer { AnswersLines (AnswersOfFile questions.now input.now.session)
        questions.now.options.now.printer.style queue.old queue.new result
        (W.contents out.old) (W.contents out.new) }
    ensures early { IfErr result (EndsAnswers (W.takes_all out.old) true (string_bytes input.now.path)
        (flags_of questions.now.options.now.printer.names) input.now.session.known.records) }
    ensures takes { W.takes_all out.new ≡ W.takes_all out.old }
{
    let data = input.session.data()?;
    let mut context = data.context(questions.options.flags())?;
    answer_read_lines(rt, out, questions, state, &mut context, queue)
}

// Answers lines with this context, up to the first line that needs records that weren't read.
fn answer_read_lines<R: Files + Eprint + AllocGlobal, W: Output, T: Read + Drop>(
    rt: &R,
    out: &mut W,
    questions: &Questions<'_, '_>,
    state: &mut RunState,
    context: &mut SessionContext<'_, '_>,
    queue: &mut LineQueue<T>,
) -> Result<(), RunError>
    ensures answer { AnswersLines (AnswersText questions.now (AreFramesOver context.old.known context.old.flags))
        questions.now.options.now.printer.style queue.old queue.new result
        (W.contents out.old) (W.contents out.new) }
    ensures early { IfErr result (EndsLines (W.takes_all out.old)) }
    ensures takes { W.takes_all out.new ≡ W.takes_all out.old }
{
    for _ in 0..u64::MAX {
        match queue.first() {
            Some(line) if !questions.needs_more(context, line) => {
                answer_line(rt, out, questions, context, state, line)?;
            }
            _ => break,
        }
        queue.pass()?;
    }
    Ok(())
}

/// Writes the answer to a line.
pub fn answer_line<R: Files + Eprint + AllocGlobal, W: Output>(
    rt: &R,
    out: &mut W,
    questions: &Questions<'_, '_>,
    context: &mut SessionContext<'_, '_>,
    state: &mut RunState,
    line: &str,
) -> Result<(), RunError>
    ensures answer { AnswersInOrder (AnswersText questions.now (AreFramesAt context.old.known context.old.flags))
        (lines_text questions.now.options.now.printer.style) (line.now ∷ []) result
        (W.contents out.old) (W.contents out.new) }
    ensures early { IfErr result (EndsWrite (W.takes_all out.old)) }
    ensures takes { W.takes_all out.new ≡ W.takes_all out.old }
    ensures known { context.new.known ≡ context.old.known }
    ensures flags { context.new.flags ≡ context.old.flags }
{
    let text = request_text(rt, questions, context, state, line)?;
    write_line_answer(out, questions.options.printer.style, text)
}
