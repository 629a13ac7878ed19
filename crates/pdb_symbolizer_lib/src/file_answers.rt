//! Opens one file, and answers the words of the command line or the lines of the input over it.

ghost use Rattle.std.specs.Prelude.{string_bytes, IfErr};
ghost use Rattle.pdb_symbolizer_input.specs.NameOptions.{flags_of};
ghost use Rattle.pdb_symbolizer_lib.specs.EarlyEnds.{EndsAnswers, reads_input};
ghost use Rattle.pdb_symbolizer_lib.specs.FileRuns.{RunsOver};

use crate::line_answers::answer_input;
use crate::line_queue::LineQueue;
use crate::outputs::{ByteStream, Output};
use crate::public_names::PublicNames;
use crate::questions::Questions;
use crate::run_state::RunState;
use crate::unopened_files::end_unopened;
use crate::word_answers::answer_words;
use pdb_source_urls::SourceUrls;
use pdb_symbolizer_input::opened_files::{OpenedFile, open_file};
use pdb_symbolizer_input::options::{FileNaming, Options};
use pdb_symbolizer_input::run_errors::RunError;
use pdb_symbolizer_input::status_line::StatusLine;
use std::io::{self, Read, Seek};
use std::rt::Files;

/// Answers the addresses of the command line, or else the lines of standard input, over one file.
pub fn answer_file<R: Files + Input + Print + Eprint + AllocGlobal>(
    rt: &R,
    status_line: &StatusLine,
    options: &Options<'_>,
    path: &str,
) -> Result<(), RunError> {
    let mut out = ByteStream(io::writer(rt));
    match open_file(rt, status_line, options, path) {
        Ok(mut input) => {
            let urls = input.take_source_urls(rt.alloc());
            answer_over(rt, &mut out, options, path, &urls, &mut input, rt.reader())
        }
        Err(cause) if options.naming == FileNaming::ByOption && !cause.is_want_of_memory() => {
            end_unopened(rt, &mut out, options, path, &cause)?;
            Err(RunError::Unopened)
        }
        Err(cause) => Err(cause),
    }
}

// Answers over an open file: the words of the command line, or else the lines of this input.
fn answer_over<R: Files + Eprint + AllocGlobal, W: Output, F: Read + Seek + Drop, T: Read + Drop>(
    rt: &R,
    out: &mut W,
    options: &Options<'_>,
    path: &str,
    urls: &SourceUrls,
    input: &mut OpenedFile<F>,
    lines: T,
) -> Result<(), RunError>
    ensures answer { RunsOver options.now path.now urls.now input.old.image_base input.old.session
        (T.remaining lines) result (W.contents out.old) (W.contents out.new) }
    ensures early { IfErr result (EndsAnswers (W.takes_all out.old) (reads_input options.now)
        (string_bytes input.old.path) (flags_of options.now.printer.names) input.new.session.known.records) }
{
    let names = PublicNames::for_answers(rt.alloc(), options, input.records())?;
    let questions = Questions::new(options, path, input, &names, urls);
    let mut state = RunState::new(rt.alloc());
    let words = options.addresses.as_slice();
    if words.is_empty() {
        let mut queue = LineQueue::new(rt.alloc(), lines)?;
        answer_input(rt, out, &questions, &mut state, input, &mut queue)
    } else {
        answer_words(rt, out, &questions, &mut state, input)
    }
}
