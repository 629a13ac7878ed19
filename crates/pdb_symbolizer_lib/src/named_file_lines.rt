//! Answers lines of standard input that each name a file and an address in it.
//!
//! Consecutive lines that name the same file are answered with one context. A PDB file stays open when lines of another
//! file come between.

use crate::frame_answers::print_lack;
use crate::line_answers::{addresses_of_lines, answer_line};
use crate::line_queue::LineQueue;
use crate::outputs::{ByteStream, Output, write_line_answer};
use crate::public_names::PublicNames;
use crate::questions::Questions;
use crate::run_state::RunState;
use crate::unopened_files::answer_unopened;
use pdb_answer_printer::{InputLine, parse_input_line, write_unknown};
use pdb_session::SessionContext;
use pdb_symbolizer_input::input_files::find_file_of_line;
use pdb_symbolizer_input::kept_files::{KeptFiles, UsedFile, open_used};
use pdb_symbolizer_input::known_programs::KnownPrograms;
use pdb_symbolizer_input::opened_files::OpenedFile;
use pdb_symbolizer_input::options::Options;
use pdb_symbolizer_input::run_errors::RunError;
use pdb_symbolizer_input::status_line::StatusLine;
use std::io::{self, Read, Seek};
use std::rt::Files;

// Programs and files that are cached from one line to the next.
#[derive(Drop)]
struct Kept<F: Read + Seek + Drop> {
    programs: KnownPrograms,
    files: KeptFiles<F>,
}

/// Answers the lines of standard input. Each line names its file.
pub fn answer_named_files<R: Files + Input + Print + Eprint + AllocGlobal>(
    rt: &R,
    status_line: &StatusLine,
    options: &Options<'_>,
) -> Result<(), RunError> {
    let mut state = RunState::new(rt.alloc());
    let mut kept = Kept {
        programs: KnownPrograms::new(rt.alloc(), options.cache_size)?,
        files: KeptFiles::new(rt.alloc(), options.cache_size)?,
    };
    let mut queue = LineQueue::new(rt.alloc(), rt.reader())?;
    let mut out = ByteStream(io::writer(rt));
    for _ in 0..u64::MAX {
        if queue.first().is_none() {
            break;
        }
        answer_next_lines(
            rt,
            &mut out,
            status_line,
            options,
            &mut kept,
            &mut state,
            &mut queue,
        )?;
    }
    if state.unopened {
        return Err(RunError::Unopened);
    }
    Ok(())
}

// Answers the first line, and the lines after it that name the same file.
fn answer_next_lines<R: Files + Print + Eprint + AllocGlobal, W: Output, T: Read + Drop>(
    rt: &R,
    out: &mut W,
    status_line: &StatusLine,
    options: &Options<'_>,
    kept: &mut Kept<R::File>,
    state: &mut RunState,
    queue: &mut LineQueue<T>,
) -> Result<(), RunError> {
    let line = String::from_str(rt.alloc(), queue.first().unwrap_or(""))?;
    let request = parse_input_line(line.as_str(), None, options.digits);
    if request.is_nowhere() {
        print_lack(rt, &request, line.as_str());
        answer_none(rt, out, options, &request)?;
        return queue.pass();
    }
    match open_named(rt, status_line, options, kept, request.file) {
        Ok(mut used) => {
            answer_lines_of(rt, out, options, request.file, &mut used.file, state, queue)?;
            used.keep(rt.alloc(), &mut kept.files);
            Ok(())
        }
        Err(cause) if cause.is_want_of_memory() => Err(cause),
        Err(cause) => {
            state.unopened = true;
            answer_unopened(rt, out, options, &request, &cause)?;
            queue.pass()
        }
    }
}

// Opens the file that a line names, or takes it from the open files.
fn open_named<R: Files + Eprint + AllocGlobal>(
    rt: &R,
    status_line: &StatusLine,
    options: &Options<'_>,
    kept: &mut Kept<R::File>,
    path: &str,
) -> Result<UsedFile<R::File>, RunError> {
    let source = find_file_of_line(rt, status_line, options, &mut kept.programs, path)?;
    open_used(rt, options, &mut kept.files, source)
}

// Answers a line that isn't a request.
fn answer_none<R: AllocGlobal, W: Output>(
    rt: &R,
    out: &mut W,
    options: &Options<'_>,
    request: &InputLine<'_>,
) -> Result<(), RunError> {
    let mut text = String::new(rt.alloc());
    write_unknown(&mut text, &options.printer, request)?;
    write_line_answer(out, options.printer.style, text)
}

// Answers lines that name this file. The modules that all ready lines need are read together.
fn answer_lines_of<
    R: Files + Eprint + AllocGlobal,
    W: Output,
    F: Read + Seek + Drop,
    T: Read + Drop,
>(
    rt: &R,
    out: &mut W,
    options: &Options<'_>,
    path: &str,
    input: &mut OpenedFile<F>,
    state: &mut RunState,
    queue: &mut LineQueue<T>,
) -> Result<(), RunError> {
    let names = PublicNames::for_answers(rt.alloc(), options, input.records())?;
    let urls = input.take_source_urls(rt.alloc());
    let questions = Questions::new(options, path, input, &names, &urls);
    for _ in 0..u64::MAX {
        let addresses = addresses_of_lines(rt.alloc(), &questions, queue)?;
        input.read_for(rt, &addresses)?;
        if answer_same_file(rt, out, &questions, state, input, queue)? == Left::Nothing {
            break;
        }
    }
    input.source_urls = urls;
    Ok(())
}

// Why answering the lines of one file stopped.
#[derive(Clone, Copy, PartialEq, Eq)]
enum Left {
    /// The next line names another file, or there is none.
    Nothing,
    /// The next line names the same file, and needs records that weren't read.
    Lines,
}

// Answers lines with one context, up to the first line that names another file or needs records that weren't read.
fn answer_same_file<
    R: Files + Eprint + AllocGlobal,
    W: Output,
    F: Read + Seek + Drop,
    T: Read + Drop,
>(
    rt: &R,
    out: &mut W,
    questions: &Questions<'_, '_>,
    state: &mut RunState,
    input: &OpenedFile<F>,
    queue: &mut LineQueue<T>,
) -> Result<Left, RunError> {
    let data = input.session.data()?;
    let mut context = data.context(questions.options.flags())?;
    for _ in 0..u64::MAX {
        match queue.first() {
            Some(line) if !questions.names_other_file(line) => {
                if questions.needs_more(&context, line) {
                    return Ok(Left::Lines);
                }
                answer_line(rt, out, questions, &mut context, state, line)?;
            }
            _ => break,
        }
        queue.pass()?;
    }
    Ok(Left::Nothing)
}
