//! Answers requests of the symbolication API on standard input: the whole input is one request, or each line is.

use crate::outputs::{ByteStream, Output};
use crate::symbolized_modules::texts_of_modules;
use pdb_addr2line::Error;
use pdb_records_files::ran_out_of_memory;
use pdb_symbolication::{
    RecordFault, SymbolicationRequest, WantedModules, error_line, write_answer,
};
use pdb_symbolizer_input::kept_files::KeptFiles;
use pdb_symbolizer_input::options::{Options, RequestForm};
use pdb_symbolizer_input::run_errors::RunError;
use pdb_symbolizer_input::status_line::StatusLine;
use std::io::{self, BufRead, BufReader, BufWriter, Read};
use std::rt::Files;
use std::time::Clock;

/// The greatest length of a line with a request, with its end, in bytes.
const LONGEST_LINE: u64 = 1 << 24;

/// What became of a text that should be a request.
#[derive(Drop)]
enum Outcome {
    Answered,
    /// The text isn't a valid request, for this reason.
    Refused(String),
}

/// Answers the requests of standard input, over the PDB files in the folders of the options.
pub fn symbolicate<R: Files + Input + Print + Eprint + Clock + AllocGlobal>(
    rt: &R,
    status_line: &mut StatusLine,
    options: &Options<'_>,
    form: RequestForm,
) -> Result<(), RunError> {
    if options.file.is_some() || !options.addresses.is_empty() {
        return Err(RunError::TakesNone("symbolicate"));
    }
    match form {
        RequestForm::Whole => answer_input(rt, options),
        RequestForm::Lines => answer_lines(rt, status_line, options),
    }
}

// Answers the whole input as one request. Files don't stay open, because no request follows.
fn answer_input<R: Files + Input + Print + Eprint + AllocGlobal>(
    rt: &R,
    options: &Options<'_>,
) -> Result<(), RunError> {
    let mut bytes = Vec::new(rt.alloc());
    known_input(rt.reader().read_to_end(&mut bytes))?;
    let mut files = KeptFiles::new(rt.alloc(), 0)?;
    match answer_text(rt, options, &mut files, bytes)? {
        Outcome::Answered => Ok(()),
        Outcome::Refused(why) => Err(RunError::NoRequest(why)),
    }
}

// Answers each line of standard input before it reads the next one.
fn answer_lines<R: Files + Input + Print + Eprint + Clock + AllocGlobal>(
    rt: &R,
    status_line: &mut StatusLine,
    options: &Options<'_>,
) -> Result<(), RunError> {
    let Ok(mut reader) = BufReader::new(rt.alloc(), rt.reader()) else {
        return Err(RunError::Refused(Error::OutOfMemory));
    };
    let mut files = KeptFiles::new(rt.alloc(), options.cache_size)?;
    let mut refused = 0u64;
    for _ in 0..u64::MAX {
        match answer_next_line(rt, options, &mut files, &mut reader)? {
            None => break,
            Some(Outcome::Answered) => {}
            Some(Outcome::Refused(_)) => refused = refused.saturating_add(1),
        }
        status_line.count_request(rt, files.count(), files.size());
    }
    match refused {
        0 => Ok(()),
        _ => Err(RunError::NoRequests(refused)),
    }
}

// Reads the next line and answers it; `None` at the end of the input.
fn answer_next_line<R: Files + Print + Eprint + AllocGlobal, B: BufRead>(
    rt: &R,
    options: &Options<'_>,
    files: &mut KeptFiles<R::File>,
    reader: &mut B,
) -> Result<Option<Outcome>, RunError> {
    let mut line = Vec::new(rt.alloc());
    let mut limited = (&mut *reader).take(LONGEST_LINE);
    known_input(limited.read_until(b'\n', &mut line))?;
    if line.is_empty() {
        return Ok(None);
    }
    if line.len() as u64 == LONGEST_LINE && !line.ends_with(b"\n") {
        known_input(reader.skip_until(b'\n'))?;
        let why = format!(in rt.alloc(); "a line longer than {LONGEST_LINE} bytes")?;
        return Ok(Some(refuse(rt, why)?));
    }
    Ok(Some(answer_text(rt, options, files, line)?))
}

// Turns an error of reading the input into the run's error.
fn known_input(read: io::Result<usize>) -> Result<(), RunError> {
    match read {
        Ok(_) => Ok(()),
        Err(error) if ran_out_of_memory(&error) => Err(RunError::Refused(Error::OutOfMemory)),
        Err(_) => Err(RunError::CannotReadInput),
    }
}

// Writes a line with the answer to a request, or with the error in its text.
fn answer_text<R: Files + Print + Eprint + AllocGlobal>(
    rt: &R,
    options: &Options<'_>,
    files: &mut KeptFiles<R::File>,
    text: Vec<u8>,
) -> Result<Outcome, RunError> {
    let request = SymbolicationRequest::from_slice(rt.alloc(), &text);
    drop(text);
    match request {
        Ok(request) => answer_request(rt, options, files, &request),
        Err(RecordFault::OutOfMemory) => Err(RunError::Refused(Error::OutOfMemory)),
        Err(fault) => refuse(rt, format!(in rt.alloc(); "{fault}")?),
    }
}

fn refuse<R: Print + AllocGlobal>(rt: &R, why: String) -> Result<Outcome, RunError> {
    let line = error_line(rt.alloc(), why.as_str())?;
    ByteStream(io::writer(rt)).write_text(line.as_str())?;
    Ok(Outcome::Refused(why))
}

fn answer_request<R: Files + Print + Eprint + AllocGlobal>(
    rt: &R,
    options: &Options<'_>,
    files: &mut KeptFiles<R::File>,
    request: &SymbolicationRequest,
) -> Result<Outcome, RunError> {
    let wanted = WantedModules::of(rt.alloc(), request)?;
    let found = texts_of_modules(rt, options, files, &wanted.modules)?;
    let mut writer = BufWriter::new(rt.alloc(), io::writer(rt))?;
    write_answer(rt.alloc(), &mut writer, request, &wanted, &found)?;
    Ok(Outcome::Answered)
}
