//! Runs `pdb_symbolizer` with the words of its command line.

ghost use Rattle.std.specs.Prelude.{◌≡◌};
ghost use Rattle.pdb_symbolizer_input.specs.ExitStatuses.{exit_status};

use crate::export_files::write_files;
use crate::file_answers::answer_file;
use crate::named_file_lines::answer_named_files;
use crate::symbol_files::dump_symbols;
use crate::symbolication::symbolicate;
use pdb_symbolizer_input::command_line::parse;
use pdb_symbolizer_input::environment::words_of_run;
use pdb_symbolizer_input::identities::print_identities;
use pdb_symbolizer_input::input_files::read_all_records;
use pdb_symbolizer_input::options::{Export, Options, Purpose};
use pdb_symbolizer_input::run_errors::RunError;
use pdb_symbolizer_input::status_line::StatusLine;
use std::rt::{Env, Files};
use std::time::Clock;

/// Does what the command line asks for, prints the error if the run ends early, and returns the exit status.
pub fn run_words<R: Env + Files + Input + Print + Eprint + Clock + AllocGlobal>(
    rt: &R,
    status_line: &mut StatusLine,
    words: &[String],
) -> u8 {
    let ended = run(rt, status_line, words);
    exit_status(rt, &ended)
}

// Prints why a run ended early, if it did, and returns its exit status.
fn exit_status<R: Print + Eprint + AllocGlobal>(rt: &R, ended: &Result<(), RunError>) -> u8
    ensures { result ≡ exit_status ended.now }
{
    match ended {
        Ok(()) => 0,
        Err(error) => error.print(rt),
    }
}

fn run<R: Env + Files + Input + Print + Eprint + Clock + AllocGlobal>(
    rt: &R,
    status_line: &mut StatusLine,
    words: &[String],
) -> Result<(), RunError> {
    let words = words_of_run(rt, words)?;
    let options = parse(rt.alloc(), &words)?;
    run_over(rt, status_line, &options)
}

fn run_over<R: Files + Input + Print + Eprint + Clock + AllocGlobal>(
    rt: &R,
    status_line: &mut StatusLine,
    options: &Options<'_>,
) -> Result<(), RunError> {
    match (options.purpose, options.file) {
        (Purpose::Identities, _) => print_identities(rt, options),
        (Purpose::Export(export), Some(file)) => {
            export_file(rt, status_line, options, export, file)
        }
        (Purpose::Symbolication(form), _) => symbolicate(rt, status_line, options, form),
        (Purpose::SymbolFile(place), Some(file)) => {
            dump_symbols(rt, status_line, options, place, file)
        }
        (Purpose::Export(_) | Purpose::SymbolFile(_), None) => Err(RunError::NoFile),
        (Purpose::Answers, Some(file)) => answer_file(rt, status_line, options, file),
        (Purpose::Answers, None) => answer_named_files(rt, status_line, options),
    }
}

fn export_file<R: Files + Eprint + Clock + AllocGlobal>(
    rt: &R,
    status_line: &mut StatusLine,
    options: &Options<'_>,
    export: Export<'_>,
    file: &str,
) -> Result<(), RunError> {
    if !options.addresses.is_empty() {
        return Err(RunError::AnswersNone("export"));
    }
    let records = read_all_records(rt, status_line, options, file)?;
    write_files(rt, status_line, export, &records)
}
