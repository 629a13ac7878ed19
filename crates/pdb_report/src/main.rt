//! Shows which functions addresses of a Windows program lie in, over the records of a file.
//!
//! `pdb_report RECORDS frames ADDRESS...` prints for each address its function and inlined calls, with files and lines.
//! `pdb_report RECORDS names ADDRESS...` prints one line with the function of each address. `pdb_report RECORDS list`
//! prints one line for each function of the program.
#![tactic(auto)]

use pdb_addr2line::Error;
use pdb_report_lib::{CommandError, Out, ran_out_of_memory, run};
use std::io::BufWriter;
use std::process::ExitCode;
use std::rt::Env;
use std::{env, io};

fn main(rt: HostRuntime) -> ExitCode {
    let words = match words(&rt) {
        Ok(words) => words,
        Err(stop) => return print_stop(&rt, &stop),
    };
    let Ok(writer) = BufWriter::new(rt.alloc(), io::writer(&rt)) else {
        return print_stop(&rt, &CommandError::Refused(Error::OutOfMemory));
    };
    match run(&rt, &words, &mut Out::new(writer)) {
        Ok(()) => ExitCode::SUCCESS,
        Err(stop) => print_stop(&rt, &stop),
    }
}

// The words of the command line. Words that aren't UTF-8 are a usage error.
fn words<R: Env + AllocGlobal>(rt: &R) -> Result<Vec<String>, CommandError<'static>> {
    let words = match env::args(rt) {
        Ok(words) => words,
        Err(error) if ran_out_of_memory(&error) => return Err(CommandError::Refused(
            Error::OutOfMemory,
        )),
        Err(_) => return Err(CommandError::Usage),
    };
    match words.collect(rt.alloc()) {
        Ok(words) => Ok(words),
        Err(_) => Err(CommandError::Refused(Error::OutOfMemory)),
    }
}

// Prints why the program ended early, and returns its exit status.
fn print_stop<R: Eprint>(rt: &R, stop: &CommandError<'_>) -> ExitCode {
    let _ = eprintln!(rt; "{stop}");
    ExitCode::from(stop.status())
}
