//! Prints the functions, files and lines that addresses of a Windows program come from, by its PDB file.
//!
//! `pdb_symbolizer [OPTIONS] FILE [ADDRESS...]` prints for each address its function and inlined calls, in the styles
//! of `llvm-symbolizer`. Without an address on the command line, it reads addresses from standard input, one per line,
//! and answers each line before it reads the next. `pdb_symbolizer --export RECORDS FILE` writes the records of the
//! file as a records file.
#![tactic(auto)]

use pdb_symbolizer_lib::{RunError, StatusLine, run_words};
use std::env;
use std::io::IsTerminal;
use std::process::ExitCode;
use std::rt::Env;

fn main(rt: HostRuntime) -> ExitCode {
    let status = match words(&rt) {
        Ok(words) => {
            let mut status_line = StatusLine::new(&rt, rt.stderr().is_terminal());
            run_words(&rt, &mut status_line, &words)
        }
        Err(error) => error.print(&rt),
    };
    ExitCode::from(status)
}

/// The words of the command line.
fn words<R: Env + AllocGlobal>(rt: &R) -> Result<Vec<String>, RunError> {
    match env::args(rt) {
        Ok(words) => Ok(words.collect(rt.alloc())?),
        Err(error) => Err(RunError::without_words(&error)),
    }
}
