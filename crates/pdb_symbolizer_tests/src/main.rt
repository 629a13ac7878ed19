//! Runs the lines of `cases.txt` as `pdb_symbolizer` would, and prints the output of each run.
//!
//! A line of `cases.txt` has an optional environment variable as `NAME="TEXT"`, the words of a command line, and after
//! ` < ` the lines of standard input with `|` between them. Or it is `cat FILE`, for a file that a run wrote. The
//! program prints the line after `$ `, the run's standard output, its standard error with `standard error: ` before
//! each line, and a line `status N`. `write_cases.py` in the folder of the cases says where the expected texts come
//! from.
#![tactic(auto)]

mod cases;
mod terminal;

use cases::{Case, case_of};
use pdb_symbolizer_lib::{StatusLine, run_words};
use std::fs;
use std::rt::Files;
use std::time::Clock;
use terminal::Terminal;

/// The file with the cases.
const CASES: &str = "cases.txt";

/// The word before the name of a file to print.
const CAT: &str = "cat ";

fn main(rt: HostRuntime) -> anyhow::Result<()> {
    let text = fs::read_to_string(&rt, CASES)?;
    for line in text.lines() {
        println!(rt; "$ {line}")?;
        match line.strip_prefix(CAT) {
            Some(file) => rt.print(fs::read_to_string(&rt, file)?)?,
            None => run_case(&rt, &case_of(rt.alloc(), line)?)?,
        }
    }
    Ok(())
}

/// Runs a case, and prints its output and its exit status.
fn run_case<R: Files + Print + Clock + AllocGlobal>(rt: &R, case: &Case) -> anyhow::Result<()> {
    let terminal = Terminal {
        rt,
        variable: &case.variable,
        input: case.input.as_bytes(),
    };
    let status = run_words(&terminal, &mut StatusLine::new(rt, false), &case.words);
    println!(rt; "status {status}")?;
    Ok(())
}
