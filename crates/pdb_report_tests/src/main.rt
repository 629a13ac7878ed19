//! Runs the report over the records files in its folder, and compares the output with the expected one.
//!
//! `cases.txt` has for each case a line `$ pdb_report WORD ..`, the expected lines on standard output and on standard
//! error, and a line `status N`. A case that succeeds is run again with writers that refuse: one for each amount of
//! room that is too small for its text, and one that can't be flushed. `report` itself also writes reports into such
//! writers.
#![tactic(auto)]

mod cases;
mod reports;
mod writers;

use cases::{Case, next_case};
use pdb_report_lib::{Out, run};
use std::alloc::{AllocError, Global};
use std::process::ExitCode;
use std::rt::Files;
use std::{fs, io};

/// The file with the cases.
const CASES: &str = "cases.txt";

/// A records file without sections, so that each address has a short line.
const NO_SECTIONS: &str = "null_sections.json";

fn main(rt: HostRuntime) -> io::Result<ExitCode> {
    let text = fs::read_to_string(&rt, CASES)?;
    let differing = compare(&rt, text.as_str())?;
    Ok(if are_reported(&rt)? && differing == 0 {
        ExitCode::SUCCESS
    } else {
        ExitCode::FAILURE
    })
}

/// Whether reports end as they should with writers that refuse. Prints it if they don't.
fn are_reported<R: Files + Print + AllocGlobal>(rt: &R) -> io::Result<bool> {
    let file = fs::read(rt, NO_SECTIONS)?;
    if reports::end_as_they_should(rt.alloc(), &file) {
        return Ok(true);
    }
    rt.println("reports differ where they can't be written")?;
    Ok(false)
}

/// Runs each case, prints those that differ and their number, and returns that number.
fn compare<R: Files + Print + AllocGlobal>(rt: &R, text: &str) -> io::Result<u64> {
    let mut rest = text;
    let mut cases: u64 = 0;
    let mut differing: u64 = 0;
    for _ in 0..text.len() {
        let Some((case, others)) = next_case(rest) else {
            break;
        };
        rest = others;
        cases = cases.saturating_add(1);
        if !is_as_wanted(rt, &case)? {
            differing = differing.saturating_add(1);
        }
    }
    println!(rt; "{cases} cases, {differing} differ")?;
    Ok(differing)
}

/// Whether a case has the expected output. Prints one that differs.
fn is_as_wanted<R: Files + Print + AllocGlobal>(rt: &R, case: &Case<'_>) -> io::Result<bool> {
    let (text, status) = outcome(rt, case.command)?;
    if text.as_str() == case.wanted && status == case.status {
        return is_refused_as_wanted(rt, case);
    }
    println!(rt; "{}", case.command)?;
    println!(rt; "{text}status {status}")?;
    Ok(false)
}

/// Whether a case ends as it should with writers that refuse. Prints one that differs.
fn is_refused_as_wanted<R: Files + Print + AllocGlobal>(
    rt: &R,
    case: &Case<'_>,
) -> io::Result<bool> {
    if writers::end_as_they_should(rt, case)? {
        return Ok(true);
    }
    println!(rt; "{} differs where it can't write", case.command)?;
    Ok(false)
}

/// The output of a command line, on standard output and then on standard error, and its exit status.
fn outcome<R: Files + AllocGlobal>(rt: &R, command: &str) -> io::Result<(String, u64)> {
    let alloc = rt.alloc();
    let words = words_of(alloc, command)?;
    let mut out = Out::new(Vec::new(alloc));
    let ended = run(rt, &words, &mut out);
    let mut text = String::from_utf8_lossy(alloc, out.into_inner().as_slice())?;
    let Err(stop) = ended else {
        return Ok((text, 0));
    };
    let line = format!(in alloc; "{stop}\n")?;
    text.push_str(line.as_str())?;
    Ok((text, u64::from(stop.status())))
}

/// The words of a command line.
fn words_of(alloc: Global, command: &str) -> Result<Vec<String>, AllocError> {
    let mut words = Vec::new(alloc);
    for word in command.split_whitespace() {
        words.push(String::from_str(alloc, word)?)?;
    }
    Ok(words)
}
