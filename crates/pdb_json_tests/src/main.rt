//! Reads changed copies of the records files in its folder, and compares the results with the expected ones.
//!
//! `changes.txt`, `module_files.txt`, `names.txt` and `members.txt` have a line `file NAME` for each text to be
//! changed, and below it a line for each case.
//!
//! In `changes.txt` a case is `OLD => NEW => ANSWER`: a text in the file, its replacement, and the result of reading
//! the changed file. The result is `read`; the text of a fault; `variant N` with the number of the variant of the only
//! type, or of the machine if there is no type; or the records as they are written again.
//!
//! In `module_files.txt` a case is `OLD => NEW => ANSWER => FILES`, with ` & ` between the texts of module files; `-`
//! means no module file, and `~` an empty one.
//!
//! In `names.txt` a case is `OLD => NEW => NAMES`: `names:` and the name of each module file with a `;` after it, or
//! the text of a fault.
//!
//! In `members.txt` a line `PATH SORT` has a member or an element, and the kind of value that is expected there. A line
//! `SORT VALUE FAULT` of `sorts.txt` has a value to put there, or `absent` to remove it, and the expected fault after
//! the path, or `read`. An element can't be absent.
//!
//! `small.json` is also truncated at each byte. Each line with a case that differs is printed, and then the number of
//! cases and of those that differ.
#![tactic(auto)]

mod changes;
mod members;
mod module_files;
mod no_json;
mod reading_texts;
mod tally;

use changes::around;
use std::alloc::Global;
use std::process::ExitCode;
use std::rt::Files;
use std::{fs, io};
use tally::Tally;

/// The subject of a test.
#[derive(Clone, Copy)]
enum Subject {
    Changes,
    ModuleFiles,
    Names,
    Members,
}

/// All subjects, each with its file of cases.
const SUBJECTS: [(Subject, &str); 4] = [
    (Subject::Changes, "changes.txt"),
    (Subject::ModuleFiles, "module_files.txt"),
    (Subject::Names, "names.txt"),
    (Subject::Members, "members.txt"),
];

/// The file that is truncated at each byte.
const CUT: &str = "small.json";

/// The file with the values that replace members.
const SORTS: &str = "sorts.txt";

fn main(rt: HostRuntime) -> io::Result<ExitCode> {
    let tally = over_all(&rt)?;
    println!(rt; "{0} cases, {1} differ", tally.asked, tally.differ)?;
    Ok(if tally.differ == 0 {
        ExitCode::SUCCESS
    } else {
        ExitCode::FAILURE
    })
}

/// Makes all cases.
fn over_all<R: Files + Print + AllocGlobal>(rt: &R) -> io::Result<Tally> {
    let sorts = fs::read_to_string(rt, SORTS)?;
    let mut tally = no_json::over_texts(rt.alloc(), &fs::read(rt, CUT)?);
    for (subject, file) in SUBJECTS {
        tally = tally.and(over_subject(rt, subject, file, sorts.as_str())?);
    }
    Ok(tally)
}

/// Makes the cases of a subject, which are in a file.
fn over_subject<R: Files + Print + AllocGlobal>(
    rt: &R,
    subject: Subject,
    file: &str,
    sorts: &str,
) -> io::Result<Tally> {
    let text = fs::read_to_string(rt, file)?;
    let mut tally = Tally::NOTHING;
    for part in text.split("file ") {
        if let Some((name, lines)) = around(part, "\n") {
            tally = tally.and(over_file(rt, subject, sorts, name, lines)?);
        }
    }
    Ok(tally)
}

/// Makes the cases over one file.
fn over_file<R: Files + Print + AllocGlobal>(
    rt: &R,
    subject: Subject,
    sorts: &str,
    name: &str,
    lines: &str,
) -> io::Result<Tally> {
    let text = fs::read_to_string(rt, name)?;
    let mut tally = Tally::NOTHING;
    for line in lines.lines() {
        tally = tally.and(over_line(rt, subject, sorts, text.as_str(), line)?);
    }
    Ok(tally)
}

/// Makes the cases of one line over a text. A line with one that differs is printed.
fn over_line<R: Print + AllocGlobal>(
    rt: &R,
    subject: Subject,
    sorts: &str,
    text: &str,
    line: &str,
) -> io::Result<Tally> {
    let tally = answered(rt.alloc(), subject, sorts, text, line);
    if tally.differ > 0 {
        rt.println(line)?;
    }
    Ok(tally)
}

/// The tally of the cases in one line over a text.
fn answered(alloc: Global, subject: Subject, sorts: &str, text: &str, line: &str) -> Tally {
    match subject {
        Subject::Changes => Tally::of_case(changes::is_answered(alloc, text, line)),
        Subject::ModuleFiles => Tally::of_case(module_files::is_answered(alloc, text, line)),
        Subject::Names => Tally::of_case(module_files::are_named(alloc, text, line)),
        Subject::Members => members::over_sorts(alloc, sorts, text, line),
    }
}
