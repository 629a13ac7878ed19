//! Makes calls over the records files in its folder, and compares the answers with the expected ones.
//!
//! Each file of questions has a line `file NAME` for each records file, and below it the questions for that one.
//!
//! `calls.txt` has lists of calls: a line `CALL | ANSWER` for each call, and an empty line after each list. Each list
//! is run in a context of its own. The calls are `function ADDRESS`, `frames ADDRESS`, `functions`, `count`, `size
//! MODULE INDEX`, `signature MODULE INDEX NAME` and `id MODULE INDEX`, with addresses and indices in hexadecimal. In an
//! answer, `!` precedes the text of an error.
//!
//! `sizes.txt` has a line `MODULE INDEX SIZE` for each size: the module index of the module that has the index, the
//! index in hexadecimal, and the size in bytes. The questions over a file are asked once for each of them, in a new
//! formatter that is asked this one first.
//!
//! `signatures.txt` has a line `FLAGS MODULE INDEX NAME | OUTCOME | TEXT` for each signature: the content of a string
//! after the signature was written into it, and the outcome, which is `ok` or the text of an error. Consecutive
//! questions with the same flags go to one formatter, which remembers the broken parts of the records that it found.
//!
//! `ids.txt` is such a file too. A line without NAME asks for the id of the index. A line with one asks for a
//! signature, to test a formatter with both. Its last records file, `small_x64_types.json`, has the types and ids of a
//! genuine program.
//!
//! `ways.txt` has lists of calls as `calls.txt` has. Each list goes to contexts that are made in other ways: with
//! flags, from parts, from parts whose provider counts, and over borrowed records. The calls are made at once and one
//! by one, and the answers are cloned.
//!
//! `lent.txt` has a line `NAME | OUTCOME` for each records file whose records are borrowed: `taken`, or the text of an
//! error after `!`. In both cases the records stay unchanged.
//!
//! `parts.txt` has a line `NAME | PART` for each part of a context that no list of calls tests, over a records file.
#![tactic(auto)]

mod call_answers;
mod calls;
mod lent_records;
mod lists;
mod parts;
mod printed;
mod signatures;
mod single_parts;
mod sizes;
mod tally;
mod texts;
mod ways;

use pdb_addr2line::ContextPdbData;
use pdb_json::read_records;
use std::alloc::Global;
use std::rt::Files;
use std::{fs, io};
use tally::Tally;
use texts::{around, print_line};

/// The subject of a test.
#[derive(Clone, Copy)]
enum Subject {
    Calls,
    Sizes,
    Signatures,
    Ids,
    Ways,
    Lent,
    Parts,
}

/// All subjects in order, each with its file of questions and its name.
const SUBJECTS: [(Subject, &str, &str); 7] = [
    (Subject::Calls, "calls.txt", "calls"),
    (Subject::Sizes, "sizes.txt", "sizes"),
    (Subject::Signatures, "signatures.txt", "signatures"),
    (Subject::Ids, "ids.txt", "ids"),
    (Subject::Ways, "ways.txt", "calls in other ways"),
    (Subject::Lent, "lent.txt", "lent files"),
    (Subject::Parts, "parts.txt", "parts"),
];

fn main(rt: HostRuntime) -> io::Result<()> {
    for (subject, file, name) in SUBJECTS {
        let tally = compare(&rt, subject, file)?;
        println!(rt; "{0} {name}, {1} differ", tally.asked, tally.differ)?;
    }
    Ok(())
}

/// Asks all questions of a subject, and counts them and the answers that differ; for calls it counts lists.
fn compare<R: Files + Print + AllocGlobal>(
    rt: &R,
    subject: Subject,
    file: &str,
) -> io::Result<Tally> {
    let text = fs::read_to_string(rt, file)?;
    match subject {
        Subject::Lent | Subject::Parts => over_lines(rt, subject, text.as_str()),
        _ => over_files(rt, subject, text.as_str()),
    }
}

/// Asks the question of each line.
fn over_lines<R: Files + Print + AllocGlobal>(
    rt: &R,
    subject: Subject,
    text: &str,
) -> io::Result<Tally> {
    let mut tally = Tally::NOTHING;
    for line in text.lines() {
        tally = over_line(rt, subject, line, tally)?;
    }
    Ok(tally)
}

/// Asks the question of a line `NAME | WANTED` over the file of that name. A line that differs is printed.
fn over_line<R: Files + Print + AllocGlobal>(
    rt: &R,
    subject: Subject,
    line: &str,
    tally: Tally,
) -> io::Result<Tally> {
    let (name, wanted) = around(line, " | ").unwrap_or((line, ""));
    let bytes = fs::read(rt, name)?;
    if is_as_wanted(rt.alloc(), subject, &bytes, wanted) {
        return Ok(tally.asked(1));
    }
    print_line(rt, line, " differs")?;
    Ok(tally.asked(1).differing())
}

/// Whether the answer over a file is the expected one.
fn is_as_wanted(alloc: Global, subject: Subject, bytes: &[u8], wanted: &str) -> bool {
    match subject {
        Subject::Lent => lent_records::stay_as_lent(alloc, bytes, wanted),
        _ => data_of(alloc, bytes).is_some_and(|data| {
            single_parts::is_as_it_should(alloc, &data, wanted)
        }),
    }
}

/// Asks the questions over each of the files.
fn over_files<R: Files + Print + AllocGlobal>(
    rt: &R,
    subject: Subject,
    text: &str,
) -> io::Result<Tally> {
    let mut tally = Tally::NOTHING;
    for part in text.split("file ") {
        if !part.is_empty() {
            tally = over_file(rt, subject, part, tally)?;
        }
    }
    Ok(tally)
}

/// Asks the questions over one file. A refused file counts as a question whose answer differs.
fn over_file<R: Files + Print + AllocGlobal>(
    rt: &R,
    subject: Subject,
    part: &str,
    tally: Tally,
) -> io::Result<Tally> {
    let (name, _) = around(part, "\n").unwrap_or((part, ""));
    let bytes = fs::read(rt, name)?;
    if let Some(data) = data_of(rt.alloc(), &bytes) {
        return over_data(rt, subject, &data, &bytes, part, tally);
    }
    print_line(rt, name, " was refused")?;
    Ok(tally.asked(1).differing())
}

/// The records of a file, if it holds some.
fn data_of(alloc: Global, bytes: &[u8]) -> Option<ContextPdbData<'static>> {
    let records = read_records(alloc, bytes).ok()?;
    ContextPdbData::try_from_pdb(alloc, records).ok()
}

/// Asks the questions over the records of a file.
fn over_data<R: Print + AllocGlobal>(
    rt: &R,
    subject: Subject,
    data: &ContextPdbData<'_>,
    file: &[u8],
    part: &str,
    tally: Tally,
) -> io::Result<Tally> {
    match subject {
        Subject::Calls => calls::over_data(rt, data, part, tally),
        Subject::Sizes => sizes::over_data(rt, data, part, tally),
        Subject::Signatures | Subject::Ids => signatures::over_data(rt, data, part, tally),
        _ => ways::over_data(rt, data, file, part, tally),
    }
}
