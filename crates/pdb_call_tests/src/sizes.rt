//! Questions for sizes of types by their index, with the expected sizes.

use crate::tally::Tally;
use crate::texts::{around, hexadecimal, module_index, print_line};
use pdb_addr2line::pdb::TypeIndex;
use pdb_addr2line::{ContextPdbData, TypeFormatter};
use std::alloc::{AllocError, Global};
use std::io;

/// A question for a size, and the expected size.
#[derive(Clone, Copy)]
struct Question<'t> {
    /// The line that asks it.
    line: &'t str,
    module: usize,
    index: u32,
    size: u64,
}

/// The question of a line `MODULE INDEX SIZE`, if it is one.
fn question_of(line: &str) -> Option<Question<'_>> {
    let (module, rest) = module_index(line)?;
    let (index, size) = around(rest, " ")?;
    let index = hexadecimal(index)?;
    let size = size.parse::<u64>().ok()?;
    Some(Question {
        line,
        module,
        index,
        size,
    })
}

/// The questions in the lines of a part.
fn questions_of(alloc: Global, part: &str) -> Result<Vec<Question<'_>>, AllocError> {
    let mut questions = Vec::new(alloc);
    for line in part.lines() {
        if let Some(question) = question_of(line) {
            questions.push(question)?;
        }
    }
    Ok(questions)
}

/// Asks the questions over records, once for each question that may come first.
pub(crate) fn over_data<R: Print + AllocGlobal>(
    rt: &R,
    data: &ContextPdbData<'_>,
    part: &str,
    tally: Tally,
) -> io::Result<Tally> {
    let questions = questions_of(rt.alloc(), part)?;
    let mut tally = tally;
    for first in &questions {
        tally = ask_all(rt, data, *first, &questions, tally)?;
    }
    Ok(tally)
}

/// Asks a new formatter one question, and then all.
fn ask_all<R: Print>(
    rt: &R,
    data: &ContextPdbData<'_>,
    first: Question<'_>,
    questions: &[Question<'_>],
    tally: Tally,
) -> io::Result<Tally> {
    let Ok(mut formatter) = data.make_type_formatter() else {
        return Ok(tally.asked(1).differing());
    };
    let mut tally = ask(rt, &mut formatter, first, tally)?;
    for question in questions {
        tally = ask(rt, &mut formatter, *question, tally)?;
    }
    Ok(tally)
}

/// Asks one question. One whose answer differs is printed.
fn ask<R: Print>(
    rt: &R,
    formatter: &mut TypeFormatter<'_, ContextPdbData<'_>>,
    question: Question<'_>,
    tally: Tally,
) -> io::Result<Tally> {
    let size = formatter.get_type_size(question.module, TypeIndex(question.index));
    if size.ok() == Some(question.size) {
        return Ok(tally.asked(1));
    }
    print_line(rt, question.line, " differs")?;
    Ok(tally.asked(1).differing())
}
