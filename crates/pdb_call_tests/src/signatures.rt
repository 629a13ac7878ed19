//! Signatures of functions, and ids, asked for under flags.

use crate::printed::{answers, flags_of, printed_question_of};
use crate::tally::Tally;
use crate::texts::print_line;
use pdb_addr2line::ContextPdbData;
use std::io;

/// The bits of the flags that a formatter has where none are named.
const DEFAULT_FLAGS: u32 = 23;

/// Asks the questions over records: a formatter for each run of equal flags.
pub(crate) fn over_data<R: Print + AllocGlobal>(
    rt: &R,
    data: &ContextPdbData<'_>,
    part: &str,
    tally: Tally,
) -> io::Result<Tally> {
    let mut tally = tally;
    let mut bits = DEFAULT_FLAGS;
    let Ok(mut formatter) = data.make_type_formatter() else {
        return Ok(tally.asked(1).differing());
    };
    for line in part.lines() {
        let Some(question) = printed_question_of(line) else {
            continue;
        };
        if question.flags != bits {
            bits = question.flags;
            let Ok(other) = data.make_type_formatter_with_flags(flags_of(bits)) else {
                return Ok(tally.asked(1).differing());
            };
            formatter = other;
        }
        tally = tally.asked(1);
        if !answers(rt.alloc(), &mut formatter, question) {
            print_line(rt, line, " differs")?;
            tally = tally.differing();
        }
    }
    Ok(tally)
}
