//! Lists of calls, each made to a context of its own.

use crate::lists::{lists_of, outcome_of};
use crate::tally::Tally;
use crate::texts::print_line;
use pdb_addr2line::ContextPdbData;
use std::io;

/// Makes the calls over records.
pub(crate) fn over_data<R: Print + AllocGlobal>(
    rt: &R,
    data: &ContextPdbData<'_>,
    part: &str,
    tally: Tally,
) -> io::Result<Tally> {
    let mut tally = tally;
    for list in lists_of(rt.alloc(), part)? {
        tally = tally.asked(list.calls());
        let outcome = outcome_of(rt.alloc(), data, list)?;
        if outcome.made_again {
            print_line(rt, list.first(), " was made again")?;
        }
        if outcome.differs {
            print_line(rt, list.first(), " differs")?;
            tally = tally.differing();
        }
    }
    Ok(tally)
}
