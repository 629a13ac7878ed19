//! Texts that are no JSON, and allocation failures.

use crate::reading_texts::{is_refused_as, is_wanted};
use crate::tally::Tally;
use pdb_json::{RecordFault, read_records};
use std::alloc::Global;

/// Whether bytes are refused as no JSON text.
fn is_no_json(alloc: Global, bytes: &[u8]) -> bool {
    is_wanted(alloc, &read_records(alloc, bytes), "not a JSON text")
}

/// Truncates a text at each byte, and tries bytes that are no text.
pub(crate) fn over_texts(alloc: Global, text: &[u8]) -> Tally {
    let mut tally = Tally::of_case(is_no_json(alloc, b"{\"more\":\"\xff\"}"));
    for end in 0..text.len() {
        tally = tally.and(Tally::of_case(is_no_json(alloc, &text[..end])));
    }
    tally.and(Tally::of_case(is_refused_as(alloc, &RecordFault::OutOfMemory, "out of memory")))
}
