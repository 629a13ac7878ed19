//! The optional debug header: the numbers of streams that not every file has.

ghost use Rattle.std.specs.Prelude.{◌≡◌};
ghost use Rattle.pdb_dbi.specs.OptionalStreams.{optional_stream, stream_number};

use pdb_msf::{Bytes, bytes_from};

/// The number that means that there is no stream.
const NO_STREAM_NUMBER: u16 = 0xffff;

/// The number of a stream; `None` if it means that there is none.
pub fn stream_number(number: u16) -> Option<u16>
    ensures { result ≡ stream_number number }
{
    if number == NO_STREAM_NUMBER {
        return None;
    }
    Some(number)
}

/// The number at a position of the optional debug header; `None` if there is no such stream.
#[tactic(auto, unfolding(crate::specs::OptionalStreams::optional_stream))]
pub fn optional_stream(numbers: &[u8], position: usize) -> Option<u16>
    ensures { result ≡ optional_stream numbers.now position }
{
    let start = position.saturating_mul(2);
    match Bytes::new(bytes_from(numbers, start)).u16() {
        Ok(number) => stream_number(number),
        Err(_) => None,
    }
}
