//! Substreams: parts of a stream whose lengths are given elsewhere, as far as the stream has their bytes.

ghost use Rattle.std.specs.Prelude.{◌≡◌, drop};
ghost use Rattle.pdb_dbi.specs.Substreams.{substream};

use pdb_msf::faults::CUT;
use pdb_msf::{Bytes, bytes_from};
use pdb_records::StreamError;
use std::marker::Model;

/// The bytes of a substream, as far as the stream has them, and the fault if they end early.
#[derive(Drop)]
pub struct Substream<'a> {
    pub bytes: &'a [u8],
    pub fault: Option<StreamError>,
}

impl<'a> Model for Substream<'a> {
    ghost use Rattle.pdb_dbi.specs.Substreams.{SubstreamBytes};

    ghost Value = { SubstreamBytes };

    ghost view = { λ s. record { bytes = s.bytes.now; fault = s.fault } };
}

/// Reads the next `length` bytes, or all that are left if there are fewer.
pub fn take_substream<'a>(rest: &mut Bytes<'a>, length: u32) -> Substream<'a>
    ensures answer { result ≡ substream length rest.old }
    ensures state { rest.new ≡ drop length rest.old }
{
    let wanted = length as usize;
    let there = rest.len().min(wanted);
    let fault = if there < wanted { Some(CUT) } else { None };
    match rest.take(there) {
        Ok(bytes) => Substream { bytes, fault },
        Err(error) => Substream {
            bytes: &[],
            fault: Some(error),
        },
    }
}

/// The substream of this length from an offset of a stream on, as far as the stream has it.
pub fn substream_at(stream: &[u8], place: usize, length: u32) -> Substream<'_>
    ensures { result ≡ substream length (drop place stream.now) }
{
    take_substream(&mut Bytes::new(bytes_from(stream, place)), length)
}
