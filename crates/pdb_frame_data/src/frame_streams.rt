//! Reads the streams of a PDB file that have frame data, FPO data, and program strings.

ghost use Rattle.std.specs.Prelude.{◌≡◌, ◌≤◌, IfErr, IfOk};
ghost use Rattle.pdb_frame_data.specs.FrameStreams.{frame_stream, program_strings};
ghost use Rattle.pdb_msf.specs.Msf.{stream_of};
ghost use Rattle.pdb_msf.specs.MsfLayout.{IfFile, bytes_read, with_bytes};

use pdb_container::parts::{DEBUG, INFO, InfoStream, NAMES};
use pdb_dbi::{optional_stream, read_header};
use pdb_msf::{MsfLayout, Source, SourceError, StreamSubset};
use pdb_records::StreamError;
use std::alloc::Global;

/// The position of FPO data in the optional debug header.
const FPO: usize = 0;

/// The position of frame data in the optional debug header.
const FRAME_DATA: usize = 9;

/// The bytes of these streams.
#[derive(Drop)]
pub(crate) struct FrameStreams {
    pub(crate) frame_data: Result<Vec<u8>, StreamError>,
    pub(crate) fpo: Result<Vec<u8>, StreamError>,
    /// The program strings. A program starts at its offset plus twelve bytes, and ends before a zero.
    pub(crate) strings: Vec<u8>,
}

impl FrameStreams {
    /// Reads the streams of a file.
    pub(crate) fn read<S: Source>(
        alloc: Global,
        map: &MsfLayout,
        source: &mut S,
    ) -> Result<Self, SourceError>
        ensures frame_data { IfOk result (λ streams. IfFile (S.bytes source.old) map.now.file_length (λ file.
            bytes_read streams.frame_data ≡ frame_stream (with_bytes file map.now) 9)) }
        ensures fpo { IfOk result (λ streams. IfFile (S.bytes source.old) map.now.file_length (λ file.
            bytes_read streams.fpo ≡ frame_stream (with_bytes file map.now) 0)) }
        ensures strings { IfOk result (λ streams. IfFile (S.bytes source.old) map.now.file_length (λ file.
            streams.strings.items ≡ program_strings (with_bytes file map.now))) }
        ensures refused { IfErr result (λ fault. fault ≡ SourceError.Unreadable
            → S.refuses_from source.old ≤ map.now.file_length) }
        ensures inputs { S.bytes source.new ≡ S.bytes source.old }
        ensures refusals { S.refuses_from source.new ≡ S.refuses_from source.old }
    {
        let debug = map.load(alloc, source, DEBUG)?;
        Ok(FrameStreams {
            frame_data: read_optional(alloc, map, source, &debug, FRAME_DATA)?,
            fpo: read_optional(alloc, map, source, &debug, FPO)?,
            strings: read_strings(alloc, map, source)?,
        })
    }
}

// Reads the stream at a position of the optional debug header, which is in the debug information stream. Empty if the
// file has no such stream.
#[tactic(auto, unfolding(crate::specs::FrameStreams::frame_stream))]
fn read_optional<S: Source>(
    alloc: Global,
    map: &MsfLayout,
    source: &mut S,
    debug: &Result<Vec<u8>, StreamError>,
    position: usize,
) -> Result<Result<Vec<u8>, StreamError>, SourceError>
    ensures answer { IfOk result (λ read. IfFile (S.bytes source.old) map.now.file_length (λ file.
        stream_of (with_bytes file map.now) 3 ≡ bytes_read debug.now
        → bytes_read read ≡ frame_stream (with_bytes file map.now) position)) }
    ensures refused { IfErr result (λ fault. fault ≡ SourceError.Unreadable
        → S.refuses_from source.old ≤ map.now.file_length) }
    ensures inputs { S.bytes source.new ≡ S.bytes source.old }
    ensures refusals { S.refuses_from source.new ≡ S.refuses_from source.old }
{
    let stream = match debug {
        Ok(stream) => stream,
        Err(error) => return Ok(Err(*error)),
    };
    let header = match read_header(stream) {
        Ok(header) => header,
        Err(error) => return Ok(Err(error)),
    };
    match optional_stream(header.optional_streams.bytes, position) {
        None => Ok(Ok(Vec::new(alloc))),
        Some(number) => map.load(alloc, source, u32::from(number)),
    }
}

// Reads the stream of program strings. Empty if the file has no such stream, or if it can't be read.
#[tactic(auto, unfolding(crate::specs::FrameStreams::program_strings))]
fn read_strings<S: Source>(
    alloc: Global,
    map: &MsfLayout,
    source: &mut S,
) -> Result<Vec<u8>, SourceError>
    ensures answer { IfOk result (λ strings. IfFile (S.bytes source.old) map.now.file_length (λ file.
        strings.items ≡ program_strings (with_bytes file map.now))) }
    ensures refused { IfErr result (λ fault. fault ≡ SourceError.Unreadable
        → S.refuses_from source.old ≤ map.now.file_length) }
    ensures inputs { S.bytes source.new ≡ S.bytes source.old }
    ensures refusals { S.refuses_from source.new ≡ S.refuses_from source.old }
{
    let mut excerpt = StreamSubset::new(alloc, map)?;
    excerpt.add(alloc, map, source, INFO)?;
    let container = excerpt.container(alloc)?;
    let info = match InfoStream::read(alloc, &container) {
        Ok(info) => info,
        Err(_) => return Err(SourceError::OutOfMemory),
    };
    let Ok(number) = info.named_stream(&NAMES) else {
        return Ok(Vec::new(alloc));
    };
    match map.load(alloc, source, number)? {
        Ok(strings) => Ok(strings),
        Err(_) => Ok(Vec::new(alloc)),
    }
}
