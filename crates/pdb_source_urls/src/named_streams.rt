//! The streams of a PDB file that say where its source files can be fetched.

ghost use Rattle.std.specs.Prelude.{◌≡◌, ◌≤◌, IfErr, IfOk, map, option_map, string_bytes};
ghost use Rattle.pdb_msf.specs.Msf.{stream_of};
ghost use Rattle.pdb_msf.specs.MsfLayout.{IfFile, with_bytes};
ghost use Rattle.pdb_source_urls.specs.NamedStreams.{AddsStream, links_of, named_bytes, numbered_name, server_in};
ghost use Rattle.pdb_source_urls.specs.SourceLinks.{link_seen};
ghost use Rattle.pdb_source_urls.specs.SourceServer.{server_seen};

use crate::source_links::{SourceLink, with_text};
use crate::source_server::{SourceServer, read_server};
use pdb_container::parts::{INFO, InfoStream};
use pdb_msf::{MsfLayout, Source, SourceError, StreamSubset};
use std::alloc::{AllocError, Global};

/// The name of the Source Link stream that has no number.
const PLAIN: [u8; 11] = *b"sourcelink\0";

/// Source Link streams are read up to the number before this one.
const NUMBERS_END: usize = 64;

/// The name of the stream of source server data.
const SERVER: [u8; 7] = *b"srcsrv\0";

/// What the streams of a file say of where its source files can be fetched.
#[derive(Drop)]
pub(crate) struct NamedData {
    /// The entries of the Source Link streams that count.
    pub(crate) links: Vec<SourceLink>,
    pub(crate) server: SourceServer,
}

/// What the streams of a file say, by the names that the info stream has for them.
pub(crate) fn read_named<S: Source>(
    alloc: Global,
    layout: &MsfLayout,
    source: &mut S,
) -> Result<NamedData, SourceError>
    ensures links { IfOk result (λ read. IfFile (S.bytes source.old) layout.now.file_length (λ file.
        map link_seen read.links.items ≡ links_of (with_bytes file layout.now))) }
    ensures server { IfOk result (λ read. IfFile (S.bytes source.old) layout.now.file_length (λ file.
        server_seen read.server ≡ server_in (with_bytes file layout.now))) }
    ensures refused { IfErr result (λ fault. fault ≡ SourceError.Unreadable
        → S.refuses_from source.old ≤ layout.now.file_length) }
    ensures inputs { S.bytes source.new ≡ S.bytes source.old }
    ensures refusals { S.refuses_from source.new ≡ S.refuses_from source.old }
{
    let mut excerpt = StreamSubset::new(alloc, layout)?;
    excerpt.add(alloc, layout, source, INFO)?;
    let container = excerpt.container(alloc)?;
    match InfoStream::read(alloc, &container) {
        Ok(info) => Ok(NamedData {
            links: read_links(alloc, layout, source, &info)?,
            server: read_named_server(alloc, layout, source, &info)?,
        }),
        Err(_) => Err(SourceError::OutOfMemory),
    }
}

// The source server data of a file; a file without its stream has none.
#[tactic(auto, unfolding(crate::specs::NamedStreams::server_in))]
fn read_named_server<S: Source>(
    alloc: Global,
    layout: &MsfLayout,
    source: &mut S,
    info: &InfoStream<'_>,
) -> Result<SourceServer, SourceError>
    ensures answer { IfOk result (λ server. IfFile (S.bytes source.old) layout.now.file_length (λ file.
        stream_of (with_bytes file layout.now) 1 ≡ info.now
        → server_seen server ≡ server_in (with_bytes file layout.now))) }
    ensures refused { IfErr result (λ fault. fault ≡ SourceError.Unreadable
        → S.refuses_from source.old ≤ layout.now.file_length) }
    ensures inputs { S.bytes source.new ≡ S.bytes source.old }
    ensures refusals { S.refuses_from source.new ≡ S.refuses_from source.old }
{
    let server = match load_named(alloc, layout, source, info, &SERVER)? {
        Some(stream) => read_server(alloc, &stream)?,
        None => read_server(alloc, &[])?,
    };
    Ok(server)
}

// The entries of a file's Source Link streams that count.
fn read_links<S: Source>(
    alloc: Global,
    layout: &MsfLayout,
    source: &mut S,
    info: &InfoStream<'_>,
) -> Result<Vec<SourceLink>, SourceError>
    ensures answer { IfOk result (λ links. IfFile (S.bytes source.old) layout.now.file_length (λ file.
        stream_of (with_bytes file layout.now) 1 ≡ info.now
        → map link_seen links.items ≡ links_of (with_bytes file layout.now))) }
    ensures refused { IfErr result (λ fault. fault ≡ SourceError.Unreadable
        → S.refuses_from source.old ≤ layout.now.file_length) }
    ensures inputs { S.bytes source.new ≡ S.bytes source.old }
    ensures refusals { S.refuses_from source.new ≡ S.refuses_from source.old }
{
    let mut links = Vec::new(alloc);
    add_named(&mut links, layout, source, info, &PLAIN)?;
    for number in 1..NUMBERS_END {
        let there = add_numbered(&mut links, layout, source, info, number)?;
        if !there {
            break;
        }
    }
    Ok(links)
}

// Adds the entries of the Source Link stream of a number. The answer is whether there is such a stream.
fn add_numbered<S: Source>(
    links: &mut Vec<SourceLink>,
    layout: &MsfLayout,
    source: &mut S,
    info: &InfoStream<'_>,
    number: usize,
) -> Result<bool, SourceError>
    ensures answer { IfOk result (λ there. IfFile (S.bytes source.old) layout.now.file_length (λ file.
        stream_of (with_bytes file layout.now) 1 ≡ info.now
        → AddsStream there (named_bytes (numbered_name number) (with_bytes file layout.now))
        (map link_seen links.old.items) (map link_seen links.new.items))) }
    ensures refused { IfErr result (λ fault. fault ≡ SourceError.Unreadable
        → S.refuses_from source.old ≤ layout.now.file_length) }
    ensures inputs { S.bytes source.new ≡ S.bytes source.old }
    ensures refusals { S.refuses_from source.new ≡ S.refuses_from source.old }
{
    let name = numbered_name(*links.allocator(), number)?;
    add_named(links, layout, source, info, name.as_bytes())
}

// Adds the entries of the stream of this name, which ends in a zero. The answer is whether there is such a stream.
fn add_named<S: Source>(
    links: &mut Vec<SourceLink>,
    layout: &MsfLayout,
    source: &mut S,
    info: &InfoStream<'_>,
    name: &[u8],
) -> Result<bool, SourceError>
    ensures answer { IfOk result (λ there. IfFile (S.bytes source.old) layout.now.file_length (λ file.
        stream_of (with_bytes file layout.now) 1 ≡ info.now
        → AddsStream there (named_bytes name.now (with_bytes file layout.now))
        (map link_seen links.old.items) (map link_seen links.new.items))) }
    ensures refused { IfErr result (λ fault. fault ≡ SourceError.Unreadable
        → S.refuses_from source.old ≤ layout.now.file_length) }
    ensures inputs { S.bytes source.new ≡ S.bytes source.old }
    ensures refusals { S.refuses_from source.new ≡ S.refuses_from source.old }
{
    match load_named(*links.allocator(), layout, source, info, name)? {
        None => Ok(false),
        Some(stream) => {
            with_text(links, &stream)?;
            Ok(true)
        }
    }
}

// The name of a Source Link stream that has a number, with the zero after it.
fn numbered_name(alloc: Global, number: usize) -> Result<String, AllocError>
    ensures { IfOk result (λ name. string_bytes name ≡ numbered_name number) }
{
    format!(in alloc; "sourcelink${number}\0")
}

// The bytes of the stream of this name, which ends in a zero, if there is one. A stream that can't be read has none.
#[tactic(auto, unfolding(crate::specs::NamedStreams::named_bytes))]
fn load_named<S: Source>(
    alloc: Global,
    layout: &MsfLayout,
    source: &mut S,
    info: &InfoStream<'_>,
    name: &[u8],
) -> Result<Option<Vec<u8>>, SourceError>
    ensures answer { IfOk result (λ stream. IfFile (S.bytes source.old) layout.now.file_length (λ file.
        stream_of (with_bytes file layout.now) 1 ≡ info.now
        → option_map (λ bytes. bytes.items) stream ≡ named_bytes name.now (with_bytes file layout.now))) }
    ensures refused { IfErr result (λ fault. fault ≡ SourceError.Unreadable
        → S.refuses_from source.old ≤ layout.now.file_length) }
    ensures inputs { S.bytes source.new ≡ S.bytes source.old }
    ensures refusals { S.refuses_from source.new ≡ S.refuses_from source.old }
{
    let Ok(number) = info.named_stream(name) else {
        return Ok(None);
    };
    match layout.load(alloc, source, number)? {
        Ok(stream) => Ok(Some(stream)),
        Err(_) => Ok(Some(Vec::new(alloc))),
    }
}
