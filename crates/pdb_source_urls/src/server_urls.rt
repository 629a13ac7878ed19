//! The URL of a source file by source server data.

ghost use Rattle.std.specs.Prelude.{◌≡◌, IfOk, map, option_map, string_bytes};
ghost use Rattle.pdb_source_urls.specs.Expansion.{Gives, value_seen};
ghost use Rattle.pdb_source_urls.specs.ServerUrls.{line_url, server_url, target, url_in};
ghost use Rattle.pdb_source_urls.specs.SourceServer.{definition_seen, server_seen};

use crate::expansion::{ExpandError, Expanded, MOST_TEXT, Sources, value_of, variable_value};
use crate::source_server::{SourceServer, Variable};
use std::alloc::{AllocError, Global};

/// How deeply values may nest.
const MOST_DEPTH: usize = 32;

/// The URL of a file by source server data, if there is one.
pub(crate) fn server_url(
    alloc: Global,
    server: &SourceServer,
    file: &str,
) -> Result<Option<String>, AllocError>
    ensures { IfOk result (λ url. option_map string_bytes url ≡ server_url (server_seen server.now) file.now) }
{
    match server.files.line(alloc, file)? {
        Some(line) => line_url(alloc, &server.variables, line),
        None => Ok(None),
    }
}

// The URL by the line of a file, if there is one.
fn line_url(
    alloc: Global,
    variables: &[Variable],
    line: &[u8],
) -> Result<Option<String>, AllocError>
    ensures { IfOk result (λ url. option_map string_bytes url
        ≡ line_url (map definition_seen variables.now) line.now) }
{
    if MOST_TEXT < line.len() || variable_value(b"SRCSRVCMD", variables).is_some() {
        return Ok(None);
    }
    match target(alloc, variables, line) {
        Ok(value) => url_in(alloc, &value.text),
        Err(ExpandError::NoValue) => Ok(None),
        Err(ExpandError::OutOfMemory) => Err(AllocError),
    }
}

// The value of the variable SRCSRVTRG, for the line of a file.
#[tactic(auto, unfolding(crate::specs::ServerUrls::target))]
fn target(alloc: Global, variables: &[Variable], line: &[u8]) -> Result<Expanded, ExpandError>
    ensures { Gives value_seen result (target (map definition_seen variables.now) line.now) }
{
    let sources = Sources { variables, line };
    value_of(alloc, sources, MOST_DEPTH, b"SRCSRVTRG", 0)
}

// The text of a value that is a URL.
#[tactic(auto, using(crate::proofs::TextLemmas::by_utf8))]
fn url_in(alloc: Global, text: &[u8]) -> Result<Option<String>, AllocError>
    ensures { IfOk result (λ url. option_map string_bytes url ≡ url_in text.now) }
{
    if !text.starts_with(b"http://") && !text.starts_with(b"https://") {
        return Ok(None);
    }
    match str::from_utf8(text) {
        Ok(text) => Ok(Some(String::from_str(alloc, text)?)),
        Err(_) => Ok(None),
    }
}
