//! Source Link: a map of paths to URLs.

ghost use Rattle.std.specs.Prelude.{◌≡◌, IfOk, OnOk, Some, map, option_map, string_bytes};
ghost use Rattle.std.specs.List.{after_first, before_first};
ghost use Rattle.serde_json.specs.View.{members_view, view};
ghost use Rattle.pdb_source_urls.specs.SourceLinks.{is_star, link_of, link_by, link_seen, stars, with_entries};
ghost use Rattle.pdb_source_urls.specs.SourceLinks.{with_link, with_text, with_value, without_mark};

use serde_json::{Map, Value};
use std::alloc::{AllocError, Global};

/// How many entries of a file count at most.
const MOST_LINKS: usize = 4096;

/// The byte order mark, which may precede a text in UTF-8.
const MARK: [u8; 3] = [0xef, 0xbb, 0xbf];

/// An entry of a Source Link map.
#[derive(Drop)]
pub(crate) struct SourceLink {
    /// The path, without its star.
    pub(crate) path: String,
    /// Whether a star follows the path, and so the entry fits all files whose names begin with it.
    pub(crate) any_rest: bool,
    /// The URL, with its star.
    pub(crate) url: String,
}

/// Adds the entries of a stream that count. A stream that is no Source Link map has none.
pub(crate) fn with_text(links: &mut Vec<SourceLink>, stream: &[u8]) -> Result<(), AllocError>
    ensures { OnOk result (map link_seen links.new.items ≡ with_text stream.now (map link_seen links.old.items)) }
{
    match Value::from_slice(*links.allocator(), without_mark(stream)) {
        Ok(value) => with_value(links, &value),
        Err(error) if error.is_memory() => Err(AllocError),
        Err(_) => Ok(()),
    }
}

// The bytes without a byte order mark.
fn without_mark(stream: &[u8]) -> &[u8]
    ensures { result.now ≡ without_mark stream.now }
{
    if stream.starts_with(&MARK) {
        &stream[MARK.len()..]
    } else {
        stream
    }
}

// Adds the entries of the map in a JSON value.
fn with_value(links: &mut Vec<SourceLink>, value: &Value) -> Result<(), AllocError>
    ensures { OnOk result (map link_seen links.new.items
        ≡ with_value (Some (view value.now)) (map link_seen links.old.items)) }
{
    match value.get("documents").and_then(Value::as_object) {
        Some(entries) => with_entries(links, entries),
        None => Ok(()),
    }
}

// Adds the entries of a map that count.
fn with_entries(links: &mut Vec<SourceLink>, entries: &Map<String, Value>) -> Result<(), AllocError>
    ensures { OnOk result (map link_seen links.new.items
        ≡ with_entries (members_view entries.now.entries) (map link_seen links.old.items)) }
{
    for (path, url) in entries {
        with_entry(links, path.as_str(), url)?;
    }
    Ok(())
}

// Adds an entry, if it counts.
fn with_entry(links: &mut Vec<SourceLink>, path: &str, url: &Value) -> Result<(), AllocError>
    ensures { OnOk result (map link_seen links.new.items
        ≡ with_link (link_of path.now (view url.now)) (map link_seen links.old.items)) }
{
    let Some(url) = url.as_str() else {
        return Ok(());
    };
    if MOST_LINKS <= links.len() {
        return Ok(());
    }
    if let Some(link) = link_by(*links.allocator(), path, url)? {
        links.push(link)?;
    }
    Ok(())
}

// An entry, if it counts.
fn link_by(alloc: Global, path: &str, url: &str) -> Result<Option<SourceLink>, AllocError>
    ensures { IfOk result (λ link. option_map link_seen link ≡ link_by path.now url.now) }
{
    match (stars(path), stars(url)) {
        (0, 0) => Ok(Some(new_link(alloc, path, false, url)?)),
        (1, 1) if after_star(path).is_empty() => {
            Ok(Some(new_link(alloc, before_star(path), true, url)?))
        }
        _ => Ok(None),
    }
}

fn new_link(alloc: Global, path: &str, any_rest: bool, url: &str) -> Result<SourceLink, AllocError>
    ensures { IfOk result (λ link. link_seen link ≡ record { path = path.now; any_rest = any_rest; url = url.now }) }
{
    Ok(SourceLink {
        path: String::from_str(alloc, path)?,
        any_rest,
        url: String::from_str(alloc, url)?,
    })
}

// How many stars a text has.
fn stars(text: &str) -> usize
    ensures { result ≡ stars text.now }
{
    text.as_bytes().iter().filter(|byte| **byte == b'*').count()
}

/// What is before the first star, or all if there is none.
pub(crate) fn before_star(text: &str) -> &str
    ensures { result.now ≡ before_first is_star text.now }
{
    match text.split_once('*') {
        Some((front, _)) => front,
        None => text,
    }
}

/// What follows the first star, or nothing if there is none.
pub(crate) fn after_star(text: &str) -> &str
    ensures { result.now ≡ after_first is_star text.now }
{
    match text.split_once('*') {
        Some((_, rest)) => rest,
        None => "",
    }
}
