//! The URL of a source file by Source Link.

ghost use Rattle.std.specs.Prelude.{◌≡◌, ◌≤◌, ◌++◌, IfOk, OnOk, drop, length, map, option_map, string_bytes};
ghost use Rattle.std.specs.List.{flat_map};
ghost use Rattle.pdb_source_urls.specs.LinkUrls.{best_link, escaped, escaped_byte, fits, is_better};
ghost use Rattle.pdb_source_urls.specs.LinkUrls.{is_plain, link_url, url_by_link};
ghost use Rattle.pdb_source_urls.specs.SourceLinks.{link_seen};

use crate::path_names::{alike, begins_with};
use crate::source_links::{SourceLink, after_star, before_star};
use pdb_msf::bytes_from;
use std::alloc::{AllocError, Global};

/// The URL of a file by the entry that fits it best, if any does.
pub(crate) fn link_url(
    alloc: Global,
    links: &[SourceLink],
    file: &str,
) -> Result<Option<String>, AllocError>
    ensures { IfOk result (λ url. option_map string_bytes url ≡ link_url (map link_seen links.now) file.now) }
{
    match best_link(links, file) {
        Some(link) => Ok(Some(url_by_link(alloc, link, file)?)),
        None => Ok(None),
    }
}

// The entry that fits a file best: that with the longest path, and of these one without a star.
fn best_link<'l>(links: &'l [SourceLink], file: &str) -> Option<&'l SourceLink>
    ensures { option_map (λ link. link_seen link.now) result ≡ best_link file.now None (map link_seen links.now) }
{
    let mut best: Option<&SourceLink> = None;
    for link in links {
        if fits(link, file) && is_better(best, link) {
            best = Some(link);
        }
    }
    best
}

// Whether an entry fits a file.
fn fits(link: &SourceLink, file: &str) -> bool
    ensures { result ≡ fits file.now (link_seen link.now) }
{
    if link.any_rest {
        begins_with(file.as_bytes(), link.path.as_bytes())
    } else {
        alike(file.as_bytes(), link.path.as_bytes())
    }
}

// Whether an entry that fits counts before the best one so far.
fn is_better(best: Option<&SourceLink>, link: &SourceLink) -> bool
    ensures { result ≡ is_better (option_map (λ other. link_seen other.now) best.entry) (link_seen link.now) }
{
    match best {
        None => true,
        Some(best) => {
            best.path.len() < link.path.len()
                || best.path.len() == link.path.len() && best.any_rest && !link.any_rest
        }
    }
}

// The URL that an entry gives a file that it fits.
fn url_by_link(alloc: Global, link: &SourceLink, file: &str) -> Result<String, AllocError>
    ensures { IfOk result (λ url. string_bytes url ≡ url_by_link file.now (link_seen link.now)) }
{
    if !link.any_rest {
        return String::from_str(alloc, &link.url);
    }
    let mut url = String::new(alloc);
    url.push_str(before_star(&link.url))?;
    push_escaped(&mut url, bytes_from(file.as_bytes(), link.path.len()))?;
    url.push_str(after_star(&link.url))?;
    Ok(url)
}

// Appends the rest of a file's name, escaped.
fn push_escaped(url: &mut String, rest: &[u8]) -> Result<(), AllocError>
    ensures { OnOk result (string_bytes url.new ≡ string_bytes url.old ++ escaped rest.now) }
{
    for &byte in rest {
        push_byte(url, byte)?;
    }
    Ok(())
}

// Appends a byte of a file's name, escaped.
fn push_byte(url: &mut String, byte: u8) -> Result<(), AllocError>
    ensures { OnOk result (string_bytes url.new ≡ string_bytes url.old ++ escaped_byte byte) }
{
    if byte == b'\\' {
        return url.push('/');
    }
    if is_plain(byte) {
        return url.push(char::from(byte));
    }
    write!(url, "%{:X}{:X}", byte / 16, byte % 16)
}

// Whether a URL has a byte as it is.
fn is_plain(byte: u8) -> bool
    ensures { result ≡ is_plain byte }
{
    byte.is_ascii_alphanumeric() || matches!(byte, b'/' | b'-' | b'_' | b'.' | b'~')
}
