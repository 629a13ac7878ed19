//! Names of files, in which letters from A to Z count as those from a to z.

ghost use Rattle.std.specs.Prelude.{◌≡◌, IfOk};
ghost use Rattle.std.specs.Str.{str_to_ascii_lowercase};
ghost use Rattle.pdb_source_urls.specs.PathNames.{alike, base_name, begins_with, is_slash};

use std::alloc::{AllocError, Global};

/// Whether a name begins with a path.
#[tactic(auto, using(crate::proofs::PathNameLemmas::short_name))]
pub(crate) fn begins_with(name: &[u8], path: &[u8]) -> bool
    ensures { result ≡ begins_with name.now path.now }
{
    if name.len() < path.len() {
        return false;
    }
    for (at, byte) in path.iter().enumerate() {
        if name[at].to_ascii_lowercase() != byte.to_ascii_lowercase() {
            return false;
        }
    }
    true
}

/// Whether two names are the same.
pub(crate) fn alike(name: &[u8], other: &[u8]) -> bool
    ensures { result ≡ alike name.now other.now }
{
    name.len() == other.len() && begins_with(name, other)
}

/// A name with its letters from A to Z in lower case. Names are the same exactly if they are equal in lower case.
pub(crate) fn lower_case(alloc: Global, name: &[u8]) -> Result<Vec<u8>, AllocError>
    ensures { IfOk result (λ lower. lower.items ≡ str_to_ascii_lowercase name.now) }
{
    let mut lower = Vec::from_slice(alloc, name)?;
    lower.make_ascii_lowercase();
    Ok(lower)
}

/// What follows the last slash of a path; all where there is none.
pub(crate) fn base_name(path: &[u8]) -> &[u8]
    ensures { result.now ≡ base_name path.now }
{
    let mut name = path;
    for (at, &byte) in path.iter().enumerate() {
        if is_slash(byte) {
            name = &path[at + 1..];
        }
    }
    name
}

fn is_slash(byte: u8) -> bool
    ensures { result ≡ is_slash byte }
{
    byte == b'/' || byte == b'\\'
}
