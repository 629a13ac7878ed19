//! `DebugId`: the GUID and the age that match a program to its PDB file, in the two text forms of tools.

ghost use Rattle.std.specs.Prelude.{◌≡◌, ◌≤◌, None, Some};
ghost use Rattle.uuid.specs.Text.{parsed};
ghost use Rattle.pdb_identity.specs.DebugIds.{age_of, compact_text, debug_id_of, debug_id_text};
ghost use Rattle.pdb_identity.specs.DebugIds.{id_by_slash, id_of_parts};

use std::fmt;
use uuid::Uuid;

/// The identity that a program and its PDB file share, so that one can be found for the other.
///
/// A linker makes a GUID for a new PDB file, and increases the age when it updates an existing one. The text is, for
/// example, `{3844DBB9-2017-4967-BE7A-A4A2C20430FA}/2`.
#[derive(Debug, Clone, Copy, PartialEq, Eq)]
pub struct DebugId {
    pub guid: Uuid,
    pub age: u32,
}

/// A debug id as symbol servers and Breakpad write it: 32 digits followed by the age, such as
/// `3844DBB920174967BE7AA4A2C20430FA2`.
#[derive(Debug, Clone, Copy, PartialEq, Eq)]
pub struct CompactDebugId(pub DebugId);

/// The number of digits of a GUID.
const GUID_DIGITS: usize = 32;

impl DebugId {
    /// Parses a debug id in either form, with digits in either case. The age is decimal after a slash, and hexadecimal
    /// otherwise. `None` if the text has another form, a sign, or an age of more than 32 bits.
    pub fn parse(text: &str) -> Option<DebugId>
        ensures answer { result ≡ debug_id_of text.now }
    {
        match text.split_once('/') {
            Some((guid, age)) => id_of_parts(guid, age, 10),
            None => compact_id(text),
        }
    }

    /// The debug id in the form of symbol servers.
    pub fn compact(self) -> CompactDebugId
        ensures answer { result.0 ≡ self }
    {
        CompactDebugId(self)
    }
}

// Parses a debug id without a slash.
fn compact_id(text: &str) -> Option<DebugId>
    ensures { result ≡ id_by_slash None text.now }
{
    let (guid, age) = text.split_at_checked(GUID_DIGITS)?;
    id_of_parts(guid, age, 16)
}

// Parses a debug id from the text of a GUID and the digits of an age in this radix.
fn id_of_parts(guid: &str, age: &str, radix: u32) -> Option<DebugId>
    requires least { 2 ≤ radix }
    requires most { radix ≤ 16 }
    ensures { result ≡ id_of_parts radix guid.now age.now }
{
    let age = age_of(age, radix)?;
    let guid = guid_of(guid)?;
    Some(DebugId { guid, age })
}

// Parses a GUID in any of its forms.
fn guid_of(text: &str) -> Option<Uuid>
    ensures { result ≡ parsed text.now }
{
    match Uuid::parse_str(text) {
        Ok(guid) => Some(guid),
        Err(_) => None,
    }
}

// Parses the digits of an age. A sign is refused.
fn age_of(digits: &str, radix: u32) -> Option<u32>
    requires least { 2 ≤ radix }
    requires most { radix ≤ 16 }
    ensures { result ≡ age_of radix digits.now }
{
    if digits.starts_with('+') {
        return None;
    }
    u32::from_str_radix(digits, radix).ok()
}

impl fmt::Display for DebugId {
    ghost output = { λ id. Some (debug_id_text id) };

    fn fmt<W: fmt::Write>(&self, f: &mut fmt::Formatter<W>) -> fmt::Result {
        let mut buffer = Uuid::encode_buffer();
        let guid = self.guid.braced().encode_upper(&mut buffer);
        write!(f, "{guid}/{}", self.age)
    }
}

impl fmt::Display for CompactDebugId {
    ghost output = { λ id. Some (compact_text id.0) };

    fn fmt<W: fmt::Write>(&self, f: &mut fmt::Formatter<W>) -> fmt::Result {
        let mut buffer = Uuid::encode_buffer();
        let guid = self.0.guid.simple().encode_upper(&mut buffer);
        write!(f, "{guid}{:X}", self.0.age)
    }
}
