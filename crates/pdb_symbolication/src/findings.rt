//! Writes which modules of a job's memory map were found, sorted by their keys.

ghost use Rattle.std.specs.Prelude.{◌≡◌, [], ◌++◌, map, string_bytes, OnOk, IfOk};
ghost use Rattle.pdb_symbolication.specs.Findings.{by_bytes, finding_member, finding_of};
ghost use Rattle.pdb_symbolication.specs.Findings.{finding_text, findings_after, found_modules, greater, module_key};
ghost use Rattle.pdb_symbolication.specs.Findings.{search_of, standing, with_finding};
ghost use Rattle.pdb_symbolication.specs.JsonObjects.{separated};

use crate::frame_texts::FrameTexts;
use crate::json_text::{write_comma, write_quoted};
use crate::requests::MemoryMapEntry;
use crate::wanted_modules::Search;
use std::alloc::{AllocError, Global};
use std::collections::BTreeMap;

/// Whether a module was found. If several entries have the same key, the greatest value counts.
#[derive(Clone, Copy)]
pub(crate) enum Finding {
    NotAsked,
    NotFound,
    Found,
}

impl Finding {
    fn json(self) -> &'static str
        ensures { result.now ≡ finding_text self }
    {
        match self {
            Finding::NotAsked => "null",
            Finding::NotFound => "false",
            Finding::Found => "true",
        }
    }

    // The finding for a key: the greater of this one and the earlier one.
    fn standing(self, before: Option<Finding>) -> Finding
        ensures { result ≡ standing before self }
    {
        match before {
            Some(before) => before.greater(self),
            None => self,
        }
    }

    fn greater(self, other: Finding) -> Finding
        ensures { result ≡ greater self other }
    {
        match (self, other) {
            (Finding::Found, _) | (_, Finding::Found) => Finding::Found,
            (Finding::NotFound, _) | (_, Finding::NotFound) => Finding::NotFound,
            (Finding::NotAsked, Finding::NotAsked) => Finding::NotAsked,
        }
    }
}

/// Appends an object that says which modules were found.
pub(crate) fn push_found_modules(
    text: &mut String,
    memory_map: &[MemoryMapEntry],
    searches: &[Search],
    found: &[Option<FrameTexts>],
) -> Result<(), AllocError>
    ensures { OnOk result (string_bytes text.new
        ≡ string_bytes text.old ++ found_modules searches.now found.now memory_map.now) }
{
    let findings = findings_of(*text.allocator(), memory_map, searches, found)?;
    text.push('{')?;
    push_findings(text, &findings)?;
    text.push('}')
}

fn push_findings(text: &mut String, findings: &BTreeMap<String, Finding>) -> Result<(), AllocError>
    ensures { OnOk result (string_bytes text.new
        ≡ string_bytes text.old ++ separated (map finding_member (by_bytes findings.now.entries))) }
{
    let mut first = true;
    for (key, finding) in findings {
        write_comma(text, first)?;
        first = false;
        push_finding(text, key.as_str(), *finding)?;
    }
    Ok(())
}

fn push_finding(text: &mut String, key: &str, finding: Finding) -> Result<(), AllocError>
    ensures { OnOk result (string_bytes text.new ≡ string_bytes text.old ++ finding_member (key.now, finding)) }
{
    write_quoted(text, key)?;
    text.push(':')?;
    text.push_str(finding.json())
}

fn findings_of(
    alloc: Global,
    memory_map: &[MemoryMapEntry],
    searches: &[Search],
    found: &[Option<FrameTexts>],
) -> Result<BTreeMap<String, Finding>, AllocError>
    ensures { IfOk result (λ findings. by_bytes findings.entries
        ≡ findings_after searches.now found.now 0 memory_map.now []) }
{
    let mut findings = BTreeMap::new(alloc);
    for (index, entry) in memory_map.iter().enumerate() {
        let key = key_of(alloc, entry)?;
        add_finding(&mut findings, key, finding_at(searches, found, index))?;
    }
    Ok(findings)
}

fn key_of(alloc: Global, entry: &MemoryMapEntry) -> Result<String, AllocError>
    ensures { IfOk result (λ key. string_bytes key ≡ module_key entry.now) }
{
    format!(in alloc; "{}/{}", entry.name, entry.debug_id)
}

// Adds a finding for a key, unless the key has a greater one.
fn add_finding(
    findings: &mut BTreeMap<String, Finding>,
    key: String,
    finding: Finding,
) -> Result<(), AllocError>
    ensures { OnOk result (by_bytes findings.new.entries
        ≡ with_finding (string_bytes key) finding (by_bytes findings.old.entries)) }
{
    let standing = finding.standing(findings.get(&key).copied());
    findings.insert(key, standing)?;
    Ok(())
}

// Whether the module of the entry at this index was found.
fn finding_at(searches: &[Search], found: &[Option<FrameTexts>], index: usize) -> Finding
    ensures { result ≡ finding_of found.now (search_of searches.now index) }
{
    match searches.get(index) {
        None | Some(Search::NotAsked) => Finding::NotAsked,
        Some(Search::Impossible) => Finding::NotFound,
        Some(&Search::Module(position)) => match found.get(position) {
            Some(Some(_)) => Finding::Found,
            _ => Finding::NotFound,
        },
    }
}
