//! Finds the code of leaf functions: code that no entry of the exception directory covers.

ghost use Rattle.std.specs.Prelude.{◌≡◌, ◌++◌, ◌-◌, ◌≤◌, ◌<◌, ℕ, List, IfOk, OnOk, filter, not, string_bytes, true};
ghost use Rattle.std.specs.List.{flat_map, list_all, list_any};
ghost use Rattle.pe_unwind.specs.LeafCode.{ascend, covers, has, is_empty, is_int3, is_padding, leaf_rules, leaf_runs};
ghost use Rattle.pe_unwind.specs.LeafCode.{leaf_text, run_between, run_bytes, run_text, runs_of, section_end};
ghost use Rattle.pe_unwind.specs.LeafCode.{section_runs, uncovered};
ghost use Rattle.pe_image.specs.declared.exception_directory.FunctionEntry.{FunctionEntry};

use crate::cfi_text::push_first;
use crate::rules::{Rules, at_first, rules_of};
use pe_image::{FunctionEntry, Image, Section};
use std::alloc::{AllocError, Global};

/// The byte of `int3`, with which linkers pad the space between functions.
const INT3: u8 = 0xcc;

/// The size in bytes from which a range isn't taken for padding.
const LEAST_CODE: u32 = 16;

/// A range of code addresses, relative to the image base.
#[derive(Debug, Clone, Copy, PartialEq, Eq)]
pub struct CodeRun {
    /// The address of its first byte.
    pub begin: u32,
    /// The address just after its last byte.
    pub end: u32,
}

/// Appends the records of leaf functions: one for each range of the program's code that no entry covers. If the entries
/// aren't in ascending order, there are none.
pub fn push_leaf_records(
    alloc: Global,
    text: &mut String,
    image: &Image<'_>,
    entries: &[FunctionEntry],
) -> Result<(), AllocError>
    ensures answer { OnOk result (string_bytes text.new
        ≡ string_bytes text.old ++ leaf_text image.now entries.now) }
{
    let runs = leaf_runs(alloc, image, entries)?;
    push_run_records(alloc, text, &runs)
}

/// The ranges of a program's code that no entry covers, without the padding between functions. If the entries aren't in
/// ascending order, there are none.
pub fn leaf_runs(
    alloc: Global,
    image: &Image<'_>,
    entries: &[FunctionEntry],
) -> Result<Vec<CodeRun>, AllocError>
    ensures answer { IfOk result (λ runs. runs.items ≡ leaf_runs image.now entries.now) }
{
    if !ascend(entries) {
        return Ok(Vec::new(alloc));
    }
    let runs = runs_of(alloc, &image.sections, entries)?;
    without_padding(alloc, image, &runs)
}

/// Law: if entries are in ascending order, an address between two others is in a range exactly if no entry covers it.
pub fn runs_have_what_no_entry_covers()
    ensures { (entries : List FunctionEntry) (reach from to rva : ℕ) → ascend reach entries ≡ true → from ≤ rva
        → rva < to → list_any (has rva) (uncovered from to entries) ≡ not (list_any (covers rva) entries) }
{}

// The ranges that aren't padding.
fn without_padding(
    alloc: Global,
    image: &Image<'_>,
    runs: &[CodeRun],
) -> Result<Vec<CodeRun>, AllocError>
    ensures { IfOk result (λ kept. kept.items ≡ filter (λ run. not (is_padding image.now run)) runs.now) }
{
    let mut kept = Vec::new(alloc);
    for &run in runs {
        if !is_padding(image, run) {
            kept.push(run)?;
        }
    }
    Ok(kept)
}

// Appends the records of ranges.
fn push_run_records(alloc: Global, text: &mut String, runs: &[CodeRun]) -> Result<(), AllocError>
    ensures { OnOk result (string_bytes text.new ≡ string_bytes text.old ++ flat_map run_text runs.now) }
{
    for &run in runs {
        push_run_record(alloc, text, run)?;
    }
    Ok(())
}

// Appends the record of a range.
fn push_run_record(alloc: Global, text: &mut String, run: CodeRun) -> Result<(), AllocError>
    ensures { OnOk result (string_bytes text.new ≡ string_bytes text.old ++ run_text run) }
{
    let size = run.end.saturating_sub(run.begin);
    push_first(alloc, text, run.begin, size, &leaf_rules())
}

// The rules at each address of a leaf function.
fn leaf_rules() -> Rules
    ensures { result ≡ leaf_rules }
{
    rules_of(at_first())
}

// Whether entries are in ascending order and don't overlap.
fn ascend(entries: &[FunctionEntry]) -> bool
    ensures { result ≡ ascend 0 entries.now }
{
    let mut reach = 0;
    for &entry in entries {
        if is_empty(entry) {
            continue;
        }
        if entry.begin < reach {
            return false;
        }
        reach = entry.end;
    }
    true
}

// Whether an entry covers no address.
fn is_empty(entry: FunctionEntry) -> bool
    ensures { result ≡ is_empty entry }
{
    entry.end <= entry.begin
}

// The ranges of the executable sections that no entry covers.
fn runs_of(
    alloc: Global,
    sections: &[Section],
    entries: &[FunctionEntry],
) -> Result<Vec<CodeRun>, AllocError>
    ensures { IfOk result (λ runs. runs.items ≡ runs_of entries.now 0 sections.now) }
{
    let mut runs = Vec::new(alloc);
    let mut reach = 0;
    for &section in sections {
        push_section_runs(&mut runs, entries, reach, section)?;
        reach = reach.max(section_end(section));
    }
    Ok(runs)
}

// Appends the ranges of a section, if it begins at or after `reach`, the end of the sections before it.
fn push_section_runs(
    runs: &mut Vec<CodeRun>,
    entries: &[FunctionEntry],
    reach: u32,
    section: Section,
) -> Result<(), AllocError>
    ensures { OnOk result (runs.new.items ≡ runs.old.items ++ section_runs entries.now reach section) }
{
    if section.is_executable() && reach <= section.rva {
        push_uncovered(runs, section.rva, section_end(section), entries)?;
    }
    Ok(())
}

// The end of the bytes of a section.
fn section_end(section: Section) -> u32
    ensures { result ≡ section_end section }
{
    section
        .rva
        .saturating_add(section.size.min(section.file_size))
}

// Appends the ranges between two addresses that no entry covers.
fn push_uncovered(
    runs: &mut Vec<CodeRun>,
    from: u32,
    to: u32,
    entries: &[FunctionEntry],
) -> Result<(), AllocError>
    ensures { OnOk result (runs.new.items ≡ runs.old.items ++ uncovered from to entries.now) }
{
    let mut start = from;
    for &entry in entries {
        if !is_empty(entry) {
            push_run(runs, start, entry.begin.min(to))?;
            start = start.max(entry.end);
        }
    }
    push_run(runs, start, to)
}

// Appends the range between two addresses, if it isn't empty.
fn push_run(runs: &mut Vec<CodeRun>, begin: u32, end: u32) -> Result<(), AllocError>
    ensures { OnOk result (runs.new.items ≡ runs.old.items ++ run_between begin end) }
{
    if begin < end {
        runs.push(CodeRun { begin, end })?;
    }
    Ok(())
}

// Whether a range is padding between functions.
fn is_padding(image: &Image<'_>, run: CodeRun) -> bool
    ensures { result ≡ is_padding image.now run }
{
    let size = run.end.saturating_sub(run.begin);
    size < LEAST_CODE && are_int3(run_bytes(image, run, size))
}

// Whether all bytes are `int3`.
fn are_int3(bytes: &[u8]) -> bool
    ensures { result ≡ list_all is_int3 bytes.now }
{
    for &byte in bytes {
        if byte != INT3 {
            return false;
        }
    }
    true
}

// The bytes of a range of this size.
fn run_bytes<'a>(image: &Image<'a>, run: CodeRun, size: u32) -> &'a [u8]
    requires { size ≡ run.end - run.begin }
    ensures { result.now ≡ run_bytes image.now run }
{
    let bytes = image.bytes_from(run.begin);
    if bytes.len() < size as usize {
        return bytes;
    }
    let (first, _) = bytes.split_at(size as usize);
    first
}
