//! Reads the subsection of a module's inlinees: the functions that were inlined, with their source lines.

ghost use Rattle.std.specs.Prelude.{◌≡◌, ◌++◌, ℕ, length, map, Ok, Err, IfErr, IfOk, MatchResult, OnOk};
ghost use Rattle.std.specs.BTreeMap.{get};
ghost use Rattle.std.specs.Ordering.{nat_cmp};
ghost use Rattle.pdb_codeview.specs.Inlinees.{all_inlinees, behind_inlinee, inlinee, inlinee_source};
ghost use Rattle.pdb_codeview.specs.Inlinees.{inlinees_in, listed_inlinee};

use pdb_msf::faults::{Fault, UNKNOWN_VERSION};
use pdb_msf::{Bytes, ItemReader, push_items, u32_at};
use pdb_records::{IdIndex, Inlinee, Reading, StreamError};
use pdb_tables::insert_first;
use std::alloc::{AllocError, Global};
use std::collections::BTreeMap;

/// The form of a list whose entries have one file each.
const ONE_FILE: u32 = 0;

/// The form of a list whose entries may have more files.
const MORE_FILES: u32 = 1;

/// The size of an entry before its further files, in bytes.
const FRONT: usize = 12;

/// The source position at which an inlined function starts.
#[derive(Clone, Copy)]
pub struct InlineeSource {
    /// The offset of its file's entry.
    pub file: u32,
    pub line: u32,
}

/// An inlinee with its source position.
#[derive(Clone, Copy)]
struct ListedInlinee {
    id: u32,
    source: InlineeSource,
}

/// The inlinees of a module.
#[derive(Drop)]
pub struct Inlinees {
    pub list: Reading<Inlinee>,
    /// The source position of each inlinee, by its id. If an id occurs twice, the first one counts.
    pub sources: BTreeMap<u32, InlineeSource>,
}

/// Reads the inlinees in these subsections, one subsection after the other.
pub fn read_inlinees(alloc: Global, subsections: &[&[u8]]) -> Result<Inlinees, Fault>
    ensures items { IfOk result (λ read.
        read.list.items ≡ map inlinee (all_inlinees (map (λ s. s.now) subsections.now)).items) }
    ensures fault { IfOk result (λ read. read.list.fault ≡ (all_inlinees (map (λ s. s.now) subsections.now)).fault) }
    ensures sources { IfOk result (λ read. (id : ℕ) → get nat_cmp read.sources id
        ≡ inlinee_source id (all_inlinees (map (λ s. s.now) subsections.now)).items) }
    ensures memory { IfErr result (λ fault. fault ≡ Fault.OutOfMemory) }
{
    let mut listed = Vec::new(alloc);
    let fault = push_all_inlinees(subsections, &mut listed)?;
    let sources = first_sources(alloc, &listed)?;
    let items = by_id(alloc, &listed)?;
    Ok(Inlinees {
        list: Reading { items, fault },
        sources,
    })
}

// Only the ids of these inlinees.
fn by_id(alloc: Global, listed: &[ListedInlinee]) -> Result<Vec<Inlinee>, AllocError>
    ensures { IfOk result (λ ids. ids.items ≡ map inlinee listed.now) }
{
    let mut ids = Vec::with_capacity(alloc, listed.len())?;
    for entry in listed {
        let index = IdIndex(entry.id);
        ids.push(Inlinee { index })?;
    }
    Ok(ids)
}

fn first_sources(
    alloc: Global,
    listed: &[ListedInlinee],
) -> Result<BTreeMap<u32, InlineeSource>, AllocError>
    ensures { IfOk result (λ sources. (id : ℕ) → get nat_cmp sources id ≡ inlinee_source id listed.now) }
{
    let mut sources = BTreeMap::new(alloc);
    for inlinee in listed {
        insert_first(&mut sources, inlinee.id, inlinee.source)?;
    }
    Ok(sources)
}

// Appends the entries of these subsections, up to the first fault.
fn push_all_inlinees(
    subsections: &[&[u8]],
    listed: &mut Vec<ListedInlinee>,
) -> Result<Option<StreamError>, AllocError>
    ensures answer { IfOk result (λ fault. fault ≡ (all_inlinees (map (λ s. s.now) subsections.now)).fault) }
    ensures state { OnOk result (listed.new.items
        ≡ listed.old.items ++ (all_inlinees (map (λ s. s.now) subsections.now)).items) }
{
    for subsection in subsections {
        let fault = push_subsection(subsection, listed)?;
        if fault.is_some() {
            return Ok(fault);
        }
    }
    Ok(None)
}

// Appends the entries of a subsection, which follow the number of its form.
fn push_subsection(
    bytes: &[u8],
    listed: &mut Vec<ListedInlinee>,
) -> Result<Option<StreamError>, AllocError>
    ensures answer { IfOk result (λ fault. fault ≡ (inlinees_in bytes.now).fault) }
    ensures state { OnOk result (listed.new.items ≡ listed.old.items ++ (inlinees_in bytes.now).items) }
{
    let mut rest = Bytes::new(bytes);
    if rest.is_empty() {
        return Ok(None);
    }
    match rest.u32() {
        Ok(form) if form == ONE_FILE || form == MORE_FILES => {
            push_items(&InlineeEntries { form }, rest.rest(), listed)
        }
        Ok(_) => Ok(Some(UNKNOWN_VERSION)),
        Err(error) => Ok(Some(error)),
    }
}

/// Reads the entries of a list of this form.
#[derive(Drop)]
struct InlineeEntries {
    form: u32,
}

impl<'a> ItemReader<'a> for InlineeEntries {
    type Item = ListedInlinee;

    ghost use Rattle.pdb_codeview.specs.Inlinees.{first_inlinee};

    ghost first = { λ list. first_inlinee list.form };

    fn take(&self, rest: &mut Bytes<'a>) -> Result<ListedInlinee, Fault> {
        let front = rest.take(FRONT)?;
        pass_files(self.form, rest)?;
        Ok(listed_inlinee(front))
    }
}

// Skips the further files of an entry, which only entries of the second form have.
fn pass_files(form: u32, rest: &mut Bytes<'_>) -> Result<(), StreamError>
    ensures { MatchResult result (λ _. behind_inlinee form rest.old ≡ Ok rest.new)
        (λ error. behind_inlinee form rest.old ≡ Err error) }
{
    if form != MORE_FILES {
        return Ok(());
    }
    let count = rest.u32()?;
    rest.take((count as usize).saturating_mul(4))?;
    Ok(())
}

fn listed_inlinee(front: &[u8]) -> ListedInlinee
    requires { length front.now ≡ 12 }
    ensures { result ≡ listed_inlinee front.now }
{
    ListedInlinee {
        id: u32_at(front, 0),
        source: InlineeSource {
            file: u32_at(front, 4),
            line: u32_at(front, 8),
        },
    }
}
