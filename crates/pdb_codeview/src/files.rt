//! Reads the subsection of a module's files. Rows and sites refer to a file by the offset of its entry.

ghost use Rattle.std.specs.Prelude.{◌≡◌, ◌++◌, ℕ, map, IfErr, IfOk, OnOk};
ghost use Rattle.std.specs.BTreeMap.{get};
ghost use Rattle.std.specs.Ordering.{nat_cmp};
ghost use Rattle.pdb_codeview.specs.Files.{all_entries, file_index, file_position, named_file};

use pdb_msf::faults::Fault;
use pdb_msf::{Bytes, ItemReader, PaddedItems, offset_of, push_items, u32_at};
use pdb_records::{FileIndex, FileInfo, StreamError, StringRef};
use pdb_tables::insert_first;
use std::alloc::{AllocError, Global};
use std::collections::BTreeMap;

/// The size of an entry before its checksum, in bytes.
const FRONT: usize = 6;

/// An entry of a subsection of files.
#[derive(Clone, Copy)]
pub(crate) struct FileEntry {
    /// The offset of the entry in its subsection, in bytes.
    pub(crate) start: u32,
    pub(crate) info: FileInfo,
}

/// The files of a module, in the order of their entries, and the position of each by its entry's offset.
#[derive(Drop)]
pub struct Files {
    entries: Vec<FileEntry>,
    positions: BTreeMap<u32, usize>,
    pub fault: Option<StreamError>,
    ghost first: { (start : ℕ) → get nat_cmp positions start ≡ file_position start entries.items },
}

impl Files {
    /// The position of the file whose entry has this offset. If several subsections have one, the first counts.
    pub fn position(&self, start: u32) -> Option<FileIndex>
        ensures { result ≡ named_file start self.now.entries.items }
    {
        match self.positions.get(&start) {
            Some(position) => file_index(*position),
            None => None,
        }
    }

    /// A copy of the info of each file, in order.
    pub fn infos(&self, alloc: Global) -> Result<Vec<FileInfo>, AllocError>
        ensures { IfOk result (λ infos. infos.items ≡ map (λ entry. entry.info) self.now.entries.items) }
    {
        let mut infos = Vec::with_capacity(alloc, self.entries.len())?;
        for entry in &self.entries {
            infos.push(entry.info)?;
        }
        Ok(infos)
    }
}

fn file_index(position: usize) -> Option<FileIndex>
    ensures { result ≡ file_index position }
{
    match u32::try_from(position) {
        Ok(position) => Some(FileIndex(position)),
        Err(_) => None,
    }
}

fn first_positions(alloc: Global, entries: &[FileEntry]) -> Result<BTreeMap<u32, usize>, AllocError>
    ensures { IfOk result (λ positions. (start : ℕ) → get nat_cmp positions start ≡ file_position start entries.now) }
{
    let mut positions = BTreeMap::new(alloc);
    for (position, entry) in entries.iter().enumerate() {
        insert_first(&mut positions, entry.start, position)?;
    }
    Ok(positions)
}

/// Reads the files in these subsections, one subsection after the other.
pub fn read_files(alloc: Global, subsections: &[&[u8]]) -> Result<Files, Fault>
    ensures entries { IfOk result (λ files.
        files.entries.items ≡ (all_entries (map (λ s. s.now) subsections.now)).items) }
    ensures fault { IfOk result (λ files. files.fault ≡ (all_entries (map (λ s. s.now) subsections.now)).fault) }
    ensures memory { IfErr result (λ fault. fault ≡ Fault.OutOfMemory) }
{
    let mut entries = Vec::new(alloc);
    let fault = push_all_entries(subsections, &mut entries)?;
    let positions = first_positions(alloc, &entries)?;
    Ok(Files {
        entries,
        positions,
        fault,
    })
}

// Appends the entries of these subsections, up to the first fault.
fn push_all_entries(
    subsections: &[&[u8]],
    entries: &mut Vec<FileEntry>,
) -> Result<Option<StreamError>, AllocError>
    ensures answer { IfOk result (λ fault. fault ≡ (all_entries (map (λ s. s.now) subsections.now)).fault) }
    ensures state { OnOk result (entries.new.items
        ≡ entries.old.items ++ (all_entries (map (λ s. s.now) subsections.now)).items) }
{
    for subsection in subsections {
        let whole = subsection.len();
        let fault = push_items(&PaddedItems(FileEntries { whole }), subsection, entries)?;
        if fault.is_some() {
            return Ok(fault);
        }
    }
    Ok(None)
}

/// Reads the entries of a subsection of `whole` bytes, without padding.
#[derive(Drop)]
struct FileEntries {
    whole: usize,
}

impl<'a> ItemReader<'a> for FileEntries {
    type Item = FileEntry;

    ghost use Rattle.pdb_codeview.specs.Files.{first_entry};

    ghost first = { λ list. first_entry list.whole };

    fn take(&self, rest: &mut Bytes<'a>) -> Result<FileEntry, Fault> {
        let start = offset_of(self.whole, rest.len());
        let front = rest.take(FRONT)?;
        let name = StringRef(u32_at(front, 0));
        rest.take(usize::from(front[4]))?;
        Ok(FileEntry {
            start,
            info: FileInfo { name },
        })
    }
}
