//! Writes all unwind records of a program: those of its exception directory's entries, and those of leaf functions.

ghost use Rattle.std.specs.Prelude.{◌≡◌, IfOk, OnOk};
ghost use Rattle.pe_unwind.specs.Functions.{function_at};
ghost use Rattle.pe_unwind.specs.ProgramRecords.{Adds, AddsAll, AreUnwindRecords};

use crate::cfi_text::push_entry;
use crate::functions::reach_behind;
use crate::leaf_code::push_leaf_records;
use crate::unwind_errors::{EntryError, UnwindError};
use pe_image::{FunctionEntry, Image, function_entries};
use std::alloc::{AllocError, Global};
use std::marker::Model;

/// The unwind records of a program, as text.
#[derive(Drop)]
pub struct UnwindRecords {
    /// One line for each record.
    pub text: String,
    /// The entries of the exception directory that get no records, in file order.
    pub left_out: Vec<OmittedEntry>,
}

impl Model for UnwindRecords {
    ghost use Rattle.std.specs.Prelude.{string_bytes};
    ghost use Rattle.pe_unwind.specs.ProgramRecords.{Written};

    ghost Value = { Written };

    ghost view = { λ records. record { text = string_bytes records.text; left_out = records.left_out.items } };
}

/// An entry of the exception directory that gets no records.
#[derive(Debug, Clone, Copy, PartialEq, Eq)]
pub struct OmittedEntry {
    /// The address of its function's first byte, relative to the image base.
    pub begin: u32,
    pub why: EntryError,
}

/// The unwind records of a program for x64: those of each entry of its exception directory in file order, and then
/// those of leaf functions, which have no entry.
pub fn unwind_records(alloc: Global, image: &Image<'_>) -> Result<UnwindRecords, AllocError>
    ensures answer { IfOk result (AreUnwindRecords image.now) }
{
    let entries = function_entries(alloc, image)?;
    let mut records = UnwindRecords {
        text: String::new(alloc),
        left_out: Vec::new(alloc),
    };
    add_entries(alloc, &mut records, image, &entries)?;
    push_leaf_records(alloc, &mut records.text, image, &entries)?;
    Ok(records)
}

// Appends the records of entries.
fn add_entries(
    alloc: Global,
    records: &mut UnwindRecords,
    image: &Image<'_>,
    entries: &[FunctionEntry],
) -> Result<(), AllocError>
    ensures { OnOk result (AddsAll image.now 0 entries.now records.old records.new) }
{
    let mut reach = 0;
    for &entry in entries {
        add_entry(alloc, records, image, reach, entry)?;
        reach = reach_behind(image, reach, entry);
    }
    Ok(())
}

// Appends the records of an entry, or lists it as one without records.
fn add_entry(
    alloc: Global,
    records: &mut UnwindRecords,
    image: &Image<'_>,
    reach: u32,
    entry: FunctionEntry,
) -> Result<(), AllocError>
    ensures { OnOk result (Adds entry (function_at image.now reach entry) records.old records.new) }
{
    let begin = entry.begin;
    match push_entry(alloc, &mut records.text, image, reach, entry) {
        Ok(()) => Ok(()),
        Err(UnwindError::OutOfMemory) => Err(AllocError),
        Err(UnwindError::Refused(why)) => {
            records.left_out.push(OmittedEntry { begin, why })?;
            Ok(())
        }
    }
}
