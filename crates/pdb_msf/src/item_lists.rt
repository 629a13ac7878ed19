//! Reads lists of consecutive items up to the end of the bytes, with any reader for one item.

ghost use Rattle.std.specs.Prelude.{◌≡◌, ◌++◌, ℕ, List, Result, IfOk, OnOk};
ghost use Rattle.pdb_records.specs.declared.error.StreamError.{StreamError};
ghost use Rattle.pdb_msf.specs.Faults.{Gives};
ghost use Rattle.pdb_msf.specs.ItemLists.{all_items};
ghost use Rattle.pdb_msf.specs.Readings.{whole};

use crate::bytes::Bytes;
use crate::faults::Fault;
use crate::number_lists::bytes_from;
use pdb_records::{Reading, StreamError};
use std::alloc::{AllocError, Global};

/// A reader for the items of a list.
pub trait ItemReader<'a> {
    type Item: Drop;

    /// The first item, and the bytes after it.
    ghost first: { Self → List ℕ → Result (Self.Item × List ℕ) StreamError };

    /// Reads the next item off the front.
    fn take(&self, rest: &mut Bytes<'a>) -> Result<Self::Item, Fault>
        ensures { Gives (λ item. (item, rest.new)) result (first self.now rest.old) };
}

/// Reads items that are each padded to a multiple of four bytes, counted from the item's start.
#[derive(Drop)]
pub struct PaddedItems<R>(pub R);

impl<'a, R: ItemReader<'a> + Drop> ItemReader<'a> for PaddedItems<R> {
    type Item = R::Item;

    ghost use Rattle.pdb_msf.specs.ItemLists.{first_padded};

    ghost first = { λ padded. first_padded (R.first padded.0) };

    fn take(&self, rest: &mut Bytes<'a>) -> Result<R::Item, Fault> {
        let left = rest.len();
        let item = self.0.take(rest)?;
        let read = left.saturating_sub(rest.len());
        *rest = Bytes::new(bytes_from(rest.rest(), (4 - read % 4) % 4));
        Ok(item)
    }
}

/// Appends the items of these bytes, up to the first fault, which is returned.
pub fn push_items<'a, R: ItemReader<'a>>(
    reader: &R,
    bytes: &'a [u8],
    items: &mut Vec<R::Item>,
) -> Result<Option<StreamError>, AllocError>
    ensures answer { IfOk result (λ fault. fault ≡ (all_items (R.first reader.now) bytes.now).fault) }
    ensures state { OnOk result (items.new.items
        ≡ items.old.items ++ (all_items (R.first reader.now) bytes.now).items) }
{
    let mut rest = Bytes::new(bytes);
    for _ in 0..bytes.len() {
        if rest.is_empty() {
            break;
        }
        match reader.take(&mut rest) {
            Ok(item) => items.push(item)?,
            Err(Fault::Broken(error)) => return Ok(Some(error)),
            Err(Fault::OutOfMemory) => return Err(AllocError),
        }
    }
    Ok(None)
}

/// Reads the items of these bytes, up to the first fault.
pub fn read_items<'a, R: ItemReader<'a>>(
    alloc: Global,
    reader: &R,
    bytes: &'a [u8],
) -> Result<Reading<R::Item>, AllocError>
    ensures { IfOk result (λ read. read ≡ all_items (R.first reader.now) bytes.now) }
{
    let mut items = Vec::new(alloc);
    let fault = push_items(reader, bytes, &mut items)?;
    Ok(Reading { items, fault })
}

/// Reads all items of these bytes. If one has a fault, the result is that error.
pub fn read_all_items<'a, R: ItemReader<'a>>(
    alloc: Global,
    reader: &R,
    bytes: &'a [u8],
) -> Result<Vec<R::Item>, Fault>
    ensures { Gives (λ read. read.items) result (whole (all_items (R.first reader.now) bytes.now)) }
{
    let mut items = Vec::new(alloc);
    match push_items(reader, bytes, &mut items)? {
        None => Ok(items),
        Some(error) => Err(Fault::Broken(error)),
    }
}
