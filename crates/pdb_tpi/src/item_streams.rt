//! `ItemIndex`: whether the records of a stream are read as types or as ids.

ghost use Rattle.std.specs.Prelude.{◌≡◌, IfOk};
ghost use Rattle.pdb_tpi.specs.ItemStreams.{ItemMeaning};

use pdb_records::{Error, Item};
use std::alloc::{AllocError, Global};

/// The index of a type or of an id. It decides as which of both the records of a stream are read.
pub trait ItemIndex: Drop {
    /// The content of an item.
    type Data: Drop;

    /// The meaning of the records of such a list.
    ghost meaning: { ItemMeaning Self Self.Data };

    /// The index with this number.
    fn of_number(number: u32) -> Self
        ensures { result ≡ meaning.index number };

    /// Reads the content of a record, by its kind and the bytes after it, or says why it can't be read.
    fn content(
        alloc: Global,
        kind: u16,
        bytes: &[u8],
    ) -> Result<Result<Self::Data, Error>, AllocError>
        ensures { IfOk result (λ content. content ≡ meaning.content kind bytes.now) };

    /// The items with which every list begins, before those of the stream.
    fn first_items(alloc: Global) -> Result<Vec<Item<Self, Self::Data>>, AllocError>
        ensures { IfOk result (λ items. items.items ≡ meaning.first) };
}
