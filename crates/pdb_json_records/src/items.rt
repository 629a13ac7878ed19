//! Reads the lists of types and ids: each entry has an index, and its content or why it can't be read.

ghost use Rattle.serde_json.specs.View.{view};
ghost use Rattle.pdb_json_values.specs.RecordFault.{Agrees};
ghost use Rattle.pdb_json_records.specs.Items.{failed_stream_of, unimplemented_kind_of, error_of, content_of};
ghost use Rattle.pdb_json_records.specs.Items.{item_of, items_of};

use crate::members::{FromJson, member};
use pdb_json_values::{Reader, RecordFault, object, wanted};
use pdb_records::{Error, Item, ItemInformation};
use serde_json::Value;

// Reads the error of an entry that can't be read, by the number of a stream's error.
#[tactic(auto, unfolding(crate::specs::Items::failed_stream_of))]
fn failed_stream(reader: Reader, object: &Value) -> Result<Error, RecordFault>
    ensures { Agrees result (failed_stream_of (view object.now)) }
{
    Ok(Error::Stream(member(reader, object, "stream")?))
}

// Reads the error of an entry with an unknown kind, by the kind's number.
#[tactic(auto, unfolding(crate::specs::Items::unimplemented_kind_of))]
fn unimplemented_kind(reader: Reader, object: &Value) -> Result<Error, RecordFault>
    ensures { Agrees result (unimplemented_kind_of (view object.now)) }
{
    Ok(Error::UnimplementedTypeKind(member(reader, object, "unimplemented")?))
}

impl FromJson for Error {
    ghost read = { λ _. error_of };

    #[tactic(auto, unfolding(crate::specs::Items::error_of))]
    fn from_json(reader: Reader, value: Option<&Value>) -> Result<Error, RecordFault> {
        let error = object(reader, value)?;
        if error.get("stream").is_some() {
            failed_stream(reader, error)
        } else if error.get("unimplemented").is_some() {
            unimplemented_kind(reader, error)
        } else {
            wanted(reader.alloc, "kind")
        }
    }
}

// Reads the content of an entry, or why it can't be read.
#[tactic(auto, unfolding(crate::specs::Items::content_of))]
fn content<D: FromJson>(reader: Reader, entry: &Value) -> Result<Result<D, Error>, RecordFault>
    ensures { Agrees result (content_of (D.read reader.version) (view entry.now)) }
{
    if entry.get("error").is_some() {
        Ok(Err(member(reader, entry, "error")?))
    } else {
        Ok(Ok(D::from_json(reader, Some(entry))?))
    }
}

impl<I: FromJson, D: FromJson> FromJson for Item<I, D> {
    ghost read = { λ version. item_of (I.read version) (D.read version) };

    #[tactic(auto, unfolding(crate::specs::Items::item_of))]
    fn from_json(reader: Reader, value: Option<&Value>) -> Result<Item<I, D>, RecordFault> {
        let entry = object(reader, value)?;
        Ok(Item {
            index: member(reader, entry, "index")?,
            content: content(reader, entry)?,
        })
    }
}

impl<I: FromJson, D: FromJson> FromJson for ItemInformation<I, D> {
    ghost read = { λ version. items_of (I.read version) (D.read version) };

    #[tactic(auto, unfolding(crate::specs::Items::items_of))]
    fn from_json(
        reader: Reader,
        value: Option<&Value>,
    ) -> Result<ItemInformation<I, D>, RecordFault> {
        Ok(ItemInformation {
            items: FromJson::from_json(reader, value)?,
        })
    }
}
