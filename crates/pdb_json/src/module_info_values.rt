//! Reads the records of each module, from the records file and from its module files.

ghost use Rattle.std.specs.Prelude.{◌≡◌, ◌<◌, ◌+◌, ◌^◌, [], get_or};
ghost use Rattle.pdb_json.specs.ModuleFiles.{contents};
ghost use Rattle.serde_json.specs.View.{view, items_view};
ghost use Rattle.pdb_json_values.specs.RecordFault.{Agrees};
ghost use Rattle.pdb_json.specs.ModuleInfoValues.{holding, own_info_of, module_stream_of, module_file_of, info_with};
ghost use Rattle.pdb_json.specs.ModuleInfoValues.{read_after, infos_from, infos_of};

use crate::json::json;
use crate::module_file_names::stands_for_file;
use pdb_json_records::FromJson;
use pdb_json_values::{Reader, RecordFault, inside, inside_element, wanted};
use pdb_records::{ModuleInfo, StreamError};
use serde_json::Value;
use std::marker::Model;

// The records of a module, `None` if it has none, or why they can't be read.
type Known = Result<Option<ModuleInfo>, StreamError>;

// The records of each module.
#[derive(Drop)]
pub(crate) struct AllKnown {
    pub infos: Vec<Known>,
}

impl Model for AllKnown {
    ghost use Rattle.std.specs.Prelude.{List};
    ghost use Rattle.pdb_json.specs.ModuleInfoValues.{Known};

    ghost Value = { List Known };

    ghost view = { λ i. i.infos.items };
}

// The records of a module file as those of a module.
fn holding(stream: Result<ModuleInfo, StreamError>) -> Known
    ensures { result ≡ holding stream }
{
    match stream {
        Ok(info) => Ok(Some(info)),
        Err(fault) => Err(fault),
    }
}

// Reads an element that has the records of a module itself.
#[tactic(auto, unfolding(crate::specs::ModuleInfoValues::own_info_of))]
fn own_info(reader: Reader, value: &Value) -> Result<Known, RecordFault>
    ensures { Agrees result (own_info_of reader.version (view value.now)) }
{
    Known::from_json(reader, Some(value))
}

// Reads the value of a module file.
#[tactic(auto, unfolding(crate::specs::ModuleInfoValues::module_stream_of))]
fn module_stream(reader: Reader, value: &Value) -> Result<Known, RecordFault>
    ensures { Agrees result (module_stream_of reader.version (view value.now)) }
{
    let stream: Result<ModuleInfo, StreamError> = FromJson::from_json(reader, Some(value))?;
    Ok(holding(stream))
}

// Reads a module file. Its JSON value is freed at the end.
#[tactic(auto, unfolding(crate::specs::ModuleInfoValues::module_file_of))]
fn module_file(reader: Reader, bytes: &[u8]) -> Result<Known, RecordFault>
    ensures { Agrees result (module_file_of reader.version bytes.now) }
{
    match json(reader.alloc, bytes)? {
        Some(value) => module_stream(reader, &value),
        None => Err(RecordFault::ModuleNotJson {
            path: String::new(reader.alloc),
        }),
    }
}

// Reads an element, or the next module file if the element names one.
#[tactic(auto, unfolding(crate::specs::ModuleInfoValues::info_with))]
fn info_with(reader: Reader, bytes: &[u8], value: &Value) -> Result<Known, RecordFault>
    ensures { Agrees result (info_with reader.version bytes.now (view value.now)) }
{
    if stands_for_file(reader, value) {
        inside(reader.alloc, "file", module_file(reader, bytes))
    } else {
        own_info(reader, value)
    }
}

// The bytes of the module file with this number; empty after the last one.
fn file_bytes(files: &[Vec<u8>], number: usize) -> &[u8]
    ensures { result.now ≡ get_or (contents files.now) number [] }
{
    match files.get(number) {
        Some(file) => file.as_slice(),
        None => &[],
    }
}

// How many module files have been read after this element.
fn read_after(reader: Reader, done: usize, value: &Value) -> usize
    requires { done + 1 < 2 ^ 64 }
    ensures { result ≡ read_after reader.version done (view value.now) }
{
    if stands_for_file(reader, value) {
        done + 1
    } else {
        done
    }
}

// Reads the records of each module from elements and module files. Each element is freed before the next one is read.
fn all_known(reader: Reader, files: &[Vec<u8>], values: Vec<Value>) -> Result<AllKnown, RecordFault>
    ensures { Agrees result (infos_from reader.version (contents files.now) 0 0 (items_view values.items)) }
{
    let mut infos = Vec::new(reader.alloc);
    let mut done = 0;
    for (number, value) in values.into_iter().enumerate() {
        let read = info_with(reader, file_bytes(files, done), &value);
        let info = inside_element(reader.alloc, number, read)?;
        infos.push(info)?;
        done = read_after(reader, done, &value);
    }
    Ok(AllKnown { infos })
}

// Reads the records of each module from an array and from the module files.
#[tactic(auto, unfolding(crate::specs::ModuleInfoValues::infos_of, pdb_json_values::specs::Values::array_of))]
pub(crate) fn infos(
    reader: Reader,
    files: &[Vec<u8>],
    value: Value,
) -> Result<AllKnown, RecordFault>
    ensures { Agrees result (infos_of reader.version (contents files.now) (view value)) }
{
    match value {
        Value::Array(values) => all_known(reader, files, values),
        _ => wanted(reader.alloc, "array"),
    }
}
