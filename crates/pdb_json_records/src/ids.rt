//! Reads ids: member functions, other functions, and strings.

ghost use Rattle.serde_json.specs.View.{view};
ghost use Rattle.pdb_json_values.specs.RecordFault.{Agrees};
ghost use Rattle.pdb_json_records.specs.Ids.{member_function_id_of, function_id_of, string_id_of, substrings_of};
ghost use Rattle.pdb_json_records.specs.Ids.{id_named, id_of};

use crate::members::{Elements, FromJson, member};
use crate::name_values::{kind, unknown_kind};
use crate::types::kind_name;
use pdb_json_values::{Reader, RecordFault, object};
use pdb_records::{
    FunctionId, IdData, MemberFunctionId, StringId, StringListId, TypeIndex, UnhandledId,
};
use serde_json::Value;

// Reads a member function.
#[tactic(auto, unfolding(crate::specs::Ids::member_function_id_of))]
fn member_function(reader: Reader, object: &Value) -> Result<MemberFunctionId, RecordFault>
    ensures { Agrees result (member_function_id_of reader.version (view object.now)) }
{
    Ok(MemberFunctionId {
        parent: member(reader, object, "parent")?,
        function_type: member(reader, object, "function_type")?,
        name: member(reader, object, "name")?,
    })
}

// Reads a function that isn't a member.
#[tactic(auto, unfolding(crate::specs::Ids::function_id_of))]
fn function(reader: Reader, object: &Value) -> Result<FunctionId, RecordFault>
    ensures { Agrees result (function_id_of reader.version (view object.now)) }
{
    Ok(FunctionId {
        scope: member(reader, object, "scope")?,
        function_type: member(reader, object, "function_type")?,
        name: member(reader, object, "name")?,
    })
}

// Reads a string, such as the name of a namespace.
#[tactic(auto, unfolding(crate::specs::Ids::string_id_of))]
fn string(reader: Reader, object: &Value) -> Result<StringId, RecordFault>
    ensures { Agrees result (string_id_of reader.version (view object.now)) }
{
    Ok(StringId {
        name: member(reader, object, "name")?,
    })
}

// Reads a string in pieces.
#[tactic(auto, unfolding(crate::specs::Ids::substrings_of))]
fn string_list(reader: Reader, object: &Value) -> Result<StringListId, RecordFault>
    ensures { Agrees result (substrings_of (view object.now)) }
{
    let substrings: Elements<TypeIndex> = member(reader, object, "substrings")?;
    Ok(StringListId {
        substrings: substrings.elements,
    })
}

// Reads the content of an id, by the name of its kind.
#[tactic(auto, unfolding(crate::specs::Ids::id_named))]
fn id_data(reader: Reader, kind: &str, object: &Value) -> Result<IdData, RecordFault>
    ensures { Agrees result (id_named reader.version kind.now (view object.now)) }
{
    Ok(match kind {
        "MemberFunction" => IdData::MemberFunction(member_function(reader, object)?),
        "Function" => IdData::Function(function(reader, object)?),
        "String" => IdData::String(string(reader, object)?),
        "StringList" => IdData::StringList(string_list(reader, object)?),
        "Other" => IdData::Other(UnhandledId {
            kind_name: kind_name(reader, object)?.text,
        }),
        _ => return unknown_kind(reader),
    })
}

impl FromJson for IdData {
    ghost read = { id_of };

    #[tactic(auto, unfolding(crate::specs::Ids::id_of))]
    fn from_json(reader: Reader, value: Option<&Value>) -> Result<IdData, RecordFault> {
        let entry = object(reader, value)?;
        let kind = kind(reader, entry)?;
        id_data(reader, kind, entry)
    }
}
