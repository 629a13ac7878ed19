//! Writes ids of functions, methods and strings as JSON.

use crate::export_error::ExportError;
use crate::items::ToMembers;
use crate::members::{member, optional};
use json::Writer;
use pdb_records::{FunctionId, IdData, MemberFunctionId};

impl ToMembers for IdData {
    fn to_members(&self, text: &mut Writer) -> Result<(), ExportError> {
        match self {
            IdData::MemberFunction(id) => member_function(text, id),
            IdData::Function(id) => function(text, id),
            IdData::String(id) => {
                member(text, "kind", &"String")?;
                member(text, "name", &id.name)
            }
            IdData::StringList(id) => {
                member(text, "kind", &"StringList")?;
                member(text, "substrings", &id.substrings)
            }
            IdData::Other(id) => {
                member(text, "kind", &"Other")?;
                member(text, "kind_name", &id.kind_name)
            }
        }
    }
}

/// Writes the members of a member function.
fn member_function(text: &mut Writer, id: &MemberFunctionId) -> Result<(), ExportError> {
    member(text, "kind", &"MemberFunction")?;
    member(text, "parent", &id.parent)?;
    member(text, "function_type", &id.function_type)?;
    member(text, "name", &id.name)
}

/// Writes the members of a function that isn't a member of a class.
fn function(text: &mut Writer, id: &FunctionId) -> Result<(), ExportError> {
    member(text, "kind", &"Function")?;
    optional(text, "scope", &id.scope)?;
    member(text, "function_type", &id.function_type)?;
    member(text, "name", &id.name)
}
