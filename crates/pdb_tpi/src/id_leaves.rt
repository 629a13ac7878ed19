//! Reads the records of ids: functions, methods and strings.

ghost use Rattle.std.specs.Prelude.{◌≡◌, IfErr, IfOk};
ghost use Rattle.pdb_msf.specs.Faults.{Gives};
ghost use Rattle.pdb_records.specs.declared.ids.IdData.TheVariants as id;
ghost use Rattle.pdb_tpi.specs.IdLeaves.{data_of, function, id_data, id_kind, member_function, no_ids, optional_scope};
ghost use Rattle.pdb_tpi.specs.IdLeaves.{string, string_list};

use crate::contents::content_of;
use crate::index_lists::read_indices;
use crate::item_streams::ItemIndex;
use crate::type_names::take_name;
use pdb_msf::faults::Fault;
use pdb_msf::{Bytes, nothing_read, u32_at};
use pdb_records::{
    Error, FunctionId, IdData, IdIndex, IdInformation, Item, ItemInformation, MemberFunctionId,
    StringId, StringListId, TypeIndex, UnhandledId,
};
use std::alloc::{AllocError, Global};

/// The kinds of ids that are known.
#[derive(Clone, Copy)]
pub(crate) enum IdKind {
    Function,
    MemberFunction,
    StringList,
    String,
    BuildInfo,
    UserDefinedTypeSource,
}

/// An empty list of ids.
pub fn no_ids(alloc: Global) -> IdInformation
    ensures { result ≡ no_ids }
{
    ItemInformation {
        items: nothing_read(alloc, None),
    }
}

impl ItemIndex for IdIndex {
    type Data = IdData;

    ghost use Rattle.pdb_tpi.specs.IdLeaves.{ids};

    ghost meaning = { ids };

    fn of_number(number: u32) -> IdIndex {
        IdIndex(number)
    }

    #[tactic(auto, using(crate::proofs::ContentLemmas::given_content), unfolding(crate::specs::IdLeaves::id_data))]
    fn content(
        alloc: Global,
        kind: u16,
        bytes: &[u8],
    ) -> Result<Result<IdData, Error>, AllocError> {
        match id_kind(kind) {
            Some(known) => content_of(id_data(alloc, known, bytes)),
            None => Ok(Err(Error::UnimplementedTypeKind(kind))),
        }
    }

    fn first_items(alloc: Global) -> Result<Vec<Item<IdIndex, IdData>>, AllocError> {
        Ok(Vec::new(alloc))
    }
}

// The kind of id with this number, if it is known.
fn id_kind(number: u16) -> Option<IdKind>
    ensures { result ≡ id_kind number }
{
    match number {
        0x1601 => Some(IdKind::Function),
        0x1602 => Some(IdKind::MemberFunction),
        0x1603 => Some(IdKind::BuildInfo),
        0x1604 => Some(IdKind::StringList),
        0x1605 => Some(IdKind::String),
        0x1606 | 0x1607 => Some(IdKind::UserDefinedTypeSource),
        _ => None,
    }
}

// Reads the content of an id of this kind.
fn id_data(alloc: Global, kind: IdKind, bytes: &[u8]) -> Result<IdData, Fault>
    ensures { Gives (λ read. read) result (data_of kind bytes.now) }
{
    match kind {
        IdKind::Function => function(alloc, bytes),
        IdKind::MemberFunction => member_function(alloc, bytes),
        IdKind::StringList => string_list(alloc, bytes),
        IdKind::String => string(alloc, bytes),
        IdKind::BuildInfo => unhandled(alloc, "BuildInfo"),
        IdKind::UserDefinedTypeSource => unhandled(alloc, "UserDefinedTypeSource"),
    }
}

// An id whose content isn't read, only the name of its kind.
fn unhandled(alloc: Global, kind_name: &str) -> Result<IdData, Fault>
    ensures answer { IfOk result (λ read. read ≡ id.Other kind_name.now) }
    ensures memory { IfErr result (λ fault. fault ≡ Fault.OutOfMemory) }
{
    let kind_name = String::from_str(alloc, kind_name)?;
    Ok(IdData::Other(UnhandledId { kind_name }))
}

// The index of a scope; `None` if it is 0.
fn optional_scope(index: u32) -> Option<IdIndex>
    ensures { result ≡ optional_scope index }
{
    if index == 0 {
        None
    } else {
        Some(IdIndex(index))
    }
}

#[tactic(auto, unfolding(crate::specs::IdLeaves::function))]
fn function(alloc: Global, bytes: &[u8]) -> Result<IdData, Fault>
    ensures { Gives (λ read. read) result (function bytes.now) }
{
    let mut rest = Bytes::new(bytes);
    rest.take(8)?;
    let name = take_name(alloc, &mut rest)?;
    Ok(IdData::Function(FunctionId {
        scope: optional_scope(u32_at(bytes, 0)),
        function_type: TypeIndex(u32_at(bytes, 4)),
        name,
    }))
}

#[tactic(auto, unfolding(crate::specs::IdLeaves::member_function))]
fn member_function(alloc: Global, bytes: &[u8]) -> Result<IdData, Fault>
    ensures { Gives (λ read. read) result (member_function bytes.now) }
{
    let mut rest = Bytes::new(bytes);
    rest.take(8)?;
    let name = take_name(alloc, &mut rest)?;
    Ok(IdData::MemberFunction(MemberFunctionId {
        parent: TypeIndex(u32_at(bytes, 0)),
        function_type: TypeIndex(u32_at(bytes, 4)),
        name,
    }))
}

#[tactic(auto, unfolding(crate::specs::IdLeaves::string_list))]
fn string_list(alloc: Global, bytes: &[u8]) -> Result<IdData, Fault>
    ensures { Gives (λ read. read) result (string_list bytes.now) }
{
    let substrings = read_indices(alloc, bytes)?;
    Ok(IdData::StringList(StringListId { substrings }))
}

#[tactic(auto, unfolding(crate::specs::IdLeaves::string))]
fn string(alloc: Global, bytes: &[u8]) -> Result<IdData, Fault>
    ensures { Gives (λ read. read) result (string bytes.now) }
{
    let mut rest = Bytes::new(bytes);
    rest.take(4)?;
    let name = take_name(alloc, &mut rest)?;
    Ok(IdData::String(StringId { name }))
}
