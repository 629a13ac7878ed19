//! Checks whether the types and ids to which an entry or a symbol refers were read.

ghost use Rattle.std.specs.Prelude.{◌≡◌};
ghost use Rattle.pdb_types.specs.Sizes.{underneath};
ghost use Rattle.pdb_part_laws.specs.Asked.{alone, types_behind, sizes_behind, types_behind_id, ids_behind_id};
ghost use Rattle.pdb_known.specs.Known.{is_covered, is_sized, all_types, all_ids, is_type_closed, is_id_closed};
ghost use Rattle.pdb_known.specs.StrictlyClosed.{is_procedure_type_read, is_inlinee_read};

use crate::known_records::{EntriesRead, KnownRecords};
use pdb_records::{
    IdData, IdIndex, Symbol, SymbolData, TypeData, TypeIndex, is_code_kind, is_site_kind,
};

// Whether everything was read that is needed to print a type and to know its size. That is the types in it, and the
// sizes of its element or of the type underneath.
pub(crate) fn is_type_closed(known: &KnownRecords, index: TypeIndex, content: &TypeData) -> bool
    ensures { result ≡ is_type_closed known.now index.0 content.now }
{
    are_types_behind_read(&known.types, content)
        && are_sizes_behind_known(known, content)
        && (!known.is_sized(index.0) || is_size_underneath_known(known, content))
}

// Whether the types and ids that are printed as parts of an id were read.
pub(crate) fn is_id_closed(known: &KnownRecords, content: &IdData) -> bool
    ensures { result ≡ is_id_closed known.now content.now }
{
    are_types_behind_id_read(&known.types, content) && is_scope_read(&known.ids, content)
}

// Whether the type of a symbol's procedure was read. Separated code has no type of its own.
pub(crate) fn is_procedure_type_read(known: &KnownRecords, symbol: &Symbol) -> bool
    ensures { result ≡ is_procedure_type_read known.now symbol.now }
{
    if !is_code_kind(symbol.raw_kind) {
        return true;
    }
    match &symbol.content {
        Some(SymbolData::Procedure(procedure)) => {
            procedure.len == 0 || known.types.is_covered(procedure.type_index.0)
        }
        Some(SymbolData::Thunk(thunk)) => thunk.len == 0 || known.types.is_covered(0),
        _ => true,
    }
}

// Whether the id of the inline site that a symbol opens was read.
pub(crate) fn is_inlinee_read(known: &KnownRecords, symbol: &Symbol) -> bool
    ensures { result ≡ is_inlinee_read known.now symbol.now }
{
    if !is_site_kind(symbol.raw_kind) {
        return true;
    }
    match &symbol.content {
        Some(SymbolData::InlineSite(site)) => known.ids.is_covered(site.inlinee.0),
        _ => true,
    }
}

// Whether the types that are printed as parts of a type were read.
fn are_types_behind_read(types: &EntriesRead, content: &TypeData) -> bool
    ensures { result ≡ all_types (is_covered types.now) (types_behind content.now) }
{
    match content {
        TypeData::MemberFunction(function) => {
            types.is_covered(function.return_type.0)
                && types.is_covered(function.class_type.0)
                && types.is_covered(function.argument_list.0)
                && is_type_read(types, function.this_pointer_type)
        }
        TypeData::Procedure(procedure) => {
            types.is_covered(procedure.argument_list.0)
                && is_type_read(types, procedure.return_type)
        }
        TypeData::Pointer(pointer) => types.is_covered(pointer.underlying_type.0),
        TypeData::Array(array) => types.is_covered(array.element_type.0),
        TypeData::Modifier(modifier) => types.is_covered(modifier.underlying_type.0),
        TypeData::ArgumentList(list) => are_types_read(types, &list.arguments),
        _ => true,
    }
}

// Whether the size that is needed to print a type is known. Only an array needs one: the size of its element.
fn are_sizes_behind_known(known: &KnownRecords, content: &TypeData) -> bool
    ensures { result ≡ all_types (is_sized known.now) (sizes_behind content.now) }
{
    match content {
        TypeData::Array(array) => known.is_sized(array.element_type.0),
        _ => true,
    }
}

// Whether the size of the type underneath is known, if a type takes over its size.
fn is_size_underneath_known(known: &KnownRecords, content: &TypeData) -> bool
    ensures { result ≡ all_types (is_sized known.now) (alone (underneath content.now)) }
{
    match content {
        TypeData::Enumeration(enumeration) => known.is_sized(enumeration.underlying_type.0),
        TypeData::Modifier(modifier) => known.is_sized(modifier.underlying_type.0),
        _ => true,
    }
}

// Whether the types that are printed as parts of an id were read.
fn are_types_behind_id_read(types: &EntriesRead, content: &IdData) -> bool
    ensures { result ≡ all_types (is_covered types.now) (types_behind_id content.now) }
{
    match content {
        IdData::MemberFunction(method) => {
            types.is_covered(method.function_type.0) && types.is_covered(method.parent.0)
        }
        IdData::Function(function) => types.is_covered(function.function_type.0),
        IdData::StringList(list) => are_types_read(types, &list.substrings),
        _ => true,
    }
}

// Whether the id that is printed as a part of an id was read: the scope of a function.
fn is_scope_read(ids: &EntriesRead, content: &IdData) -> bool
    ensures { result ≡ all_ids (is_covered ids.now) (ids_behind_id content.now) }
{
    match content {
        IdData::Function(function) => match function.scope {
            Some(scope) => ids.is_covered(scope.0),
            None => true,
        },
        _ => true,
    }
}

// Whether an optional type was read, if there is one.
fn is_type_read(types: &EntriesRead, index: Option<TypeIndex>) -> bool
    ensures { result ≡ all_types (is_covered types.now) (alone index) }
{
    match index {
        Some(index) => types.is_covered(index.0),
        None => true,
    }
}

// Whether each of these types was read.
fn are_types_read(types: &EntriesRead, indices: &[TypeIndex]) -> bool
    ensures { result ≡ all_types (is_covered types.now) indices.now }
{
    for index in indices {
        if !types.is_covered(index.0) {
            return false;
        }
    }
    true
}
