//! Writes types as JSON, each kind with its members.

use crate::export_error::ExportError;
use crate::items::ToMembers;
use crate::json_names::kind_name;
use crate::members::{ToJson, member, optional};
use json::Writer;
use pdb_json_records::{CLASS_KINDS, POINTER_MODES, PRIMITIVE_KINDS};
use pdb_records::{
    ArrayType, ClassKind, ClassType, EnumerationType, MemberFunctionType, ModifierType,
    PointerMode, PointerType, PrimitiveKind, PrimitiveType, ProcedureType, TypeData, UnionType,
    Variant,
};

impl ToMembers for TypeData {
    fn to_members(&self, text: &mut Writer) -> Result<(), ExportError> {
        match self {
            TypeData::Primitive(data) => primitive(text, *data),
            TypeData::Class(data) => class(text, data),
            TypeData::MemberFunction(data) => member_function(text, *data),
            TypeData::Procedure(data) => procedure(text, *data),
            TypeData::Pointer(data) => pointer(text, *data),
            TypeData::Array(data) => array(text, data),
            TypeData::Union(data) => union_type(text, data),
            TypeData::Enumeration(data) => enumeration(text, data),
            TypeData::Enumerate(data) => {
                member(text, "kind", &"Enumerate")?;
                member(text, "name", &data.name)?;
                member(text, "value", &data.value)
            }
            TypeData::Modifier(data) => modifier(text, *data),
            TypeData::ArgumentList(data) => {
                member(text, "kind", &"ArgumentList")?;
                member(text, "arguments", &data.arguments)
            }
            TypeData::Other(data) => {
                member(text, "kind", &"Other")?;
                member(text, "kind_name", &data.kind_name)
            }
        }
    }
}

/// Writes the members of a primitive type.
fn primitive(text: &mut Writer, data: PrimitiveType) -> Result<(), ExportError> {
    member(text, "kind", &"Primitive")?;
    member(text, "primitive", &data.kind)?;
    member(text, "indirection", &data.indirection)
}

impl ToJson for PrimitiveKind {
    fn to_json(&self, text: &mut Writer) -> Result<(), ExportError> {
        kind_name(text, &PRIMITIVE_KINDS, *self)
    }
}

/// Writes the members of a class, a struct or an interface.
fn class(text: &mut Writer, data: &ClassType) -> Result<(), ExportError> {
    member(text, "kind", &"Class")?;
    member(text, "class_kind", &data.class_kind)?;
    member(text, "name", &data.name)?;
    optional(text, "unique_name", &data.unique_name)?;
    member(text, "size", &data.size)?;
    member(text, "forward_reference", &data.forward_reference)
}

impl ToJson for ClassKind {
    fn to_json(&self, text: &mut Writer) -> Result<(), ExportError> {
        kind_name(text, &CLASS_KINDS, *self)
    }
}

/// Writes the members of the type of a member function.
fn member_function(text: &mut Writer, data: MemberFunctionType) -> Result<(), ExportError> {
    member(text, "kind", &"MemberFunction")?;
    member(text, "return_type", &data.return_type)?;
    member(text, "class_type", &data.class_type)?;
    optional(text, "this_pointer_type", &data.this_pointer_type)?;
    member(text, "is_constructor", &data.is_constructor)?;
    member(text, "argument_list", &data.argument_list)
}

/// Writes the members of the type of a function that isn't a member.
fn procedure(text: &mut Writer, data: ProcedureType) -> Result<(), ExportError> {
    member(text, "kind", &"Procedure")?;
    optional(text, "return_type", &data.return_type)?;
    member(text, "is_constructor", &data.is_constructor)?;
    member(text, "argument_list", &data.argument_list)
}

/// Writes the members of a pointer or a reference.
fn pointer(text: &mut Writer, data: PointerType) -> Result<(), ExportError> {
    member(text, "kind", &"Pointer")?;
    member(text, "underlying_type", &data.underlying_type)?;
    member(text, "mode", &data.mode)?;
    member(text, "is_const", &data.is_const)?;
    member(text, "size", &data.size)
}

impl ToJson for PointerMode {
    fn to_json(&self, text: &mut Writer) -> Result<(), ExportError> {
        kind_name(text, &POINTER_MODES, *self)
    }
}

/// Writes the members of an array.
fn array(text: &mut Writer, data: &ArrayType) -> Result<(), ExportError> {
    member(text, "kind", &"Array")?;
    member(text, "element_type", &data.element_type)?;
    member(text, "first", &data.first)?;
    member(text, "rest", &data.rest)
}

/// Writes the members of a union.
fn union_type(text: &mut Writer, data: &UnionType) -> Result<(), ExportError> {
    member(text, "kind", &"Union")?;
    member(text, "name", &data.name)?;
    optional(text, "unique_name", &data.unique_name)?;
    member(text, "size", &data.size)?;
    member(text, "forward_reference", &data.forward_reference)
}

/// Writes the members of an enumeration.
fn enumeration(text: &mut Writer, data: &EnumerationType) -> Result<(), ExportError> {
    member(text, "kind", &"Enumeration")?;
    member(text, "name", &data.name)?;
    member(text, "underlying_type", &data.underlying_type)
}

impl ToJson for Variant {
    fn to_json(&self, text: &mut Writer) -> Result<(), ExportError> {
        match *self {
            Variant::U8(value) => variant(text, "U8", &value),
            Variant::U16(value) => variant(text, "U16", &value),
            Variant::U32(value) => variant(text, "U32", &value),
            Variant::U64(value) => variant(text, "U64", &value),
            Variant::I8(value) => variant(text, "I8", &i64::from(value)),
            Variant::I16(value) => variant(text, "I16", &i64::from(value)),
            Variant::I32(value) => variant(text, "I32", &i64::from(value)),
            Variant::I64(value) => variant(text, "I64", &value),
        }
    }
}

/// Writes a number with its declared kind.
fn variant<T: ToJson>(text: &mut Writer, kind: &str, value: &T) -> Result<(), ExportError> {
    text.begin_object()?;
    member(text, "kind", &kind)?;
    member(text, "value", value)?;
    Ok(text.end_object()?)
}

/// Writes the members of a modifier.
fn modifier(text: &mut Writer, data: ModifierType) -> Result<(), ExportError> {
    member(text, "kind", &"Modifier")?;
    member(text, "underlying_type", &data.underlying_type)?;
    member(text, "constant", &data.constant)
}
