//! Reads types, by their kinds.

ghost use Rattle.serde_json.specs.View.{view};
ghost use Rattle.pdb_json_values.specs.RecordFault.{Agrees};
ghost use Rattle.pdb_json_records.specs.NameValues.{variant_of};
ghost use Rattle.pdb_json_records.specs.Types.{primitive_kinds, class_kinds, pointer_modes, primitive_of, class_of};
ghost use Rattle.pdb_json_records.specs.Types.{member_function_of, procedure_type_of, pointer_of, dimensions_of};
ghost use Rattle.pdb_json_records.specs.Types.{union_of, enumeration_of, number_named, number_of, enumerate_of};
ghost use Rattle.pdb_json_records.specs.Types.{modifier_of, arguments_of, kind_name_of, type_named, type_of};

use crate::members::{Elements, FromJson, member};
use crate::name_values::{Text, kind, unknown_kind, variant};
use pdb_json_values::{Reader, RecordFault, object};
use pdb_records::{
    ArgumentList, ArrayType, ClassKind, ClassType, EnumerateType, EnumerationType,
    MemberFunctionType, ModifierType, PointerMode, PointerType, PrimitiveKind, PrimitiveType,
    ProcedureType, TypeData, TypeIndex, UnhandledType, UnionType, Variant,
};
use serde_json::Value;

/// The names of the primitive types.
pub const PRIMITIVE_KINDS: [(&str, PrimitiveKind); 43] = [
    ("NoType", PrimitiveKind::NoType),
    ("Void", PrimitiveKind::Void),
    ("Char", PrimitiveKind::Char),
    ("UChar", PrimitiveKind::UChar),
    ("RChar", PrimitiveKind::RChar),
    ("WChar", PrimitiveKind::WChar),
    ("RChar16", PrimitiveKind::RChar16),
    ("RChar32", PrimitiveKind::RChar32),
    ("Char8", PrimitiveKind::Char8),
    ("I8", PrimitiveKind::I8),
    ("U8", PrimitiveKind::U8),
    ("Short", PrimitiveKind::Short),
    ("UShort", PrimitiveKind::UShort),
    ("I16", PrimitiveKind::I16),
    ("U16", PrimitiveKind::U16),
    ("Long", PrimitiveKind::Long),
    ("ULong", PrimitiveKind::ULong),
    ("I32", PrimitiveKind::I32),
    ("U32", PrimitiveKind::U32),
    ("Quad", PrimitiveKind::Quad),
    ("UQuad", PrimitiveKind::UQuad),
    ("I64", PrimitiveKind::I64),
    ("U64", PrimitiveKind::U64),
    ("Octa", PrimitiveKind::Octa),
    ("UOcta", PrimitiveKind::UOcta),
    ("I128", PrimitiveKind::I128),
    ("U128", PrimitiveKind::U128),
    ("F16", PrimitiveKind::F16),
    ("F32", PrimitiveKind::F32),
    ("F32PP", PrimitiveKind::F32PP),
    ("F48", PrimitiveKind::F48),
    ("F64", PrimitiveKind::F64),
    ("F80", PrimitiveKind::F80),
    ("F128", PrimitiveKind::F128),
    ("Complex32", PrimitiveKind::Complex32),
    ("Complex64", PrimitiveKind::Complex64),
    ("Complex80", PrimitiveKind::Complex80),
    ("Complex128", PrimitiveKind::Complex128),
    ("Bool8", PrimitiveKind::Bool8),
    ("Bool16", PrimitiveKind::Bool16),
    ("Bool32", PrimitiveKind::Bool32),
    ("Bool64", PrimitiveKind::Bool64),
    ("HRESULT", PrimitiveKind::HRESULT),
];

impl FromJson for PrimitiveKind {
    ghost read = { λ _. variant_of primitive_kinds };

    fn from_json(reader: Reader, value: Option<&Value>) -> Result<PrimitiveKind, RecordFault> {
        variant(reader, value, &PRIMITIVE_KINDS)
    }
}

/// The names of the kinds of classes.
pub const CLASS_KINDS: [(&str, ClassKind); 3] = [
    ("Class", ClassKind::Class),
    ("Interface", ClassKind::Interface),
    ("Struct", ClassKind::Struct),
];

impl FromJson for ClassKind {
    ghost read = { λ _. variant_of class_kinds };

    fn from_json(reader: Reader, value: Option<&Value>) -> Result<ClassKind, RecordFault> {
        variant(reader, value, &CLASS_KINDS)
    }
}

/// The names of the pointer modes.
pub const POINTER_MODES: [(&str, PointerMode); 5] = [
    ("Pointer", PointerMode::Pointer),
    ("LValueReference", PointerMode::LValueReference),
    ("Member", PointerMode::Member),
    ("MemberFunction", PointerMode::MemberFunction),
    ("RValueReference", PointerMode::RValueReference),
];

impl FromJson for PointerMode {
    ghost read = { λ _. variant_of pointer_modes };

    fn from_json(reader: Reader, value: Option<&Value>) -> Result<PointerMode, RecordFault> {
        variant(reader, value, &POINTER_MODES)
    }
}

// Reads a primitive type, or a pointer to one.
#[tactic(auto, unfolding(crate::specs::Types::primitive_of))]
fn primitive(reader: Reader, object: &Value) -> Result<PrimitiveType, RecordFault>
    ensures { Agrees result (primitive_of (view object.now)) }
{
    Ok(PrimitiveType {
        kind: member(reader, object, "primitive")?,
        indirection: member(reader, object, "indirection")?,
    })
}

// Reads a class, a struct or an interface.
#[tactic(auto, unfolding(crate::specs::Types::class_of))]
fn class(reader: Reader, object: &Value) -> Result<ClassType, RecordFault>
    ensures { Agrees result (class_of reader.version (view object.now)) }
{
    Ok(ClassType {
        class_kind: member(reader, object, "class_kind")?,
        name: member(reader, object, "name")?,
        unique_name: member(reader, object, "unique_name")?,
        size: member(reader, object, "size")?,
        forward_reference: member(reader, object, "forward_reference")?,
    })
}

// Reads the type of a member function.
#[tactic(auto, unfolding(crate::specs::Types::member_function_of))]
fn member_function(reader: Reader, object: &Value) -> Result<MemberFunctionType, RecordFault>
    ensures { Agrees result (member_function_of (view object.now)) }
{
    Ok(MemberFunctionType {
        return_type: member(reader, object, "return_type")?,
        class_type: member(reader, object, "class_type")?,
        this_pointer_type: member(reader, object, "this_pointer_type")?,
        is_constructor: member(reader, object, "is_constructor")?,
        argument_list: member(reader, object, "argument_list")?,
    })
}

// Reads the type of a function that isn't a member.
#[tactic(auto, unfolding(crate::specs::Types::procedure_type_of))]
fn procedure_type(reader: Reader, object: &Value) -> Result<ProcedureType, RecordFault>
    ensures { Agrees result (procedure_type_of (view object.now)) }
{
    Ok(ProcedureType {
        return_type: member(reader, object, "return_type")?,
        is_constructor: member(reader, object, "is_constructor")?,
        argument_list: member(reader, object, "argument_list")?,
    })
}

// Reads a pointer or a reference.
#[tactic(auto, unfolding(crate::specs::Types::pointer_of))]
fn pointer(reader: Reader, object: &Value) -> Result<PointerType, RecordFault>
    ensures { Agrees result (pointer_of (view object.now)) }
{
    Ok(PointerType {
        underlying_type: member(reader, object, "underlying_type")?,
        mode: member(reader, object, "mode")?,
        is_const: member(reader, object, "is_const")?,
        size: member(reader, object, "size")?,
    })
}

// Reads an array.
#[tactic(auto, unfolding(crate::specs::Types::dimensions_of))]
fn array_type(reader: Reader, object: &Value) -> Result<ArrayType, RecordFault>
    ensures { Agrees result (dimensions_of (view object.now)) }
{
    let element_type = member(reader, object, "element_type")?;
    let first = member(reader, object, "first")?;
    let rest: Elements<u32> = member(reader, object, "rest")?;
    Ok(ArrayType {
        element_type,
        first,
        rest: rest.elements,
    })
}

// Reads a union.
#[tactic(auto, unfolding(crate::specs::Types::union_of))]
fn union(reader: Reader, object: &Value) -> Result<UnionType, RecordFault>
    ensures { Agrees result (union_of reader.version (view object.now)) }
{
    Ok(UnionType {
        name: member(reader, object, "name")?,
        unique_name: member(reader, object, "unique_name")?,
        size: member(reader, object, "size")?,
        forward_reference: member(reader, object, "forward_reference")?,
    })
}

// Reads an enumeration of named values.
#[tactic(auto, unfolding(crate::specs::Types::enumeration_of))]
fn enumeration(reader: Reader, object: &Value) -> Result<EnumerationType, RecordFault>
    ensures { Agrees result (enumeration_of reader.version (view object.now)) }
{
    Ok(EnumerationType {
        name: member(reader, object, "name")?,
        underlying_type: member(reader, object, "underlying_type")?,
    })
}

// Reads a number, by the name of its width and sign.
#[tactic(auto, unfolding(crate::specs::Types::number_named))]
fn sized_number(reader: Reader, width: &str, object: &Value) -> Result<Variant, RecordFault>
    ensures { Agrees result (number_named width.now (view object.now)) }
{
    Ok(match width {
        "U8" => Variant::U8(member(reader, object, "value")?),
        "U16" => Variant::U16(member(reader, object, "value")?),
        "U32" => Variant::U32(member(reader, object, "value")?),
        "U64" => Variant::U64(member(reader, object, "value")?),
        "I8" => Variant::I8(member(reader, object, "value")?),
        "I16" => Variant::I16(member(reader, object, "value")?),
        "I32" => Variant::I32(member(reader, object, "value")?),
        "I64" => Variant::I64(member(reader, object, "value")?),
        _ => return unknown_kind(reader),
    })
}

impl FromJson for Variant {
    ghost read = { λ _. number_of };

    #[tactic(auto, unfolding(crate::specs::Types::number_of))]
    fn from_json(reader: Reader, value: Option<&Value>) -> Result<Variant, RecordFault> {
        let number = object(reader, value)?;
        let width = kind(reader, number)?;
        sized_number(reader, width, number)
    }
}

// Reads one named value of an enumeration.
#[tactic(auto, unfolding(crate::specs::Types::enumerate_of))]
fn enumerate(reader: Reader, object: &Value) -> Result<EnumerateType, RecordFault>
    ensures { Agrees result (enumerate_of reader.version (view object.now)) }
{
    Ok(EnumerateType {
        name: member(reader, object, "name")?,
        value: member(reader, object, "value")?,
    })
}

// Reads a modifier.
#[tactic(auto, unfolding(crate::specs::Types::modifier_of))]
fn modifier(reader: Reader, object: &Value) -> Result<ModifierType, RecordFault>
    ensures { Agrees result (modifier_of (view object.now)) }
{
    Ok(ModifierType {
        underlying_type: member(reader, object, "underlying_type")?,
        constant: member(reader, object, "constant")?,
    })
}

// Reads the types of a function's arguments.
#[tactic(auto, unfolding(crate::specs::Types::arguments_of))]
fn arguments(reader: Reader, object: &Value) -> Result<ArgumentList, RecordFault>
    ensures { Agrees result (arguments_of (view object.now)) }
{
    let arguments: Elements<TypeIndex> = member(reader, object, "arguments")?;
    Ok(ArgumentList {
        arguments: arguments.elements,
    })
}

// Reads the name of a known kind that isn't printed.
#[tactic(auto, unfolding(crate::specs::Types::kind_name_of))]
pub(crate) fn kind_name(reader: Reader, object: &Value) -> Result<Text, RecordFault>
    ensures { Agrees result (kind_name_of (view object.now)) }
{
    member(reader, object, "kind_name")
}

// Reads the content of a type, by the name of its kind.
#[tactic(auto, unfolding(crate::specs::Types::type_named))]
fn type_data(reader: Reader, kind: &str, object: &Value) -> Result<TypeData, RecordFault>
    ensures { Agrees result (type_named reader.version kind.now (view object.now)) }
{
    Ok(match kind {
        "Primitive" => TypeData::Primitive(primitive(reader, object)?),
        "Class" => TypeData::Class(class(reader, object)?),
        "MemberFunction" => TypeData::MemberFunction(member_function(reader, object)?),
        "Procedure" => TypeData::Procedure(procedure_type(reader, object)?),
        "Pointer" => TypeData::Pointer(pointer(reader, object)?),
        "Array" => TypeData::Array(array_type(reader, object)?),
        "Union" => TypeData::Union(union(reader, object)?),
        "Enumeration" => TypeData::Enumeration(enumeration(reader, object)?),
        "Enumerate" => TypeData::Enumerate(enumerate(reader, object)?),
        "Modifier" => TypeData::Modifier(modifier(reader, object)?),
        "ArgumentList" => TypeData::ArgumentList(arguments(reader, object)?),
        "Other" => TypeData::Other(UnhandledType {
            kind_name: kind_name(reader, object)?.text,
        }),
        _ => return unknown_kind(reader),
    })
}

impl FromJson for TypeData {
    ghost read = { type_of };

    #[tactic(auto, unfolding(crate::specs::Types::type_of))]
    fn from_json(reader: Reader, value: Option<&Value>) -> Result<TypeData, RecordFault> {
        let entry = object(reader, value)?;
        let kind = kind(reader, entry)?;
        type_data(reader, kind, entry)
    }
}
