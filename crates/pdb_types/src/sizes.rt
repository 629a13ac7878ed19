//! The size in a type's own record, and the type underneath an enumeration or a modifier.

ghost use Rattle.std.specs.Prelude.{◌≡◌};
ghost use Rattle.pdb_types.specs.Sizes.{pointer_size, primitive_size, variant_size, last_of, underneath, own_size};

use pdb_records::{ArrayType, MachineType, PrimitiveKind, TypeData, TypeIndex, Variant};

// The size of a pointer on a machine, in bytes.
pub(crate) fn pointer_size(machine: MachineType) -> u64
    ensures { result ≡ pointer_size machine }
{
    match machine {
        MachineType::Amd64 | MachineType::Arm64 | MachineType::Ia64 | MachineType::RiscV64 => 8,
        MachineType::RiscV128 => 16,
        MachineType::Other => 4,
    }
}

// The size of a primitive type in bytes.
pub(crate) fn primitive_size(kind: PrimitiveKind) -> u64
    ensures { result ≡ primitive_size kind }
{
    match kind {
        PrimitiveKind::NoType | PrimitiveKind::Void => 0,
        PrimitiveKind::Char
        | PrimitiveKind::UChar
        | PrimitiveKind::RChar
        | PrimitiveKind::Char8
        | PrimitiveKind::I8
        | PrimitiveKind::U8
        | PrimitiveKind::Bool8 => 1,
        PrimitiveKind::WChar
        | PrimitiveKind::RChar16
        | PrimitiveKind::Short
        | PrimitiveKind::UShort
        | PrimitiveKind::I16
        | PrimitiveKind::U16
        | PrimitiveKind::F16
        | PrimitiveKind::Bool16 => 2,
        PrimitiveKind::RChar32
        | PrimitiveKind::Long
        | PrimitiveKind::ULong
        | PrimitiveKind::I32
        | PrimitiveKind::U32
        | PrimitiveKind::F32
        | PrimitiveKind::F32PP
        | PrimitiveKind::Bool32
        | PrimitiveKind::HRESULT => 4,
        PrimitiveKind::F48 => 6,
        PrimitiveKind::I64
        | PrimitiveKind::U64
        | PrimitiveKind::Quad
        | PrimitiveKind::UQuad
        | PrimitiveKind::F64
        | PrimitiveKind::Complex32
        | PrimitiveKind::Bool64 => 8,
        PrimitiveKind::F80 => 10,
        PrimitiveKind::I128
        | PrimitiveKind::U128
        | PrimitiveKind::Octa
        | PrimitiveKind::UOcta
        | PrimitiveKind::F128
        | PrimitiveKind::Complex64 => 16,
        PrimitiveKind::Complex80 => 20,
        PrimitiveKind::Complex128 => 32,
    }
}

// The size of a named value of an enumeration, in bytes.
fn variant_size(value: Variant) -> u64
    ensures { result ≡ variant_size value }
{
    match value {
        Variant::U8(_) | Variant::I8(_) => 1,
        Variant::U16(_) | Variant::I16(_) => 2,
        Variant::U32(_) | Variant::I32(_) => 4,
        Variant::U64(_) | Variant::I64(_) => 8,
    }
}

// The size of an array in bytes: its last dimension.
fn array_size(array: &ArrayType) -> u64
    ensures { result ≡ last_of array.now.first array.now.rest }
{
    let mut size = array.first;
    for dimension in &array.rest {
        size = *dimension;
    }
    u64::from(size)
}

// The type whose size an enumeration or a modifier takes over.
pub(crate) fn underneath(type_data: &TypeData) -> Option<TypeIndex>
    ensures { result ≡ underneath type_data.now }
{
    match type_data {
        TypeData::Enumeration(enumeration) => Some(enumeration.underlying_type),
        TypeData::Modifier(modifier) => Some(modifier.underlying_type),
        _ => None,
    }
}

// The size in a type's own record, by the size of a pointer.
pub(crate) fn own_size(pointer: u64, type_data: &TypeData) -> u64
    ensures { result ≡ own_size pointer type_data.now }
{
    match type_data {
        TypeData::Primitive(primitive) if primitive.indirection => pointer,
        TypeData::Primitive(primitive) => primitive_size(primitive.kind),
        TypeData::Class(class) => class.size,
        TypeData::Union(union) => union.size,
        TypeData::MemberFunction(_) | TypeData::Procedure(_) => pointer,
        TypeData::Pointer(pointer) => u64::from(pointer.size),
        TypeData::Array(array) => array_size(array),
        TypeData::Enumerate(enumerate) => variant_size(enumerate.value),
        TypeData::Enumeration(_)
        | TypeData::Modifier(_)
        | TypeData::ArgumentList(_)
        | TypeData::Other(_) => 0,
    }
}
