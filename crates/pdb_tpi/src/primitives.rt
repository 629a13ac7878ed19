//! The primitive types, which every program has without a record, and the pointers to them.

ghost use Rattle.std.specs.Prelude.{◌≡◌, ◌++◌, IfOk, OnOk};
ghost use Rattle.pdb_tpi.specs.Primitives.{null_pointer_type, primitive, primitives, primitives_in, type_of_index};

use pdb_records::{
    EnumerationType, Item, PrimitiveKind, PrimitiveType, RawString, TypeData, TypeIndex,
};
use std::alloc::{AllocError, Global};

/// The primitive types by their numbers.
static PRIMITIVES: [(u8, PrimitiveKind); 43] = [
    (0x00, PrimitiveKind::NoType),
    (0x03, PrimitiveKind::Void),
    (0x08, PrimitiveKind::HRESULT),
    (0x10, PrimitiveKind::Char),
    (0x11, PrimitiveKind::Short),
    (0x12, PrimitiveKind::Long),
    (0x13, PrimitiveKind::Quad),
    (0x14, PrimitiveKind::Octa),
    (0x20, PrimitiveKind::UChar),
    (0x21, PrimitiveKind::UShort),
    (0x22, PrimitiveKind::ULong),
    (0x23, PrimitiveKind::UQuad),
    (0x24, PrimitiveKind::UOcta),
    (0x30, PrimitiveKind::Bool8),
    (0x31, PrimitiveKind::Bool16),
    (0x32, PrimitiveKind::Bool32),
    (0x33, PrimitiveKind::Bool64),
    (0x40, PrimitiveKind::F32),
    (0x41, PrimitiveKind::F64),
    (0x42, PrimitiveKind::F80),
    (0x43, PrimitiveKind::F128),
    (0x44, PrimitiveKind::F48),
    (0x45, PrimitiveKind::F32PP),
    (0x46, PrimitiveKind::F16),
    (0x50, PrimitiveKind::Complex32),
    (0x51, PrimitiveKind::Complex64),
    (0x52, PrimitiveKind::Complex80),
    (0x53, PrimitiveKind::Complex128),
    (0x68, PrimitiveKind::I8),
    (0x69, PrimitiveKind::U8),
    (0x70, PrimitiveKind::RChar),
    (0x71, PrimitiveKind::WChar),
    (0x72, PrimitiveKind::I16),
    (0x73, PrimitiveKind::U16),
    (0x74, PrimitiveKind::I32),
    (0x75, PrimitiveKind::U32),
    (0x76, PrimitiveKind::I64),
    (0x77, PrimitiveKind::U64),
    (0x78, PrimitiveKind::I128),
    (0x79, PrimitiveKind::U128),
    (0x7a, PrimitiveKind::RChar16),
    (0x7b, PrimitiveKind::RChar32),
    (0x7c, PrimitiveKind::Char8),
];

/// The number of pointer modes of a primitive type. The first mode is no pointer.
const MODES: u8 = 8;

/// The index that compilers write for `std::nullptr_t`.
const NULL_POINTER: u32 = 0x0103;

/// The index of a pointer to void.
const VOID_POINTER: u32 = 0x0603;

/// All primitive types, each with its seven kinds of pointers, under their fixed indices.
pub fn primitive_types(alloc: Global) -> Result<Vec<Item<TypeIndex, TypeData>>, AllocError>
    ensures { IfOk result (λ items. items.items ≡ primitives) }
{
    let mut items = Vec::new(alloc);
    for mode in 0..MODES {
        push_primitives(alloc, &PRIMITIVES, mode, &mut items)?;
    }
    Ok(items)
}

// Appends these primitive types in one pointer mode.
fn push_primitives(
    alloc: Global,
    kinds: &[(u8, PrimitiveKind)],
    mode: u8,
    items: &mut Vec<Item<TypeIndex, TypeData>>,
) -> Result<(), AllocError>
    ensures { OnOk result (items.new.items ≡ items.old.items ++ primitives_in kinds.now mode) }
{
    for &(number, kind) in kinds {
        items.push(primitive(alloc, mode, number, kind)?)?;
    }
    Ok(())
}

// The primitive type with this number, in one pointer mode.
fn primitive(
    alloc: Global,
    mode: u8,
    number: u8,
    kind: PrimitiveKind,
) -> Result<Item<TypeIndex, TypeData>, AllocError>
    ensures { IfOk result (λ item. item ≡ primitive mode (number, kind)) }
{
    let index = u32::from(mode) * 256 + u32::from(number);
    Ok(Item {
        index: TypeIndex(index),
        content: Ok(type_of_index(alloc, index, mode, kind)?),
    })
}

// The type with a fixed index, for a primitive of this kind in one pointer mode.
fn type_of_index(
    alloc: Global,
    index: u32,
    mode: u8,
    kind: PrimitiveKind,
) -> Result<TypeData, AllocError>
    ensures { IfOk result (λ read. read ≡ type_of_index index mode kind) }
{
    if index == NULL_POINTER {
        return null_pointer_type(alloc);
    }
    Ok(TypeData::Primitive(PrimitiveType {
        kind,
        indirection: mode > 0,
    }))
}

// The type `std::nullptr_t`. It is represented by an enumeration of that name, with the size of a pointer.
fn null_pointer_type(alloc: Global) -> Result<TypeData, AllocError>
    ensures { IfOk result (λ read. read ≡ null_pointer_type) }
{
    let name = "std::nullptr_t";
    Ok(TypeData::Enumeration(EnumerationType {
        name: RawString(Vec::from_slice(alloc, name.as_bytes())?),
        underlying_type: TypeIndex(VOID_POINTER),
    }))
}
