//! The names of primitive types, and of pointers to them.

ghost use Rattle.std.specs.Prelude.{◌≡◌, ◌++◌, OnOk, string_bytes};
ghost use Rattle.pdb_type_texts.specs.PrimitiveNames.{primitive_name, primitive_text, pointer_to, constant_or_not};

use crate::flag_tests::with_space_before_pointer;
use pdb_records::{PrimitiveKind, PrimitiveType};
use pdb_types::TypeFormatterFlags;
use std::alloc::AllocError;

// The name of a primitive type.
pub fn primitive_name(kind: PrimitiveKind) -> &'static str
    ensures { result.now ≡ primitive_name kind }
{
    match kind {
        PrimitiveKind::NoType => "<NoType>",
        PrimitiveKind::Void => "void",
        PrimitiveKind::Char => "signed char",
        PrimitiveKind::UChar => "unsigned char",
        PrimitiveKind::RChar => "char",
        PrimitiveKind::WChar => "wchar_t",
        PrimitiveKind::RChar16 => "char16_t",
        PrimitiveKind::RChar32 => "char32_t",
        PrimitiveKind::Char8 => "char8_t",
        PrimitiveKind::I8 => "int8_t",
        PrimitiveKind::U8 => "uint8_t",
        PrimitiveKind::Short => "short",
        PrimitiveKind::UShort => "unsigned short",
        PrimitiveKind::I16 => "int16_t",
        PrimitiveKind::U16 => "uint16_t",
        PrimitiveKind::Long => "long",
        PrimitiveKind::ULong => "unsigned long",
        PrimitiveKind::I32 => "int",
        PrimitiveKind::U32 => "unsigned int",
        PrimitiveKind::Quad => "long long",
        PrimitiveKind::UQuad => "unsigned long long",
        PrimitiveKind::I64 => "int64_t",
        PrimitiveKind::U64 => "uint64_t",
        PrimitiveKind::Octa => "int128_t",
        PrimitiveKind::UOcta => "uint128_t",
        PrimitiveKind::I128 => "int128_t",
        PrimitiveKind::U128 => "uint128_t",
        PrimitiveKind::F16 => "float16_t",
        PrimitiveKind::F32 => "float",
        PrimitiveKind::F32PP => "float",
        PrimitiveKind::F48 => "float48_t",
        PrimitiveKind::F64 => "double",
        PrimitiveKind::F80 => "long double",
        PrimitiveKind::F128 => "long double",
        PrimitiveKind::Complex32 => "complex<float>",
        PrimitiveKind::Complex64 => "complex<double>",
        PrimitiveKind::Complex80 => "complex<long double>",
        PrimitiveKind::Complex128 => "complex<long double>",
        PrimitiveKind::Bool8 => "bool",
        PrimitiveKind::Bool16 => "bool16_t",
        PrimitiveKind::Bool32 => "bool32_t",
        PrimitiveKind::Bool64 => "bool64_t",
        PrimitiveKind::HRESULT => "HRESULT",
    }
}

// Appends a primitive type or a pointer to one. `constant` applies to the primitive type, not to the pointer.
// `AllocError` if memory runs out.
pub fn write_primitive(
    text: &mut String,
    flags: TypeFormatterFlags,
    primitive: &PrimitiveType,
    constant: bool,
) -> Result<(), AllocError>
    ensures { OnOk result
        (string_bytes text.new ≡ string_bytes text.old ++ primitive_text flags primitive.now constant) }
{
    let name = primitive_name(primitive.kind);
    if primitive.indirection {
        write_pointer_to(text, flags, name, constant)
    } else {
        write_constant_or_not(text, name, constant)
    }
}

// Appends a pointer to a named type, which may be constant.
fn write_pointer_to(
    text: &mut String,
    flags: TypeFormatterFlags,
    named: &str,
    constant: bool,
) -> Result<(), AllocError>
    ensures { OnOk result (string_bytes text.new ≡ string_bytes text.old ++ pointer_to flags named.now constant) }
{
    text.push_str(named)?;
    if constant {
        text.push_str(" const")?;
    }
    text.push_str(if with_space_before_pointer(flags) {
        " *"
    } else {
        "*"
    })
}

// Appends a named type, with `const` if it is constant.
fn write_constant_or_not(text: &mut String, named: &str, constant: bool) -> Result<(), AllocError>
    ensures { OnOk result (string_bytes text.new ≡ string_bytes text.old ++ constant_or_not named.now constant) }
{
    if constant {
        text.push_str("const ")?;
    }
    text.push_str(named)
}
