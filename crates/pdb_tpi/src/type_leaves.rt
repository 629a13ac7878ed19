//! Reads the records of types: pointers, modifiers, procedures, methods, arrays, argument lists, and unprinted kinds.

ghost use Rattle.std.specs.Prelude.{◌≡◌, ◌≤◌, ◌+◌, length, IfErr, IfOk};
ghost use Rattle.pdb_msf.specs.Faults.{Gives};
ghost use Rattle.pdb_records.specs.declared.types.TypeData.TheVariants as type;
ghost use Rattle.pdb_tpi.specs.TypeLeaves.{argument_list, array, data_of, dimensioned_array, is_constructor};
ghost use Rattle.pdb_tpi.specs.TypeLeaves.{member_function, modifier};
ghost use Rattle.pdb_tpi.specs.TypeLeaves.{optional_type, pointer, pointer_mode, pointer_size, procedure, type_data};
ghost use Rattle.pdb_tpi.specs.TypeLeaves.{type_kind};

use crate::aggregate_leaves::{alias, class, class2, enumerate, enumeration, newer_union, union};
use crate::contents::content_of;
use crate::index_lists::read_indices;
use crate::item_streams::ItemIndex;
use crate::numeric_leaves::take_size;
use crate::primitives::primitive_types;
use pdb_msf::faults::{BAD_NUMBER, CUT, Fault};
use pdb_msf::{Bytes, u16_at, u32_at};
use pdb_records::{
    ArgumentList, ArrayType, ClassKind, Error, Item, MemberFunctionType, ModifierType, PointerMode,
    PointerType, ProcedureType, StreamError, TypeData, TypeIndex, UnhandledType,
};
use std::alloc::{AllocError, Global};

/// The flag of a function that is a constructor.
const CONSTRUCTOR: u8 = 2;

/// The kinds of types that are known.
#[derive(Clone, Copy)]
pub(crate) enum TypeKind {
    Modifier,
    Pointer,
    Procedure,
    MemberFunction,
    ArgumentList,
    Enumerate,
    Array,
    Class(ClassKind),
    Union,
    Enumeration,
    /// A class in the newer layout.
    NewerClass(ClassKind),
    /// A union in the newer layout.
    NewerUnion,
    FieldList,
    Bitfield,
    MethodList,
    VirtualFunctionTable,
    VirtualFunctionTableShape,
    /// An alias of a type.
    Alias,
    /// An array whose dimensions are in another record.
    DimensionedArray,
}

impl ItemIndex for TypeIndex {
    type Data = TypeData;

    ghost use Rattle.pdb_tpi.specs.TypeLeaves.{types};

    ghost meaning = { types };

    fn of_number(number: u32) -> TypeIndex {
        TypeIndex(number)
    }

    #[tactic(auto, using(crate::proofs::ContentLemmas::given_content), unfolding(crate::specs::TypeLeaves::type_data))]
    fn content(
        alloc: Global,
        kind: u16,
        bytes: &[u8],
    ) -> Result<Result<TypeData, Error>, AllocError> {
        match type_kind(kind) {
            Some(known) => content_of(type_data(alloc, known, bytes)),
            None => Ok(Err(Error::UnimplementedTypeKind(kind))),
        }
    }

    fn first_items(alloc: Global) -> Result<Vec<Item<TypeIndex, TypeData>>, AllocError> {
        primitive_types(alloc)
    }
}

/// The kind of type with this number, if it is known.
pub(crate) fn type_kind(number: u16) -> Option<TypeKind>
    ensures { result ≡ type_kind number }
{
    match number {
        0x1001 => Some(TypeKind::Modifier),
        0x1002 => Some(TypeKind::Pointer),
        0x1008 => Some(TypeKind::Procedure),
        0x1009 => Some(TypeKind::MemberFunction),
        0x1201 => Some(TypeKind::ArgumentList),
        0x1502 => Some(TypeKind::Enumerate),
        0x1503 => Some(TypeKind::Array),
        0x1504 => Some(TypeKind::Class(ClassKind::Class)),
        0x1505 => Some(TypeKind::Class(ClassKind::Struct)),
        0x1519 => Some(TypeKind::Class(ClassKind::Interface)),
        0x1506 => Some(TypeKind::Union),
        0x1507 => Some(TypeKind::Enumeration),
        0x1608 => Some(TypeKind::NewerClass(ClassKind::Class)),
        0x1609 => Some(TypeKind::NewerClass(ClassKind::Struct)),
        0x160b => Some(TypeKind::NewerClass(ClassKind::Interface)),
        0x160a => Some(TypeKind::NewerUnion),
        0x1203 => Some(TypeKind::FieldList),
        0x1205 => Some(TypeKind::Bitfield),
        0x1206 => Some(TypeKind::MethodList),
        0x151d => Some(TypeKind::VirtualFunctionTable),
        0x000a => Some(TypeKind::VirtualFunctionTableShape),
        0x150a => Some(TypeKind::Alias),
        0x1508 => Some(TypeKind::DimensionedArray),
        _ => None,
    }
}

// Reads the content of a type of this kind.
fn type_data(alloc: Global, kind: TypeKind, bytes: &[u8]) -> Result<TypeData, Fault>
    ensures { Gives (λ read. read) result (data_of kind bytes.now) }
{
    match kind {
        TypeKind::Modifier => Ok(modifier(bytes)?),
        TypeKind::Pointer => Ok(pointer(bytes)?),
        TypeKind::Procedure => Ok(procedure(bytes)?),
        TypeKind::MemberFunction => Ok(member_function(bytes)?),
        TypeKind::ArgumentList => argument_list(alloc, bytes),
        TypeKind::Enumerate => enumerate(alloc, bytes),
        TypeKind::Array => array(alloc, bytes),
        TypeKind::Class(class_kind) => class(alloc, class_kind, bytes),
        TypeKind::Union => union(alloc, bytes),
        TypeKind::Enumeration => enumeration(alloc, bytes),
        TypeKind::NewerClass(class_kind) => class2(alloc, class_kind, bytes),
        TypeKind::NewerUnion => newer_union(alloc, bytes),
        TypeKind::FieldList => unhandled(alloc, "FieldList"),
        TypeKind::Bitfield => unhandled(alloc, "Bitfield"),
        TypeKind::MethodList => unhandled(alloc, "MethodList"),
        TypeKind::VirtualFunctionTable => unhandled(alloc, "VirtualFunctionTable"),
        TypeKind::VirtualFunctionTableShape => unhandled(alloc, "VirtualFunctionTableShape"),
        TypeKind::Alias => alias(alloc, bytes),
        TypeKind::DimensionedArray => dimensioned_array(alloc, bytes),
    }
}

// A type whose content isn't read, only the name of its kind.
fn unhandled(alloc: Global, kind_name: &str) -> Result<TypeData, Fault>
    ensures answer { IfOk result (λ read. read ≡ type.Other kind_name.now) }
    ensures memory { IfErr result (λ fault. fault ≡ Fault.OutOfMemory) }
{
    let kind_name = String::from_str(alloc, kind_name)?;
    Ok(TypeData::Other(UnhandledType { kind_name }))
}

#[tactic(auto, unfolding(crate::specs::TypeLeaves::modifier))]
fn modifier(bytes: &[u8]) -> Result<TypeData, StreamError>
    ensures { result ≡ modifier bytes.now }
{
    if bytes.len() < 6 {
        return Err(CUT);
    }
    Ok(TypeData::Modifier(ModifierType {
        underlying_type: TypeIndex(u32_at(bytes, 0)),
        constant: u16_at(bytes, 4) & 1 != 0,
    }))
}

#[tactic(auto, unfolding(crate::specs::TypeLeaves::pointer))]
fn pointer(bytes: &[u8]) -> Result<TypeData, StreamError>
    ensures { result ≡ pointer bytes.now }
{
    if bytes.len() < 8 {
        return Err(CUT);
    }
    let attributes = u32_at(bytes, 4);
    Ok(TypeData::Pointer(PointerType {
        underlying_type: TypeIndex(u32_at(bytes, 0)),
        mode: pointer_mode(attributes)?,
        is_const: attributes & 0x400 != 0,
        size: pointer_size(attributes),
    }))
}

fn pointer_mode(attributes: u32) -> Result<PointerMode, StreamError>
    ensures { result ≡ pointer_mode attributes }
{
    match attributes / 32 % 8 {
        0 => Ok(PointerMode::Pointer),
        1 => Ok(PointerMode::LValueReference),
        2 => Ok(PointerMode::Member),
        3 => Ok(PointerMode::MemberFunction),
        4 => Ok(PointerMode::RValueReference),
        _ => Err(BAD_NUMBER),
    }
}

// The size of a pointer in bytes: the one in its attributes or, if that is 0, the one of its kind.
fn pointer_size(attributes: u32) -> u8
    ensures { result ≡ pointer_size attributes }
{
    let size = attributes / 0x2000 % 64;
    match (size, attributes % 32) {
        (0, 0x0c) => 8,
        (0, 0x0a) => 4,
        _ => size as u8,
    }
}

// The index of a type; `None` if it is 0.
fn optional_type(index: u32) -> Option<TypeIndex>
    ensures { result ≡ optional_type index }
{
    if index == 0 {
        None
    } else {
        Some(TypeIndex(index))
    }
}

// Whether the flags at an offset of a function's record say that it is a constructor.
fn is_constructor(bytes: &[u8], place: usize) -> bool
    requires { place + 1 ≤ length bytes.now }
    ensures { result ≡ is_constructor place bytes.now }
{
    bytes[place] & CONSTRUCTOR != 0
}

#[tactic(auto, unfolding(crate::specs::TypeLeaves::procedure))]
fn procedure(bytes: &[u8]) -> Result<TypeData, StreamError>
    ensures { result ≡ procedure bytes.now }
{
    if bytes.len() < 12 {
        return Err(CUT);
    }
    Ok(TypeData::Procedure(ProcedureType {
        return_type: optional_type(u32_at(bytes, 0)),
        is_constructor: is_constructor(bytes, 5),
        argument_list: TypeIndex(u32_at(bytes, 8)),
    }))
}

#[tactic(auto, unfolding(crate::specs::TypeLeaves::member_function))]
fn member_function(bytes: &[u8]) -> Result<TypeData, StreamError>
    ensures { result ≡ member_function bytes.now }
{
    if bytes.len() < 20 {
        return Err(CUT);
    }
    Ok(TypeData::MemberFunction(MemberFunctionType {
        return_type: TypeIndex(u32_at(bytes, 0)),
        class_type: TypeIndex(u32_at(bytes, 4)),
        this_pointer_type: optional_type(u32_at(bytes, 8)),
        is_constructor: is_constructor(bytes, 13),
        argument_list: TypeIndex(u32_at(bytes, 16)),
    }))
}

#[tactic(auto, unfolding(crate::specs::TypeLeaves::argument_list))]
fn argument_list(alloc: Global, bytes: &[u8]) -> Result<TypeData, Fault>
    ensures { Gives (λ read. read) result (argument_list bytes.now) }
{
    let arguments = read_indices(alloc, bytes)?;
    Ok(TypeData::ArgumentList(ArgumentList { arguments }))
}

#[tactic(auto, unfolding(crate::specs::TypeLeaves::array))]
fn array(alloc: Global, bytes: &[u8]) -> Result<TypeData, Fault>
    ensures { Gives (λ read. read) result (array bytes.now) }
{
    let mut rest = Bytes::new(bytes);
    rest.take(8)?;
    let Ok(first) = u32::try_from(take_size(&mut rest)?) else {
        return Err(Fault::Broken(BAD_NUMBER));
    };
    Ok(TypeData::Array(ArrayType {
        element_type: TypeIndex(u32_at(bytes, 0)),
        first,
        rest: Vec::new(alloc),
    }))
}

// An array of unknown size, because the record of its dimensions isn't read.
#[tactic(auto, unfolding(crate::specs::TypeLeaves::dimensioned_array))]
fn dimensioned_array(alloc: Global, bytes: &[u8]) -> Result<TypeData, Fault>
    ensures { Gives (λ read. read) result (dimensioned_array bytes.now) }
{
    let mut rest = Bytes::new(bytes);
    rest.take(8)?;
    Ok(TypeData::Array(ArrayType {
        element_type: TypeIndex(u32_at(bytes, 0)),
        first: 0,
        rest: Vec::new(alloc),
    }))
}
