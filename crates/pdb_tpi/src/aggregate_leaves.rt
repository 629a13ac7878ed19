//! Reads type records of classes, structs, interfaces, unions and enumerations, in both layouts, and of aliases.

ghost use Rattle.std.specs.Prelude.{◌≡◌, ◌≤◌, IfSome, option_and_then};
ghost use Rattle.pdb_msf.specs.Faults.{Gives};
ghost use Rattle.pdb_tpi.specs.AggregateLeaves.{alias, class, class_by, enumerate, enumeration, class2, newer_union};
ghost use Rattle.pdb_tpi.specs.AggregateLeaves.{sized_names, union, union_by, unique_name};
ghost use Rattle.pdb_tpi.specs.TypeLeaves.{is_definition, properties_place, type_kind};

use crate::numeric_leaves::{take_size, take_variant};
use crate::type_leaves::{TypeKind, type_kind};
use crate::type_names::take_name;
use pdb_msf::faults::Fault;
use pdb_msf::{Bytes, u16_at, u32_at};
use pdb_records::{
    ClassKind, ClassType, EnumerateType, EnumerationType, RawString, TypeData, TypeIndex, UnionType,
};
use std::alloc::Global;

/// The property of a type that is only a forward reference.
const FORWARD_REFERENCE: u16 = 0x80;

/// The property of a type that has a unique name after its name.
const UNIQUE_NAME: u16 = 0x200;

/// The offset of the properties of a class or a union.
const PROPERTIES: usize = 2;

/// The offset of the properties in the newer layout.
const NEWER_PROPERTIES: usize = 0;

/// The size of a class before its size and names, in bytes.
const CLASS_FRONT: usize = 16;

const NEWER_CLASS_FRONT: usize = 18;

/// The size of a union before its size and names, in bytes.
const UNION_FRONT: usize = 8;

const NEWER_UNION_FRONT: usize = 10;

/// The fields after the indices of a class or a union.
#[derive(Drop)]
pub(crate) struct SizedNames {
    pub(crate) size: u64,
    pub(crate) name: RawString,
    pub(crate) unique_name: Option<RawString>,
}

/// Reads a class, a struct or an interface.
#[tactic(auto, unfolding(crate::specs::AggregateLeaves::class))]
pub(crate) fn class(alloc: Global, class_kind: ClassKind, bytes: &[u8]) -> Result<TypeData, Fault>
    ensures { Gives (λ read. read) result (class class_kind bytes.now) }
{
    let mut rest = Bytes::new(bytes);
    rest.take(CLASS_FRONT)?;
    let properties = u16_at(bytes, PROPERTIES);
    let named = take_names(alloc, properties, &mut rest)?;
    Ok(class_by(class_kind, properties, named))
}

/// Reads a class, a struct or an interface in the newer layout: properties of four bytes, three indices, and the number
/// of members come first.
#[tactic(auto, unfolding(crate::specs::AggregateLeaves::class2))]
pub(crate) fn class2(alloc: Global, class_kind: ClassKind, bytes: &[u8]) -> Result<TypeData, Fault>
    ensures { Gives (λ read. read) result (class2 class_kind bytes.now) }
{
    let mut rest = Bytes::new(bytes);
    rest.take(NEWER_CLASS_FRONT)?;
    let properties = u16_at(bytes, NEWER_PROPERTIES);
    let named = take_names(alloc, properties, &mut rest)?;
    Ok(class_by(class_kind, properties, named))
}

// A class with these properties, this size and these names.
fn class_by(class_kind: ClassKind, properties: u16, named: SizedNames) -> TypeData
    ensures { result ≡ class_by class_kind properties named }
{
    TypeData::Class(ClassType {
        class_kind,
        name: named.name,
        unique_name: named.unique_name,
        size: named.size,
        forward_reference: properties & FORWARD_REFERENCE != 0,
    })
}

/// Reads a union.
#[tactic(auto, unfolding(crate::specs::AggregateLeaves::union))]
pub(crate) fn union(alloc: Global, bytes: &[u8]) -> Result<TypeData, Fault>
    ensures { Gives (λ read. read) result (union bytes.now) }
{
    let mut rest = Bytes::new(bytes);
    rest.take(UNION_FRONT)?;
    let properties = u16_at(bytes, PROPERTIES);
    let named = take_names(alloc, properties, &mut rest)?;
    Ok(union_by(properties, named))
}

/// Reads a union in the newer layout: properties of four bytes, an index, and the number of members come first.
#[tactic(auto, unfolding(crate::specs::AggregateLeaves::newer_union))]
pub(crate) fn newer_union(alloc: Global, bytes: &[u8]) -> Result<TypeData, Fault>
    ensures { Gives (λ read. read) result (newer_union bytes.now) }
{
    let mut rest = Bytes::new(bytes);
    rest.take(NEWER_UNION_FRONT)?;
    let properties = u16_at(bytes, NEWER_PROPERTIES);
    let named = take_names(alloc, properties, &mut rest)?;
    Ok(union_by(properties, named))
}

// A union with these properties, this size and these names.
fn union_by(properties: u16, named: SizedNames) -> TypeData
    ensures { result ≡ union_by properties named }
{
    TypeData::Union(UnionType {
        name: named.name,
        unique_name: named.unique_name,
        size: named.size,
        forward_reference: properties & FORWARD_REFERENCE != 0,
    })
}

/// Whether a record of this kind with this content is a class or a union, and not only a forward reference to one.
pub(crate) fn is_definition(kind: u16, content: &[u8]) -> bool
    ensures { result ≡ is_definition kind content.now }
{
    match properties_place(kind) {
        Some(place) if content.len() >= place + 2 => {
            u16_at(content, place) & FORWARD_REFERENCE == 0
        }
        _ => false,
    }
}

// The offset of the properties in a class or a union of this kind.
fn properties_place(kind: u16) -> Option<usize>
    ensures answer { result ≡ option_and_then properties_place (type_kind kind) }
    ensures least { IfSome result (λ place. place ≤ 2) }
{
    match type_kind(kind)? {
        TypeKind::Class(_) | TypeKind::Union => Some(PROPERTIES),
        TypeKind::NewerClass(_) | TypeKind::NewerUnion => Some(NEWER_PROPERTIES),
        _ => None,
    }
}

// Reads the size and the names of a class or a union with these properties.
#[tactic(auto, unfolding(crate::specs::AggregateLeaves::sized_names))]
fn take_names(alloc: Global, properties: u16, rest: &mut Bytes<'_>) -> Result<SizedNames, Fault>
    ensures { Gives (λ named. named) result (sized_names properties rest.old) }
{
    let size = take_size(rest)?;
    let name = take_name(alloc, rest)?;
    let unique_name = take_unique_name(alloc, properties, rest)?;
    Ok(SizedNames {
        size,
        name,
        unique_name,
    })
}

// Reads the unique name, if the properties say that there is one.
fn take_unique_name(
    alloc: Global,
    properties: u16,
    rest: &mut Bytes<'_>,
) -> Result<Option<RawString>, Fault>
    ensures { Gives (λ name. name) result (unique_name properties rest.old) }
{
    if properties & UNIQUE_NAME == 0 {
        return Ok(None);
    }
    Ok(Some(take_name(alloc, rest)?))
}

/// Reads an enumeration.
#[tactic(auto, unfolding(crate::specs::AggregateLeaves::enumeration))]
pub(crate) fn enumeration(alloc: Global, bytes: &[u8]) -> Result<TypeData, Fault>
    ensures { Gives (λ read. read) result (enumeration bytes.now) }
{
    let mut rest = Bytes::new(bytes);
    rest.take(12)?;
    let name = take_name(alloc, &mut rest)?;
    Ok(TypeData::Enumeration(EnumerationType {
        name,
        underlying_type: TypeIndex(u32_at(bytes, 4)),
    }))
}

/// Reads an alias. It is represented by an enumeration of that name with the type underneath, whose size it has.
#[tactic(auto, unfolding(crate::specs::AggregateLeaves::alias))]
pub(crate) fn alias(alloc: Global, bytes: &[u8]) -> Result<TypeData, Fault>
    ensures { Gives (λ read. read) result (alias bytes.now) }
{
    let mut rest = Bytes::new(bytes);
    rest.take(4)?;
    let name = take_name(alloc, &mut rest)?;
    Ok(TypeData::Enumeration(EnumerationType {
        name,
        underlying_type: TypeIndex(u32_at(bytes, 0)),
    }))
}

/// Reads one value of an enumeration.
#[tactic(auto, unfolding(crate::specs::AggregateLeaves::enumerate))]
pub(crate) fn enumerate(alloc: Global, bytes: &[u8]) -> Result<TypeData, Fault>
    ensures { Gives (λ read. read) result (enumerate bytes.now) }
{
    let mut rest = Bytes::new(bytes);
    rest.take(2)?;
    let value = take_variant(&mut rest)?;
    let name = take_name(alloc, &mut rest)?;
    Ok(TypeData::Enumerate(EnumerateType { name, value }))
}
