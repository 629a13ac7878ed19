//! Checks of types by their index, and of sizes of forward references.

use crate::checks::Checks;
use pdb_errors::Result;
use pdb_records::{
    ClassKind, ClassType, IdData, IdIndex, IdInformation, Item, ItemInformation, RawString,
    Reading, StreamError, StringId, TypeData, TypeIndex, TypeInformation,
};
use pdb_types::{ItemIndex, ItemMap, TypeSizeCache};
use std::alloc::{AllocError, Global};

/// The classes of the types: the index, the name and the size of each, with 0 for a forward reference.
static CLASSES: [(u32, &str, u64); 5] = [
    (0xfff, "T", 9),
    (0x1000, "S", 0),
    (0x1003, "S", 12),
    (0x1005, "S", 20),
    (0x1000, "S", 40),
];

/// An index, a name, and the size of the type with that name after the index.
type Size<'a> = (u32, &'a str, Option<u64>);

/// Sizes, one for each way in which the lookup can end.
static SIZES: [Size<'static>; 4] = [
    (0x1000, "S", Some(12)),
    (0x1003, "S", Some(20)),
    (0x1000, "T", None),
    (0x3000, "S", None),
];

/// A name, as the records have it.
fn raw_string(alloc: Global, text: &str) -> Result<RawString, AllocError> {
    Ok(RawString(Vec::from_slice(alloc, text.as_bytes())?))
}

/// A list with one string under the index 7, and this fault after it.
fn ids(alloc: Global, fault: Option<StreamError>) -> Result<IdInformation, AllocError> {
    let name = raw_string(alloc, "text")?;
    let mut items = Vec::new(alloc);
    items.push(Item {
        index: IdIndex(7),
        content: Ok(IdData::String(StringId { name })),
    })?;
    Ok(ItemInformation {
        items: Reading { items, fault },
    })
}

/// Whether an index leads to a string.
fn is_string(map: &mut ItemMap<'_, IdIndex, IdData>, index: IdIndex) -> bool {
    map.try_get(index)
        .is_ok_and(|item| matches!(&item.content, Ok(IdData::String(_))))
}

/// Whether an index has no entry, for this reason.
fn is_missing(
    alloc: Global,
    map: &mut ItemMap<'_, IdIndex, IdData>,
    index: IdIndex,
    wanted: &str,
) -> Result<bool, AllocError> {
    match map.try_get(index) {
        Ok(_) => Ok(false),
        Err(error) => Ok(format!(in alloc; "{error}")?.as_str() == wanted),
    }
}

/// Whether the string is found, and another index is missing for this reason.
fn answers(
    alloc: Global,
    map: &mut ItemMap<'_, IdIndex, IdData>,
    wanted: &str,
) -> Result<bool, AllocError> {
    Ok(is_string(map, IdIndex(7)) && is_missing(alloc, map, IdIndex(8), wanted)?)
}

/// Whether the list with this fault has these answers, also the second time.
fn list_answers(
    alloc: Global,
    fault: Option<StreamError>,
    wanted: &str,
) -> Result<bool, AllocError> {
    let ids = ids(alloc, fault)?;
    let mut map = ItemMap::new(alloc, &ids);
    Ok(answers(alloc, &mut map, wanted)? && answers(alloc, &mut map, wanted)?)
}

/// Whether the public lookup finds this size for a name after an index.
fn has_size(alloc: Global, types: &TypeInformation, size: &Size<'_>) -> Result<bool> {
    let &(index, name, wanted) = size;
    let name = raw_string(alloc, name)?;
    let mut map = ItemMap::new(alloc, types);
    let mut cache = TypeSizeCache::new();
    let found = cache.get_size_for_forward_reference(TypeIndex(index), &name, &mut map)?;
    Ok(found == wanted)
}

/// A class, or with size 0 a forward reference to one.
fn class(
    alloc: Global,
    index: u32,
    name: &str,
    size: u64,
) -> Result<Item<TypeIndex, TypeData>, AllocError> {
    let class = ClassType {
        class_kind: ClassKind::Class,
        name: raw_string(alloc, name)?,
        unique_name: None,
        size,
        forward_reference: size == 0,
    };
    Ok(Item {
        index: TypeIndex(index),
        content: Ok(TypeData::Class(class)),
    })
}

/// Types with a forward reference to `S` and definitions of it after.
fn types(alloc: Global) -> Result<TypeInformation, AllocError> {
    let mut items = Vec::new(alloc);
    for &(index, name, size) in &CLASSES {
        items.push(class(alloc, index, name, size)?)?;
    }
    let fault = None;
    Ok(ItemInformation {
        items: Reading { items, fault },
    })
}

/// Whether types have all of [`SIZES`].
fn finds_sizes(alloc: Global) -> Result<bool> {
    let types = types(alloc)?;
    for size in &SIZES {
        if !has_size(alloc, &types, size)? {
            return Ok(false);
        }
    }
    Ok(true)
}

/// The checks of items.
pub(crate) fn checks(alloc: Global) -> Checks {
    let fault = Some(StreamError(5));
    Checks::NONE
        .and("the number of an id", IdIndex(7).number() == 7)
        .and("the number of a type", TypeIndex(8).number() == 8)
        .and_tried(
            "an unknown id",
            list_answers(alloc, None, "PDB error: type 0x8 not found"),
        )
        .and_tried(
            "a fault that stays",
            list_answers(alloc, fault, "PDB error: stream error 5"),
        )
        .and_tried("the first definition behind an index", finds_sizes(alloc))
}
