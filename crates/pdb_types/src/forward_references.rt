//! `TypeSizeCache`: finds the size of a class or a union for a forward reference, by a scan of the list of types.

ghost use Rattle.std.specs.Prelude.{◌≡◌, MatchResult};
ghost use Rattle.std.specs.Str.{bytes_eq};
ghost use Rattle.pdb_errors.specs.declared.error.Error.TheVariants.{OutOfMemory};
ghost use Rattle.pdb_types.specs.ForwardReferences.{definition_size, size_behind};

use crate::aggregates::item_aggregate;
use crate::item_map::TypeMap;
use pdb_errors::Result;
use pdb_records::{Item, RawString, TypeData, TypeIndex};

// Whether two names have the same bytes.
fn is_same_name(a: &RawString, b: &RawString) -> bool
    ensures { result ≡ bytes_eq a.now b.now }
{
    a.0 == b.0
}

// The size of an entry, if it defines this name.
fn definition_size(item: &Item<TypeIndex, TypeData>, name: &RawString) -> Option<u64>
    ensures { result ≡ definition_size name.now item.now }
{
    let defined = item_aggregate(item)?;
    if !defined.forward_reference && is_same_name(defined.name, name) {
        return Some(defined.size);
    }
    None
}

// The size of a class or a union that is a forward reference at an index.
fn size_behind(
    items: &[Item<TypeIndex, TypeData>],
    resolved: TypeIndex,
    name: &RawString,
) -> Option<u64>
    ensures { result ≡ size_behind resolved.0 name.now items.now }
{
    let mut reached = false;
    for item in items {
        if !reached {
            reached = item.index == resolved;
        } else if let Some(size) = definition_size(item, name) {
            return Some(size);
        }
    }
    None
}

/// Finds the sizes of classes and unions for forward references to them.
///
/// Despite its name it caches nothing, because each call may pass another list.
#[derive(Drop)]
pub struct TypeSizeCache {}

impl TypeSizeCache {
    /// Takes no memory.
    pub fn new() -> Self {
        TypeSizeCache {}
    }

    /// The size of a class or a union, for a forward reference to it.
    ///
    /// Of the entries after the first one with the index `resolved`, the first that defines a class or a union of this
    /// name has the size. The name is compared with its unique name if it has one, else with its name. `None` if there
    /// is no such entry. The list is read up to that entry.
    ///
    /// `OutOfMemory` if memory runs out.
    pub fn get_size_for_forward_reference(
        &mut self,
        resolved: TypeIndex,
        name: &RawString,
        types: &mut TypeMap<'_>,
    ) -> Result<Option<u64>>
        ensures answer { MatchResult result
            (λ size. size ≡ size_behind resolved.0 name.now types.old.items)
            (λ e. e ≡ OutOfMemory) }
        ensures unchanged { types.new ≡ types.old }
    {
        Ok(size_behind(&types.list().items, resolved, name))
    }
}
