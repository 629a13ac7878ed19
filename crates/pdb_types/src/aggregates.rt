//! `Aggregate`: the common fields of classes and unions: name, size, and whether it is a forward reference.

ghost use Rattle.std.specs.Prelude.{◌≡◌, option_map};
ghost use Rattle.std.specs.Option.{unwrap_or};
ghost use Rattle.pdb_types.specs.ForwardReferences.{aggregate_view, aggregate, item_aggregate};

use pdb_records::{Item, RawString, TypeData, TypeIndex};

// The common fields of a class or a union.
#[derive(Clone, Copy)]
pub(crate) struct Aggregate<'a> {
    // The name by which it is found: its unique name if it has one, else its name.
    pub(crate) name: &'a RawString,
    // Its size in bytes.
    pub(crate) size: u64,
    // Whether it is only a forward reference, without members.
    pub(crate) forward_reference: bool,
}

// The name by which a class or a union is found: its unique name if it has one, else its name.
fn name_of<'a>(unique_name: &'a Option<RawString>, name: &'a RawString) -> &'a RawString
    ensures { result.now ≡ unwrap_or unique_name.now name.now }
{
    match unique_name {
        Some(unique) => unique,
        None => name,
    }
}

// The common fields of a class or a union; `None` for other types.
pub(crate) fn aggregate_of(type_data: &TypeData) -> Option<Aggregate<'_>>
    ensures { option_map aggregate_view result ≡ aggregate type_data.now }
{
    match type_data {
        TypeData::Class(class) => Some(Aggregate {
            name: name_of(&class.unique_name, &class.name),
            size: class.size,
            forward_reference: class.forward_reference,
        }),
        TypeData::Union(union) => Some(Aggregate {
            name: name_of(&union.unique_name, &union.name),
            size: union.size,
            forward_reference: union.forward_reference,
        }),
        _ => None,
    }
}

// The common fields of an entry, if it can be read and is a class or a union.
pub(crate) fn item_aggregate(item: &Item<TypeIndex, TypeData>) -> Option<Aggregate<'_>>
    ensures { option_map aggregate_view result ≡ item_aggregate item.now }
{
    match &item.content {
        Ok(content) => aggregate_of(content),
        Err(_) => None,
    }
}
