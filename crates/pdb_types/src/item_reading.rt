//! Reads a type or an id by an index that a module uses, which may lead to another module.

ghost use Rattle.std.specs.Prelude.{◌≡◌};
ghost use Rattle.pdb_types.specs.ReadError.{Matches};
ghost use Rattle.pdb_types.specs.TypeInputs.{link_inputs};
ghost use Rattle.pdb_types.specs.ItemReading.{entry, reading};
ghost use Rattle.pdb_types.specs.TypeCache.{IsCacheOf, IsCacheAfter};

use crate::item_map::{ItemIndex, ItemMap, absence};
use crate::read_error::ReadError;
use crate::type_cache::TypeCache;
use crate::type_inputs::TypeInputs;
use pdb_errors::Result;
use pdb_records::{IdData, IdIndex, ModuleProvider, TypeData, TypeIndex};

// The content of the first entry with this index.
fn entry<'a, I: ItemIndex, D>(map: &mut ItemMap<'a, I, D>, index: I) -> Result<&'a D, ReadError>
    ensures answer { Matches (λ content. content.now) result (entry I.number_of map.old (I.number_of index)) }
    ensures unchanged { map.new ≡ map.old }
{
    let number = index.number();
    let fault = map.list().fault;
    match map.find(index)? {
        Some(item) => match &item.content {
            Ok(content) => Ok(content),
            Err(error) => Err(ReadError::from(*error)),
        },
        None => Err(ReadError::from(absence(fault, number))),
    }
}

impl<'a, P: ModuleProvider> TypeInputs<'a, P> {
    /// The type with an index that the module at a module index uses, together with the index to which that leads.
    pub fn read_type(
        &self,
        cache: &mut TypeCache<'a>,
        module_index: usize,
        index: TypeIndex,
    ) -> Result<(TypeIndex, &'a TypeData), ReadError>
        requires is_cache { IsCacheOf P.info self.now cache.old }
        ensures answer { Matches (λ read. (read.0.0, read.1.now)) result
            (reading (λ i. i.0) (link_inputs P.info self.now) self.now.types module_index index.0) }
        ensures state { IsCacheAfter P.info self.now cache.old cache.new }
    {
        let resolved = TypeIndex(self.resolve(cache, module_index, index.0)?);
        let type_data = entry(&mut cache.types, resolved)?;
        Ok((resolved, type_data))
    }

    /// The id with an index that the module at a module index uses, together with the index to which that leads.
    pub fn read_id(
        &self,
        cache: &mut TypeCache<'a>,
        module_index: usize,
        index: IdIndex,
    ) -> Result<(IdIndex, &'a IdData), ReadError>
        requires is_cache { IsCacheOf P.info self.now cache.old }
        ensures answer { Matches (λ read. (read.0.0, read.1.now)) result
            (reading (λ i. i.0) (link_inputs P.info self.now) self.now.ids module_index index.0) }
        ensures state { IsCacheAfter P.info self.now cache.old cache.new }
    {
        let resolved = IdIndex(self.resolve(cache, module_index, index.0)?);
        let id_data = entry(&mut cache.ids, resolved)?;
        Ok((resolved, id_data))
    }
}
