//! Computes the size of a type: that at the end of its chain of enumerations and modifiers, cached by index.

ghost use Rattle.std.specs.Prelude.{◌≡◌, [], ℕ, true, Ok, IfOk, IfErr, MatchResult};
ghost use Rattle.std.specs.List.{AllByRecursion};
ghost use Rattle.std.specs.BTreeSet.{contains};
ghost use Rattle.std.specs.Ordering.{nat_cmp};
ghost use Rattle.pdb_errors.specs.declared.error.Error.TheVariants.{OutOfMemory};
ghost use Rattle.pdb_types.specs.ForwardReferences.{forward_size};
ghost use Rattle.pdb_types.specs.ItemReading.{entry};
ghost use Rattle.pdb_types.specs.TypeInputs.{link_inputs};
ghost use Rattle.pdb_types.specs.TypeSizes.{end_size, step, size_of};
ghost use Rattle.pdb_types.specs.TypeCache.{IsCacheOf, IsCacheAfter};

use crate::aggregates::aggregate_of;
use crate::forward_sizes::{forward_sizes, size_at};
use crate::read_error::{Part, ReadError};
use crate::sizes::{own_size, underneath};
use crate::type_cache::{SizeQuestion, TypeCache};
use crate::type_inputs::TypeInputs;
use pdb_errors::{Error, Result};
use pdb_records::{ModuleProvider, TypeData, TypeIndex};
use std::collections::BTreeSet;

/// The size of a type, and the part of the records that was found broken on the way to it.
#[derive(Clone, Copy)]
pub struct TypeSize {
    /// The size in bytes.
    pub size: u64,
    /// The part that was found broken, if one was.
    pub met: Option<Part>,
}

// The size of a type that can't be read, or whose chain is circular.
const NO_SIZE: TypeSize = TypeSize { size: 0, met: None };

// The next step of a chain of types.
#[derive(Clone, Copy)]
pub(crate) enum Step {
    // The chain ends here, with this size.
    Ended(TypeSize),
    // The chain continues with this type.
    Next(TypeIndex),
}

impl<'a, P: ModuleProvider> TypeInputs<'a, P> {
    // The size in the definition for a forward reference. The list is read once for all of them.
    fn forward_size(&self, cache: &mut TypeCache<'a>, resolved: TypeIndex) -> Result<Option<u64>>
        requires is_cache { IsCacheOf P.info self.now cache.old }
        ensures answer { MatchResult result
            (λ size. size ≡ forward_size resolved.0 self.now.types.items)
            (λ e. e ≡ OutOfMemory) }
        ensures state { IsCacheAfter P.info self.now cache.old cache.new }
    {
        if let Some(sizes) = &cache.forward_sizes {
            return Ok(size_at(sizes, resolved.0));
        }
        let information = self.types;
        let list = &information.items;
        let sizes = forward_sizes(self.alloc, &list.items)?;
        let size = size_at(&sizes, resolved.0);
        cache.forward_sizes = Some(sizes);
        Ok(size)
    }

    // The size of a type with this index that isn't an enumeration or a modifier.
    fn end_size(
        &self,
        cache: &mut TypeCache<'a>,
        resolved: TypeIndex,
        type_data: &TypeData,
    ) -> Result<u64>
        requires is_cache { IsCacheOf P.info self.now cache.old }
        requires read { entry (λ i. i.0) self.now.types resolved.0 ≡ Ok type_data.now }
        ensures answer { MatchResult result
            (λ size. size ≡ end_size self.now.pointer_size self.now.types.items resolved.0 type_data.now)
            (λ e. e ≡ OutOfMemory) }
        ensures state { IsCacheAfter P.info self.now cache.old cache.new }
    {
        let own = own_size(self.pointer_size, type_data);
        match aggregate_of(type_data) {
            Some(aggregate) if aggregate.forward_reference => {
                let elsewhere = self.forward_size(cache, resolved)?;
                Ok(elsewhere.unwrap_or(own))
            }
            _ => Ok(own),
        }
    }

    // The step after an index in a chain of types.
    fn step(&self, cache: &mut TypeCache<'a>, module_index: usize, index: TypeIndex) -> Result<Step>
        requires is_cache { IsCacheOf P.info self.now cache.old }
        ensures answer { MatchResult result
            (λ s. s ≡ step (link_inputs P.info self.now) self.now.types self.now.pointer_size module_index index.0)
            (λ e. e ≡ OutOfMemory) }
        ensures state { IsCacheAfter P.info self.now cache.old cache.new }
    {
        let (resolved, type_data) = match self.read_type(cache, module_index, index) {
            Ok(read) => read,
            Err(ReadError::OutOfMemory) => return Err(Error::OutOfMemory),
            Err(ReadError::Broken(part, _)) => {
                return Ok(Step::Ended(TypeSize {
                    size: 0,
                    met: Some(part),
                }));
            }
            Err(_) => return Ok(Step::Ended(NO_SIZE)),
        };
        match underneath(type_data) {
            Some(next) => Ok(Step::Next(next)),
            None => {
                let size = self.end_size(cache, resolved, type_data)?;
                Ok(Step::Ended(TypeSize { size, met: None }))
            }
        }
    }

    // The size at the end of a chain. The indices on the way to it are added to `passed`.
    fn chain_size(
        &self,
        cache: &mut TypeCache<'a>,
        passed: &mut BTreeSet<u32>,
        module_index: usize,
        index: TypeIndex,
    ) -> Result<TypeSize>
        requires is_cache { IsCacheOf P.info self.now cache.old }
        requires none_passed { passed.old.keys ≡ [] }
        ensures answer { MatchResult result
            (λ size. size ≡ size_of P.info self.now module_index index.0)
            (λ e. e ≡ OutOfMemory) }
        ensures passed { IfOk result
            (λ size. (other : ℕ) → contains nat_cmp passed.new other ≡ true
            → size_of P.info self.now module_index other ≡ size) }
        ensures state { IsCacheAfter P.info self.now cache.old cache.new }
    {
        let mut index = index;
        'chain: loop {
            let number = index.0;
            let asked = SizeQuestion {
                module_index,
                index: number,
            };
            if let Some(size) = cache.sizes.get(&asked) {
                return Ok(*size);
            }
            if !passed.insert(number)? {
                return Ok(NO_SIZE);
            }
            match self.step(cache, module_index, index)? {
                Step::Ended(size) => return Ok(size),
                Step::Next(next) => index = next,
            }
        }
    }

    // Caches the size of a type that was asked for.
    fn cache_size(
        &self,
        cache: &mut TypeCache<'a>,
        asked: SizeQuestion,
        size: TypeSize,
    ) -> Result<()>
        requires is_cache { IsCacheOf P.info self.now cache.old }
        requires size { size_of P.info self.now asked.module_index asked.index ≡ size }
        ensures memory { IfErr result (λ e. e ≡ OutOfMemory) }
        ensures state { IsCacheAfter P.info self.now cache.old cache.new }
    {
        cache.sizes.insert(asked, size)?;
        Ok(())
    }

    // Caches the size of types that were asked for by the module at a module index.
    fn cache_sizes(
        &self,
        cache: &mut TypeCache<'a>,
        passed: &BTreeSet<u32>,
        module_index: usize,
        size: TypeSize,
    ) -> Result<()>
        requires is_cache { IsCacheOf P.info self.now cache.old }
        requires sizes { AllByRecursion (λ index. size_of P.info self.now module_index index ≡ size) passed.now.keys }
        ensures memory { IfErr result (λ e. e ≡ OutOfMemory) }
        ensures state { IsCacheAfter P.info self.now cache.old cache.new }
    {
        for index in passed {
            let asked = SizeQuestion {
                module_index,
                index: *index,
            };
            self.cache_size(cache, asked, size)?;
        }
        Ok(())
    }

    /// The size of a type with an index that the module at a module index uses, and the part that was found broken.
    ///
    /// Each index of a chain of types is read once, also if other sizes in the chain are asked for later.
    ///
    /// `OutOfMemory` if memory runs out.
    pub fn type_size(
        &self,
        cache: &mut TypeCache<'a>,
        module_index: usize,
        index: TypeIndex,
    ) -> Result<TypeSize>
        requires is_cache { IsCacheOf P.info self.now cache.old }
        ensures answer { MatchResult result
            (λ size. size ≡ size_of P.info self.now module_index index.0)
            (λ e. e ≡ OutOfMemory) }
        ensures state { IsCacheAfter P.info self.now cache.old cache.new }
    {
        let mut passed = BTreeSet::new(self.alloc);
        let size = self.chain_size(cache, &mut passed, module_index, index)?;
        self.cache_sizes(cache, &passed, module_index, size)?;
        Ok(size)
    }
}
