//! `TypeCache`: what was found of types, ids and exports so far, and the parts that failed.

ghost use Rattle.std.specs.Prelude.{◌≡◌, ℕ, [], None};
ghost use Rattle.std.specs.FinMap.{nat_cmp-IsAntisymmetric};
ghost use Rattle.std.specs.Ordering.{nat_cmp};
ghost use Rattle.pdb_tables.specs.OnceMap.{HoldsOfEach};
ghost use Rattle.pdb_types.specs.TypeCache.{IsModuleUnder, AreExportsOf, size_question_cmp, size_question_cmp-IsAntisymmetric, IsSizeOf};
ghost use Rattle.pdb_types.specs.TypeInputs.{LinkInputs};
ghost use Rattle.pdb_types.specs.declared.type_sizes.TypeSize.{TypeSize};

use crate::exports::ExportTable;
use crate::failed_parts::FailedParts;
use crate::item_map::{IdMap, ItemMap, TypeMap};
use crate::type_sizes::TypeSize;
use pdb_records::{IdInformation, TypeInformation};
use pdb_tables::{Once, OnceMap};
use std::alloc::Global;
use std::collections::BTreeMap;

// A question for a type's size: the module index of the module that asks, and the index that it uses.
#[derive(Clone, Copy, PartialEq, Eq, PartialOrd, Ord)]
pub struct SizeQuestion {
    pub(crate) module_index: usize,
    pub(crate) index: u32,
}

// A size is computed once for each question.
impl Once<SizeQuestion> for TypeSize {
    ghost Source = { ℕ → ℕ → TypeSize };

    ghost fits = { IsSizeOf };

    ghost antisymmetric = { size_question_cmp-IsAntisymmetric };
}

// The module index of a module.
#[derive(Clone, Copy)]
pub(crate) struct NamedModule(pub(crate) usize);

// A module index is searched once for each reference.
impl Once<u32> for NamedModule {
    ghost Source = { LinkInputs };

    ghost fits = { IsModuleUnder };

    ghost antisymmetric = { nat_cmp-IsAntisymmetric };
}

/// The type cache: what was found in the records so far. It is searched before the records are read.
///
/// Only the failed parts can change a later answer.
pub struct TypeCache<'a> {
    // Finds types by their index.
    pub(crate) types: TypeMap<'a>,
    // Finds ids by their index.
    pub(crate) ids: IdMap<'a>,
    // Module indices, by the references of the modules' names.
    pub(crate) named: OnceMap<u32, NamedModule>,
    // The exports of modules, by module index.
    pub(crate) exports: OnceMap<usize, ExportTable<'a>>,
    // The sizes of all forward references, by the numbers of their indices; `None` until one is needed.
    pub(crate) forward_sizes: Option<BTreeMap<u32, u64>>,
    // The sizes of types.
    pub(crate) sizes: OnceMap<SizeQuestion, TypeSize>,
    /// The parts of the records that were found broken.
    pub failed: FailedParts,
}

impl Drop for TypeCache<'_> {
    fn drop(self) {
        let TypeCache {
            types: _,
            ids: _,
            named: _,
            exports: _,
            forward_sizes: _,
            sizes: _,
            failed: _,
        } = self;
    }
}

impl<'a> TypeCache<'a> {
    // An empty cache. It takes no memory.
    pub(crate) fn new(alloc: Global, types: &'a TypeInformation, ids: &'a IdInformation) -> Self
        ensures types { result.types ≡ types.now.items }
        ensures ids { result.ids ≡ ids.now.items }
        ensures named { (link : LinkInputs) → HoldsOfEach nat_cmp (IsModuleUnder link) result.named.made }
        ensures exports { (link : LinkInputs) → HoldsOfEach nat_cmp (AreExportsOf link) result.exports.made }
        ensures forward { result.forward_sizes ≡ None }
        ensures sizes { (size_of : ℕ → ℕ → TypeSize)
            → HoldsOfEach size_question_cmp (IsSizeOf size_of) result.sizes.made }
        ensures failed { result.failed ≡ [] }
    {
        TypeCache {
            types: ItemMap::new(alloc, types),
            ids: ItemMap::new(alloc, ids),
            named: OnceMap::new(alloc),
            exports: OnceMap::new(alloc),
            forward_sizes: None,
            sizes: OnceMap::new(alloc),
            failed: FailedParts::new(alloc),
        }
    }
}
