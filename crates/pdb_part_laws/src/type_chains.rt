//! Law on what the size of a type depends on.

ghost use Rattle.std.specs.Prelude.{◌≡◌, ℕ, Bool, true};
ghost use Rattle.pdb_records.specs.Readings.{Read};
ghost use Rattle.pdb_records.specs.declared.types.Item.{Item};
ghost use Rattle.pdb_records.specs.declared.types.TypeIndex.{TypeIndex};
ghost use Rattle.pdb_records.specs.declared.types.TypeData.{TypeData};
ghost use Rattle.pdb_types.specs.TypeInputs.{LinkInputs};
ghost use Rattle.pdb_types.specs.TypeSizes.{type_size};
ghost use Rattle.pdb_part_laws.specs.Chains.{AgreeOn, IsClosed};

/// The size of a type depends only on its chain. Take a set of indices that the chain doesn't leave. Two lists of types
/// that agree on each index of the set give the type the same size.
pub fn sizes_depend_on_their_chain()
    ensures sizes { (link other_link : LinkInputs) (types others : Read (Item TypeIndex TypeData))
        (pointer module_index : ℕ) (is_in : ℕ → Bool)
        → AgreeOn is_in link types other_link others pointer module_index
        → IsClosed is_in link types pointer module_index
        → (index : ℕ) → is_in index ≡ true
        → type_size link types pointer module_index index ≡ type_size other_link others pointer module_index index }
{}
