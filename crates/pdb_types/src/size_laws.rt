//! Laws on the sizes of types.
//!
//! Each function here does nothing. Its contract states a law, which the checker proves for all records.

ghost use Rattle.std.specs.Prelude.{◌≡◌, ℕ, suc};
ghost use Rattle.pdb_records.specs.Readings.{Read};
ghost use Rattle.pdb_records.specs.declared.types.Item.{Item};
ghost use Rattle.pdb_records.specs.declared.types.TypeIndex.{TypeIndex};
ghost use Rattle.pdb_records.specs.declared.types.TypeData.{TypeData};
ghost use Rattle.pdb_types.specs.declared.type_sizes.TypeSize.{TypeSize};
ghost use Rattle.pdb_types.specs.TypeInputs.{LinkInputs};
ghost use Rattle.pdb_types.specs.TypeSizes.{no_size, step, type_size};
ghost use Rattle.pdb_types.specs.SizeLaws.{EndsWith, NeverEnds, Leads};

/// If a chain of types ends, after any number of steps, each type in it has the size at its end.
pub fn chains_that_end_have_the_size_at_their_end()
    ensures { (link : LinkInputs) (types : Read (Item TypeIndex TypeData)) (pointer module_index index steps : ℕ)
        (size : TypeSize)
        → EndsWith (step link types pointer module_index) steps index size
        → type_size link types pointer module_index index ≡ size }
{}

/// If a chain of types never ends, a type has no size, and no part of the records is found broken.
pub fn chains_that_never_end_have_no_size()
    ensures { (link : LinkInputs) (types : Read (Item TypeIndex TypeData)) (pointer module_index index : ℕ)
        → NeverEnds (step link types pointer module_index) index
        → type_size link types pointer module_index index ≡ no_size }
{}

/// If a chain of types reaches an index a second time, the type has no size; nor has the first one.
pub fn chains_that_repeat_have_no_size()
    ensures { (link : LinkInputs) (types : Read (Item TypeIndex TypeData))
        (pointer module_index index repeated before steps : ℕ)
        → Leads (step link types pointer module_index) before index repeated
        → Leads (step link types pointer module_index) (suc steps) repeated repeated
        → type_size link types pointer module_index index ≡ no_size }
{}
