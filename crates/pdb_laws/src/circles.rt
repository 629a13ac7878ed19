//! Laws: a signature or an id is refused as circular exactly if an index repeats.
//!
//! An index repeats if it occurs inside itself, if an element of an array is among those before it, or if a scope is
//! among those that contain it; unless another error comes first.

ghost use Rattle.std.specs.Prelude.{◌≡◌, ℕ, List, Some};
ghost use Rattle.pdb_records.specs.Readings.{Read};
ghost use Rattle.pdb_records.specs.declared.types.Item.{Item};
ghost use Rattle.pdb_records.specs.declared.types.TypeIndex.{TypeIndex};
ghost use Rattle.pdb_records.specs.declared.types.TypeData.{TypeData};
ghost use Rattle.pdb_records.specs.declared.ids.IdIndex.{IdIndex};
ghost use Rattle.pdb_records.specs.declared.ids.IdData.{IdData};
ghost use Rattle.pdb_types.specs.TypeInputs.{LinkInputs};
ghost use Rattle.pdb_types.specs.declared.flags.TypeFormatterFlags.{TypeFormatterFlags};
ghost use Rattle.pdb_types.specs.FailedParts.{Parts};
ghost use Rattle.pdb_type_texts.specs.PrintInputs.{PrintInputs, print_inputs_of};
ghost use Rattle.pdb_type_texts.specs.Ids.{id_of_index};
ghost use Rattle.pdb_type_texts.specs.Signatures.{signature, type_of_index};
ghost use Rattle.pdb_laws.specs.Circles.{MeetsCircle, IsRefusedAsCircular};

/// Printing the type of an index, while others are open, is refused as circular exactly if it reaches a circle before
/// any other failure. The error has the index of that circle.
pub fn types_are_circular_exactly_where_an_index_repeats()
    ensures refused { (link_inputs : LinkInputs) (types : Read (Item TypeIndex TypeData))
        (ids : Read (Item IdIndex IdData))
        (pointer : ℕ) (flags : TypeFormatterFlags) (module_index : ℕ) (inside : List ℕ) (index circle : ℕ)
        → let w = print_inputs_of link_inputs types ids pointer flags module_index in
        MeetsCircle w (type_of_index inside index) circle
        → (failed : Parts) → IsRefusedAsCircular w (type_of_index inside index) failed circle }
    ensures only { (link_inputs : LinkInputs) (types : Read (Item TypeIndex TypeData))
        (ids : Read (Item IdIndex IdData))
        (pointer : ℕ) (flags : TypeFormatterFlags) (module_index : ℕ) (inside : List ℕ) (index circle : ℕ)
        → let w = print_inputs_of link_inputs types ids pointer flags module_index in
        (failed : Parts) → IsRefusedAsCircular w (type_of_index inside index) failed circle
        → MeetsCircle w (type_of_index inside index) circle }
{}

/// The signature of a function is refused as circular exactly if printing it reaches a circle before any other failure.
/// The error has the index of that circle.
pub fn signatures_are_circular_exactly_where_an_index_repeats()
    ensures refused { (link_inputs : LinkInputs) (types : Read (Item TypeIndex TypeData))
        (ids : Read (Item IdIndex IdData))
        (pointer : ℕ) (flags : TypeFormatterFlags) (module_index : ℕ) (name : List ℕ) (index circle : ℕ)
        → let w = print_inputs_of link_inputs types ids pointer flags module_index in
        MeetsCircle w (signature w name index) circle
        → (failed : Parts) → IsRefusedAsCircular w (signature w name index) failed circle }
    ensures only { (link_inputs : LinkInputs) (types : Read (Item TypeIndex TypeData))
        (ids : Read (Item IdIndex IdData))
        (pointer : ℕ) (flags : TypeFormatterFlags) (module_index : ℕ) (name : List ℕ) (index circle : ℕ)
        → let w = print_inputs_of link_inputs types ids pointer flags module_index in
        (failed : Parts) → IsRefusedAsCircular w (signature w name index) failed circle
        → MeetsCircle w (signature w name index) circle }
{}

/// An id is refused as circular exactly if printing it reaches a circle before any other failure. The error has the
/// index of that circle.
pub fn ids_are_circular_exactly_where_an_index_repeats()
    ensures refused { (link_inputs : LinkInputs) (types : Read (Item TypeIndex TypeData))
        (ids : Read (Item IdIndex IdData))
        (pointer : ℕ) (flags : TypeFormatterFlags) (module_index : ℕ) (index circle : ℕ)
        → let w = print_inputs_of link_inputs types ids pointer flags module_index in
        MeetsCircle w (id_of_index index) circle
        → (failed : Parts) → IsRefusedAsCircular w (id_of_index index) failed circle }
    ensures only { (link_inputs : LinkInputs) (types : Read (Item TypeIndex TypeData))
        (ids : Read (Item IdIndex IdData))
        (pointer : ℕ) (flags : TypeFormatterFlags) (module_index : ℕ) (index circle : ℕ)
        → let w = print_inputs_of link_inputs types ids pointer flags module_index in
        (failed : Parts) → IsRefusedAsCircular w (id_of_index index) failed circle
        → MeetsCircle w (id_of_index index) circle }
{}
