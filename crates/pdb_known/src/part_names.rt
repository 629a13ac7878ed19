//! Laws on names of functions over a part of the types and ids.

ghost use Rattle.std.specs.Prelude.{◌≡◌, ℕ, true, List};
ghost use Rattle.pdb_records.specs.Records.{Records};
ghost use Rattle.pdb_records.specs.declared.ids.IdIndex.{IdIndex};
ghost use Rattle.pdb_records.specs.Provided.{ProviderInfos};
ghost use Rattle.pdb_types.specs.TypeInputs.{TypeInputs};
ghost use Rattle.pdb_type_texts.specs.PrintInputs.{formatter_inputs};
ghost use Rattle.pdb_functions.specs.GlobalFunctions.{GlobalFunction};
ghost use Rattle.pdb_functions.specs.Procedures.{ModuleProcedure};
ghost use Rattle.pdb_function_info.specs.NameTexts.{procedure_name, id_name};
ghost use Rattle.pdb_part_laws.specs.Asked.{Indices, AgreeAt, IsClosedAt};
ghost use Rattle.pdb_known.specs.SameEntries.{HasSameEntries, IsClosedFor};

/// Take sets of indices such that a part of the records has the same entries for them as the whole, and these entries
/// refer only to indices in the sets. Then printing finds the same types, sizes and ids at these indices, over the part
/// and over the whole.
pub fn a_part_prints_as_the_whole()
    ensures inputs { (at : Indices) (info : Records → ProviderInfos) (part whole : TypeInputs Records)
        (module_index : ℕ) → HasSameEntries at info part whole module_index → IsClosedFor at info part module_index
        → AgreeAt at (formatter_inputs info part module_index) (formatter_inputs info whole module_index) }
    ensures closed { (at : Indices) (info : Records → ProviderInfos) (part : TypeInputs Records)
        (module_index : ℕ) → IsClosedFor at info part module_index
        → IsClosedAt at (formatter_inputs info part module_index) }
{}

/// Names depend only on the entries at such indices: a procedure whose type is among them, and an inlined function
/// whose id is among them, have the same name over the part and over the whole.
pub fn a_part_names_as_the_whole()
    ensures procedures { (at : Indices) (info : Records → ProviderInfos) (part whole : TypeInputs Records)
        (module_index : ℕ) → HasSameEntries at info part whole module_index → IsClosedFor at info part module_index
        → (globals : List GlobalFunction) (p : ModuleProcedure) → at.types p.type_index.0 ≡ true
        → procedure_name info part globals module_index p ≡ procedure_name info whole globals module_index p }
    ensures inlined { (at : Indices) (info : Records → ProviderInfos) (part whole : TypeInputs Records)
        (module_index : ℕ) → HasSameEntries at info part whole module_index → IsClosedFor at info part module_index
        → (id : IdIndex) → at.ids id.0 ≡ true
        → id_name info part module_index id ≡ id_name info whole module_index id }
{}
