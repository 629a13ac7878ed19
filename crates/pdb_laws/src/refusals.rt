//! Laws: the errors for which printing a signature or an id can be refused.
//!
//! Out of memory and a writer's refusal aren't among them.

ghost use Rattle.std.specs.Prelude.{◌≡◌, ℕ, List, Some};
ghost use Rattle.pdb_records.specs.Readings.{Read};
ghost use Rattle.pdb_records.specs.declared.types.Item.{Item};
ghost use Rattle.pdb_records.specs.declared.types.TypeIndex.{TypeIndex};
ghost use Rattle.pdb_records.specs.declared.types.TypeData.{TypeData};
ghost use Rattle.pdb_records.specs.declared.ids.IdIndex.{IdIndex};
ghost use Rattle.pdb_records.specs.declared.ids.IdData.{IdData};
ghost use Rattle.pdb_types.specs.TypeInputs.{LinkInputs};
ghost use Rattle.pdb_types.specs.declared.flags.TypeFormatterFlags.{TypeFormatterFlags};
ghost use Rattle.pdb_types.specs.FailedParts.{Parts};
ghost use Rattle.pdb_type_texts.specs.Documents.{PrintError, failure_error, run};
ghost use Rattle.pdb_type_texts.specs.Ids.{id_of_index};
ghost use Rattle.pdb_type_texts.specs.Printed.{document_of};
ghost use Rattle.pdb_type_texts.specs.Signatures.{signature};
ghost use Rattle.pdb_type_texts.specs.PrintInputs.{print_inputs_of};
ghost use Rattle.pdb_laws.specs.PrintErrors.{IsPrintError};

/// The signature of a function is refused only for an error of the records, of a cross-module index, of the type of a
/// function or of its argument list, or for an index that repeats.
pub fn signatures_are_refused_for()
    ensures { (link_inputs : LinkInputs) (types : Read (Item TypeIndex TypeData)) (ids : Read (Item IdIndex IdData))
        (pointer : ℕ) (flags : TypeFormatterFlags) (module_index : ℕ) (name : List ℕ) (index : ℕ)
        → let w = print_inputs_of link_inputs types ids pointer flags module_index in
        (failed : Parts) (failure : PrintError)
        → (run (document_of w (signature w name index)) failed).fault ≡ Some failure
        → IsPrintError (failure_error failure) }
{}

/// An id is refused only for the same errors.
pub fn ids_are_refused_for()
    ensures { (link_inputs : LinkInputs) (types : Read (Item TypeIndex TypeData)) (ids : Read (Item IdIndex IdData))
        (pointer : ℕ) (flags : TypeFormatterFlags) (module_index : ℕ) (index : ℕ)
        → let w = print_inputs_of link_inputs types ids pointer flags module_index in
        (failed : Parts) (failure : PrintError) → (run (document_of w (id_of_index index)) failed).fault ≡ Some failure
        → IsPrintError (failure_error failure) }
{}
