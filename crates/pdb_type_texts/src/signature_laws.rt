//! Laws on the documents of signatures, types and ids.
//!
//! Each function here does nothing. Its contract states a law, which the checker proves for all records.

ghost use Rattle.std.specs.Prelude.{◌≡◌, ℕ, true, List, [], ◌∷◌, Some, Ok};
ghost use Rattle.pdb_records.specs.Readings.{Read};
ghost use Rattle.pdb_records.specs.declared.types.Item.{Item};
ghost use Rattle.pdb_records.specs.declared.types.TypeIndex.{TypeIndex};
ghost use Rattle.pdb_records.specs.declared.types.TypeData.{TypeData};
ghost use Rattle.pdb_records.specs.declared.ids.IdIndex.{IdIndex};
ghost use Rattle.pdb_records.specs.declared.ids.IdData.{IdData};
ghost use Rattle.pdb_types.specs.TypeInputs.{LinkInputs};
ghost use Rattle.pdb_types.specs.declared.flags.TypeFormatterFlags.{TypeFormatterFlags};
ghost use Rattle.pdb_errors.specs.declared.error.Error.TheVariants.{CircularTypeDefinition};
ghost use Rattle.pdb_types.specs.FailedParts.{Parts};
ghost use Rattle.pdb_errors.specs.Errors.{Plain};
ghost use Rattle.pdb_type_texts.specs.PrintInputs.{PrintInputs, type_at, print_inputs_of};
ghost use Rattle.pdb_type_texts.specs.Documents.{OfError, Document, Text, Seq, run};
ghost use Rattle.pdb_type_texts.specs.Plans.{Id, Later, is_among};
ghost use Rattle.pdb_type_texts.specs.Printed.{AlikeRuns, document_of};
ghost use Rattle.pdb_type_texts.specs.Functions.{list_of_arguments};
ghost use Rattle.pdb_type_texts.specs.Ids.{id_of_index};
ghost use Rattle.pdb_type_texts.specs.Unfolding.{HasOneUnfolding, Unfolds, Runs};
ghost use Rattle.pdb_type_texts.specs.Wording.{comma};
ghost use Rattle.pdb_type_texts.specs.Signatures.{signature, type_of_index};

/// Every type has exactly one document, for all records and any set of open indices, although types may refer to each
/// other in circles.
pub fn every_type_has_one_unfolding()
    ensures { (link_inputs : LinkInputs) (types : Read (Item TypeIndex TypeData)) (ids : Read (Item IdIndex IdData))
        (pointer : ℕ) (flags : TypeFormatterFlags) (module_index : ℕ) (inside : List ℕ) (index : ℕ)
        → HasOneUnfolding (print_inputs_of link_inputs types ids pointer flags module_index)
        (type_of_index inside index) }
{}

/// Every signature has exactly one document, for all names, types and records.
pub fn every_signature_has_one_unfolding()
    ensures { (link_inputs : LinkInputs) (types : Read (Item TypeIndex TypeData)) (ids : Read (Item IdIndex IdData))
        (pointer : ℕ) (flags : TypeFormatterFlags) (module_index : ℕ) (name : List ℕ) (index : ℕ)
        → let w = print_inputs_of link_inputs types ids pointer flags module_index in HasOneUnfolding w
        (signature w name index) }
{}

/// Every id has exactly one document, for all records and any ids of which it is a scope, although ids may be each
/// other's scopes.
pub fn every_id_has_one_unfolding()
    ensures { (link_inputs : LinkInputs) (types : Read (Item TypeIndex TypeData)) (ids : Read (Item IdIndex IdData))
        (pointer : ℕ) (flags : TypeFormatterFlags) (module_index : ℕ) (inside met : List ℕ) (index : ℕ)
        → HasOneUnfolding (print_inputs_of link_inputs types ids pointer flags module_index)
        (Later inside (Id met index)) }
{}

/// An index that is printed while it is open is refused as circular, and nothing is printed of it.
pub fn an_index_inside_itself_is_circular()
    ensures { (link_inputs : LinkInputs) (types : Read (Item TypeIndex TypeData)) (ids : Read (Item IdIndex IdData))
        (pointer : ℕ) (flags : TypeFormatterFlags) (module_index : ℕ) (inside : List ℕ) (index : ℕ) (type : TypeData)
        → type_at link_inputs types module_index index ≡ Ok type
        → is_among index inside ≡ true
        → (failed : Parts)
        → Runs (print_inputs_of link_inputs types ids pointer flags module_index) (type_of_index inside index) failed
        (record { text = []; fault = Some (OfError (Plain (CircularTypeDefinition index))); failed = failed }) }
{}

/// A scope that occurs a second time in its chain is refused as circular. It isn't even read: the print inputs aren't
/// asked for it.
pub fn a_scope_that_repeats_is_circular()
    ensures { (w : PrintInputs) (inside met : List ℕ) (index : ℕ)
        → is_among index met ≡ true
        → (failed : Parts)
        → Runs w (Later inside (Id met index)) failed
        (record { text = []; fault = Some (OfError (Plain (CircularTypeDefinition index))); failed = failed }) }
{}

/// The printed text, and whether printing succeeds, don't depend on which parts of the records were found broken
/// before. Only the error for a broken part depends on it, and the set of broken parts afterwards.
pub fn text_does_not_depend_on_failed_parts()
    ensures { (d : Document) (failed failed' : Parts) → AlikeRuns (run d failed) (run d failed') }
{}

/// The document that is computed for a signature is the one to which it unfolds.
pub fn the_document_of_a_signature_is_what_it_unfolds_to()
    ensures { (link_inputs : LinkInputs) (types : Read (Item TypeIndex TypeData)) (ids : Read (Item IdIndex IdData))
        (pointer : ℕ) (flags : TypeFormatterFlags) (module_index : ℕ) (name : List ℕ) (index : ℕ)
        → let w = print_inputs_of link_inputs types ids pointer flags module_index in
        Unfolds w (signature w name index) (document_of w (signature w name index)) }
{}

/// The document that is computed for an id is the one to which it unfolds.
pub fn the_document_of_an_id_is_what_it_unfolds_to()
    ensures { (link_inputs : LinkInputs) (types : Read (Item TypeIndex TypeData)) (ids : Read (Item IdIndex IdData))
        (pointer : ℕ) (flags : TypeFormatterFlags) (module_index : ℕ) (index : ℕ)
        → let w = print_inputs_of link_inputs types ids pointer flags module_index in
        Unfolds w (id_of_index index) (document_of w (id_of_index index)) }
{}

/// Siblings may repeat: an argument that occurs twice in a list is printed twice in the same way.
pub fn siblings_may_repeat()
    ensures { (w : PrintInputs) (inside : List ℕ) (argument : TypeIndex) (d : Document)
        → Unfolds w (type_of_index inside argument.0) d
        → Unfolds w (list_of_arguments w inside (argument ∷ argument ∷ []))
        (Seq d (Seq (Text (comma w.flags)) (Seq d (Text [])))) }
{}
