//! Law on what the printing of types and ids depends on.

ghost use Rattle.std.specs.Prelude.{◌≡◌, ℕ, true, List};
ghost use Rattle.pdb_type_texts.specs.PrintInputs.{PrintInputs};
ghost use Rattle.pdb_type_texts.specs.Plans.{Plan};
ghost use Rattle.pdb_type_texts.specs.Printed.{document_of};
ghost use Rattle.pdb_type_texts.specs.Ids.{id_of_index};
ghost use Rattle.pdb_type_texts.specs.Signatures.{signature};
ghost use Rattle.pdb_part_laws.specs.Asked.{Indices, AgreeAt, IsClosedAt, AsksAt};

/// What is printed depends only on the indices that printing looks up. Take sets of indices that no record in them
/// refers out of, and two print inputs that agree on these indices. Then both inputs print the same document for each
/// plan that looks up only these indices, for each signature, and for each id.
pub fn printing_depends_on_what_it_reads()
    ensures documents { (w other : PrintInputs) (at : Indices) → AgreeAt at w other → IsClosedAt at w
        → (p : Plan) → AsksAt at p → document_of w p ≡ document_of other p }
    ensures signatures { (w other : PrintInputs) (at : Indices) → AgreeAt at w other → IsClosedAt at w
        → (name : List ℕ) (index : ℕ) → at.types index ≡ true
        → document_of w (signature w name index) ≡ document_of other (signature other name index) }
    ensures ids { (w other : PrintInputs) (at : Indices) → AgreeAt at w other → IsClosedAt at w
        → (index : ℕ) → at.ids index ≡ true
        → document_of w (id_of_index index) ≡ document_of other (id_of_index index) }
{}
