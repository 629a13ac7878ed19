//! What a part of a file answers is what all of it does.
ghost use Rattle.std.specs.Prelude.{◌≡◌, ℕ, List, Ok, true};
ghost use Rattle.pdb_records.specs.Records.{Records};
ghost use Rattle.pdb_addr2line.specs.ContextInputs.{ContextState};
ghost use Rattle.pdb_addr2line.specs.NamedFunctions.{named_function_at};
ghost use Rattle.pdb_session.specs.Session.{over};
ghost use Rattle.pdb_c.specs.Openings.{context_over, repaired_file};
ghost use Rattle.pdb_c.specs.Parts.{OverPart};
ghost use Rattle.pdb_c.specs.Questions.{frames_over, infos, is_read_at};

/// Take a context over a part of a file, and a context over all of it, both without what is broken in the file. At an
/// address whose module was read, by the flags of the part, both answer the same frames and the same function. This
/// holds whatever parts of the records failed before, if the same failed in both.
pub fn a_part_answers_as_its_file()
    ensures frames { (file addresses flags : List ℕ) (part all state : ContextState Records) (records : Records)
        (address : ℕ) → OverPart file addresses flags part → repaired_file file ≡ Ok records
        → context_over records ≡ Ok all → is_read_at flags part address ≡ true → state.inputs ≡ part.inputs
        → frames_over state address ≡ frames_over (over state all.inputs) address }
    ensures functions { (file addresses flags : List ℕ) (part all : ContextState Records) (records : Records)
        (address : ℕ) → OverPart file addresses flags part → repaired_file file ≡ Ok records
        → context_over records ≡ Ok all → is_read_at flags part address ≡ true
        → named_function_at infos part.inputs address ≡ named_function_at infos all.inputs address }
{}
