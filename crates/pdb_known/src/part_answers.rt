//! A law on answers over a part of the records.

ghost use Rattle.std.specs.Prelude.{◌≡◌, ℕ};
ghost use Rattle.pdb_records.specs.Records.{Records};
ghost use Rattle.pdb_records.specs.Provided.{ProviderInfos};
ghost use Rattle.pdb_addr2line.specs.ContextInputs.{ContextInputs};
ghost use Rattle.pdb_addr2line.specs.Lookups.{function_at, frames_at, blamed_at};
ghost use Rattle.pdb_addr2line.specs.NamedFunctions.{symbol_name_at};
ghost use Rattle.pdb_known.specs.SameModules.{KnowsAddress};

/// A context over a part of the records gives the same answers as the context over the whole, at each address whose
/// module the part has: the same function, name of its symbol and frames, and the same broken part if frames are
/// refused.
pub fn a_part_answers_as_the_whole()
    ensures functions { (info : Records → ProviderInfos) (part whole : ContextInputs Records) (address : ℕ)
        → KnowsAddress info part whole address → function_at info part address ≡ function_at info whole address }
    ensures names { (info : Records → ProviderInfos) (part whole : ContextInputs Records) (address : ℕ)
        → KnowsAddress info part whole address → symbol_name_at info part address ≡ symbol_name_at info whole address }
    ensures frames { (info : Records → ProviderInfos) (part whole : ContextInputs Records) (address : ℕ)
        → KnowsAddress info part whole address → frames_at info part address ≡ frames_at info whole address }
    ensures blame { (info : Records → ProviderInfos) (part whole : ContextInputs Records) (address : ℕ)
        → KnowsAddress info part whole address → blamed_at info part address ≡ blamed_at info whole address }
{}
