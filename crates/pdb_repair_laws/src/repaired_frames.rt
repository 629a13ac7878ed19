//! Law on frames from repaired records.

ghost use Rattle.std.specs.Prelude.{◌≡◌, ℕ, IsOk};
ghost use Rattle.pdb_records.specs.Records.{Records};
ghost use Rattle.pdb_repairs.specs.Repaired.{repaired};
ghost use Rattle.pdb_addr2line.specs.ContextInputs.{ContextInputs};
ghost use Rattle.pdb_addr2line.specs.Lookups.{frames_at};
ghost use Rattle.pdb_known.specs.Known.{infos_of};

/// A context over repaired records finds the frames of every address without an error.
#[tactic(auto, using(crate::proofs::FrameLemmas::no_frames_refused))]
pub fn repaired_records_refuse_no_frames()
    ensures frames { (whole : Records) (inputs : ContextInputs Records) (address : ℕ)
        → inputs.provider ≡ repaired whole → IsOk (frames_at infos_of inputs address) }
{}
