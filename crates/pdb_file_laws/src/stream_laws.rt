//! Laws: a file's records depend only on its streams and its length.

ghost use Rattle.std.specs.Prelude.{◌≡◌, ◌≤◌, ◌++◌, ℕ, List, Ok, length};
ghost use Rattle.pdb_msf.specs.Msf.{Msf, container};
ghost use Rattle.pdb_container.specs.Identity.{identity};
ghost use Rattle.pdb_container.specs.PdbFile.{records, records_of};
ghost use Rattle.pdb_file_laws.specs.SameStreams.{HoldSame, IsLongEnough, IsWhole, SameStreams, ShareBlocks};

/// Two containers with the same streams have the same records if their files have the same length. Their identity is
/// the same for any lengths.
#[tactic(auto, using(crate::proofs::SameStreamLemmas::held))]
pub fn streams_say_all()
    ensures records { (a b : Msf) → HoldSame a b → records a ≡ records b }
    ensures identity { (a b : Msf) → SameStreams a b → identity a ≡ identity b }
{}

/// Bytes that are in no stream don't affect the records: files of the same length have the same records if their
/// containers share the blocks of the streams, whatever the other bytes are.
#[tactic(auto, using(crate::proofs::SameStreamLemmas::shared))]
pub fn other_bytes_say_nothing()
    ensures streams { (a b : Msf) → ShareBlocks a b → HoldSame a b }
    ensures records { (old new : List ℕ) (a b : Msf) → container old ≡ Ok a → container new ≡ Ok b
        → ShareBlocks a b → records_of old ≡ records_of new }
{}

/// Bytes after a file don't affect its records, if it has all blocks of its streams and is long enough for the bounds
/// by its length: with and without more bytes after it, it has the same records.
#[tactic(auto, using(crate::proofs::LongerFileLemmas::longer))]
pub fn bytes_behind_say_nothing()
    ensures containers { (a b : Msf) → SameStreams a b → length a.file ≤ length b.file → IsLongEnough a
        → records a ≡ records b }
    ensures records { (file more : List ℕ) (msf : Msf) → container file ≡ Ok msf → IsWhole msf → IsLongEnough msf
        → records_of (file ++ more) ≡ records_of file }
{}
