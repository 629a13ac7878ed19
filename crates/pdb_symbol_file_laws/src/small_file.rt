//! Law on a small symbol file: what the reader finds in it.

ghost use Rattle.std.specs.Prelude.{◌≡◌, Some, None};
ghost use Rattle.pdb_symbol_file_laws.specs.RecordReader.{shown_by_text};
ghost use Rattle.pdb_symbol_file_laws.specs.SmallFile.{small_file, small_frames, small_records};
ghost use Rattle.pdb_symbol_file_laws.specs.SymbolTextReader.{read_text};

/// The reader reads the lines of a small symbol file one by one. It finds both frames at an address in the inlined
/// body, and none at an address after the function.
#[tactic(auto, using(crate::proofs::SmallFileLemmas::small))]
pub fn small_file_says()
    ensures records { read_text small_file ≡ small_records }
    ensures inside { shown_by_text small_file 0x1009 ≡ Some small_frames }
    ensures behind { shown_by_text small_file 0x102a ≡ None }
{}
