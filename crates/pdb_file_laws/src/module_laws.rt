//! A law on the records of a module that is read from its own stream.

ghost use Rattle.std.specs.Prelude.{ℕ, ◌<◌, length};
ghost use Rattle.pdb_msf.specs.Msf.{Msf};
ghost use Rattle.pdb_container.specs.DebugRecords.{streams_of_modules};
ghost use Rattle.pdb_file_laws.specs.ModulesAlone.{HasNamedCode, IsSaidAlone};

/// If all code of a module has names, its own stream gives the same records as reading the whole file: the symbols of
/// other modules and the global symbols add nothing.
#[tactic(auto, using(crate::proofs::ModuleLemmas::said_alone))]
pub fn modules_alone_say_the_same()
    ensures modules { (msf : Msf) (position : ℕ) → position < length (streams_of_modules msf)
        → HasNamedCode msf position → IsSaidAlone msf position }
{}
