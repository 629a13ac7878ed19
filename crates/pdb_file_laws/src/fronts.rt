//! A law: the records before any module depend only on the streams that name them.

ghost use Rattle.std.specs.Prelude.{◌≡◌, ℕ, List};
ghost use Rattle.pdb_records.specs.Records.{Records};
ghost use Rattle.pdb_msf.specs.Msf.{Msf};
ghost use Rattle.pdb_dbi.specs.declared.module_substream.ModuleStream.{ModuleStream};
ghost use Rattle.pdb_container.specs.DebugRecords.{streams_of_modules};
ghost use Rattle.pdb_container.specs.ModulePlaces.{places_within};
ghost use Rattle.pdb_container.specs.Front.{HasFront};
ghost use Rattle.pdb_file_laws.specs.SameFronts.{SameFronts};

/// Two containers with the same front streams have the same records except types, ids and modules, and list the same
/// module streams, whatever their other streams are.
pub fn fronts_say_the_same()
    ensures records { (a b : Msf) (records : Records) → SameFronts a b → HasFront a records → HasFront b records }
    ensures modules { (a b : Msf) → SameFronts a b → streams_of_modules a ≡ streams_of_modules b }
    ensures places { (a b : Msf) → SameFronts a b → (left : ℕ) (places : List ModuleStream)
        → places_within a left places ≡ places_within b left places }
{}
