//! Laws on answers over the records that were read of a file.

ghost use Rattle.std.specs.Prelude.{◌≡◌, ℕ, true, false, Ok};
ghost use Rattle.pdb_records.specs.Records.{Records};
ghost use Rattle.pdb_types.specs.declared.flags.TypeFormatterFlags.{TypeFormatterFlags};
ghost use Rattle.pdb_types.specs.FailedParts.{Parts};
ghost use Rattle.pdb_addr2line.specs.ContextData.{context_of};
ghost use Rattle.pdb_addr2line.specs.ContextInputs.{ContextInputs};
ghost use Rattle.pdb_addr2line.specs.Lookups.{function_at, frames_at, blamed_at, failed_after};
ghost use Rattle.pdb_addr2line.specs.Lookups.{failed_after_frames};
ghost use Rattle.pdb_addr2line.specs.NamedFunctions.{symbol_name_at};
ghost use Rattle.pdb_known.specs.Known.{Known, IsPartOf, is_closed, lacks, infos_of, refusal_of, all_read};

/// If a check found the records that were read closed, they give the same answers as all records of the file, at each
/// address whose module was read: the same function, name of its symbol, frames, and broken part. The same parts of the
/// records have failed afterwards, too.
pub fn what_is_known_answers_as_all()
    ensures functions { (flags : TypeFormatterFlags) (known : Known) (whole : Records)
        (part inputs : ContextInputs Records) (address : ℕ) → IsPartOf known whole → is_closed known ≡ true
        → context_of flags known.records ≡ Ok part → context_of flags whole ≡ Ok inputs
        → lacks known part address ≡ false
        → function_at infos_of part address ≡ function_at infos_of inputs address }
    ensures names { (flags : TypeFormatterFlags) (known : Known) (whole : Records)
        (part inputs : ContextInputs Records) (address : ℕ) → IsPartOf known whole → is_closed known ≡ true
        → context_of flags known.records ≡ Ok part → context_of flags whole ≡ Ok inputs
        → lacks known part address ≡ false
        → symbol_name_at infos_of part address ≡ symbol_name_at infos_of inputs address }
    ensures frames { (flags : TypeFormatterFlags) (known : Known) (whole : Records)
        (part inputs : ContextInputs Records) (address : ℕ) → IsPartOf known whole → is_closed known ≡ true
        → context_of flags known.records ≡ Ok part → context_of flags whole ≡ Ok inputs
        → lacks known part address ≡ false
        → frames_at infos_of part address ≡ frames_at infos_of inputs address }
    ensures blame { (flags : TypeFormatterFlags) (known : Known) (whole : Records)
        (part inputs : ContextInputs Records) (address : ℕ) → IsPartOf known whole → is_closed known ≡ true
        → context_of flags known.records ≡ Ok part → context_of flags whole ≡ Ok inputs
        → lacks known part address ≡ false
        → blamed_at infos_of part address ≡ blamed_at infos_of inputs address }
    ensures failed { (flags : TypeFormatterFlags) (known : Known) (whole : Records)
        (part inputs : ContextInputs Records) (address : ℕ) → IsPartOf known whole → is_closed known ≡ true
        → context_of flags known.records ≡ Ok part → context_of flags whole ≡ Ok inputs
        → lacks known part address ≡ false → (failed : Parts)
        → failed_after infos_of part address failed ≡ failed_after infos_of inputs address failed }
    ensures failed_by_frames { (flags : TypeFormatterFlags) (known : Known) (whole : Records)
        (part inputs : ContextInputs Records) (address : ℕ) → IsPartOf known whole → is_closed known ≡ true
        → context_of flags known.records ≡ Ok part → context_of flags whole ≡ Ok inputs
        → lacks known part address ≡ false → (failed : Parts)
        → failed_after_frames infos_of part address failed ≡ failed_after_frames infos_of inputs address failed }
{}

/// A context over the records that were read is refused exactly if a context over all records is, and for the same
/// reason.
pub fn what_is_known_is_refused_as_all()
    ensures refusals { (flags : TypeFormatterFlags) (known : Known) (whole : Records) → IsPartOf known whole
        → refusal_of (context_of flags known.records) ≡ refusal_of (context_of flags whole) }
{}

/// After all records of a file were read, the known records are a part of them, they are closed, and no module is
/// missing.
pub fn all_records_are_known()
    ensures part { (records : Records) → IsPartOf (all_read records) records }
    ensures closed { (records : Records) → is_closed (all_read records) ≡ true }
    ensures lacks_nothing { (records : Records) (inputs : ContextInputs Records) (address : ℕ)
        → lacks (all_read records) inputs address ≡ false }
{}
