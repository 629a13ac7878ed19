//! Laws on the meaning of records files.
//!
//! Each function here does nothing. Its contract states a law, which the checker proves for all texts.

ghost use Rattle.std.specs.Prelude.{◌≡◌, ◌≢◌, ℕ, List, [], Some, None, Result, Ok, Err};
ghost use Rattle.serde_json.specs.Data.{Data, null, Items, Members, object, put};
ghost use Rattle.serde_json.specs.Find.{get};
ghost use Rattle.pdb_json_values.specs.RecordFault.{Fault};
ghost use Rattle.pdb_json_values.specs.Values.{text_of};
ghost use Rattle.pdb_json_records.specs.Members.{member_of, optional_of, all_from};
ghost use Rattle.pdb_json_records.specs.NameValues.{name_of};
ghost use Rattle.pdb_json.specs.FirstVersion.{IsFirst, first_records_of_file};
ghost use Rattle.pdb_json.specs.MemberLaws.{IsInMember, IsInElement};
ghost use Rattle.pdb_json.specs.RecordsFile.{records_of_files, module_files_of};

/// A text of the first version, without module files, has the meaning that the first version alone defines.
pub fn first_version_stands()
    ensures { (bytes : List ℕ) → IsFirst bytes → records_of_files bytes [] ≡ first_records_of_file bytes }
{}

/// In the first version a name is a string.
pub fn first_version_has_texts_for_names()
    ensures { (d : Data) → name_of 1 d ≡ text_of d }
{}

/// An optional member is read as nothing if it is missing, and if it is null.
pub fn absent_members_are_null<X>()
    ensures absent { (read : Data → Result X Fault) (name : List ℕ) (d : Data) → get name d ≡ None
        → member_of name (optional_of read) d ≡ Ok None }
    ensures is_null { (read : Data → Result X Fault) (name : List ℕ) (d : Data) → get name d ≡ Some null
        → member_of name (optional_of read) d ≡ Ok None }
{}

/// A member doesn't affect how members of other names are read.
pub fn other_members_change_nothing<X>()
    ensures { (read : Data → Result X Fault) (name other : List ℕ) (value : Data) (members : Members) → name ≢ other
        → member_of name read (object (put other value members)) ≡ member_of name read (object members) }
{}

/// The path of a fault leads to its value step by step: through the member or the element whose value has the fault,
/// and then further as from that value itself.
pub fn paths_lead_to_their_faults<X>()
    ensures through_members { (read : Data → Result X Fault) (name : List ℕ) (d : Data) (fault : Fault)
        → member_of name read d ≡ Err fault → IsInMember read name d fault }
    ensures through_elements { (read : Data → Result X Fault) (first : ℕ) (elements : Items) (fault : Fault)
        → all_from first read elements ≡ Err fault → IsInElement read first elements fault }
{}
