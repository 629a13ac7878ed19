//! A law: if the source of code can't be found, the part of the records that is reported as broken has that error.

ghost use Rattle.std.specs.Prelude.{◌≡◌, ℕ, Ok, Err, Some, None};
ghost use Rattle.pdb_records.specs.declared.modules.ModuleInfo.{ModuleInfo};
ghost use Rattle.pdb_errors.specs.declared.error.Error.{Error};
ghost use Rattle.pdb_functions.specs.FunctionMatches.{FunctionMatch};
ghost use Rattle.pdb_frames.specs.declared.code_parts.CodePart.{CodePart};
ghost use Rattle.pdb_frames.specs.CodeParts.{part_to_blame};
ghost use Rattle.pdb_frames.specs.CodeLocations.{CodeLocation, code_location};
ghost use Rattle.pdb_laws.specs.Blame.{own_error};

/// If the source of the code at an offset of a function can't be found, the part that is reported as broken has that
/// error by itself. If it is found, no part has an error.
pub fn the_part_to_blame_has_the_error()
    ensures blamed { (info : ModuleInfo) (found : FunctionMatch) (offset : ℕ) (error : Error)
        → code_location info found offset ≡ Err error → own_error info found (part_to_blame info found) ≡ Some error }
    ensures sound { (info : ModuleInfo) (found : FunctionMatch) (offset : ℕ) (answered : CodeLocation) (part : CodePart)
        → code_location info found offset ≡ Ok answered → own_error info found part ≡ None }
{}
