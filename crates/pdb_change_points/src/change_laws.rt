//! A law: answers change only at change points.
//!
//! The function here does nothing. Its contract states the law, which the checker proves for all records.

ghost use Rattle.std.specs.Prelude.{◌≡◌, ℕ, ◌^◌, ◌<◌, ◌≤◌};
ghost use Rattle.pdb_records.specs.Records.{Records};
ghost use Rattle.pdb_addr2line.specs.ContextInputs.{ContextInputs};
ghost use Rattle.pdb_addr2line.specs.Lookups.{contribution_at, found_at, frames_at, blamed_at};
ghost use Rattle.pdb_addr2line.specs.NamedFunctions.{symbol_name_at};
ghost use Rattle.pdb_known.specs.Known.{infos_of};
ghost use Rattle.pdb_change_points.specs.ChangePoints.{change_points, NoneBetween};

/// Take two 32-bit addresses, and a context over all records. If no change point of the context is greater than the
/// lower address and at most the higher one, both have the same answers: the contribution and the function at the
/// address, the name of its symbol, the frames, and the broken part if frames are refused.
pub fn answers_change_at_change_points()
    ensures contributions { (inputs : ContextInputs Records) (x y : ℕ) → x ≤ y → y < 2 ^ 32
        → NoneBetween (change_points inputs) x y → contribution_at inputs x ≡ contribution_at inputs y }
    ensures found { (inputs : ContextInputs Records) (x y : ℕ) → x ≤ y → y < 2 ^ 32
        → NoneBetween (change_points inputs) x y → found_at infos_of inputs x ≡ found_at infos_of inputs y }
    ensures names { (inputs : ContextInputs Records) (x y : ℕ) → x ≤ y → y < 2 ^ 32
        → NoneBetween (change_points inputs) x y → symbol_name_at infos_of inputs x ≡ symbol_name_at infos_of inputs y }
    ensures frames { (inputs : ContextInputs Records) (x y : ℕ) → x ≤ y → y < 2 ^ 32
        → NoneBetween (change_points inputs) x y → frames_at infos_of inputs x ≡ frames_at infos_of inputs y }
    ensures blame { (inputs : ContextInputs Records) (x y : ℕ) → x ≤ y → y < 2 ^ 32
        → NoneBetween (change_points inputs) x y → blamed_at infos_of inputs x ≡ blamed_at infos_of inputs y }
{}
