//! Laws of runs and of painted segments; the functions do nothing when they are called.

ghost use Rattle.std.specs.Prelude.{◌≡◌, ℕ, ◌&&◌, not, List, None, reverse};
ghost use Rattle.pdb_tables.specs.declared.segment.Segment.{Segment};
ghost use Rattle.pdb_tables.specs.RangeSet.{has, IsRunsFrom};
ghost use Rattle.pdb_tables.specs.Runs.{runs_of, missing_runs};
ghost use Rattle.pdb_tables.specs.Segments.{painted_in_turn, value_at};

/// A set of numbers has only one list of runs: two lists of runs with the same numbers are equal.
///
/// So if the contract of a call says which numbers are in a set, it also determines the result of
/// [`RangeSet::runs`](crate::RangeSet::runs).
pub fn runs_are_determined()
    ensures { (m n : ℕ) (a b : List (ℕ × ℕ)) → IsRunsFrom m a → IsRunsFrom n b
        → ((x : ℕ) → has a x ≡ has b x) → a ≡ b }
{}

/// The runs that are made of ranges are runs, and contain exactly the numbers of the ranges.
pub fn runs_of_ranges_hold_their_numbers()
    ensures maximal { (ranges : List (ℕ × ℕ)) → IsRunsFrom 0 (runs_of ranges) }
    ensures numbers { (ranges : List (ℕ × ℕ)) (x : ℕ) → has (runs_of ranges) x ≡ has ranges x }
{}

/// The difference of two lists of ranges consists of runs, which contain exactly the numbers in the first list that
/// aren't in the second.
pub fn missing_runs_hold_what_is_missing()
    ensures maximal { (ranges others : List (ℕ × ℕ)) → IsRunsFrom 0 (missing_runs ranges others) }
    ensures numbers { (ranges others : List (ℕ × ℕ)) (x : ℕ)
        → has (missing_runs ranges others) x ≡ (has ranges x && not (has others x)) }
{}

/// If segments are painted in turn, the last one that contains a number gives its value.
pub fn last_painted_gives_the_value<T: Copy>()
    ensures { (segments : List (Segment T)) (x : ℕ) → painted_in_turn segments None x ≡ value_at (reverse segments) x }
{}
