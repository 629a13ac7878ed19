//! Sorts lists of numbers, and keeps each number once.

ghost use Rattle.std.specs.List.Sorted.{IsStrictlyIncreasing};
ghost use Rattle.pdb_change_points.specs.UniqueNumbers.{HaveSameMembers};

// Sorts numbers, and removes duplicates.
pub(crate) fn sort_unique(numbers: &mut Vec<u32>)
    ensures ascend { IsStrictlyIncreasing numbers.new.items }
    ensures members { HaveSameMembers numbers.new.items numbers.old.items }
{
    numbers.sort_unstable();
    numbers.dedup();
}
