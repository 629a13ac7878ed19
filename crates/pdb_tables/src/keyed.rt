//! `Keyed`: elements with a key. Lists of them are sorted by key, or reduced to the first of each key.

ghost use Rattle.std.specs.Prelude.{◌≡◌, OnOk, OnErr, IfOk};
ghost use Rattle.pdb_tables.specs.InOrder.{in_order};
ghost use Rattle.pdb_tables.specs.Keyed.{is_lower, firsts_after, first_of_each_key};

use std::alloc::{AllocError, Global};

/// An element that has a key.
pub trait Keyed: Copy {
    type Key: Copy + Ord + Drop;

    // The key.
    ghost key_of: { Self → Self.Key };

    /// The key.
    fn key(&self) -> Self::Key
        ensures { result ≡ key_of self.now };
}

/// Sorts entries by key. The sort is stable: entries with the same key keep their order.
///
/// `AllocError` if memory runs out; then the list doesn't change.
pub fn sort_by_key<T: Keyed>(entries: &mut Vec<T>) -> Result<(), AllocError>
    ensures state { OnOk result (entries.new.items ≡ in_order (is_lower T.Key.cmp T.key_of) entries.old.items) }
    ensures unchanged_if_refused { OnErr result (entries.new.items ≡ entries.old.items) }
{
    entries.sort_by_key(|entry| entry.key())
}

// Keeps the first of each run of neighbours with the same key.
fn first_neighbours<T: Keyed>(alloc: Global, entries: &[T]) -> Result<Vec<T>, AllocError>
    ensures { IfOk result (λ v. v.items ≡ firsts_after T.Key.cmp T.key_of None entries.now) }
{
    let mut firsts: Vec<T> = Vec::new(alloc);
    let mut before = None;
    for entry in entries {
        let key = entry.key();
        if before != Some(key) {
            firsts.push(*entry)?;
            before = Some(key);
        }
    }
    Ok(firsts)
}

/// Sorts entries by key, and keeps only the first of each key. `AllocError` if memory runs out.
pub fn first_of_each_key<T: Keyed>(alloc: Global, mut entries: Vec<T>) -> Result<Vec<T>, AllocError>
    ensures { IfOk result (λ v. v.items ≡ first_of_each_key T.Key.cmp T.key_of entries.items) }
{
    sort_by_key(&mut entries)?;
    first_neighbours(alloc, &entries)
}
