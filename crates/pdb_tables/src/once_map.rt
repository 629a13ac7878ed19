//! `OnceMap`: a cache of values that are made once for each key.

ghost use Rattle.std.specs.BTreeMap.{get, Updates};
ghost use Rattle.std.specs.Option.{option_copied};
ghost use Rattle.std.specs.Prelude.{◌≡◌, Some, IfSome, OnOk, OnErr};
ghost use Rattle.std.specs.FinMap.{IsAntisymmetric};
ghost use Rattle.pdb_tables.specs.OnceMap.{HoldsOfEach};

use std::alloc::{AllocError, Global};
use std::collections::BTreeMap;

/// A value that is made once for each key.
pub trait Once<K: Ord + Drop>: Drop {
    // The data from which the value is made.
    ghost Source: { Type 0 };

    // Whether it is the value that is made from a source for a key.
    ghost fits: { Source → K → Self → Type 0 };

    // Only equal keys compare as equal.
    ghost antisymmetric: { IsAntisymmetric K.cmp };
}

/// The values that were made so far, by key.
#[derive(Drop)]
pub struct OnceMap<K: Ord + Drop, T: Once<K>> {
    made: BTreeMap<K, T>,
}

impl<K: Ord + Drop, T: Once<K>> OnceMap<K, T> {
    /// An empty map. It takes no memory.
    pub fn new(alloc: Global) -> Self
        ensures { (source : T.Source) → HoldsOfEach K.cmp (T.fits source) result.made }
    {
        OnceMap {
            made: BTreeMap::new(alloc),
        }
    }

    /// The value for a key, if it was made.
    pub fn get(&self, key: &K) -> Option<&T>
        ensures answer { option_copied result ≡ get K.cmp self.now.made key.now }
        ensures fits { IfSome result (λ content. (source : T.Source)
            → HoldsOfEach K.cmp (T.fits source) self.now.made → T.fits source key.now content.now) }
    {
        self.made.get(key)
    }

    /// Stores the value for a key. `AllocError` if memory runs out; then the map doesn't change.
    pub fn insert(&mut self, key: K, content: T) -> Result<(), AllocError>
        ensures state { OnOk result (Updates K.cmp self.old.made self.new.made key (Some content)) }
        ensures unchanged_if_refused { OnErr result (self.new.made.entries ≡ self.old.made.entries) }
        ensures fits { (source : T.Source) → HoldsOfEach K.cmp (T.fits source) self.old.made
            → T.fits source key content → HoldsOfEach K.cmp (T.fits source) self.new.made }
    {
        match self.made.insert(key, content) {
            Ok(_) => Ok(()),
            Err(_) => Err(AllocError),
        }
    }
}
