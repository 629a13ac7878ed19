//! `insert_first`: inserts into a map, and keeps the first value of each key.

ghost use Rattle.std.specs.Prelude.{◌≡◌, Some, None, OnOk, OnErr, if◌then◌else◌};
ghost use Rattle.std.specs.BTreeMap.{get};
ghost use Rattle.std.specs.Option.{option_or};

use std::alloc::AllocError;
use std::collections::BTreeMap;

/// Inserts a value for a key, unless the key already has one.
///
/// `AllocError` if memory runs out; then the map doesn't change.
pub fn insert_first<K: Ord + Drop, V: Drop>(
    map: &mut BTreeMap<K, V>,
    key: K,
    value: V,
) -> Result<(), AllocError>
    ensures state { OnOk result ((asked : K) → get K.cmp map.new asked
        ≡ option_or (get K.cmp map.old asked) (if K.eq key asked then Some value else None)) }
    ensures unchanged_if_refused { OnErr result ((asked : K) → get K.cmp map.new asked ≡ get K.cmp map.old asked) }
{
    if map.contains_key(&key) {
        return Ok(());
    }
    match map.insert(key, value) {
        Ok(_) => Ok(()),
        Err(_) => Err(AllocError),
    }
}
