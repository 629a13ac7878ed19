//! `neighbours_of`: a binary search in lists with ascending keys, which counts the entries that it compares.

ghost use Rattle.std.specs.Prelude.{◌≡◌, ◌+◌, ◌<◌, ◌≤◌, None, find, length, not, slice_get, Some};
ghost use Rattle.std.specs.List.{position_or_len};
ghost use Rattle.pdb_tables.specs.Keyed.{is_above, KeysAscend};
ghost use Rattle.pdb_tables.specs.Last.{ahead_of, last_over};
ghost use Rattle.pdb_tables.specs.Probes.{digits, one_more};

use crate::keyed::Keyed;
use crate::probes::Probes;

/// The entries next to a key in a list.
#[derive(Clone, Copy, Debug)]
pub struct Neighbours<T> {
    /// The last entry whose key isn't greater.
    pub up_to: Option<T>,
    /// The first entry whose key is greater.
    pub above: Option<T>,
    /// The position of that entry, or the length of the list if there is none.
    pub place: usize,
}

// The entry at a position, counted as one more probe.
fn look<'e, T: Keyed>(entries: &'e [T], at: usize, looks: &mut Probes) -> &'e T
    requires { at < length entries.now }
    ensures answer { slice_get entries.now at ≡ Some result.now }
    ensures one_more { looks.new ≡ one_more looks.old }
    ensures no_fewer { looks.old ≤ looks.new }
{
    looks.tick();
    &entries[at]
}

// The entry before a position. The search already compared it, so it isn't counted again.
fn entry_ahead_of<T: Copy>(entries: &[T], place: usize) -> Option<T>
    ensures { result ≡ ahead_of None entries.now place }
{
    match place {
        0 => None,
        _ => entries.get(place - 1).copied(),
    }
}

/// The entries next to a position in a list: the one before it, and the one at it. `probes` counts both.
pub fn neighbours_at<T: Copy>(entries: &[T], place: usize, probes: &mut Probes) -> Neighbours<T>
    ensures up_to { result.up_to ≡ ahead_of None entries.now place }
    ensures above { result.above ≡ slice_get entries.now place }
    ensures place { result.place ≡ place }
    ensures no_fewer { probes.old ≤ probes.new }
    ensures bound { probes.new ≤ probes.old + 2 }
{
    probes.tick();
    probes.tick();
    entries_next_to(entries, place)
}

// The entries next to a position in a list, without counting them.
fn entries_next_to<T: Copy>(entries: &[T], place: usize) -> Neighbours<T>
    ensures up_to { result.up_to ≡ ahead_of None entries.now place }
    ensures above { result.above ≡ slice_get entries.now place }
    ensures place { result.place ≡ place }
{
    Neighbours {
        up_to: entry_ahead_of(entries, place),
        above: entries.get(place).copied(),
        place,
    }
}

/// The entries next to a key in a list with ascending keys, by a binary search that allocates nothing.
///
/// `probes` counts the entries that are compared: at most as many as the length of the list has binary digits. These
/// are at most 10 for 1,000 entries, and 0 for an empty list.
pub fn neighbours_of<T: Keyed>(entries: &[T], key: T::Key, probes: &mut Probes) -> Neighbours<T>
    requires { KeysAscend T.Key.cmp T.key_of entries.now }
    ensures up_to { result.up_to ≡ last_over (λ x. not (is_above T.Key.cmp T.key_of key x)) None entries.now }
    ensures above { result.above ≡ find (is_above T.Key.cmp T.key_of key) entries.now }
    ensures place { result.place ≡ position_or_len (is_above T.Key.cmp T.key_of key) entries.now }
    ensures no_fewer { probes.old ≤ probes.new }
    ensures bound { probes.new ≤ probes.old + digits (length entries.now) }
{
    let mut from = 0;
    let mut to = entries.len();
    while from < to {
        let middle = from + (to - from) / 2;
        if key < look(entries, middle, probes).key() {
            to = middle;
        } else {
            from = middle + 1;
        }
    }
    // The search already compared both.
    entries_next_to(entries, from)
}
