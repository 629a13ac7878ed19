//! Tables and sets of numbers that the other crates share.
//!
//! A [`RangeSet`] is a set of numbers, such as the addresses of some code. Any ranges can be added to it. It returns
//! them as the fewest ranges with the same numbers, in ascending order. A range is a pair `(lo, hi)` that includes `lo`
//! and excludes `hi`. [`Segments`] has a value for each number of its ranges.
//!
//! Elements with a key ([`Keyed`]) can be sorted by it, reduced to the first of each key, and found by
//! [`neighbours_of`], which counts the entries that it compares. [`insert_first`] keeps the first value of each key in
//! a map. An [`OnceMap`] caches values that are made once for each key. [`make_slot`] extends a list of slots.
#![tactic(auto)]

mod first_values;
mod keyed;
mod once_map;
mod painting;
mod probes;
mod range_set;
mod runs;
mod search;
mod segment;
mod segments;
mod slots;
pub mod table_laws;

pub use first_values::insert_first;
pub use keyed::{Keyed, first_of_each_key, sort_by_key};
pub use once_map::{Once, OnceMap};
pub use probes::Probes;
pub use range_set::RangeSet;
pub use search::{Neighbours, neighbours_at, neighbours_of};
pub use segment::Segment;
pub use segments::Segments;
pub use slots::make_slot;
