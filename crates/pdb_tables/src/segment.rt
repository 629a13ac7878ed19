//! `Segment`: a range of numbers with one value.

use crate::keyed::Keyed;

/// A range of numbers, from `start` up to, but not including, `end`, with one value.
#[derive(Clone, Copy, Debug)]
pub struct Segment<T> {
    /// The first number.
    pub start: u64,
    /// The number after the last.
    pub end: u64,
    /// The value of each of them.
    pub value: T,
}

impl<T: Copy> Keyed for Segment<T> {
    type Key = u64;

    ghost key_of = { λ segment. segment.start };

    fn key(&self) -> u64 {
        self.start
    }
}
