//! Counts questions, and answers that differ from the expected ones.

/// The number of questions, and of answers that differ from the expected ones.
#[derive(Clone, Copy)]
pub(crate) struct Tally {
    pub(crate) asked: u64,
    pub(crate) differ: u64,
}

impl Tally {
    /// Nothing was asked yet.
    pub(crate) const NOTHING: Tally = Tally {
        asked: 0,
        differ: 0,
    };

    /// The tally with `count` more questions.
    pub(crate) fn asked(self, count: u64) -> Tally {
        Tally {
            asked: self.asked.saturating_add(count),
            differ: self.differ,
        }
    }

    /// The tally with one more answer that differs.
    pub(crate) fn differing(self) -> Tally {
        Tally {
            asked: self.asked,
            differ: self.differ.saturating_add(1),
        }
    }
}
