//! Counts cases, and those whose result differs from the expected one.

/// The number of cases, and of those whose result differs from the expected one.
#[derive(Clone, Copy)]
pub(crate) struct Tally {
    pub(crate) asked: u64,
    pub(crate) differ: u64,
}

impl Tally {
    /// No case yet.
    pub(crate) const NOTHING: Tally = Tally {
        asked: 0,
        differ: 0,
    };

    /// The tally of one case, by whether its result is the expected one.
    pub(crate) fn of_case(is_wanted: bool) -> Tally {
        Tally {
            asked: 1,
            differ: if is_wanted { 0 } else { 1 },
        }
    }

    /// The sum of two tallies.
    pub(crate) fn and(self, others: Tally) -> Tally {
        Tally {
            asked: self.asked.saturating_add(others.asked),
            differ: self.differ.saturating_add(others.differ),
        }
    }
}
