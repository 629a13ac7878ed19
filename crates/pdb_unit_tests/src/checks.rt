//! Counts checks, and names the first that failed.

/// How many checks were made, and which of them failed.
#[derive(Clone, Copy)]
pub(crate) struct Checks {
    pub(crate) made: u64,
    pub(crate) failed: u64,
    /// The name of the first check that failed, or an empty text.
    pub(crate) first: &'static str,
}

impl Checks {
    /// No check yet.
    pub(crate) const NONE: Checks = Checks {
        made: 0,
        failed: 0,
        first: "",
    };

    /// Adds a check: its name, and whether it holds.
    pub(crate) fn and(self, name: &'static str, holds: bool) -> Checks {
        self.with(Checks {
            made: 1,
            failed: if holds { 0 } else { 1 },
            first: if holds { "" } else { name },
        })
    }

    /// Adds a check, which fails if it could not be made.
    pub(crate) fn and_tried<E: Drop>(self, name: &'static str, holds: Result<bool, E>) -> Checks {
        self.and(name, matches!(holds, Ok(true)))
    }

    /// Adds other checks.
    pub(crate) fn with(self, others: Checks) -> Checks {
        Checks {
            made: self.made.saturating_add(others.made),
            failed: self.failed.saturating_add(others.failed),
            first: if self.failed > 0 {
                self.first
            } else {
                others.first
            },
        }
    }
}
