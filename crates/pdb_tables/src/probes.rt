//! `Probes`: counts the entries of a table that a search compares, which bounds its cost.

ghost use Rattle.std.specs.Prelude.{◌≡◌, ℕ, ◌<◌, ◌≤◌, ◌-◌, ◌^◌};
ghost use Rattle.pdb_tables.specs.Probes.{one_more};

use std::marker::Model;

/// The number of entries that a search compared.
///
/// A `tick` counts each entry that is compared. So the number that a search adds bounds its cost.
#[derive(Debug, Drop)]
pub struct Probes {
    count: u64,
}

// Contracts see probes as their count.
impl Model for Probes {
    ghost Value = { ℕ };

    ghost view = { λ probes. probes.count };
}

impl Probes {
    /// A count of 0.
    pub fn new() -> Self
        ensures { result ≡ 0 }
    {
        Probes { count: 0 }
    }

    /// Counts one more entry. A count of `u64::MAX` stays.
    pub fn tick(&mut self)
        ensures state { self.new ≡ one_more self.old }
        ensures no_fewer { self.old ≤ self.new }
    {
        self.count = self.count.saturating_add(1);
    }

    /// The number of entries that were compared.
    pub fn count(&self) -> u64
        ensures { result ≡ self.now }
    {
        self.count
    }
}
