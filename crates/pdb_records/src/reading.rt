//! `Reading`: the entries of a list that could be read, and the fault at which it ends early, if any.

use crate::error::StreamError;
use std::marker::Model;

/// The entries of a list that could be read, in order, and why the list ends early, if it does.
pub struct Reading<T> {
    /// The entries that were read.
    pub items: Vec<T>,
    /// Why the list ends early; `None` if it is complete.
    pub fault: Option<StreamError>,
}

impl<T: Drop> Drop for Reading<T> {
    fn drop(self) {
        let Reading { items: _, fault: _ } = self;
    }
}

impl<T> Model for Reading<T> {
    ghost use Rattle.pdb_records.specs.Readings.{Read};

    ghost Value = { Read T };

    ghost view = { λ r. record { items = r.items.items; fault = r.fault } };
}
