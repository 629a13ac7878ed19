//! Readings: lists with the fault at which they end early, if any.

ghost use Rattle.std.specs.Prelude.{◌≡◌, []};

use pdb_records::{Reading, StreamError};
use std::alloc::Global;

/// An empty reading with this fault.
pub fn nothing_read<T>(alloc: Global, fault: Option<StreamError>) -> Reading<T>
    ensures { result ≡ record { items = []; fault = fault } }
{
    Reading {
        items: Vec::new(alloc),
        fault,
    }
}
