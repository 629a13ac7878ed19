//! `PartSet`: a set of broken parts of one kind, and the error for each that failed before.

ghost use Rattle.std.specs.Prelude.{◌≡◌, [], IfOk, OnOk, OnErr};
ghost use Rattle.pdb_errors.specs.PartSet.{has_part, add_part, add_met, error_of_part};

use crate::error::Error;
use std::alloc::{AllocError, Global};
use std::collections::BTreeSet;
use std::marker::Model;

/// A part of the records that may be broken by itself.
pub trait BrokenPart: Copy + Ord + Drop {
    ghost use Rattle.pdb_errors.specs.declared.error.Error.{Error};

    /// The error of a part that failed before.
    ghost unsuccessful_of: { Self → Error };

    /// The error of a part that failed before.
    fn unsuccessful(self) -> Error
        ensures { result ≡ unsuccessful_of self };
}

/// The parts of the records that were found broken, of one kind of part.
pub struct PartSet<P: BrokenPart> {
    parts: BTreeSet<P>,
}

impl<P: BrokenPart> Drop for PartSet<P> {
    fn drop(self) {
        let PartSet { parts: _ } = self;
    }
}

// Contracts see a set as the list of its parts, in order.
impl<P: BrokenPart> Model for PartSet<P> {
    ghost use Rattle.std.specs.Prelude.{List};

    ghost Value = { List P };

    ghost view = { λ set. set.parts.keys };
}

impl<P: BrokenPart> PartSet<P> {
    /// An empty set. It takes no memory.
    pub fn new(alloc: Global) -> Self
        ensures { result ≡ [] }
    {
        PartSet {
            parts: BTreeSet::new(alloc),
        }
    }

    /// Whether a part was found broken before.
    pub fn has_failed(&self, part: P) -> bool
        ensures { result ≡ has_part P.cmp self.now part }
    {
        self.parts.contains(&part)
    }

    /// Adds a part. `AllocError` if memory runs out; then the set doesn't change.
    pub fn add(&mut self, part: P) -> Result<(), AllocError>
        ensures state { OnOk result (self.new ≡ add_part P.cmp self.old part) }
        ensures unchanged_if_refused { OnErr result (self.new ≡ self.old) }
    {
        match self.parts.insert(part) {
            Ok(_) => Ok(()),
            Err(_) => Err(AllocError),
        }
    }

    /// Adds a part that was found broken, if there is one. `AllocError` if memory runs out; then the set doesn't
    /// change.
    pub fn add_met(&mut self, met: Option<P>) -> Result<(), AllocError>
        ensures state { OnOk result (self.new ≡ add_met P.cmp self.old met) }
        ensures unchanged_if_refused { OnErr result (self.new ≡ self.old) }
    {
        match met {
            Some(part) => self.add(part),
            None => Ok(()),
        }
    }

    /// The error for a part that was found broken: its own error the first time, when it is added; later the error that
    /// it failed before. `AllocError` if memory runs out; then the set doesn't change.
    pub fn fail(&mut self, part: P, error: Error) -> Result<Error, AllocError>
        ensures answer { IfOk result (λ e. e ≡ error_of_part P.cmp P.unsuccessful_of self.old part error) }
        ensures state { OnOk result (self.new ≡ add_part P.cmp self.old part) }
        ensures unchanged_if_refused { OnErr result (self.new ≡ self.old) }
    {
        let failed_before = self.has_failed(part);
        self.add(part)?;
        if failed_before {
            return Ok(part.unsuccessful());
        }
        Ok(error)
    }
}
