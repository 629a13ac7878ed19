//! Answers over the records that were read, each equal to the answer over all records of the file.

ghost use Rattle.std.specs.Prelude.{◌≡◌, Err, Ok, IfNone, IfOk, IfSome, OnOk, false, true};
ghost use Rattle.pdb_errors.specs.Outcomes.{Gives, Refuses};
ghost use Rattle.pdb_records.specs.Records.{Records};
ghost use Rattle.pdb_addr2line.specs.ContextData.{context_of, records_refusal};
ghost use Rattle.pdb_addr2line.specs.ContextInputs.{ContextInputs};
ghost use Rattle.pdb_known.specs.Known.{IsPartOf};
ghost use Rattle.pdb_known.specs.StrictlyClosed.{is_strictly_closed};
ghost use Rattle.pdb_session.specs.CodeOwners.{owners_of};
ghost use Rattle.pdb_session.specs.Session.{GivesFrames, GivesFunction, HasFailedByFunction};
ghost use Rattle.pdb_session.specs.Session.{LeavesFailed, needs};

use crate::code_owners::CodeOwners;
use pdb_addr2line::{Context, ContextPdbData, Error, Function, FunctionFrames, TypeFormatterFlags};
use pdb_known::KnownRecords;
use pdb_records::PDB;
use std::alloc::Global;
use std::marker::Model;

/// Why a question about an address has no answer.
#[derive(Debug, Drop, thiserror::Error)]
pub enum QuestionError {
    /// The answer depends on records that weren't read: [`PdbSession::read_for`](crate::PdbSession::read_for) reads
    /// them.
    #[error("not all of the file was read")]
    NotRead,
    /// The records that the answer depends on are broken, or memory ran out.
    #[error("{0}")]
    Records(Error),
}

/// The records of a session that were read so far, lent to contexts.
pub struct SessionData<'s> {
    provider: ContextPdbData<'s>,
    known: &'s KnownRecords,
    owners: &'s CodeOwners,
    /// Whether no record that was read refers to one that wasn't.
    is_closed: bool,
}

impl Drop for SessionData<'_> {
    fn drop(self) {
        let SessionData {
            provider: _,
            known: _,
            owners: _,
            is_closed: _,
        } = self;
    }
}

impl<'s> Model for SessionData<'s> {
    ghost use Rattle.std.specs.Prelude.{◌≡◌};
    ghost use Rattle.pdb_known.specs.Known.{Known};
    ghost use Rattle.pdb_known.specs.StrictlyClosed.{is_strictly_closed};
    ghost use Rattle.pdb_session.specs.CodeOwners.{owners_of};

    ghost Value = { Known };

    ghost view = { λ d. d.known.now };

    ghost invariant = { λ d. record {
      records : d.provider ≡ d.known.now.records;
      owners : d.owners.now ≡ owners_of d.known.now.records;
      closed : d.is_closed ≡ is_strictly_closed d.known.now;
    } };
}

impl<'s> SessionData<'s> {
    // Lends the records that were read, and the owners of their code.
    pub(crate) fn new(
        alloc: Global,
        known: &'s KnownRecords,
        owners: &'s CodeOwners,
        is_closed: bool,
    ) -> Result<Self, Error>
        requires owners { owners.now ≡ owners_of known.now.records }
        requires closed { is_closed ≡ is_strictly_closed known.now }
        ensures answer { IfOk result (λ lent. lent ≡ known.now) }
        ensures refused { Refuses result (records_refusal known.now.records) }
    {
        Ok(SessionData {
            provider: ContextPdbData::try_from_shared_pdb(alloc, &known.records)?,
            known,
            owners,
            is_closed,
        })
    }

    /// Whether the answer at an address needs records that weren't read.
    pub fn needs(&self, address: u32) -> bool
        ensures { result ≡ needs self.now address }
    {
        let is_closed = self.is_closed;
        if is_closed {
            self.owners.is_lacking(self.known, address)
        } else {
            true
        }
    }

    // Whether all records were read.
    pub(crate) fn has_all(&self) -> bool
        ensures { result ≡ self.now.all }
    {
        let known = self.known;
        known.all
    }

    // The records, once all were read.
    pub(crate) fn all_records(&self) -> Option<&PDB>
        ensures records { IfSome result (λ records. records.now ≡ self.now.records) }
        ensures all { IfSome result (λ _. self.now.all ≡ true) }
        ensures not_read { IfNone result (self.now.all ≡ false) }
    {
        let known = self.known;
        if known.all {
            Some(&known.records)
        } else {
            None
        }
    }

    /// A context over the records that were read. It prints names with these flags.
    ///
    /// # Errors
    ///
    /// Those of [`ContextPdbData::make_context_with_formatter_flags`], and the same that a context over all records
    /// would give.
    pub fn context(&self, flags: TypeFormatterFlags) -> Result<SessionContext<'_, 's>, Error>
        ensures answer { Gives (λ c. c.state.inputs) result (context_of flags self.now.records) }
        ensures known { IfOk result (λ c. c.known ≡ self.now) }
        ensures flags { IfOk result (λ c. c.flags ≡ flags) }
    {
        Ok(SessionContext {
            context: self.provider.make_context_with_formatter_flags(flags)?,
            part: self,
            flags,
        })
    }
}

/// A context over the records that were read. Once everything is read on which the answer at an address depends, it
/// gives the same answer as a context over all records.
pub struct SessionContext<'a, 's> {
    pub(crate) context: Context<'a, ContextPdbData<'s>>,
    pub(crate) part: &'a SessionData<'s>,
    flags: TypeFormatterFlags,
}

impl Drop for SessionContext<'_, '_> {
    fn drop(self) {
        let SessionContext {
            context: _,
            part: _,
            flags: _,
        } = self;
    }
}

impl<'a, 's> Model for SessionContext<'a, 's> {
    ghost use Rattle.std.specs.Prelude.{◌≡◌, Ok};
    ghost use Rattle.pdb_addr2line.specs.ContextData.{context_of};
    ghost use Rattle.pdb_session.specs.Session.{ContextOverPart};

    ghost Value = { ContextOverPart };

    ghost view = { λ c. record { known = c.part.now; flags = c.flags; state = c.context } };

    ghost invariant = { λ c. context_of c.flags c.part.now.records ≡ Ok c.context.inputs };
}

impl<'a, 's> SessionContext<'a, 's> {
    /// Whether the answer at an address needs records that weren't read.
    pub fn needs(&self, address: u32) -> bool
        ensures { result ≡ needs self.now.known address }
    {
        self.part.needs(address)
    }

    /// The function that contains an address, with its addresses and its name but no lines. The answer is that of
    /// [`Context::find_named_function`](pdb_addr2line::Context::find_named_function) over all records of the file. A
    /// function whose signature can't be printed gets its symbol's name.
    ///
    /// # Errors
    ///
    /// [`QuestionError::NotRead`] if the answer depends on records that weren't read, and `OutOfMemory` if memory runs
    /// out.
    pub fn find_function(&mut self, address: u32) -> Result<Option<Function>, QuestionError>
        ensures not_read { needs self.old.known address ≡ true → result ≡ Err QuestionError.NotRead }
        ensures answer { needs self.old.known address ≡ false
            → (whole : Records) (inputs : ContextInputs Records) → IsPartOf self.old.known whole
            → context_of self.old.flags whole ≡ Ok inputs → GivesFunction result inputs address }
        ensures failed { OnOk result ((whole : Records) (inputs : ContextInputs Records)
            → IsPartOf self.old.known whole → context_of self.old.flags whole ≡ Ok inputs
            → HasFailedByFunction self.old.state self.new.state inputs address) }
        ensures unchanged { needs self.old.known address ≡ true → self.new ≡ self.old }
        ensures known { self.new.known ≡ self.old.known }
        ensures flags { self.new.flags ≡ self.old.flags }
    {
        if self.needs(address) {
            return Err(QuestionError::NotRead);
        }
        let found = match self.context.find_named_function(address) {
            Ok(found) => found,
            Err(error) => return Err(QuestionError::Records(error)),
        };
        Ok(found)
    }

    /// The frames at an address, from the innermost inlined function to the function that contains it. The answer is
    /// that of [`Context::find_named_frames`](pdb_addr2line::Context::find_named_frames) over all records of the file.
    /// If the signature of the containing function can't be printed, it gets its symbol's name.
    ///
    /// # Errors
    ///
    /// [`QuestionError::NotRead`] if the answer depends on records that weren't read. Otherwise
    /// [`QuestionError::Records`] with the errors of `Context::find_frames`.
    pub fn find_frames(&mut self, address: u32) -> Result<Option<FunctionFrames<'a>>, QuestionError>
        ensures not_read { needs self.old.known address ≡ true → result ≡ Err QuestionError.NotRead }
        ensures answer { needs self.old.known address ≡ false
            → (whole : Records) (inputs : ContextInputs Records) → IsPartOf self.old.known whole
            → context_of self.old.flags whole ≡ Ok inputs
            → GivesFrames result self.old.state inputs address }
        ensures failed { needs self.old.known address ≡ false
            → (whole : Records) (inputs : ContextInputs Records) → IsPartOf self.old.known whole
            → context_of self.old.flags whole ≡ Ok inputs
            → LeavesFailed result self.old.state self.new.state inputs address }
        ensures unchanged { needs self.old.known address ≡ true → self.new ≡ self.old }
        ensures known { self.new.known ≡ self.old.known }
        ensures flags { self.new.flags ≡ self.old.flags }
    {
        if self.needs(address) {
            return Err(QuestionError::NotRead);
        }
        let found = match self.context.find_named_frames(address) {
            Ok(found) => found,
            Err(error) => return Err(QuestionError::Records(error)),
        };
        Ok(found)
    }

    /// Frees the memory of all cached results. Answers stay the same.
    pub fn clear_caches(&mut self)
        ensures unchanged { self.new ≡ self.old }
    {
        self.context.clear_caches();
    }
}
