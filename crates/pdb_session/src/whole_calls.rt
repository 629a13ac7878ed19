//! Calls that need all records of a file: the records themselves, where functions start, and lists of calls.

ghost use Rattle.std.specs.Prelude.{◌≡◌, Err, IfNone, IfSome, false, true};
ghost use Rattle.pdb_session.specs.Session.{EndsCalls, GivesNextStart, GivesStarts};
ghost use Rattle.pdb_session.specs.declared.session_context.QuestionError.TheVariants.{NotRead};

use crate::session_context::{QuestionError, SessionContext};
use pdb_addr2line::{Answer, Call};
use pdb_records::PDB;

impl<'a> SessionContext<'a, '_> {
    /// All records, or `None` until they are read.
    pub fn all_records(&self) -> Option<&PDB>
        ensures records { IfSome result (λ records. records.now ≡ self.now.known.records) }
        ensures all { IfSome result (λ _. self.now.known.all ≡ true) }
        ensures not_read { IfNone result (self.now.known.all ≡ false) }
    {
        self.part.all_records()
    }

    /// The addresses at which functions start, ascending and each once.
    ///
    /// # Errors
    ///
    /// [`QuestionError::NotRead`] if some records weren't read: [`PdbSession::read_all`](crate::PdbSession::read_all)
    /// reads them. `OutOfMemory` if memory runs out.
    pub fn start_addresses(&mut self) -> Result<Vec<u32>, QuestionError>
        ensures not_read { self.old.known.all ≡ false → result ≡ Err NotRead }
        ensures answer { self.old.known.all ≡ true → GivesStarts result self.old.state.inputs }
        ensures unchanged { self.new ≡ self.old }
    {
        if !self.part.has_all() {
            return Err(QuestionError::NotRead);
        }
        match self.context.start_addresses() {
            Ok(starts) => Ok(starts),
            Err(error) => Err(QuestionError::Records(error)),
        }
    }

    /// The first of the [start addresses](SessionContext::start_addresses) that is at or above an address, if there is
    /// one.
    ///
    /// # Errors
    ///
    /// Those of `start_addresses`.
    pub fn next_start_address(&mut self, address: u32) -> Result<Option<u32>, QuestionError>
        ensures not_read { self.old.known.all ≡ false → result ≡ Err NotRead }
        ensures answer { self.old.known.all ≡ true → GivesNextStart result self.old.state.inputs address }
        ensures unchanged { self.new ≡ self.old }
    {
        if !self.part.has_all() {
            return Err(QuestionError::NotRead);
        }
        let start = match self.context.next_start_address(address) {
            Ok(start) => start,
            Err(error) => return Err(QuestionError::Records(error)),
        };
        Ok(start)
    }

    /// Answers calls in turn, and appends an answer for each, as
    /// [`Context::run_calls`](pdb_addr2line::Context::run_calls) does.
    ///
    /// # Errors
    ///
    /// [`QuestionError::NotRead`] if some records weren't read; then no call is answered. `OutOfMemory` if memory runs
    /// out; then the answers to the calls before that one were appended.
    pub fn run_calls(
        &mut self,
        calls: &[Call<'_>],
        answers: &mut Vec<Answer<'a>>,
    ) -> Result<(), QuestionError>
        ensures not_read { self.old.known.all ≡ false → result ≡ Err NotRead }
        ensures answers { self.old.known.all ≡ true → EndsCalls result self.old.state self.new.state calls.now
            answers.old.items answers.new.items }
        ensures unchanged { self.old.known.all ≡ false → self.new ≡ self.old }
        ensures same_answers { self.old.known.all ≡ false → answers.new.items ≡ answers.old.items }
        ensures known { self.new.known ≡ self.old.known }
        ensures flags { self.new.flags ≡ self.old.flags }
    {
        if !self.part.has_all() {
            return Err(QuestionError::NotRead);
        }
        if let Err(error) = self.context.run_calls(calls, answers) {
            return Err(QuestionError::Records(error));
        }
        Ok(())
    }
}
