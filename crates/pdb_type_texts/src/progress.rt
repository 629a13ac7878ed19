//! `Progress`: the state of printing: the steps that are still to be done, and the text so far.

ghost use Rattle.std.specs.Prelude.{◌≡◌, ◌++◌, ℕ, true, false, [], ◌∷◌, List, None, length};
ghost use Rattle.std.specs.Prelude.{reverse, take, drop, string_bytes, IfOk, OnOk, is_some};
ghost use Rattle.std.specs.String.Boundary.{IsSplitPoint};
ghost use Rattle.pdb_types.specs.FailedParts.{Parts};
ghost use Rattle.pdb_type_texts.specs.declared.attributes.Predecessor.TheVariants.{Sigil, Text};
ghost use Rattle.pdb_type_texts.specs.Attributes.{attributes_text};
ghost use Rattle.pdb_type_texts.specs.Documents.{caught_by, is_sigil, ends_in_sigil};
ghost use Rattle.pdb_type_texts.specs.Progress.{released_by, Stage, beginning, with_step, with_text, with_failure};
ghost use Rattle.pdb_type_texts.specs.Progress.{failure_of, failure_in, MayBeCut, Opens, OpensAlone, Puts, Takes};
ghost use Rattle.pdb_type_texts.specs.Wording.{wording_text, missing_text};

use crate::attributes::{Attribute, Predecessor, write_attributes};
use crate::print_error::PrintError;
use crate::printed_texts::Printed;
use crate::tasks::{Pending, Task};
use crate::wording::{Wording, write, write_missing};
use pdb_errors::Error;
use pdb_types::TypeFormatterFlags;
use std::alloc::{AllocError, Global};
use std::collections::BTreeSet;
use std::marker::Model;
use std::mem;

/// The first capacity for steps.
const STEPS_AT_FIRST: usize = 14;

/// The state of printing: the steps that are still to be done, and the text so far.
///
/// Each type inside another one is a step of its own. So deep records don't need deep recursion.
#[derive(Drop)]
pub struct Progress<'s> {
    // The steps that are still to be done. The next step is the last one.
    steps: Vec<Pending<'s>>,
    // The indices of types that are being printed. Each of them has a step that closes it.
    open_indices: BTreeSet<u32>,
    text: String,
    failure: Option<PrintError>,
}

impl<'s> Model for Progress<'s> {
    ghost use Rattle.std.specs.Prelude.{reverse, string_bytes};
    ghost use Rattle.pdb_type_texts.specs.Progress.{released_by, Stage, failure_in, open_in};
    ghost use Rattle.pdb_type_texts.specs.Progress.{marks_in, IsSetOf, PutsBack, MayBeCut};

    ghost Value = { Stage };

    ghost view = { λ p. record {
      steps = reverse p.steps.items;
      text = string_bytes p.text;
      failure = failure_in p.failure;
    } };

    ghost invariant = { λ p. record {
      opened : IsSetOf p.open_indices (open_in (reverse p.steps.items));
      outer : PutsBack (reverse p.steps.items);
      marks : MayBeCut (string_bytes p.text) (marks_in (reverse p.steps.items));
    } };
}

/// What the next step is.
#[derive(Drop)]
pub enum Next<'s> {
    /// Print this task.
    Print(Task<'s>),
    /// A task ended, or was skipped because printing has failed.
    Ended,
    /// No step is left.
    Finished,
}

impl<'s> Progress<'s> {
    /// An empty state, with capacity for some steps.
    pub fn new(alloc: Global) -> Result<Self, AllocError>
        ensures { IfOk result (λ progress. progress ≡ beginning) }
    {
        Ok(Progress {
            steps: Vec::with_capacity(alloc, STEPS_AT_FIRST)?,
            open_indices: BTreeSet::new(alloc),
            text: String::new(alloc),
            failure: None,
        })
    }

    /// The result of printing.
    pub fn into_printed(self) -> Printed
        ensures text { string_bytes result.text ≡ self.entry.text }
        ensures failure { failure_in result.failure ≡ self.entry.failure }
    {
        Printed {
            text: self.text,
            failure: self.failure,
        }
    }

    /// The allocator.
    pub fn allocator(&self) -> Global {
        *self.steps.allocator()
    }

    /// Makes a task the next one.
    pub fn push(&mut self, task: Task<'s>) -> Result<(), AllocError>
        ensures { OnOk result (self.new ≡ with_step (Pending.Print task.entry) self.old) }
    {
        self.steps.push(Pending::Print(task))?;
        Ok(())
    }

    /// Makes two tasks the next ones, in this order.
    pub fn push2(&mut self, first: Task<'s>, second: Task<'s>) -> Result<(), AllocError>
        ensures { OnOk result (Puts (first.entry ∷ second.entry ∷ []) self.old self.new) }
    {
        self.push(second)?;
        self.push(first)
    }

    /// Makes three tasks the next ones, in this order.
    pub fn push3(
        &mut self,
        first: Task<'s>,
        second: Task<'s>,
        third: Task<'s>,
    ) -> Result<(), AllocError>
        ensures { OnOk result (Puts (first.entry ∷ second.entry ∷ third.entry ∷ []) self.old self.new) }
    {
        self.push2(second, third)?;
        self.push(first)
    }

    /// Makes four tasks the next ones, in this order.
    pub fn push4(
        &mut self,
        first: Task<'s>,
        second: Task<'s>,
        third: Task<'s>,
        fourth: Task<'s>,
    ) -> Result<(), AllocError>
        ensures { OnOk result
            (Puts (first.entry ∷ second.entry ∷ third.entry ∷ fourth.entry ∷ []) self.old self.new) }
    {
        self.push3(second, third, fourth)?;
        self.push(first)
    }

    /// Makes six tasks the next ones, in this order.
    pub fn push6(
        &mut self,
        first: Task<'s>,
        second: Task<'s>,
        third: Task<'s>,
        fourth: Task<'s>,
        fifth: Task<'s>,
        sixth: Task<'s>,
    ) -> Result<(), AllocError>
        ensures { OnOk result (Puts (first.entry ∷ second.entry ∷ third.entry ∷ fourth.entry ∷ fifth.entry
            ∷ sixth.entry ∷ []) self.old self.new) }
    {
        self.push4(third, fourth, fifth, sixth)?;
        self.push2(first, second)
    }

    /// Makes printing fail.
    pub fn fail(&mut self, failure: PrintError)
        ensures { self.new ≡ with_failure (failure_of failure) self.old }
    {
        self.failure = Some(failure);
    }

    /// Opens an index until the current next step is reached again. Returns whether it could be opened. If it is
    /// already open, printing fails.
    pub fn open(&mut self, index: u32) -> Result<bool, AllocError>
        ensures { IfOk result (λ opened. Opens index self.old self.new opened) }
    {
        if !self.open_indices.insert(index)? {
            self.failure = Some(PrintError::OfError(Error::CircularTypeDefinition(index)));
            return Ok(false);
        }
        match self.steps.push(Pending::Close(index)) {
            Ok(()) => Ok(true),
            Err(_) => {
                self.open_indices.remove(&index);
                Err(AllocError)
            }
        }
    }

    /// Begins an id. Until the current next step is reached again, only this index is open, or none.
    pub fn open_alone(&mut self, index: Option<u32>) -> Result<(), AllocError>
        ensures { OnOk result (OpensAlone index self.old self.new) }
    {
        let mut inner = BTreeSet::new(self.allocator());
        if let Some(index) = index {
            inner.insert(index)?;
        }
        let outer = mem::replace(&mut self.open_indices, inner);
        match self.steps.push(Pending::EndId(outer, index)) {
            Ok(()) => Ok(()),
            Err(_) => {
                self.steps.clear();
                self.open_indices.clear();
                Err(AllocError)
            }
        }
    }

    /// Begins a type that may be part of another one. If a type in it is missing, a note is printed after its text so
    /// far.
    pub fn catch(&mut self) -> Result<(), AllocError>
        ensures { OnOk result (self.new ≡ with_step Pending.EndCatch self.old) }
    {
        self.steps.push(Pending::EndCatch)?;
        Ok(())
    }

    /// Begins the target of these pointers, which are printed after it. If the target fails, its text is removed.
    pub fn hold_back(&mut self, attributes: Vec<Attribute>) -> Result<(), AllocError>
        ensures { OnOk result (self.new ≡ with_step (Pending.EndBuffer (length self.old.text) attributes) self.old) }
    {
        let mark = self.text.len();
        self.steps.push(Pending::EndBuffer(mark, attributes))?;
        Ok(())
    }

    /// Writes a piece of text.
    pub fn write(
        &mut self,
        flags: TypeFormatterFlags,
        wording: &Wording<'_>,
    ) -> Result<(), AllocError>
        ensures { OnOk result (self.new ≡ with_text (wording_text flags wording.now) self.old) }
    {
        match write(&mut self.text, flags, wording) {
            Ok(()) => Ok(()),
            Err(error) => {
                self.steps.clear();
                self.open_indices.clear();
                Err(error)
            }
        }
    }

    /// Takes the next step. A step that only ends something is done here; a task is returned to be printed.
    pub fn next(&mut self, flags: TypeFormatterFlags) -> Result<Next<'s>, AllocError>
        ensures { IfOk result (λ next. Takes flags self.old next self.new) }
    {
        let Some(pending) = self.steps.pop() else {
            return Ok(Next::Finished);
        };
        match pending {
            Pending::Print(task) => {
                if self.failure.is_none() {
                    return Ok(Next::Print(task));
                }
                return Ok(Next::Ended);
            }
            Pending::Close(closed) => {
                self.open_indices.remove(&closed);
                return Ok(Next::Ended);
            }
            Pending::EndId(outer, _) => {
                self.open_indices = outer;
                return Ok(Next::Ended);
            }
            Pending::EndCatch => {
                if end_catch(&mut self.text, &mut self.failure).is_ok() {
                    return Ok(Next::Ended);
                }
            }
            Pending::EndBuffer(mark, attributes) => {
                if end_buffer(&mut self.text, &self.failure, flags, mark, &attributes).is_ok() {
                    return Ok(Next::Ended);
                }
            }
        }
        self.steps.clear();
        self.open_indices.clear();
        Err(AllocError)
    }
}

// Ends a type. If a type in it was missing, a note is printed after its text so far.
fn end_catch(text: &mut String, failure: &mut Option<PrintError>) -> Result<(), AllocError>
    ensures cut { OnOk result ((marks : List ℕ) → MayBeCut (string_bytes text.old) marks
        → MayBeCut (string_bytes text.new) marks) }
    ensures caught { OnOk result ((failed : Parts) →
        record { text = string_bytes text.new; fault = failure_in failure.new; failed = failed }
        ≡ caught_by (failure_in failure.old)
        (record { text = string_bytes text.old; fault = failure_in failure.old; failed = failed })) }
{
    if let Some(PrintError::TypeNotFound(index)) = failure {
        write_missing(text, *index)?;
        *failure = None;
    }
    Ok(())
}

// Whether the text from a byte on ends in `*` or `&`.
fn has_sigil_at_end(text: &str, mark: usize) -> bool
    ensures { result ≡ ends_in_sigil (drop mark text.now) }
{
    let bytes = text.as_bytes();
    if bytes.len() <= mark {
        return false;
    }
    let last = bytes[bytes.len() - 1];
    last == b'*' || last == b'&'
}

// Ends the target of pointers. They are printed after it; or, if it failed, its text is removed.
fn end_buffer(
    text: &mut String,
    failure: &Option<PrintError>,
    flags: TypeFormatterFlags,
    mark: usize,
    attributes: &[Attribute],
) -> Result<(), AllocError>
    requires { IsSplitPoint (string_bytes text.old) mark }
    ensures cut { OnOk result ((marks : List ℕ) → MayBeCut (take mark (string_bytes text.old)) marks
        → MayBeCut (string_bytes text.new) marks) }
    ensures released { OnOk result ((failed : Parts) →
        record { text = string_bytes text.new; fault = failure_in failure.now; failed = failed }
        ≡ released_by (failure_in failure.now)
        (record { text = string_bytes text.old; fault = failure_in failure.now; failed = failed })
        mark
        (attributes_text flags Sigil (reverse attributes.now))
        (attributes_text flags Text (reverse attributes.now))) }
{
    if failure.is_some() {
        text.truncate(mark);
        return Ok(());
    }
    let predecessor = if has_sigil_at_end(text.as_str(), mark) {
        Predecessor::Sigil
    } else {
        Predecessor::Text
    };
    write_attributes(text, flags, predecessor, attributes)
}
