//! `Handle`: owns opened records and a context over them, in memory of the C caller.
ghost use Rattle.std.specs.Prelude.{◌≡◌, Option, None};
ghost use Rattle.pdb_records.specs.Records.{Records};
ghost use Rattle.pdb_addr2line.specs.ContextInputs.{ContextState};
ghost use Rattle.pdb_c.specs.ReportTexts.{Agrees};
ghost use Rattle.pdb_c.specs.Openings.{context_over, held_by, LeavesOpened};
ghost use Rattle.pdb_c.specs.Questions.{AnswersHeld, LeavesHeld, AnswersHandle, LeavesHandle};

pub(crate) mod loose;

use crate::answer_buffers::answer_in;
use crate::call_error::CallError;
use crate::contexts::{context_over, give_back, refuse};
use crate::found_frames::{FoundFrames, Question};
use loose::Loose;
use pdb_addr2line::{Context, ContextPdbData};
use std::alloc::Global;
use std::marker::Model;
use std::mem::replace;
use std::ptr::null_mut;

/// Opened records and a context over them, each behind a pointer; or neither, if the second pointer is null. No type
/// that contains a list may be passed to C, so the pointers have the type of a byte.
#[repr(C)]
pub struct Handle {
    records: *mut u8,
    context: *mut u8,
    alloc: Global,
    /// The state of the context.
    pub ghost held: { Option (ContextState Records) },
}

impl Model for Handle {
    ghost use Rattle.pdb_c.specs.Handles.{holds};

    ghost also_owns = { λ h. holds h.alloc h.records h.context h.held };
}

impl Handle {
    // A closed handle, without records.
    fn closed(alloc: Global) -> Handle
        ensures { result.held ≡ None }
    {
        Handle {
            records: null_mut(),
            context: null_mut(),
            alloc,
        }
    }

    // A handle with these records and a new context over them.
    fn over(records: Loose<ContextPdbData<'static>, Global>) -> Result<Handle, CallError>
        ensures { Agrees (λ handle. handle.held) result (held_by (context_over records.entry.value)) }
    {
        let Loose { at, alloc } = records;
        match context_over(alloc, unsafe { &*at }) {
            Ok(Loose { at: context, alloc }) => Ok(Handle {
                records: at as *mut u8,
                context: context as *mut u8,
                alloc,
            }),
            Err(refusal) => Err(refuse(Loose { at, alloc }, refusal)),
        }
    }

    // The context's answer to a question; `None` if the handle is closed.
    fn ask(
        &mut self,
        alloc: Global,
        question: Question<'_>,
    ) -> Option<Result<FoundFrames, CallError>>
        ensures answer { AnswersHeld result self.old.held question.entry }
        ensures state { LeavesHeld result self.old.held question.entry self.new.held }
    {
        let context = self.context as *mut Context<'_, ContextPdbData<'static>>;
        if context.is_null() {
            None
        } else {
            unsafe { Some(answer_in(alloc, &mut *context, question)) }
        }
    }

    // Frees the context, and returns the records, if there are any.
    fn into_records(self) -> Option<Loose<ContextPdbData<'static>, Global>> {
        let Handle {
            records,
            context,
            alloc,
        } = self;
        if context.is_null() {
            None
        } else {
            give_back(Loose {
                at: context as *mut Context<'_, ContextPdbData<'static>>,
                alloc,
            });
            Some(Loose {
                at: records as *mut ContextPdbData<'static>,
                alloc,
            })
        }
    }

    // Replaces this handle by another one, and frees what it held before.
    fn exchange(&mut self, next: Handle)
        ensures { self.new.held ≡ next.held }
    {
        if let Some(records) = replace(self, next).into_records() {
            drop(records.into_box());
        }
    }

    // Frees the records and the context, if the handle is open.
    pub(crate) fn close(&mut self, alloc: Global)
        ensures { self.new.held ≡ None }
    {
        self.exchange(Handle::closed(alloc));
    }

    // Replaces the records by these, with a new context, and frees what the handle held before. If no context can be
    // made over the records, the handle stays as it was.
    pub(crate) fn open(&mut self, records: Box<ContextPdbData<'static>>) -> Result<(), CallError>
        ensures { LeavesOpened result (context_over records.entry.value) self.old.held self.new.held }
    {
        let next = Handle::over(Loose::of(records))?;
        self.exchange(next);
        Ok(())
    }

    // What is answered to a question.
    pub(crate) fn answer(
        &mut self,
        alloc: Global,
        question: Question<'_>,
    ) -> Result<FoundFrames, CallError>
        ensures answer { AnswersHandle result self.old.held question.entry }
        ensures state { LeavesHandle result self.old.held question.entry self.new.held }
    {
        match self.ask(alloc, question) {
            Some(found) => found,
            None => Err(CallError::Closed),
        }
    }
}

unsafe impl Send for Handle {}
