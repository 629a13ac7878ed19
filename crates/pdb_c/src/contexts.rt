//! Makes and frees contexts over records that a handle owns.
ghost use Rattle.std.specs.Prelude.{◌≡◌};
ghost use Rattle.pdb_c.specs.ReportTexts.{Agrees};
ghost use Rattle.pdb_c.specs.Openings.{context_over};

use crate::call_error::CallError;
use crate::handle::loose::Loose;
use pdb_addr2line::{Context, ContextPdbData};
use std::alloc::Global;

// Makes a context over records, in its own allocation. No part has failed yet.
pub(crate) fn context_over<'a>(
    alloc: Global,
    records: &'a ContextPdbData<'static>,
) -> Result<Loose<Context<'a, ContextPdbData<'static>>, Global>, CallError>
    ensures { Agrees (λ context. context.value) result (context_over records.now) }
{
    let context = records.make_context()?;
    match Box::new(alloc, context) {
        Ok(context) => Ok(Loose::of(context)),
        Err(_) => Err(CallError::OutOfMemory),
    }
}

// Frees a context.
pub(crate) fn give_back(context: Loose<Context<'_, ContextPdbData<'static>>, Global>) {
    drop(context.into_box());
}

// Frees records over which no context can be made, and returns the error.
pub(crate) fn refuse(
    records: Loose<ContextPdbData<'static>, Global>,
    refusal: CallError,
) -> CallError
    ensures { result ≡ refusal }
{
    drop(records.into_box());
    refusal
}
