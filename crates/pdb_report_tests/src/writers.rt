//! Writers that refuse: because they have too little room, or when they are flushed.

use crate::cases::Case;
use crate::words_of;
use pdb_report_lib::{CommandError, Out, run};
use std::alloc::Global;
use std::io;
use std::rt::Files;

/// The longest text that is written into writers with increasing room.
const LONGEST: usize = 256;

/// A writer that takes some bytes, a limited number at a time, and then refuses.
#[derive(Drop)]
pub(crate) struct Narrow {
    held: Vec<u8>,
    room: usize,
    at_once: usize,
    /// Whether it refuses to be flushed.
    holds_back: bool,
    /// How often it refused bytes.
    refusals: usize,
}

impl Narrow {
    /// A writer with this much room.
    pub(crate) fn new(alloc: Global, room: usize) -> Narrow {
        Narrow {
            held: Vec::new(alloc),
            room,
            at_once: usize::MAX,
            holds_back: false,
            refusals: 0,
        }
    }
}

impl io::Write for Narrow {
    fn write(&mut self, bytes: &[u8]) -> io::Result<usize> {
        if self.room == 0 && !bytes.is_empty() {
            self.refusals = self.refusals.saturating_add(1);
            return Err(io::Error::from(io::ErrorKind::WriteZero));
        }
        let taken = bytes.len().min(self.room).min(self.at_once);
        self.held.extend_from_slice(&bytes[..taken])?;
        self.room -= taken;
        Ok(taken)
    }

    fn flush(&mut self) -> io::Result<()> {
        if self.holds_back {
            return Err(io::Error::from(io::ErrorKind::WriteZero));
        }
        Ok(())
    }
}

/// Whether a case that succeeds with a short text ends as it should with writers that refuse: with each amount of room
/// that is too small, and with a writer that can't be flushed. A writer that takes one byte at a time takes the whole
/// text.
pub(crate) fn end_as_they_should<R: Files + AllocGlobal>(
    rt: &R,
    case: &Case<'_>,
) -> io::Result<bool> {
    if case.status != 0 || case.wanted.len() > LONGEST {
        return Ok(true);
    }
    Ok(
        is_refused_at_each_room(rt, case)?
            && is_refused_at_flush(rt, case)?
            && is_taken_bytewise(rt, case)?,
    )
}

/// Whether a case fails with each writer that has too little room.
fn is_refused_at_each_room<R: Files + AllocGlobal>(rt: &R, case: &Case<'_>) -> io::Result<bool> {
    for room in 0..case.wanted.len() {
        if !is_refused_at(rt, case, room)? {
            return Ok(false);
        }
    }
    Ok(true)
}

/// Whether a case with too little room in its writer fills that room, writes nothing after it, and reports that it
/// can't write.
fn is_refused_at<R: Files + AllocGlobal>(rt: &R, case: &Case<'_>, room: usize) -> io::Result<bool> {
    let mut out = Out::new(Narrow::new(rt.alloc(), room));
    let refused = is_refused(rt, case.command, &mut out)?;
    let writer = out.into_inner();
    Ok(
        refused
            && writer.refusals == 1
            && case.wanted.as_bytes().get(..room) == Some(writer.held.as_slice()),
    )
}

/// Whether a case reports that it can't write if its writer can't be flushed.
fn is_refused_at_flush<R: Files + AllocGlobal>(rt: &R, case: &Case<'_>) -> io::Result<bool> {
    let mut writer = Narrow::new(rt.alloc(), usize::MAX);
    writer.holds_back = true;
    let mut out = Out::new(writer);
    let refused = is_refused(rt, case.command, &mut out)?;
    Ok(refused && case.wanted.as_bytes() == out.into_inner().held.as_slice())
}

/// Whether a case writes its whole text into a writer that takes one byte at a time.
fn is_taken_bytewise<R: Files + AllocGlobal>(rt: &R, case: &Case<'_>) -> io::Result<bool> {
    let mut writer = Narrow::new(rt.alloc(), usize::MAX);
    writer.at_once = 1;
    let mut out = Out::new(writer);
    let refused = is_refused(rt, case.command, &mut out)?;
    Ok(!refused && case.wanted.as_bytes() == out.into_inner().held.as_slice())
}

/// Whether a case reports that it can't write.
fn is_refused<R: Files + AllocGlobal>(
    rt: &R,
    command: &str,
    out: &mut Out<Narrow>,
) -> io::Result<bool> {
    let words = words_of(rt.alloc(), command)?;
    let ended = run(rt, &words, out);
    Ok(matches!(ended, Err(CommandError::CannotWrite)))
}
