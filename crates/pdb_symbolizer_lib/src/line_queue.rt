//! `LineQueue`: reads as many lines of standard input as are ready, so that what they need can be read together.

ghost use Rattle.std.specs.Prelude.{◌≡◌, [], Some, drop, option_map, string_bytes, IfErr, IfNone, IfSome, IfOk, OnOk};
ghost use Rattle.std.specs.Io.Buffered.{reader_remaining};
ghost use Rattle.pdb_symbolizer_lib.specs.EarlyEnds.{EndsInput};
ghost use Rattle.pdb_symbolizer_lib.specs.InputLines.{BeginWith, GivesLine, asked_in_turn, asked_lines, text_of_line};

use pdb_symbolizer_input::run_errors::RunError;
use std::alloc::{AllocError, Global};
use std::io::{BufRead, BufReader, ErrorKind, Read};
use std::marker::Model;
use std::str;

/// The size of the input's buffer, in bytes.
const CAPACITY: usize = 1 << 16;

/// The lines that were read and not yet answered.
pub struct LineQueue<T: Read> {
    alloc: Global,
    reader: BufReader<T, Global>,
    lines: Vec<String>,
    /// The position of the first line that was not answered.
    next: usize,
}

impl<T: Read + Drop> Drop for LineQueue<T> {
    fn drop(self) {
        let LineQueue {
            alloc: _,
            reader: _,
            lines: _,
            next: _,
        } = self;
    }
}

// Contracts see a queue as the requests in its remaining lines, if the input is known. The requests count as unknown if
// no line is ready although the input has more: then the input could not be read.
impl<T: Read> Model for LineQueue<T> {
    ghost use Rattle.std.specs.Prelude.{List, ℕ, drop, Option};
    ghost use Rattle.std.specs.Io.Buffered.{reader_remaining};
    ghost use Rattle.pdb_symbolizer_lib.specs.InputLines.{asked_in_turn};

    ghost Value = { Option (List (List ℕ)) };

    ghost view = { λ q. asked_in_turn (drop q.next q.lines.items) (reader_remaining T.remaining q.reader) };
}

impl<T: Read + Drop> LineQueue<T> {
    /// Starts a queue, and reads the first lines that are ready.
    pub fn new(alloc: Global, input: T) -> Result<Self, RunError>
        ensures answer { IfOk result (λ queue.
            IfSome (T.remaining input) (λ bytes. queue ≡ Some (asked_lines bytes))) }
        ensures early { IfErr result EndsInput }
    {
        let Ok(mut reader) = BufReader::with_capacity(alloc, CAPACITY, input) else {
            return Err(RunError::want_of_memory());
        };
        let mut lines = Vec::new(alloc);
        fill(alloc, &mut reader, &mut lines)?;
        Ok(LineQueue {
            alloc,
            reader,
            lines,
            next: 0,
        })
    }

    /// The first unanswered line, trimmed; `None` at the end of the input.
    pub fn first(&self) -> Option<&str>
        ensures some { IfSome result (λ line. BeginWith self.now line.now) }
        ensures none { IfNone result (IfSome self.now (λ all. all ≡ [])) }
    {
        match self.lines.get(self.next) {
            Some(line) => Some(line.as_str().trim()),
            None => None,
        }
    }

    /// All lines that were read and aren't answered yet.
    pub fn ready(&self) -> &[String] {
        match self.lines.get(self.next..) {
            Some(lines) => lines,
            None => &[],
        }
    }

    /// Drops the first line after its answer. If it was the last ready line, this waits for more.
    pub fn pass(&mut self) -> Result<(), RunError>
        ensures state { OnOk result (IfSome self.old (λ all. self.new ≡ Some (drop 1 all))) }
        ensures early { IfErr result EndsInput }
    {
        self.next = self.next.saturating_add(1);
        if self.next < self.lines.len() {
            return Ok(());
        }
        self.next = 0;
        fill(self.alloc, &mut self.reader, &mut self.lines)
    }
}

// Replaces `lines` by the next line of the input, if there is one, and all complete lines in the buffer after it.
fn fill<T: Read>(
    alloc: Global,
    reader: &mut BufReader<T, Global>,
    lines: &mut Vec<String>,
) -> Result<(), RunError>
    ensures answer { OnOk result (IfSome (reader_remaining T.remaining reader.old) (λ bytes.
        asked_in_turn lines.new.items (reader_remaining T.remaining reader.new) ≡ Some (asked_lines bytes))) }
    ensures early { IfErr result EndsInput }
{
    lines.clear();
    for _ in 0..u64::MAX {
        let Some(line) = read_line(alloc, reader)? else {
            return Ok(());
        };
        lines.push(line)?;
        if !reader.buffer().contains(&b'\n') {
            return Ok(());
        }
    }
    Ok(())
}

// Reads the next line, if there is one. A line that isn't UTF-8 becomes a question mark.
fn read_line<B: BufRead>(alloc: Global, reader: &mut B) -> Result<Option<String>, RunError>
    ensures answer { IfOk result (λ line.
        GivesLine (B.remaining reader.old) (B.remaining reader.new) (option_map string_bytes line)) }
    ensures early { IfErr result EndsInput }
{
    let mut bytes = Vec::new(alloc);
    match reader.read_until(b'\n', &mut bytes) {
        Ok(0) => Ok(None),
        Ok(_) => Ok(Some(line_text(alloc, &bytes)?)),
        Err(error) if error.kind() == ErrorKind::OutOfMemory => Err(RunError::want_of_memory()),
        Err(_) => Err(RunError::CannotReadInput),
    }
}

fn line_text(alloc: Global, bytes: &[u8]) -> Result<String, AllocError>
    ensures { IfOk result (λ text. string_bytes text ≡ text_of_line bytes.now) }
{
    match str::from_utf8(bytes) {
        Ok(text) => String::from_str(alloc, text),
        Err(_) => String::from_str(alloc, "?"),
    }
}
