//! `StatusLine`: shows progress on a terminal while a large file is read or written, or many requests are answered.

use std::io;
use std::time::{Clock, Duration, Instant};

/// The seconds between two messages.
const PAUSE: u64 = 1;

/// The length from which a file takes long to read, in bytes.
const LONG: usize = 1 << 26;

/// Shows the progress of long work on standard error, if that is a terminal.
#[derive(Drop)]
pub struct StatusLine {
    watched: bool,
    /// When the last message was printed, or the work began.
    shown: Option<Instant>,
    /// How many bytes were written.
    written: usize,
    /// How many requests were answered, and how many of them before the last message.
    answered: u64,
    shown_answered: u64,
}

impl StatusLine {
    /// Starts to watch over work.
    pub fn new<R: Clock>(rt: &R, watched: bool) -> StatusLine {
        StatusLine {
            watched,
            shown: Instant::now(rt).ok(),
            written: 0,
            answered: 0,
            shown_answered: 0,
        }
    }

    /// Prints that a file of this length is being read, if that takes long.
    pub fn print_size<R: Eprint>(&self, rt: &R, path: &str, length: usize) {
        if self.watched && length >= LONG {
            let _ = eprintln!(rt; "pdb_symbolizer: reading {path}, {length} bytes");
        }
    }

    /// Counts bytes that were written, and prints their number once a second.
    fn count<R: Clock + Eprint>(&mut self, rt: &R, written: usize) {
        self.written = self.written.saturating_add(written);
        if self.watched && self.pause(rt).is_some() {
            let _ = eprintln!(rt; "pdb_symbolizer: {} bytes are written", self.written);
        }
    }

    /// Counts an answered request. Once a second this prints how many were answered, how many files are open, and how
    /// many bytes these take in memory.
    pub fn count_request<R: Clock + Eprint>(&mut self, rt: &R, files: usize, bytes: u64) {
        self.answered = self.answered.saturating_add(1);
        if !self.watched {
            return;
        }
        if let Some(pause) = self.pause(rt) {
            let answered = self.answered.saturating_sub(self.shown_answered);
            self.shown_answered = self.answered;
            let _ = eprintln!(rt;
                "pdb_symbolizer: {} requests are answered, {} a second; {files} files are open, with {bytes} bytes",
                self.answered,
                rate(answered, pause)
            );
        }
    }

    /// The time since the last message, if that is at least a second. Then the time starts anew.
    fn pause<R: Clock>(&mut self, rt: &R) -> Option<Duration> {
        match (Instant::now(rt), self.shown) {
            (Ok(now), Some(shown)) => {
                let pause = now.duration_since(shown);
                if pause.as_secs() < PAUSE {
                    return None;
                }
                self.shown = Some(now);
                Some(pause)
            }
            _ => None,
        }
    }
}

// The rate per second of `count` requests in this time.
fn rate(count: u64, time: Duration) -> u64 {
    let milliseconds = time
        .as_secs()
        .saturating_mul(1000)
        .saturating_add(u64::from(time.subsec_millis()));
    count
        .saturating_mul(1000)
        .checked_div(milliseconds)
        .unwrap_or(0)
}

/// A writer that counts its bytes for the status line.
#[derive(Drop)]
pub struct Watched<'p, R, W> {
    pub rt: &'p R,
    pub status_line: &'p mut StatusLine,
    pub writer: W,
}

impl<R: Clock + Eprint, W: io::Write> io::Write for Watched<'_, R, W> {
    fn write(&mut self, bytes: &[u8]) -> io::Result<usize> {
        let written = self.writer.write(bytes)?;
        self.status_line.count(self.rt, written);
        Ok(written)
    }

    fn flush(&mut self) -> io::Result<()> {
        self.writer.flush()
    }
}
