//! Numbered lines of source files around the lines of frames, as `llvm-symbolizer` prints them.

use pdb_records_files::ran_out_of_memory;
use pdb_symbolizer_input::file_bytes::read_regular_file;
use std::alloc::{AllocError, Global};
use std::rt::Files;

/// The maximum number of cached files.
const FILES: usize = 16;

/// The maximum length of a source file that is read, in bytes.
const LONGEST: u64 = 1 << 24;

/// A source file. One that can't be read has no lines.
#[derive(Drop)]
struct SourceText {
    name: String,
    bytes: Vec<u8>,
    /// Where each line starts, in bytes.
    starts: Vec<usize>,
}

/// A cache of source files.
#[derive(Drop)]
pub struct SourceTexts {
    alloc: Global,
    texts: Vec<SourceText>,
}

impl SourceTexts {
    /// An empty cache.
    pub fn new(alloc: Global) -> Self {
        SourceTexts {
            alloc,
            texts: Vec::new(alloc),
        }
    }

    /// The text of `count` lines of a file around the given line, which is marked. Empty if the file can't be read or
    /// is shorter.
    pub fn around<R: Files>(
        &mut self,
        rt: &R,
        name: &str,
        line: u32,
        count: u32,
    ) -> Result<String, AllocError> {
        let position = match position_of(&self.texts, name) {
            Some(position) => position,
            None => self.read(rt, name)?,
        };
        match self.texts.get(position) {
            Some(text) => text.around(self.alloc, line, count),
            None => Ok(String::new(self.alloc)),
        }
    }

    // Reads a file into the cache, which is emptied first if it is full. Returns the file's position.
    fn read<R: Files>(&mut self, rt: &R, name: &str) -> Result<usize, AllocError> {
        let text = read_text(rt, self.alloc, name)?;
        if self.texts.len() >= FILES {
            self.texts.clear();
        }
        let position = self.texts.len();
        self.texts.push(text)?;
        Ok(position)
    }
}

fn position_of(texts: &[SourceText], name: &str) -> Option<usize> {
    for (position, text) in texts.iter().enumerate() {
        if text.name.as_str() == name {
            return Some(position);
        }
    }
    None
}

fn read_text<R: Files>(rt: &R, alloc: Global, name: &str) -> Result<SourceText, AllocError> {
    let bytes = match read_regular_file(rt, alloc, name, LONGEST) {
        Ok(bytes) => bytes,
        Err(error) if ran_out_of_memory(&error) => return Err(AllocError),
        Err(_) => Vec::new(alloc),
    };
    Ok(SourceText {
        name: String::from_str(alloc, name)?,
        starts: line_starts(alloc, &bytes)?,
        bytes,
    })
}

fn line_starts(alloc: Global, bytes: &[u8]) -> Result<Vec<usize>, AllocError> {
    let mut starts = Vec::new(alloc);
    let mut at_start = true;
    for (place, &byte) in bytes.iter().enumerate() {
        if at_start {
            starts.push(place)?;
        }
        at_start = byte == b'\n';
    }
    Ok(starts)
}

impl SourceText {
    fn around(&self, alloc: Global, line: u32, count: u32) -> Result<String, AllocError> {
        let mut out = String::new(alloc);
        let first = line.saturating_sub(count / 2).max(1);
        let last = first.saturating_add(count.saturating_sub(1));
        let width = width_of(last);
        for number in first..=last {
            let Some(text) = self.line(number) else {
                break;
            };
            let mark = if number == line { " >: " } else { "  : " };
            write!(out, "{number:width$}{mark}")?;
            out.push_str(String::from_utf8_lossy(alloc, text)?.as_str())?;
            out.push('\n')?;
        }
        Ok(out)
    }

    // The bytes of a line without its line end. The first line is number 1.
    fn line(&self, number: u32) -> Option<&[u8]> {
        let position = (number as usize).checked_sub(1)?;
        let start = *self.starts.get(position)?;
        let end = match self.starts.get(position.saturating_add(1)) {
            Some(end) => *end,
            None => self.bytes.len(),
        };
        let line = self.bytes.get(start..end)?;
        let line = line.strip_suffix(b"\n").unwrap_or(line);
        Some(line.strip_suffix(b"\r").unwrap_or(line))
    }
}

// The width of the line numbers: the number of digits of the line before the last one.
fn width_of(last: u32) -> usize {
    match last.saturating_sub(1).checked_ilog10() {
        Some(power) => (power as usize).saturating_add(1),
        None => 0,
    }
}
