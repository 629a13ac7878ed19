//! A runtime with a text as standard input, one environment variable, and standard error as marked lines of output.

use crate::cases::Variable;
use std::alloc::{Allocator, Global};
use std::env::FillError;
use std::fmt::Display;
use std::fs::{Metadata, OpenOptions};
use std::io::{self, BufRead, Lines};
use std::rt::{Clock, Env, Files};
use std::time::Duration;

/// The text before a line of standard error.
const STANDARD_ERROR: &str = "standard error: ";

/// A runtime, with a text as its standard input and an environment variable.
#[derive(Clone, Copy)]
pub(crate) struct Terminal<'a, R> {
    pub rt: &'a R,
    pub variable: &'a Variable,
    pub input: &'a [u8],
}

impl<R: AllocGlobal> Alloc for Terminal<'_, R> {
    type A = Global;

    fn alloc(&self) -> Global {
        self.rt.alloc()
    }
}

impl<R: Print> Print for Terminal<'_, R> {
    fn print<D: Display + Drop>(&self, value: D) -> io::Result<()> {
        self.rt.print(value)
    }

    fn println<D: Display + Drop>(&self, value: D) -> io::Result<()> {
        self.rt.println(value)
    }

    fn write_all(&self, bytes: &[u8]) -> io::Result<()> {
        self.rt.write_all(bytes)
    }
}

impl<R: Print> Eprint for Terminal<'_, R> {
    fn eprint<D: Display + Drop>(&self, value: D) -> io::Result<()> {
        self.rt.print(STANDARD_ERROR)?;
        self.rt.print(value)
    }

    fn eprintln<D: Display + Drop>(&self, value: D) -> io::Result<()> {
        self.rt.print(STANDARD_ERROR)?;
        self.rt.println(value)
    }
}

impl<'a, R> Input for Terminal<'a, R> {
    type Reader = &'a [u8];

    fn read_line<A: Allocator + Clone>(&self, buf: &mut String<A>) -> io::Result<usize> {
        self.reader().read_line(buf)
    }

    fn lines<A: Allocator>(&self, alloc: A) -> Lines<&'a [u8], A> {
        self.reader().lines(alloc)
    }

    fn reader(&self) -> &'a [u8] {
        self.input
    }
}

impl<R> Env for Terminal<'_, R> {
    fn arg(&self, _position: usize, _buffer: &mut [u8]) -> Result<usize, FillError> {
        Err(FillError::NotPresent)
    }

    fn var(&self, name: &str, buffer: &mut [u8]) -> Result<usize, FillError> {
        if name != self.variable.name.as_str() {
            return Err(FillError::NotPresent);
        }
        let text = self.variable.text.as_bytes();
        if text.len() > buffer.len() {
            return Err(FillError::TooLong);
        }
        buffer[..text.len()].copy_from_slice(text);
        Ok(text.len())
    }

    fn var_at(&self, _position: usize, _buffer: &mut [u8]) -> Result<usize, FillError> {
        Err(FillError::NotPresent)
    }
}

impl<R: Clock> Clock for Terminal<'_, R> {
    fn monotonic(&self) -> io::Result<Duration> {
        self.rt.monotonic()
    }

    fn since_1970(&self) -> io::Result<Duration> {
        self.rt.since_1970()
    }
}

impl<R: Files> Files for Terminal<'_, R> {
    type File = R::File;

    type Dir = R::Dir;

    fn open_file(&self, how: &OpenOptions, path: &str) -> io::Result<R::File> {
        self.rt.open_file(how, path)
    }

    fn open_dir(&self, path: &str) -> io::Result<R::Dir> {
        self.rt.open_dir(path)
    }

    fn metadata(&self, path: &str) -> io::Result<Metadata> {
        self.rt.metadata(path)
    }

    fn symlink_metadata(&self, path: &str) -> io::Result<Metadata> {
        self.rt.symlink_metadata(path)
    }

    fn copy(&self, from: &str, to: &str) -> io::Result<u64> {
        self.rt.copy(from, to)
    }

    fn rename(&self, from: &str, to: &str) -> io::Result<()> {
        self.rt.rename(from, to)
    }

    fn remove_file(&self, path: &str) -> io::Result<()> {
        self.rt.remove_file(path)
    }

    fn create_dir(&self, path: &str) -> io::Result<()> {
        self.rt.create_dir(path)
    }

    fn remove_dir(&self, path: &str) -> io::Result<()> {
        self.rt.remove_dir(path)
    }

    fn remove_dir_all<B: Allocator>(&self, alloc: B, path: &str) -> io::Result<()> {
        self.rt.remove_dir_all(alloc, path)
    }
}
