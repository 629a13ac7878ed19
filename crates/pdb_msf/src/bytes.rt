//! `Bytes`: reads numbers of one to four bytes and texts off the front of a byte list.

ghost use Rattle.std.specs.Prelude.{◌≡◌, ◌≤◌, ◌<◌, ◌+◌, ◌==◌, length, take, drop, Some, None, IfSome, IfOk};
ghost use Rattle.std.specs.Prelude.{◌-◌, ◌^◌, min, slice_get, IfErr, OnOk, OnErr};
ghost use Rattle.pdb_msf.specs.Bytes.{counted_text_in, text_in, text_length};
ghost use Rattle.pdb_msf.specs.NumberLists.{number, two_byte_number};

use crate::faults::CUT;
use crate::number_lists::bytes_from;
use byteorder::{ByteOrder, LittleEndian};
use pdb_records::StreamError;
use std::marker::Model;

/// The rest of a byte list that isn't read yet. Each call removes what it returns from the front, or returns [`CUT`] if
/// too few bytes are left.
#[derive(Drop)]
pub struct Bytes<'a> {
    rest: &'a [u8],
}

impl<'a> Model for Bytes<'a> {
    ghost use Rattle.std.specs.Prelude.{List, ℕ};

    ghost Value = { List ℕ };

    ghost view = { λ b. b.rest.now };
}

impl<'a> Bytes<'a> {
    /// A reader of all these bytes.
    pub fn new(bytes: &'a [u8]) -> Self
        ensures { result ≡ bytes.now }
    {
        Bytes { rest: bytes }
    }

    /// The number of bytes that are left.
    pub fn len(&self) -> usize
        ensures { result ≡ length self.now }
    {
        self.rest.len()
    }

    /// Whether no byte is left.
    pub fn is_empty(&self) -> bool
        ensures { result ≡ (length self.now == 0) }
    {
        self.rest.is_empty()
    }

    /// The bytes that are left.
    pub fn rest(&self) -> &'a [u8]
        ensures { result.now ≡ self.now }
    {
        self.rest
    }

    /// The next `count` bytes.
    pub fn take(&mut self, count: usize) -> Result<&'a [u8], StreamError>
        ensures answer { IfOk result (λ taken. taken.now ≡ take count self.old) }
        ensures count { IfOk result (λ taken. length taken.now ≡ count) }
        ensures there { OnOk result (count ≤ length self.old) }
        ensures state { OnOk result (self.new ≡ drop count self.old) }
        ensures refused { OnErr result (length self.old < count) }
        ensures fault { IfErr result (λ error. error ≡ CUT) }
    {
        let (taken, rest) = self.rest.split_at_checked(count).ok_or(CUT)?;
        self.rest = rest;
        Ok(taken)
    }

    /// The next byte.
    pub fn u8(&mut self) -> Result<u8, StreamError>
        ensures answer { IfOk result (λ byte. slice_get self.old 0 ≡ Some byte) }
        ensures there { OnOk result (1 ≤ length self.old) }
        ensures state { OnOk result (self.new ≡ drop 1 self.old) }
        ensures refused { OnErr result (length self.old < 1) }
        ensures fault { IfErr result (λ error. error ≡ CUT) }
    {
        let taken = self.take(1)?;
        Ok(taken[0])
    }

    /// The next two-byte number.
    pub fn u16(&mut self) -> Result<u16, StreamError>
        ensures answer { IfOk result (λ read. read ≡ two_byte_number self.old) }
        ensures there { OnOk result (2 ≤ length self.old) }
        ensures state { OnOk result (self.new ≡ drop 2 self.old) }
        ensures refused { OnErr result (length self.old < 2) }
        ensures fault { IfErr result (λ error. error ≡ CUT) }
    {
        let taken = self.take(2)?;
        Ok(LittleEndian::read_u16(taken))
    }

    /// The next four-byte number.
    pub fn u32(&mut self) -> Result<u32, StreamError>
        ensures answer { IfOk result (λ read. read ≡ number self.old) }
        ensures there { OnOk result (4 ≤ length self.old) }
        ensures state { OnOk result (self.new ≡ drop 4 self.old) }
        ensures refused { OnErr result (length self.old < 4) }
        ensures fault { IfErr result (λ error. error ≡ CUT) }
    {
        let taken = self.take(4)?;
        Ok(LittleEndian::read_u32(taken))
    }

    /// The next text, which ends before a zero byte. The zero byte is skipped.
    pub fn text(&mut self) -> Result<&'a [u8], StreamError>
        ensures answer { IfOk result (λ text. text_in self.old ≡ Some text.now) }
        ensures within { IfOk result (λ text. length text.now < length self.old) }
        ensures state { IfOk result (λ text. self.new ≡ drop (length text.now + 1) self.old) }
        ensures refused { OnErr result (text_in self.old ≡ None) }
        ensures fault { IfErr result (λ error. error ≡ CUT) }
    {
        let end = zero_in(self.rest).ok_or(CUT)?;
        let (text, rest) = self.rest.split_at(end);
        self.rest = bytes_from(rest, 1);
        Ok(text)
    }

    /// The next text, which follows a byte with its length.
    pub fn counted_text(&mut self) -> Result<&'a [u8], StreamError>
        ensures answer { IfOk result (λ text. counted_text_in self.old ≡ Some text.now) }
        ensures state { IfOk result (λ text. self.new ≡ drop (length text.now + 1) self.old) }
        ensures refused { OnErr result (counted_text_in self.old ≡ None) }
        ensures fault { IfErr result (λ error. error ≡ CUT) }
    {
        let length = self.u8()?;
        self.take(usize::from(length))
    }
}

// The position of the first zero byte.
fn zero_in(bytes: &[u8]) -> Option<usize>
    ensures answer { result ≡ text_length bytes.now }
    ensures within { IfSome result (λ end. end < length bytes.now) }
{
    for (position, &byte) in bytes.iter().enumerate() {
        if byte == 0 {
            return Some(position);
        }
    }
    None
}

/// The two-byte number at an offset of a record's fixed part.
pub fn u16_at(front: &[u8], at: usize) -> u16
    requires { at + 2 ≤ length front.now }
    ensures { result ≡ two_byte_number (drop at front.now) }
{
    LittleEndian::read_u16(&front[at..])
}

/// The four-byte number at an offset of a record's fixed part.
pub fn u32_at(front: &[u8], at: usize) -> u32
    requires { at + 4 ≤ length front.now }
    ensures { result ≡ number (drop at front.now) }
{
    LittleEndian::read_u32(&front[at..])
}

/// The offset that reading has reached: the length of the whole, less the bytes that are left.
pub fn offset_of(whole: usize, left: usize) -> u32
    ensures { result ≡ min (whole - left) (2 ^ 32 - 1) }
{
    u32::try_from(whole.saturating_sub(left)).unwrap_or(u32::MAX)
}
