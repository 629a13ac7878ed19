//! Reads a function of the exception directory with its unwind info, and gives the rules at each offset.

ghost use Rattle.std.specs.Prelude.{◌≡◌, ◌≤◌, ◌<◌, ◌+◌, ◌*◌, ◌^◌, IfOk};
ghost use Rattle.pe_unwind_arm64.specs.EpilogueLaws.{RulesOutside, RulesWithin};
ghost use Rattle.pe_unwind_arm64.specs.UnwindErrors.{Gives};
ghost use Rattle.pe_unwind_arm64.specs.Functions.{body_rules, checked, epilogue_rules, function_at, info_of, is_begun};
ghost use Rattle.pe_unwind_arm64.specs.Functions.{is_plain, length_at, length_of, reach_behind, rules_among, rules_by};

use crate::epilogues::Epilogue;
use crate::packed_data::{packed_info, packed_length, packed_of};
use crate::rules::{Rules, rules_behind};
use crate::unwind_codes::codes_from;
use crate::unwind_errors::{EntryError, UnwindError};
use crate::unwind_info::{UnwindInfo, header_in, info_in};
use pe_image::{Arm64Entry, Image};
use std::alloc::Global;
use std::marker::Model;

/// A function with its unwind info.
#[derive(Drop)]
pub struct FunctionUnwind {
    /// The address of its first byte, relative to the image base.
    pub begin: u32,
    /// Its length in instructions of four bytes.
    pub length: u32,
    pub info: UnwindInfo,
}

impl Model for FunctionUnwind {
    ghost use Rattle.pe_unwind_arm64.specs.Functions.{Function};

    ghost Value = { Function };

    ghost view = { λ f. record { begin = f.begin; length = f.length; info = f.info } };
}

/// Reads the function of an entry. `reach` is the end of the functions before it. An error is returned if the function
/// is empty, if the image doesn't have all its bytes, if it begins before `reach`, or if its unwind info can't be read.
///
/// # Errors
///
/// Why the entry is omitted, or that memory ran out.
pub fn read_function(
    alloc: Global,
    image: &Image<'_>,
    reach: u32,
    entry: Arm64Entry,
) -> Result<FunctionUnwind, UnwindError>
    ensures answer { Gives (λ function. function) result (function_at image.now reach entry) }
    ensures small { IfOk result (λ function. function.length < 2 ^ 18) }
{
    let length = length_at(image, reach, entry)?;
    let info = info_of(alloc, image, entry.unwind)?;
    Ok(FunctionUnwind {
        begin: entry.begin,
        length,
        info,
    })
}

// Reads the unwind info of an entry, by its UnwindData.
fn info_of(alloc: Global, image: &Image<'_>, unwind: u32) -> Result<UnwindInfo, UnwindError>
    ensures answer { Gives (λ info. info) result (info_of image.now unwind) }
{
    if unwind % 4 == 0 {
        return info_in(alloc, image.bytes_from(unwind));
    }
    if unwind % 4 == 3 {
        return Err(UnwindError::Refused(EntryError::ReservedFlag));
    }
    packed_info(alloc, packed_of(unwind), packed_length(unwind))
}

// The length of a function in instructions, by its UnwindData.
fn length_of(image: &Image<'_>, unwind: u32) -> Result<u32, EntryError>
    ensures answer { result ≡ length_of image.now unwind }
    ensures small { IfOk result (λ length. length < 2 ^ 18) }
{
    if unwind % 4 == 0 {
        let header = header_in(image.bytes_from(unwind))?;
        return Ok(header.length);
    }
    if unwind % 4 == 3 {
        return Err(EntryError::ReservedFlag);
    }
    Ok(packed_length(unwind))
}

// Checks the length of a function that begins at an address: it must begin at or after the end of the functions before
// it, must not be empty, and the image must have all its bytes.
fn checked(image: &Image<'_>, reach: u32, begin: u32, length: u32) -> Result<u32, EntryError>
    requires { length < 2 ^ 18 }
    ensures answer { result ≡ checked image.now reach begin length }
    ensures small { IfOk result (λ length. length < 2 ^ 18) }
    ensures end { IfOk result (λ length. begin + 4 * length < 2 ^ 32) }
{
    if length == 0 {
        return Err(EntryError::Empty);
    }
    let size = 4 * length;
    if image.bytes_from(begin).len() < size as usize {
        return Err(EntryError::OutsideOfImage);
    }
    if u32::MAX - begin < size {
        return Err(EntryError::OutsideOfImage);
    }
    if begin < reach {
        return Err(EntryError::Overlapping);
    }
    Ok(length)
}

// The length of an entry's function.
fn length_at(image: &Image<'_>, reach: u32, entry: Arm64Entry) -> Result<u32, EntryError>
    ensures answer { result ≡ length_at image.now reach entry }
    ensures small { IfOk result (λ length. length < 2 ^ 18) }
    ensures end { IfOk result (λ length. entry.begin + 4 * length < 2 ^ 32) }
{
    let length = length_of(image, entry.unwind)?;
    checked(image, reach, entry.begin, length)
}

/// The end of all functions up to this entry. An entry that is refused doesn't change it.
pub fn reach_behind(image: &Image<'_>, reach: u32, entry: Arm64Entry) -> u32
    ensures answer { result ≡ reach_behind image.now reach entry }
{
    match length_at(image, reach, entry) {
        Ok(length) => entry.begin + 4 * length,
        Err(_) => reach,
    }
}

// The rules of a function's body.
fn body_rules(info: &UnwindInfo) -> Rules
    ensures { result ≡ body_rules info.now }
{
    rules_behind(0, &info.codes)
}

// The rules at an offset in an epilogue.
fn epilogue_rules(info: &UnwindInfo, epilogue: Epilogue, offset: usize) -> Rules
    ensures { result ≡ epilogue_rules info.now epilogue offset }
{
    let run = offset.saturating_sub(epilogue.start);
    rules_behind(run, codes_from(epilogue.index, &info.codes))
}

// Whether an offset is at or after the start of the first remaining epilogue.
fn is_begun(left: &[Epilogue], offset: usize) -> bool
    ensures { result ≡ is_begun left.now offset }
{
    match left.first() {
        None => false,
        Some(epilogue) => epilogue.start <= offset,
    }
}

// The rules at an offset after the prologue. `left` are the epilogues that end after it.
fn rules_by(info: &UnwindInfo, left: &[Epilogue], offset: usize) -> Rules
    ensures { result ≡ rules_by info.now left.now offset }
{
    match left.first() {
        Some(epilogue) if epilogue.start <= offset => epilogue_rules(info, *epilogue, offset),
        _ => body_rules(info),
    }
}

/// The rules at an offset. `left` are the epilogues that end after it.
pub(crate) fn rules_among(info: &UnwindInfo, left: &[Epilogue], offset: usize) -> Rules
    ensures { result ≡ rules_among info.now left.now offset }
{
    if offset < info.prologue {
        return rules_behind(info.prologue - offset, &info.codes);
    }
    rules_by(info, left, offset)
}

/// Whether the rules at an offset are those of the function's body. `left` are the epilogues that end after it.
pub(crate) fn is_plain(info: &UnwindInfo, left: &[Epilogue], offset: usize) -> bool
    ensures { result ≡ is_plain info.now left.now offset }
{
    info.prologue <= offset && !is_begun(left, offset)
}

/// Law: after the prologue, the rules in an epilogue are those of its codes, and outside of all epilogues those of the
/// body.
pub fn epilogues_have_rules()
    ensures within { RulesWithin }
    ensures outside { RulesOutside }
{}
