//! Values of source server data, with the variables and functions in them expanded.

ghost use Rattle.std.specs.Prelude.{◌≡◌, IfOk, map, option_map};
ghost use Rattle.pdb_source_urls.specs.SourceServer.{definition_seen};
ghost use Rattle.pdb_source_urls.specs.Expansion.{Gives, added, argument_of, call, field, field_value, fields_before};
ghost use Rattle.pdb_source_urls.specs.Expansion.{found_seen, function_of, given, next, part_at, expand, value_of};
ghost use Rattle.pdb_source_urls.specs.Expansion.{closing, value_seen, variable_value, with_backslash};
ghost use Rattle.pdb_source_urls.specs.TextCuts.{around};

use crate::path_names::{alike, base_name, begins_with};
use crate::source_server::Variable;
use crate::text_cuts::{cut_at, first_field};
use pdb_msf::bytes_from;
use std::alloc::{AllocError, AllocFailed, Global};

/// How many variables may be used for a URL.
const MOST_USES: usize = 1000;

/// How many bytes a text may have.
pub(crate) const MOST_TEXT: usize = 4096;

/// What expansion needs.
#[derive(Clone, Copy)]
pub(crate) struct Sources<'s> {
    pub(crate) variables: &'s [Variable],
    /// The line of the source file.
    pub(crate) line: &'s [u8],
}

/// An expanded text.
#[derive(Drop)]
pub(crate) struct Expanded {
    pub(crate) text: Vec<u8>,
    /// How many variables were used so far.
    pub(crate) used: usize,
}

/// An expanded text, and the rest of the text that it was read from.
#[derive(Drop)]
struct Part<'t> {
    value: Expanded,
    rest: &'t [u8],
}

/// A function of a text.
#[derive(Clone, Copy)]
enum Function {
    /// The value of the variable of this name (fnvar).
    ValueOf,
    /// The text with backslashes for slashes (fnbksl).
    Backslashes,
    /// What follows the last slash (fnfile).
    BaseName,
}

/// Why a text isn't expanded.
#[derive(Clone, Copy)]
pub(crate) enum ExpandError {
    /// It has no value, or one that is too long.
    NoValue,
    OutOfMemory,
}

impl From<AllocError> for ExpandError {
    ghost use Rattle.std.specs.Prelude.{◌≡◌};
    ghost use Rattle.pdb_source_urls.specs.declared.expansion.ExpandError.TheVariants as error;

    ghost from_gives = { λ _ given. given ≡ error.OutOfMemory };

    fn from(_error: AllocError) -> ExpandError {
        ExpandError::OutOfMemory
    }
}

impl<T: Drop> From<AllocFailed<T>> for ExpandError {
    ghost use Rattle.std.specs.Prelude.{◌≡◌};
    ghost use Rattle.pdb_source_urls.specs.declared.expansion.ExpandError.TheVariants as error;

    ghost from_gives = { λ _ given. given ≡ error.OutOfMemory };

    fn from(_error: AllocFailed<T>) -> ExpandError {
        ExpandError::OutOfMemory
    }
}

/// Expands a text. Values and function calls may nest to this depth, and so many variables were used before.
#[cycle(expansion)]
pub(crate) fn expand(
    alloc: Global,
    sources: Sources<'_>,
    depth: usize,
    text: &[u8],
    used: usize,
) -> Result<Expanded, ExpandError>
    ensures { Gives value_seen result (expand depth (given sources.entry) text.now used) }
{
    if depth == 0 {
        return Err(ExpandError::NoValue);
    }
    if MOST_TEXT < text.len() {
        return Err(ExpandError::NoValue);
    }
    let mut done = Expanded {
        text: Vec::new(alloc),
        used,
    };
    let mut rest = text;
    for _step in 0..text.len() {
        let Some((&byte, others)) = rest.split_first() else {
            break;
        };
        let part = next(alloc, sources, depth - 1, byte, others, done)?;
        done = part.value;
        rest = part.rest;
    }
    Ok(done)
}

// Appends this byte to a text, or the value that the byte begins.
#[cycle(expansion)]
fn next<'t>(
    alloc: Global,
    sources: Sources<'_>,
    depth: usize,
    byte: u8,
    rest: &'t [u8],
    done: Expanded,
) -> Result<Part<'t>, ExpandError>
    ensures { Gives found_seen result (next (expand depth (given sources.entry)) (given sources.entry) byte rest.now
        (value_seen done)) }
{
    if byte != b'%' {
        let used = done.used;
        return added(done, &[byte], used, rest);
    }
    let part = part_at(alloc, sources, depth, rest, done.used)?;
    added(done, &part.value.text, part.value.used, part.rest)
}

// The value after a `%`, and the rest of the text.
#[cycle(expansion)]
fn part_at<'t>(
    alloc: Global,
    sources: Sources<'_>,
    depth: usize,
    text: &'t [u8],
    used: usize,
) -> Result<Part<'t>, ExpandError>
    ensures { Gives found_seen result (part_at (expand depth (given sources.entry)) (given sources.entry) text.now
        used) }
{
    let Some((name, rest)) = cut_at(text, b'%') else {
        return Err(ExpandError::NoValue);
    };
    let Some(function) = function_of(name) else {
        let value = value_of(alloc, sources, depth, name, used)?;
        return Ok(Part { value, rest });
    };
    let Some((argument, rest)) = argument_of(rest) else {
        return Err(ExpandError::NoValue);
    };
    let argument = expand(alloc, sources, depth, argument, used)?;
    let value = call(alloc, sources, depth, function, argument)?;
    Ok(Part { value, rest })
}

// What a function gives for a text.
#[cycle(expansion)]
fn call(
    alloc: Global,
    sources: Sources<'_>,
    depth: usize,
    function: Function,
    argument: Expanded,
) -> Result<Expanded, ExpandError>
    ensures { Gives value_seen result (call (expand depth (given sources.entry)) (given sources.entry) function
        (value_seen argument)) }
{
    match function {
        Function::ValueOf => value_of(alloc, sources, depth, &argument.text, argument.used),
        Function::Backslashes => Ok(Expanded {
            text: with_backslashes(alloc, &argument.text)?,
            used: argument.used,
        }),
        Function::BaseName => Ok(Expanded {
            text: Vec::from_slice(alloc, base_name(&argument.text))?,
            used: argument.used,
        }),
    }
}

/// The value of the variable of this name. Values and function calls may nest to this depth, and so many variables were
/// used before.
#[cycle(expansion)]
pub(crate) fn value_of(
    alloc: Global,
    sources: Sources<'_>,
    depth: usize,
    name: &[u8],
    used: usize,
) -> Result<Expanded, ExpandError>
    ensures { Gives value_seen result (value_of (expand depth (given sources.entry)) (given sources.entry) name.now
        used) }
{
    if MOST_USES <= used {
        return Err(ExpandError::NoValue);
    }
    let used = used + 1;
    if let Some(field) = field_value(name, sources.line) {
        let text = Vec::from_slice(alloc, field)?;
        return Ok(Expanded { text, used });
    }
    match variable_value(name, sources.variables) {
        Some(value) => expand(alloc, sources, depth, value, used),
        None => Err(ExpandError::NoValue),
    }
}

// Appends a part to a text, unless it becomes too long.
fn added<'t>(
    done: Expanded,
    text: &[u8],
    used: usize,
    rest: &'t [u8],
) -> Result<Part<'t>, ExpandError>
    ensures { Gives found_seen result (added (value_seen done)
        (record { value = record { text = text.now; used = used }; rest = rest.now })) }
{
    let mut whole = done.text;
    if MOST_TEXT < whole.len().saturating_add(text.len()) {
        return Err(ExpandError::NoValue);
    }
    whole.extend_from_slice(text)?;
    Ok(Part {
        value: Expanded { text: whole, used },
        rest,
    })
}

// A text with backslashes for slashes.
fn with_backslashes(alloc: Global, text: &[u8]) -> Result<Vec<u8>, AllocError>
    ensures { IfOk result (λ changed. changed.items ≡ map with_backslash text.now) }
{
    text.iter().map(|byte| with_backslash(*byte)).collect(alloc)
}

// A byte, or a backslash for a slash.
fn with_backslash(byte: u8) -> u8
    ensures { result ≡ with_backslash byte }
{
    if byte == b'/' { b'\\' } else { byte }
}

// The function of this name.
fn function_of(name: &[u8]) -> Option<Function>
    ensures { result ≡ function_of name.now }
{
    if alike(name, b"fnvar") {
        return Some(Function::ValueOf);
    }
    if alike(name, b"fnbksl") {
        return Some(Function::Backslashes);
    }
    if alike(name, b"fnfile") {
        return Some(Function::BaseName);
    }
    None
}

// The text in the parentheses that a text begins with, and what follows them.
fn argument_of(text: &[u8]) -> Option<(&[u8], &[u8])>
    ensures { option_map (λ cut. (cut.0.now, cut.1.now)) result ≡ argument_of text.now }
{
    match text {
        [b'(', inner @ ..] => closed(inner),
        _ => None,
    }
}

// The parts of a text before and after the parenthesis that closes.
fn closed(text: &[u8]) -> Option<(&[u8], &[u8])>
    ensures { option_map (λ cut. (cut.0.now, cut.1.now)) result
        ≡ option_map (around text.now) (closing 0 text.now) }
{
    let mut inner: usize = 0;
    for (place, &byte) in text.iter().enumerate() {
        if byte == b')' {
            if inner == 0 {
                return Some((&text[..place], &text[place + 1..]));
            }
            inner -= 1;
        } else if byte == b'(' {
            inner += 1;
        }
    }
    None
}

/// The value of the variable of this name, as it is defined last.
pub(crate) fn variable_value<'v>(name: &[u8], variables: &'v [Variable]) -> Option<&'v [u8]>
    ensures { option_map (λ value. value.now) result ≡ variable_value name.now (map definition_seen variables.now) }
{
    let mut found: Option<&[u8]> = None;
    for variable in variables {
        if alike(&variable.name, name) {
            found = Some(&variable.value);
        }
    }
    found
}

// The value of a variable whose name is `var` and a number: a field of the line.
fn field_value<'l>(name: &[u8], line: &'l [u8]) -> Option<&'l [u8]>
    ensures { option_map (λ field. field.now) result ≡ field_value name.now line.now }
{
    if !begins_with(name, b"var") {
        return None;
    }
    match fields_before(bytes_from(name, 3)) {
        Some(before) => field(before, line),
        None => None,
    }
}

// How many fields are before the one with this number, which is in decimal digits.
fn fields_before(digits: &[u8]) -> Option<usize>
    ensures { result ≡ fields_before digits.now }
{
    match *digits {
        [digit] if digit.is_ascii_digit() && digit != b'0' => Some(usize::from(digit - b'1')),
        [ten, digit] if ten.is_ascii_digit() && ten != b'0' && digit.is_ascii_digit() => {
            Some(10 * usize::from(ten - b'0') + usize::from(digit - b'0') - 1)
        }
        _ => None,
    }
}

// The field of a line, by the number of fields before it.
fn field(before: usize, line: &[u8]) -> Option<&[u8]>
    ensures { option_map (λ field. field.now) result ≡ field before line.now }
{
    let mut rest = line;
    for _field in 0..before {
        match cut_at(rest, b'*') {
            Some((_, others)) => rest = others,
            None => return None,
        }
    }
    Some(first_field(rest))
}
