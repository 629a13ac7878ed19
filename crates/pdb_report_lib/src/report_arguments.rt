//! Parses the command line of `pdb_report`: the records file, a command, and addresses.

ghost use Rattle.std.specs.Prelude.{◌≡◌, ◌++◌, map, option_map, string_bytes, IfOk};
ghost use Rattle.pdb_report_lib.specs.ReportArguments.{hex_digit, hex_after, without_prefix, digits_address};
ghost use Rattle.pdb_report_lib.specs.ReportArguments.{address_of, addresses_of, command_of, asked_addresses, asked, request};

use crate::reports::Command;
use std::alloc::{AllocError, Global};

// The maximum number of digits of an address.
const ADDRESS_DIGITS: usize = 8;

/// A parsed command line.
#[derive(Drop)]
pub struct ReportArguments<'w> {
    /// The path of the records file.
    pub path: &'w str,
    /// The command.
    pub command: Command,
    /// The addresses, in order. The command `list` has none.
    pub addresses: Vec<u32>,
}

// The value of a hexadecimal digit of either case.
fn digit_value(digit: u8) -> Option<u32>
    ensures { result ≡ hex_digit digit }
{
    match digit {
        b'0'..=b'9' => Some(u32::from(digit - b'0')),
        b'a'..=b'f' => Some(u32::from(digit - b'a') + 10),
        b'A'..=b'F' => Some(u32::from(digit - b'A') + 10),
        _ => None,
    }
}

// The number in hexadecimal digits, if it fits 32 bits.
fn hex_value(digits: &[u8]) -> Option<u32>
    ensures { result ≡ hex_after 0 digits.now }
{
    let mut value: u32 = 0;
    for digit in digits {
        let digit = digit_value(*digit)?;
        value = value.checked_mul(16)?.checked_add(digit)?;
    }
    Some(value)
}

/// Parses an address: one to eight hexadecimal digits in either case, with or without `0x` before them.
pub fn parse_address(word: &str) -> Option<u32>
    ensures { result ≡ address_of word.now }
{
    let digits = match word.as_bytes() {
        [b'0', b'x', digits @ ..] => digits,
        digits => digits,
    };
    if digits.is_empty() || digits.len() > ADDRESS_DIGITS {
        return None;
    }
    hex_value(digits)
}

// Parses addresses; `None` if one of the words isn't one.
fn parse_addresses(alloc: Global, words: &[String]) -> Result<Option<Vec<u32>>, AllocError>
    ensures { IfOk result
        (λ found. option_map (λ v. v.items) found ≡ addresses_of (map string_bytes words.now)) }
{
    let mut addresses = Vec::new(alloc);
    for word in words {
        let Some(address) = parse_address(word.as_str()) else {
            return Ok(None);
        };
        addresses.push(address)?;
    }
    Ok(Some(addresses))
}

// Parses a command.
fn parse_command(word: &str) -> Option<Command>
    ensures { result ≡ command_of word.now }
{
    if word == "names" {
        Some(Command::Names)
    } else if word == "frames" {
        Some(Command::Frames)
    } else if word == "list" {
        Some(Command::List)
    } else {
        None
    }
}

// Parses the words after a command as addresses. The command `list` takes none.
fn parse_words(
    alloc: Global,
    command: Command,
    words: &[String],
) -> Result<Option<Vec<u32>>, AllocError>
    ensures { IfOk result (λ found. option_map (λ v. v.items) found
        ≡ asked_addresses command (map string_bytes words.now)) }
{
    match command {
        Command::Names | Command::Frames => parse_addresses(alloc, words),
        Command::List if words.is_empty() => Ok(Some(Vec::new(alloc))),
        Command::List => Ok(None),
    }
}

/// Parses the words of a command line, the program's name first. `None` means that the usage line should be printed.
pub fn parse(alloc: Global, words: &[String]) -> Result<Option<ReportArguments<'_>>, AllocError>
    ensures { IfOk result (λ r. option_map request r ≡ asked (map string_bytes words.now)) }
{
    let [_, path, command, words @ ..] = words else {
        return Ok(None);
    };
    let Some(command) = parse_command(command.as_str()) else {
        return Ok(None);
    };
    let Some(addresses) = parse_words(alloc, command, words)? else {
        return Ok(None);
    };
    Ok(Some(ReportArguments {
        path: path.as_str(),
        command,
        addresses,
    }))
}
