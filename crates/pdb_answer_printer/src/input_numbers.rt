//! Parses addresses and numbers from the words of a command line or of an input line.

ghost use Rattle.std.specs.Prelude.{◌≡◌, ◌≤◌, option_map, codes};
ghost use Rattle.pdb_answer_printer.specs.InputNumbers.{address_of, after_prefix, binary_digits, hexadecimal_digits};
ghost use Rattle.pdb_answer_printer.specs.InputNumbers.{binary_number_by, hexadecimal_number, number_of, octal_number_by};
ghost use Rattle.pdb_answer_printer.specs.InputNumbers.{plain_number_by, prefixed_number};

use crate::printer_options::Digits;

/// Parses an address: as hexadecimal digits, or in the radix that its prefix says, depending on `digits`. `None` if the
/// text is no such number or doesn't fit 64 bits.
pub fn parse_address(text: &str, digits: Digits) -> Option<u64>
    ensures { result ≡ address_of text.now digits }
{
    match digits {
        Digits::Hexadecimal => parse_number(text),
        Digits::ByPrefix => parse_prefixed(text),
    }
}

/// Parses hexadecimal digits, with or without `0x` or `0X` before them.
pub fn parse_number(text: &str) -> Option<u64>
    ensures { result ≡ hexadecimal_number text.now }
{
    match hexadecimal_digits(text) {
        Some(digits) => unsigned(digits, 16),
        None => unsigned(text, 16),
    }
}

// Parses digits whose prefix says their radix: `0x`, `0X`, `0b`, `0B`, `0o`, or `0` for octal. Without one they are
// decimal.
fn parse_prefixed(text: &str) -> Option<u64>
    ensures { result ≡ prefixed_number text.now }
{
    match hexadecimal_digits(text) {
        Some(digits) => unsigned(digits, 16),
        None => parse_binary(text),
    }
}

// Parses a text without `0x` or `0X`: binary after `0b` or `0B`.
fn parse_binary(text: &str) -> Option<u64>
    ensures { result ≡ binary_number_by (binary_digits text.now) text.now }
{
    match binary_digits(text) {
        Some(digits) => unsigned(digits, 2),
        None => parse_octal(text),
    }
}

// Parses a text that also has no `0b` or `0B`: octal after `0o`.
fn parse_octal(text: &str) -> Option<u64>
    ensures { result ≡ octal_number_by (after_prefix (codes "0o") text.now) text.now }
{
    match after_prefix(text, "0o") {
        Some(digits) => unsigned(digits, 8),
        None => parse_plain(text),
    }
}

// Parses a text without any prefix of letters: octal after a leading `0`, else decimal.
fn parse_plain(text: &str) -> Option<u64>
    ensures { result ≡ plain_number_by (after_prefix (codes "0") text.now) text.now }
{
    match after_prefix(text, "0") {
        Some(digits) if !digits.is_empty() => unsigned(digits, 8),
        _ => unsigned(text, 10),
    }
}

fn hexadecimal_digits(text: &str) -> Option<&str>
    ensures { option_map (λ digits. digits.now) result ≡ hexadecimal_digits text.now }
{
    match after_prefix(text, "0x") {
        Some(digits) => Some(digits),
        None => after_prefix(text, "0X"),
    }
}

fn binary_digits(text: &str) -> Option<&str>
    ensures { option_map (λ digits. digits.now) result ≡ binary_digits text.now }
{
    match after_prefix(text, "0b") {
        Some(digits) => Some(digits),
        None => after_prefix(text, "0B"),
    }
}

/// The rest of `text` after the prefix `front`; `None` if it doesn't begin with that.
pub(crate) fn after_prefix<'t>(text: &'t str, front: &str) -> Option<&'t str>
    ensures { option_map (λ rest. rest.now) result ≡ after_prefix front.now text.now }
{
    text.strip_prefix(front)
}

// Parses digits of a radix. A sign is refused, although `from_str_radix` would take a `+`.
fn unsigned(digits: &str, radix: u32) -> Option<u64>
    requires least { 2 ≤ radix }
    requires most { radix ≤ 16 }
    ensures { result ≡ number_of radix digits.now }
{
    if digits.starts_with('+') {
        return None;
    }
    u64::from_str_radix(digits, radix).ok()
}
