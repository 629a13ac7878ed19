//! Parses the file that a line names.

ghost use Rattle.std.specs.Prelude.{◌≡◌, ◌<◌};
ghost use Rattle.pdb_answer_printer.specs.InputLineParser.{cut_at, cut_quoted, named_file, split_file};

use crate::input_numbers::after_prefix;

/// Splits a text into the file at its beginning, with or without `FILE:` before it, and the rest. The file is empty if
/// there is none.
pub(crate) fn split_file(text: &str) -> (&str, &str)
    ensures front { result.0.now ≡ (split_file text.now).front }
    ensures rest { result.1.now ≡ (split_file text.now).rest }
{
    match after_prefix(text, "FILE:") {
        Some(rest) => named_file(rest.trim_start()),
        None => named_file(text),
    }
}

fn named_file(text: &str) -> (&str, &str)
    ensures front { result.0.now ≡ (named_file text.now).front }
    ensures rest { result.1.now ≡ (named_file text.now).rest }
{
    if let Some(quoted) = after_prefix(text, "\"") {
        return cut_quoted(quoted, '"');
    }
    match after_prefix(text, "'") {
        Some(quoted) => cut_quoted(quoted, '\''),
        None => cut_at_space(text),
    }
}

// Splits a text at the mark that closes a quotation.
fn cut_quoted(text: &str, mark: char) -> (&str, &str)
    requires { mark < 128 }
    ensures front { result.0.now ≡ (cut_quoted mark text.now).front }
    ensures rest { result.1.now ≡ (cut_quoted mark text.now).rest }
{
    match text.split_once(mark) {
        Some((quoted, rest)) => (quoted, rest),
        None => ("", ""),
    }
}

fn cut_at_space(text: &str) -> (&str, &str)
    ensures front { result.0.now ≡ (cut_at 32 text.now).front }
    ensures rest { result.1.now ≡ (cut_at 32 text.now).rest }
{
    match text.split_once(' ') {
        Some((file, rest)) => (file, rest),
        None => (text, ""),
    }
}
