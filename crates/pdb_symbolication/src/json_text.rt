//! Writes JSON strings, hexadecimal numbers and commas.

ghost use Rattle.std.specs.Prelude.{◌≡◌, ℕ, List, ◌++◌, string_bytes, OnOk};
ghost use Rattle.pdb_symbolication.specs.JsonObjects.{comma_before, hexadecimal, later, separated};
ghost use Rattle.pdb_symbolication.specs.JsonTexts.{control_character, quoted, quoted_character};

use std::alloc::AllocError;

/// Appends a text as a JSON string.
pub fn write_quoted(out: &mut String, text: &str) -> Result<(), AllocError>
    ensures { OnOk result (string_bytes out.new ≡ string_bytes out.old ++ quoted text.now) }
{
    out.push('"')?;
    for character in text.chars() {
        write_character(out, character)?;
    }
    out.push('"')
}

fn write_character(out: &mut String, character: char) -> Result<(), AllocError>
    ensures { OnOk result (string_bytes out.new ≡ string_bytes out.old ++ quoted_character character) }
{
    match character {
        '"' => out.push_str("\\\""),
        '\\' => out.push_str("\\\\"),
        '\t' => out.push_str("\\t"),
        '\n' => out.push_str("\\n"),
        '\r' => out.push_str("\\r"),
        '\0'..'\u{20}' => write_control(out, u32::from(character)),
        _ => out.push(character),
    }
}

fn write_control(out: &mut String, character: u32) -> Result<(), AllocError>
    ensures { OnOk result (string_bytes out.new ≡ string_bytes out.old ++ control_character character) }
{
    write!(out, "\\u00{:x}{:x}", character / 16, character % 16)
}

/// Appends a number as a JSON string of hexadecimal digits after `0x`.
pub(crate) fn write_hexadecimal(out: &mut String, number: u64) -> Result<(), AllocError>
    ensures { OnOk result (string_bytes out.new ≡ string_bytes out.old ++ hexadecimal number) }
{
    write!(out, "\"0x{number:x}\"")
}

/// Appends the comma before a value, unless the value is the first.
pub(crate) fn write_comma(out: &mut String, first: bool) -> Result<(), AllocError>
    ensures { OnOk result (string_bytes out.new ≡ string_bytes out.old ++ comma_before first) }
{
    if first {
        return Ok(());
    }
    out.push(',')
}

/// Values that each follow a comma, without the first comma.
pub(crate) fn without_first_comma(values: &str) -> &str
    ensures { (each : List (List ℕ)) → values.now ≡ later each → result.now ≡ separated each }
{
    match values.strip_prefix(',') {
        Some(rest) => rest,
        None => "",
    }
}
