//! Writes names and other texts as words of a record, without line breaks.

ghost use Rattle.std.specs.Prelude.{◌≡◌, ◌++◌, OnOk, string_bytes};
ghost use Rattle.pdb_breakpad.specs.FunctionTexts.{line_text, name_character, name_line};

use std::alloc::AllocError;

/// Appends a name, and the end of the line. A line break in the name becomes a space.
#[tactic(auto, unfolding(crate::specs::FunctionTexts::name_line))]
pub(crate) fn push_name(text: &mut String, name: &str) -> Result<(), AllocError>
    ensures { OnOk result (string_bytes text.new ≡ string_bytes text.old ++ name_line name.now) }
{
    push_line_text(text, name)?;
    text.push('\n')
}

/// Appends a text as a part of a line. A line break in it becomes a space.
pub(crate) fn push_line_text(text: &mut String, part: &str) -> Result<(), AllocError>
    ensures { OnOk result (string_bytes text.new ≡ string_bytes text.old ++ line_text part.now) }
{
    for character in part.chars() {
        push_character(text, character)?;
    }
    Ok(())
}

fn push_character(text: &mut String, character: char) -> Result<(), AllocError>
    ensures { OnOk result (string_bytes text.new ≡ string_bytes text.old ++ name_character character) }
{
    match character {
        '\n' | '\r' => text.push(' '),
        _ => text.push(character),
    }
}
