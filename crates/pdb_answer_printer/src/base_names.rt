//! File names without their folders.

ghost use Rattle.std.specs.Prelude.{◌≡◌, ◌<◌};
ghost use Rattle.pdb_answer_printer.specs.BaseNames.{base_name, after_last_byte};

/// The part of a path after the last slash of either kind.
pub fn base_name(file: &str) -> &str
    ensures { result.now ≡ base_name file.now }
{
    after_last_byte(after_last_byte(file, '/'), '\\')
}

// The part after the last such character; the whole text if there is none.
fn after_last_byte(text: &str, character: char) -> &str
    requires { character < 128 }
    ensures { result.now ≡ after_last_byte character text.now }
{
    match text.rsplit_once(character) {
        Some((_, name)) => name,
        None => text,
    }
}
