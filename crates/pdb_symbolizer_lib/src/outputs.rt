//! `Output`: where answers are written. An output accepts a whole text or refuses it.

ghost use Rattle.std.specs.Prelude.{◌≡◌, ℕ, Bool, false, List, Option, IfErr, string_bytes};
ghost use Rattle.pdb_symbolication.specs.Writes.{Writes};
ghost use Rattle.pdb_symbolizer_lib.specs.AnswersInOrder.{line_text};
ghost use Rattle.pdb_symbolizer_input.specs.EndReasons.{EndsWrite};

use pdb_answer_printer::Style;
use pdb_symbolication::write_whole;
use pdb_symbolizer_input::run_errors::RunError;
use std::io;

/// Accepts the texts of answers.
pub trait Output {
    /// The bytes that were written to it, if it says them.
    ghost contents: { Self → Option (List ℕ) };

    /// Whether it accepts every text unless memory runs out. An output of the operating system may refuse any text.
    ghost takes_all: { Self → Bool };

    /// Writes a whole text, and flushes the output.
    ///
    /// # Errors
    ///
    /// Memory ran out, or the output refused the text. Then a beginning of the text may have been written.
    fn write_text(&mut self, text: &str) -> Result<(), RunError>
        ensures text { Writes (contents self.old) (contents self.new) result text.now }
        ensures early { IfErr result (EndsWrite (takes_all self.old)) }
        ensures takes { takes_all self.new ≡ takes_all self.old };
}

/// An output that is a stream of bytes, such as standard output. It may refuse any text.
#[derive(Drop)]
pub struct ByteStream<W: io::Write>(pub W);

impl<W: io::Write> Output for ByteStream<W> {
    ghost use Rattle.std.specs.Prelude.{false};

    ghost contents = { λ stream. W.contents stream.0 };

    ghost takes_all = { λ _. false };

    fn write_text(&mut self, text: &str) -> Result<(), RunError> {
        write_through(&mut self.0, text)
    }
}

// Writes a whole text to a writer, and flushes the writer.
fn write_through<W: io::Write>(out: &mut W, text: &str) -> Result<(), RunError>
    ensures text { Writes (W.contents out.old) (W.contents out.new) result text.now }
    ensures early { IfErr result (EndsWrite false) }
{
    write_whole(out, text.as_bytes())?;
    Ok(out.flush()?)
}

/// A buffer in memory accepts every text unless memory runs out.
impl Output for Vec<u8> {
    ghost use Rattle.std.specs.Prelude.{Some, true};

    ghost contents = { λ bytes. Some bytes.items };

    ghost takes_all = { λ _. true };

    fn write_text(&mut self, text: &str) -> Result<(), RunError> {
        self.extend_from_slice(text.as_bytes())?;
        Ok(())
    }
}

/// Writes the answer to a line. In JSON it ends with a newline.
pub fn write_line_answer<W: Output>(
    out: &mut W,
    style: Style,
    mut text: String,
) -> Result<(), RunError>
    ensures text { Writes (W.contents out.old) (W.contents out.new) result (line_text style (string_bytes text)) }
    ensures early { IfErr result (EndsWrite (W.takes_all out.old)) }
    ensures takes { W.takes_all out.new ≡ W.takes_all out.old }
{
    if style == Style::Json {
        text.push('\n')?;
    }
    out.write_text(text.as_str())
}
