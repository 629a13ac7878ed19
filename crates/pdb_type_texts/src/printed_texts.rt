//! Results of printing: the text, or the error before which it ends.

ghost use Rattle.std.specs.Prelude.{◌≡◌, ◌≢◌, false, string_bytes};
ghost use Rattle.pdb_errors.specs.declared.error.Error.TheVariants.{OutOfMemory};
ghost use Rattle.pdb_types.specs.FailedParts.{Parts};
ghost use Rattle.pdb_type_texts.specs.PrintedTexts.{is_format_error, ran_out_of_memory, AnswersText, AnswersWritten};
ghost use Rattle.pdb_type_texts.specs.Documents.{Run};
ghost use Rattle.pdb_type_texts.specs.Progress.{failure_in};

use crate::print_error::PrintError;
use pdb_errors::{Error, Result};
use std::fmt;

/// The result of printing: the text, and why printing failed, if it did.
#[derive(Drop)]
pub struct Printed {
    pub text: String,
    pub failure: Option<PrintError>,
}

// Whether an error says that memory ran out.
fn ran_out_of_memory(error: &Error) -> bool
    ensures { result ≡ ran_out_of_memory error.now }
{
    match error {
        Error::OutOfMemory => true,
        _ => false,
    }
}

// Writes the text that was printed before an error, unless memory ran out. Returns that error, or that the writer
// refused the text.
fn write_before<W: fmt::Write>(writer: &mut W, text: &str, error: Error) -> Error
    ensures answer { is_format_error result ≡ false → result ≡ error }
    ensures written { result ≢ OutOfMemory → is_format_error result ≡ false
        → W.write_str_gives writer.old text.now writer.new }
    ensures unwritten { result ≡ OutOfMemory → writer.new ≡ writer.old }
{
    if ran_out_of_memory(&error) {
        return error;
    }
    match writer.write_str(text) {
        Ok(()) => error,
        Err(refused) => Error::FormatError(refused),
    }
}

/// The printed text, or the error of printing.
pub fn printed_text(printed: Printed) -> Result<String>
    ensures { (r : Run) (failed : Parts)
        → r ≡ record { text = string_bytes printed.text; fault = failure_in printed.failure; failed = failed }
        → AnswersText r result failed }
{
    let Printed { text, failure } = printed;
    match failure {
        None => Ok(text),
        Some(failure) => Err(Error::from(failure)),
    }
}

/// Writes the printed text to a writer. If printing failed, writes the text before the error, and returns the error.
pub fn write_printed<W: fmt::Write>(writer: &mut W, printed: Printed) -> Result<()>
    ensures { (r : Run) (failed : Parts)
        → r ≡ record { text = string_bytes printed.text; fault = failure_in printed.failure; failed = failed }
        → AnswersWritten W.write_str_gives r writer.old writer.new result failed }
{
    let Printed { text, failure } = printed;
    match failure {
        None => match writer.write_str(text.as_str()) {
            Ok(()) => Ok(()),
            Err(error) => Err(Error::FormatError(error)),
        },
        Some(failure) => Err(write_before(writer, text.as_str(), Error::from(failure))),
    }
}
