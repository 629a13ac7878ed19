//! Parses requests: a line of standard input, or a word of the command line.
//!
//! The file is the one that the text names, or that of the command line.

ghost use Rattle.std.specs.Prelude.{◌≡◌, option_map};
ghost use Rattle.pdb_answer_printer.specs.InputLineParser.{file_of_text, lacking, request_in, request_of, sort_of};
ghost use Rattle.pdb_answer_printer.specs.InputLine.{question_of};

use crate::input_file_names::split_file;
use crate::input_line::{InputLine, InputTarget, Lack, Sort};
use crate::input_numbers::after_prefix;
use crate::input_words::{first_word, place_of};
use crate::printer_options::Digits;

/// Parses a request. Its parts are `CODE`, `DATA` or `FRAME`, which may be missing; then the file, unless `file` gives
/// it; then the address. The file may be in quotation marks. The rest of the text is ignored.
pub fn parse_input_line<'t>(text: &'t str, file: Option<&'t str>, digits: Digits) -> InputLine<'t>
    ensures { question_of result ≡ request_of text.now (option_map (λ name. name.now) file.entry) digits }
{
    if text.is_empty() {
        return lacking(Lack::Text);
    }
    let (sort, rest) = sort_of(text);
    let (file, rest) = file_of_text(file, rest);
    request_in(sort, file, rest, digits)
}

fn request_in<'t>(sort: Sort, file: &'t str, rest: &'t str, digits: Digits) -> InputLine<'t>
    ensures { question_of result ≡ request_in sort file.now rest.now digits }
{
    if file.is_empty() {
        return lacking(Lack::File);
    }
    InputLine {
        sort,
        file,
        place: place_of(first_word(rest), digits),
    }
}

fn lacking(lack: Lack) -> InputLine<'static>
    ensures { question_of result ≡ lacking lack }
{
    InputLine {
        sort: Sort::Code,
        file: "",
        place: InputTarget::Nowhere(lack),
    }
}

fn file_of_text<'t>(file: Option<&'t str>, text: &'t str) -> (&'t str, &'t str)
    ensures front { result.0.now ≡ (file_of_text (option_map (λ name. name.now) file.entry) text.now).front }
    ensures rest { result.1.now ≡ (file_of_text (option_map (λ name. name.now) file.entry) text.now).rest }
{
    match file {
        Some(file) => (file, text),
        None => split_file(text.trim_start()),
    }
}

fn sort_of(text: &str) -> (Sort, &str)
    ensures front { result.0 ≡ (sort_of text.now).front }
    ensures rest { result.1.now ≡ (sort_of text.now).rest }
{
    if let Some(rest) = after_prefix(text, "CODE ") {
        return (Sort::Code, rest);
    }
    if let Some(rest) = after_prefix(text, "FRAME ") {
        return (Sort::Frame, rest);
    }
    match after_prefix(text, "DATA ") {
        Some(rest) => (Sort::Data, rest),
        None => (Sort::Code, text),
    }
}
