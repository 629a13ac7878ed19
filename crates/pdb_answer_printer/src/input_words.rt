//! Parses the word of a request that is its address or symbol.

ghost use Rattle.std.specs.Prelude.{◌≡◌};
ghost use Rattle.pdb_answer_printer.specs.InputLineParser.{first_word, symbol_by, symbol_of, word_target};
ghost use Rattle.pdb_answer_printer.specs.InputNumbers.{address_of};
ghost use Rattle.pdb_answer_printer.specs.InputLine.{target_of};

use crate::input_line::{InputTarget, Lack};
use crate::input_numbers::parse_address;
use crate::printer_options::Digits;

/// The first word of a text; empty if there is none.
pub(crate) fn first_word(text: &str) -> &str
    ensures { result.now ≡ first_word text.now }
{
    match text.split_whitespace().next() {
        Some(word) => word,
        None => "",
    }
}

/// The address or the symbol that a word names.
pub(crate) fn place_of(word: &str, digits: Digits) -> InputTarget<'_>
    ensures { target_of result ≡ word_target word.now digits }
{
    if let Some(address) = parse_address(word, digits) {
        return InputTarget::Address(address);
    }
    match word.as_bytes().first() {
        None => InputTarget::Nowhere(Lack::Address),
        Some(byte) if byte.is_ascii_digit() => InputTarget::Nowhere(Lack::Number),
        Some(_) => InputTarget::Symbol(symbol_of(word)),
    }
}

// The symbol that a word names, without an offset after a plus sign.
fn symbol_of(word: &str) -> &str
    ensures { result.now ≡ symbol_of word.now }
{
    match word.rsplit_once('+') {
        Some((symbol, offset)) => symbol_by(symbol, offset, word),
        None => word,
    }
}

fn symbol_by<'t>(symbol: &'t str, offset: &str, word: &'t str) -> &'t str
    ensures { result.now ≡ symbol_by symbol.now (address_of offset.now Digits.ByPrefix) word.now }
{
    if symbol.is_empty() || parse_address(offset, Digits::ByPrefix).is_none() {
        return word;
    }
    symbol
}
