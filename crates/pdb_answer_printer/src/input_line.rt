//! `InputLine`: a parsed request for code, data or a function's variables, at an address or a symbol.

ghost use Rattle.std.specs.Prelude.{◌≡◌, option_map};
ghost use Rattle.pdb_answer_printer.specs.InputLine.{asks_nothing, target_of, words_of};

/// What a request asks for.
#[derive(Clone, Copy, PartialEq, Eq)]
pub enum Sort {
    Code,
    Data,
    /// The variables of the function at an address.
    Frame,
}

/// The address or symbol of a request.
#[derive(Clone, Copy)]
pub enum InputTarget<'t> {
    Address(u64),
    /// The name of a symbol. Symbols aren't looked up.
    Symbol(&'t str),
    /// The text isn't a request, because this part is missing or wrong.
    Nowhere(Lack),
}

/// Why a text isn't a request.
#[derive(Clone, Copy, PartialEq, Eq)]
pub enum Lack {
    /// The text is empty.
    Text,
    File,
    Address,
    /// A word that begins with a digit isn't a number.
    Number,
}

impl Lack {
    /// The message for this reason. An empty text has none, because callers send one to check whether the program still
    /// answers.
    pub fn words(self) -> Option<&'static str>
        ensures { option_map (λ text. text.now) result ≡ words_of self }
    {
        match self {
            Lack::Text => None,
            Lack::File => Some("no file is named"),
            Lack::Address => Some("no address"),
            Lack::Number => Some("no number"),
        }
    }
}

/// A parsed request.
#[derive(Clone, Copy)]
pub struct InputLine<'t> {
    pub sort: Sort,
    /// The file as it was named.
    pub file: &'t str,
    pub place: InputTarget<'t>,
}

impl InputLine<'_> {
    /// Whether the text isn't a request.
    pub fn is_nowhere(&self) -> bool
        ensures { result ≡ asks_nothing (target_of self.now.place) }
    {
        matches!(self.place, InputTarget::Nowhere(_))
    }
}
