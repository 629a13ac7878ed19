//! `PrinterOptions`: how answers are printed.

/// How much of a function's name is printed.
#[derive(Clone, Copy, PartialEq, Eq)]
pub enum NameStyle {
    /// Nothing.
    None,
    /// Only the name.
    Short,
    /// The name with the types of the arguments.
    Signature,
}

/// The output style of answers.
#[derive(Clone, Copy, PartialEq, Eq)]
pub enum Style {
    /// Name and location, with an empty line after each answer.
    Llvm,
    /// Name and location, without a column.
    Gnu,
    /// A JSON object on one line.
    Json,
}

/// How a frame's source location is printed.
#[derive(Clone, Copy, PartialEq, Eq)]
pub enum Detail {
    /// File, line and column in one line.
    Brief,
    /// File, line and column on lines of their own.
    Verbose,
}

/// The options for the text of an answer.
#[derive(Clone, Copy)]
pub struct PrinterOptions {
    pub style: Style,
    pub names: NameStyle,
    pub detail: Detail,
    /// Whether inlined functions are printed.
    pub inlines: bool,
    /// Whether the address is printed before its answer.
    pub address_shown: bool,
    /// Whether name and location of a frame are printed on one line.
    pub pretty: bool,
    /// Whether files are printed without their folders.
    pub basenames: bool,
}

/// How the radix of a number is determined.
#[derive(Clone, Copy, PartialEq, Eq)]
pub enum Digits {
    /// All digits are hexadecimal.
    Hexadecimal,
    /// By the prefix `0x`, `0b`, `0o` or `0`. Without one, digits are decimal.
    ByPrefix,
}
