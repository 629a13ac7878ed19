//! `Options`: the parsed command line, with styles, names, bases of addresses and files to write.

ghost use Rattle.std.specs.Prelude.{◌≡◌};
ghost use Rattle.pdb_symbolizer_input.specs.NameOptions.{flags_of};
ghost use Rattle.pdb_symbolizer_input.specs.NameOptions.{shows_decorated_names};

use crate::identities::ExpectedBuild;
use bitflags::Flags;
use pdb_addr2line::TypeFormatterFlags;
use pdb_answer_printer::{Detail, Digits, NameStyle, PrinterOptions, Style};

/// The files that the records are written to.
#[derive(Clone, Copy)]
pub struct Export<'w> {
    /// The records file.
    pub records: &'w str,
    /// The folder for a file of each module, if these are asked for.
    pub modules: Option<&'w str>,
}

/// Where a symbol file is written.
#[derive(Clone, Copy)]
pub enum SymbolFilePlace<'w> {
    /// On standard output.
    StandardOutput,
    /// In a symbol store with this folder, under the name of its PDB file and its debug id.
    Store(&'w str),
}

/// What the run does with the file.
#[derive(Clone, Copy)]
pub enum Purpose<'w> {
    /// Answer addresses.
    Answers,
    /// Write its records.
    Export(Export<'w>),
    /// Write its functions as a Breakpad symbol file.
    SymbolFile(SymbolFilePlace<'w>),
    /// Answer requests of the symbolication API, over PDB files in folders.
    Symbolication(RequestForm),
    /// Print the identity of this file, and of the files that the other words name.
    Identities,
}

/// How standard input is split into requests.
#[derive(Clone, Copy, PartialEq, Eq)]
pub enum RequestForm {
    /// The whole input is one request.
    Whole,
    /// Each line is a request.
    Lines,
}

/// Where the program is loaded, to which the addresses belong.
#[derive(Clone, Copy, PartialEq, Eq)]
pub enum Base {
    /// At the image base of a program; at 0 for a PDB file or a records file.
    Preferred,
    /// At 0.
    Relative,
    /// At this address.
    At(u64),
}

/// What names the file to which the addresses belong.
#[derive(Clone, Copy, PartialEq, Eq)]
pub enum FileNaming {
    /// The first word. If the file can't be opened, the run ends with an error.
    ByWord,
    /// An option. If the file can't be opened, the run ends with an error, which JSON output shows as an object.
    ByOption,
    /// Each line of standard input. If its file can't be opened, the answer to the line says that nothing is known.
    ByEachLine,
}

/// The parsed command line.
#[derive(Drop)]
pub struct Options<'w> {
    /// The file with the records, or the program that they describe. If it is `None`, each line of standard input names
    /// its own file.
    pub file: Option<&'w str>,
    /// The folders in which PDB files of programs are looked for.
    pub pdb_dirs: Vec<&'w str>,
    /// The addresses as they were given. If the list is empty, they come from standard input.
    pub addresses: Vec<&'w str>,
    /// How answers are printed.
    pub printer: PrinterOptions,
    /// Whether a function is named by its public symbol, as the records have that name.
    pub decorated: bool,
    /// How many lines of the source file are printed around each frame's line.
    pub source_lines: u32,
    /// Whether the URL of its source file follows the place of each frame.
    pub source_urls: bool,
    pub digits: Digits,
    pub naming: FileNaming,
    pub base: Base,
    /// The offset that is subtracted from each address, besides the base.
    pub adjust: u64,
    pub purpose: Purpose<'w>,
    /// How many bytes of memory open files may take between requests.
    pub cache_size: u64,
    /// The build to which the file must belong, if the options say one.
    pub expected: Option<ExpectedBuild>,
}

impl Options<'_> {
    /// Whether functions are named by their public symbols. They aren't if names are to be short or omitted.
    pub fn shows_decorated_names(&self) -> bool
        ensures { result ≡ shows_decorated_names self.now }
    {
        self.decorated && matches!(self.printer.names, NameStyle::Signature)
    }

    /// How many lines of the source file are printed around each frame's line. None are printed in verbose LLVM or GNU
    /// style, which has file, line and column on lines of their own.
    pub fn shown_source_lines(&self) -> u32 {
        match (self.printer.style, self.printer.detail) {
            (Style::Llvm | Style::Gnu, Detail::Verbose) => 0,
            _ => self.source_lines,
        }
    }

    /// The flags for printing names.
    pub fn flags(&self) -> TypeFormatterFlags
        ensures { result ≡ flags_of self.now.printer.names }
    {
        let flags = TypeFormatterFlags::default();
        match self.printer.names {
            NameStyle::Short => flags.union(TypeFormatterFlags::NO_ARGUMENTS),
            _ => flags,
        }
    }
}
