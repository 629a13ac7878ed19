//! Parses the command line into `Options`. Some defaults depend on the name under which the program is called.

use crate::arguments::command;
use crate::identities::ExpectedBuild;
use crate::options::{Base, Export, FileNaming, Options, Purpose, RequestForm, SymbolFilePlace};
use crate::run_errors::RunError;
use clap::ArgMatches;
use pdb_answer_printer::{
    Detail, Digits, NameStyle, PrinterOptions, Style, parse_address, parse_number,
};
use std::alloc::Global;

/// The name of the option for source lines.
const SOURCE_LINES: &str = "print-source-context-lines";

/// The program whose defaults apply, by the name under which this one is called.
#[derive(Clone, Copy, PartialEq, Eq)]
pub enum Personality {
    /// The defaults of `pdb_symbolizer`.
    Own,
    /// The defaults of `llvm-symbolizer`: the prefix of a number says its radix.
    LlvmSymbolizer,
    /// The defaults of `addr2line`: its output style, and functions and inlined functions only on request.
    Addr2line,
}

/// Parses the words of a command line. The first one is the program's name.
pub fn parse<'w>(alloc: Global, words: &'w [String]) -> Result<Options<'w>, RunError> {
    let command = command(alloc)?;
    let matches = command.try_get_matches_from(words)?;
    options_of(alloc, personality_of(words), &matches)
}

/// The program whose defaults apply, by the first word, the name of the program.
pub fn personality_of(words: &[String]) -> Personality {
    let Some(program) = words.first() else {
        return Personality::Own;
    };
    let name = match program.as_str().rsplit_once('/') {
        Some((_, name)) => name,
        None => program.as_str(),
    };
    match name {
        "addr2line" | "llvm-addr2line" => Personality::Addr2line,
        "llvm-symbolizer" => Personality::LlvmSymbolizer,
        _ => Personality::Own,
    }
}

fn options_of<'w>(
    alloc: Global,
    personality: Personality,
    matches: &ArgMatches<'w>,
) -> Result<Options<'w>, RunError> {
    let printer = printer_options(alloc, personality, matches)?;
    let base = base(alloc, matches)?;
    let adjust = adjustment(alloc, matches)?;
    let source_lines = source_lines(alloc, matches)?;
    let expected = expected_build(alloc, matches)?;
    let cache_size = number(alloc, matches, "cache-size", Digits::ByPrefix)?;
    let pdb_dirs = Vec::from_slice(alloc, matches.get_strs("pdb-dir").unwrap_or(&[]))?;
    let naming = file_naming(personality, matches);
    let words = matches.get_strs("WORD").unwrap_or(&[]);
    let (file, addresses) = match (naming, words) {
        (FileNaming::ByWord, [file, addresses @ ..]) => (Some(*file), addresses),
        _ => (matches.get_str("obj"), words),
    };
    Ok(Options {
        file,
        pdb_dirs,
        addresses: Vec::from_slice(alloc, addresses)?,
        printer,
        decorated: matches.get_flag("no-demangle"),
        source_lines,
        source_urls: matches.get_flag("source-url"),
        digits: digits(personality, naming),
        naming,
        base,
        adjust,
        purpose: purpose_of(matches),
        cache_size,
        expected,
    })
}

fn printer_options(
    alloc: Global,
    personality: Personality,
    matches: &ArgMatches<'_>,
) -> Result<PrinterOptions, RunError> {
    let names = name_style(alloc, personality, matches)?;
    let inlines = inlines(alloc, personality, matches)?;
    let style = style(alloc, personality, matches)?;
    Ok(PrinterOptions {
        style,
        names,
        detail: detail(matches),
        inlines,
        address_shown: matches.get_flag("addresses"),
        pretty: matches.get_flag("pretty-print"),
        basenames: matches.get_flag("basenames"),
    })
}

// What says which file to open: an option, the first word, or each line of the input.
fn file_naming(personality: Personality, matches: &ArgMatches<'_>) -> FileNaming {
    match (
        personality,
        matches.get_str("obj"),
        matches.get_strs("WORD"),
    ) {
        (_, Some(_), _) => FileNaming::ByOption,
        (Personality::Own, None, Some([_, ..])) => FileNaming::ByWord,
        _ => FileNaming::ByEachLine,
    }
}

fn base(alloc: Global, matches: &ArgMatches<'_>) -> Result<Base, RunError> {
    match matches.get_str("base").unwrap_or("") {
        "" if matches.get_flag("relative-address") => Ok(Base::Relative),
        "" => Ok(Base::Preferred),
        value => match parse_number(value) {
            Some(address) => Ok(Base::At(address)),
            None => Err(no_such_value(alloc, "base", value)),
        },
    }
}

// How numbers without a prefix are read. If an option or each line names the file, they are read as `llvm-symbolizer`
// does.
fn digits(personality: Personality, naming: FileNaming) -> Digits {
    match (personality, naming) {
        (Personality::Addr2line, _) | (Personality::Own, FileNaming::ByWord) => Digits::Hexadecimal,
        _ => Digits::ByPrefix,
    }
}

// The offset that is subtracted from each address: the sum of both options. `--adjust-vma` reads numbers as
// `llvm-symbolizer` does.
fn adjustment(alloc: Global, matches: &ArgMatches<'_>) -> Result<u64, RunError> {
    let own = number(alloc, matches, "adjust", Digits::Hexadecimal)?;
    Ok(own.wrapping_add(number(alloc, matches, "adjust-vma", Digits::ByPrefix)?))
}

fn source_lines(alloc: Global, matches: &ArgMatches<'_>) -> Result<u32, RunError> {
    let lines = number(alloc, matches, SOURCE_LINES, Digits::ByPrefix)?;
    Ok(u32::try_from(lines).unwrap_or(u32::MAX))
}

// Whether inlined functions are printed: as `--inlining` says, else as the flags and the program's defaults do.
fn inlines(
    alloc: Global,
    personality: Personality,
    matches: &ArgMatches<'_>,
) -> Result<bool, RunError> {
    match matches.get_str("inlining").unwrap_or("") {
        "" if personality == Personality::Addr2line => Ok(matches.get_flag("inlines")),
        "" => Ok(!matches.get_flag("no-inlines")),
        "true" => Ok(true),
        "false" => Ok(false),
        value => Err(no_such_value(alloc, "inlining", value)),
    }
}

fn detail(matches: &ArgMatches<'_>) -> Detail {
    if matches.get_flag("verbose") {
        Detail::Verbose
    } else {
        Detail::Brief
    }
}

fn purpose_of<'w>(matches: &ArgMatches<'w>) -> Purpose<'w> {
    match matches.get_str("export") {
        Some(records) => Purpose::Export(Export {
            records,
            modules: matches.get_str("modules"),
        }),
        None if matches.get_flag("dump-syms") => Purpose::SymbolFile(symbol_file_place(matches)),
        None if matches.get_flag("show-id") => Purpose::Identities,
        None if matches.get_flag("symbolicate-lines") => Purpose::Symbolication(RequestForm::Lines),
        None if matches.get_flag("symbolicate") => Purpose::Symbolication(RequestForm::Whole),
        None => Purpose::Answers,
    }
}

fn symbol_file_place<'w>(matches: &ArgMatches<'w>) -> SymbolFilePlace<'w> {
    match matches.get_str("store") {
        Some(store) => SymbolFilePlace::Store(store),
        None => SymbolFilePlace::StandardOutput,
    }
}

fn expected_build(
    alloc: Global,
    matches: &ArgMatches<'_>,
) -> Result<Option<ExpectedBuild>, RunError> {
    let Some(text) = matches.get_str("expect-id") else {
        return Ok(None);
    };
    match ExpectedBuild::parse(text) {
        Some(build) => Ok(Some(build)),
        None => Err(no_such_value(alloc, "expect-id", text)),
    }
}

fn name_style(
    alloc: Global,
    personality: Personality,
    matches: &ArgMatches<'_>,
) -> Result<NameStyle, RunError> {
    match matches.get_str("functions").unwrap_or("") {
        "" if personality == Personality::Addr2line => Ok(NameStyle::None),
        "" => Ok(NameStyle::Signature),
        "none" => Ok(NameStyle::None),
        "short" => Ok(NameStyle::Short),
        "signature" | "linkage" => Ok(NameStyle::Signature),
        value => Err(no_such_value(alloc, "functions", value)),
    }
}

fn style(
    alloc: Global,
    personality: Personality,
    matches: &ArgMatches<'_>,
) -> Result<Style, RunError> {
    match matches.get_str("output-style").unwrap_or("") {
        "" if personality == Personality::Addr2line => Ok(Style::Gnu),
        "" => Ok(Style::Llvm),
        "LLVM" => Ok(Style::Llvm),
        "GNU" => Ok(Style::Gnu),
        "JSON" => Ok(Style::Json),
        value => Err(no_such_value(alloc, "output-style", value)),
    }
}

// The value of an option as a number; 0 if it isn't given.
fn number(
    alloc: Global,
    matches: &ArgMatches<'_>,
    name: &'static str,
    digits: Digits,
) -> Result<u64, RunError> {
    let value = matches.get_str(name).unwrap_or("0");
    match parse_address(value, digits) {
        Some(number) => Ok(number),
        None => Err(no_such_value(alloc, name, value)),
    }
}

fn no_such_value(alloc: Global, name: &'static str, value: &str) -> RunError {
    match String::from_str(alloc, value) {
        Ok(value) => RunError::NoSuchValue(name, value),
        Err(error) => RunError::from(error),
    }
}
