//! The options and words that the command line of `pdb_symbolizer` takes, with their help.

use clap::{Arg, ArgAction, Command};
use std::alloc::{AllocError, Global};

/// The text before the list of options in the help.
pub const EXAMPLES: &str = "\
Examples:
  pdb_symbolizer -p app.exe 0x140001136        the functions, files and lines of an address
  pdb_symbolizer -p app.pdb 1136               of one that is relative to where the program is loaded
  pdb_symbolizer -p --base 0x7ff6a0000000 app.pdb <addresses    of addresses in memory, a line each
  pdb_symbolizer --output-style=JSON --obj=app.exe 0x140001136  as llvm-symbolizer is asked
  pdb_symbolizer --dump-syms app.exe >app.sym  a Breakpad symbol file
Addresses are hexadecimal, and come from standard input, a line each, where no word gives one.
Each option may be said again, and the last counts. Options of llvm-symbolizer that change nothing: --default-arch,
--dwp, --no-untag-addresses, --skip-line-zero. docs/CONTAINER.md says more.

";

/// An option without a value.
struct Flag {
    name: &'static str,
    short: Option<char>,
    /// An alternative name of the option.
    alias: Option<&'static str>,
    help: &'static str,
}

/// An option with a value.
struct Valued {
    name: &'static str,
    value_name: &'static str,
    default: &'static str,
    help: &'static str,
}

static FLAGS: [Flag; 12] = [
    Flag {
        name: "no-inlines",
        short: None,
        alias: None,
        help: "Print the function itself alone",
    },
    Flag {
        name: "addresses",
        short: Some('a'),
        alias: Some("print-address"),
        help: "Print the address before its answer",
    },
    Flag {
        name: "pretty-print",
        short: Some('p'),
        alias: None,
        help: "Print name and place on one line",
    },
    Flag {
        name: "basenames",
        short: Some('s'),
        alias: None,
        help: "Leave folders out of the names of files",
    },
    Flag {
        name: "relative-address",
        short: None,
        alias: None,
        help: "Addresses are relative to where the program is loaded",
    },
    Flag {
        name: "verbose",
        short: None,
        alias: None,
        help: "Print file, line and column on lines of their own",
    },
    Flag {
        name: "demangle",
        short: Some('C'),
        alias: None,
        help: "Print names as the records of functions have them",
    },
    Flag {
        name: "no-demangle",
        short: None,
        alias: None,
        help: "Print a function as its public symbol, where it has one",
    },
    Flag {
        name: "source-url",
        short: None,
        alias: None,
        help: "Print after each place the URL of its file, if the PDB file says it",
    },
    Flag {
        name: "show-id",
        short: None,
        alias: None,
        help: "Print debug id, age and machine of each file",
    },
    Flag {
        name: "dump-syms",
        short: None,
        alias: None,
        help: "Write a Breakpad symbol file of all functions",
    },
    Flag {
        name: "symbolicate",
        short: None,
        alias: None,
        help: "Answer a JSON request on standard input; --symbolicate-lines: on each line",
    },
];

/// Options of `llvm-symbolizer` that are accepted and change nothing: those without a value, and those with one.
static IGNORED_FLAGS: [&str; 2] = ["no-untag-addresses", "skip-line-zero"];

static IGNORED_OPTIONS: [&str; 2] = ["default-arch", "dwp"];

static VALUED: [Valued; 6] = [
    Valued {
        name: "output-style",
        value_name: "STYLE",
        default: "",
        help: "The form of the answers: LLVM, GNU or JSON",
    },
    Valued {
        name: "base",
        value_name: "ADDRESS",
        default: "",
        help: "Where the program is loaded; else its image base, or 0",
    },
    Valued {
        name: "adjust",
        value_name: "OFFSET",
        default: "0",
        help: "Take this from each address",
    },
    Valued {
        name: "adjust-vma",
        value_name: "OFFSET",
        default: "0",
        help: "The same; bare digits are decimal",
    },
    Valued {
        name: "print-source-context-lines",
        value_name: "N",
        default: "0",
        help: "Print so many lines of the source file around each place",
    },
    Valued {
        name: "cache-size",
        value_name: "BYTES",
        default: "1073741824",
        help: "Memory for PDB files kept open between lines; 1 GiB if not given",
    },
];

/// The command line parser with all options and arguments.
pub fn command<'a>(alloc: Global) -> Result<Command<'a>, AllocError> {
    let arguments = arguments(alloc)?;
    Command::new(alloc, "pdb_symbolizer")
        .version("0.2.0")
        .args(arguments)
}

fn arguments<'a>(alloc: Global) -> Result<Vec<Arg<'a>>, AllocError> {
    let mut arguments = Vec::new(alloc);
    arguments.push(functions(alloc)?)?;
    for flag in &FLAGS {
        arguments.push(flag_argument(alloc, flag)?)?;
    }
    for valued in &VALUED {
        arguments.push(valued_argument(alloc, valued)?)?;
    }
    for name in IGNORED_FLAGS {
        arguments.push(hidden_flag(alloc, name)?)?;
    }
    for name in IGNORED_OPTIONS {
        arguments.push(hidden_option(alloc, name)?)?;
    }
    arguments.push(hidden_flag(alloc, "inlines")?.short('i'))?;
    arguments.push(hidden_flag(alloc, "symbolicate-lines")?)?;
    arguments.push(inlining(alloc)?)?;
    arguments.push(store(alloc)?)?;
    arguments.push(export(alloc)?)?;
    arguments.push(modules(alloc)?)?;
    arguments.push(expected(alloc)?)?;
    arguments.push(object(alloc)?)?;
    arguments.push(pdb_dirs(alloc)?)?;
    arguments.push(words(alloc))?;
    Ok(arguments)
}

// Makes an option with this name. If it is repeated, the last one counts; it also overrides an earlier option that says
// the contrary.
fn option<'a>(alloc: Global, name: &'static str) -> Result<Arg<'a>, AllocError> {
    let argument = Arg::new(alloc, name).long(name);
    match name {
        "inlines" | "no-inlines" | "inlining" => {
            argument.overrides_with_all(&["inlines", "no-inlines", "inlining"])
        }
        "demangle" | "no-demangle" => argument.overrides_with_all(&["demangle", "no-demangle"]),
        _ => argument.overrides_with(name),
    }
}

fn flag_argument<'a>(alloc: Global, flag: &Flag) -> Result<Arg<'a>, AllocError> {
    let argument = option(alloc, flag.name)?
        .action(ArgAction::SetTrue)
        .help(flag.help);
    let argument = match flag.short {
        Some(short) => argument.short(short),
        None => argument,
    };
    match flag.alias {
        Some(alias) => argument.alias(alias),
        None => Ok(argument),
    }
}

// A flag that the help doesn't list.
fn hidden_flag<'a>(alloc: Global, name: &'static str) -> Result<Arg<'a>, AllocError> {
    Ok(option(alloc, name)?.action(ArgAction::SetTrue).hide(true))
}

// An option with a value that the help doesn't list.
fn hidden_option<'a>(alloc: Global, name: &'static str) -> Result<Arg<'a>, AllocError> {
    Ok(option(alloc, name)?.hide(true))
}

// `llvm-symbolizer`'s older option for `--inlines` and `--no-inlines`.
fn inlining<'a>(alloc: Global) -> Result<Arg<'a>, AllocError> {
    Ok(
        hidden_option(alloc, "inlining")?
            .num_args(0..=1)
            .require_equals(true)
            .default_value("")
            .default_missing_value("true"),
    )
}

fn valued_argument<'a>(alloc: Global, valued: &Valued) -> Result<Arg<'a>, AllocError> {
    Ok(
        option(alloc, valued.name)?
            .value_name(valued.value_name)
            .default_value(valued.default)
            .hide_default_value(true)
            .help(valued.help),
    )
}

fn functions<'a>(alloc: Global) -> Result<Arg<'a>, AllocError> {
    Ok(
        option(alloc, "functions")?
            .short('f')
            .value_name("STYLE")
            .num_args(0..=1)
            .require_equals(true)
            .default_value("")
            .hide_default_value(true)
            .default_missing_value("signature")
            .help("What to print of a name: none, short or signature"),
    )
}

fn store<'a>(alloc: Global) -> Result<Arg<'a>, AllocError> {
    option(alloc, "store")?
        .value_name("DIR")
        .help("With --dump-syms: write it as DIR/app.pdb/ID/app.sym")
        .requires_arg("dump-syms")
}

fn export<'a>(alloc: Global) -> Result<Arg<'a>, AllocError> {
    Ok(
        option(alloc, "export")?
            .value_name("RECORDS")
            .help("Write the records to this records file"),
    )
}

fn modules<'a>(alloc: Global) -> Result<Arg<'a>, AllocError> {
    option(alloc, "modules")?
        .value_name("FOLDER")
        .help("With --export: a file for each module in this folder")
        .requires_arg("export")
}

fn expected<'a>(alloc: Global) -> Result<Arg<'a>, AllocError> {
    Ok(
        option(alloc, "expect-id")?
            .value_name("ID")
            .help("Refuse a file of another build; any age of a GUID alone"),
    )
}

fn object<'a>(alloc: Global) -> Result<Arg<'a>, AllocError> {
    option(alloc, "obj")?
        .short('e')
        .value_name("FILE")
        .help("FILE, in place of the first word; bare digits are decimal")
        .alias("exe")
}

fn pdb_dirs<'a>(alloc: Global) -> Result<Arg<'a>, AllocError> {
    Arg::new(alloc, "pdb-dir")
        .long("pdb-dir")
        .value_name("DIR")
        .action(ArgAction::Append)
        .help("Look for a program's PDB file here too; all of these count")
        .alias("debug-file-directory")
}

fn words<'a>(alloc: Global) -> Arg<'a> {
    Arg::new(alloc, "WORD")
        .num_args(0..)
        .action(ArgAction::Append)
        .help("FILE (program, PDB file or records file), and addresses")
}
