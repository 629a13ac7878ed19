//! Reads a module's stream: its symbols, and the subsections of lines, files, inlinees, imports and exports.

ghost use Rattle.std.specs.Prelude.{◌≡◌, Ok, Err, map, option_map, IfErr, IfOk, MatchResult};
ghost use Rattle.pdb_msf.specs.Faults.{Gives};
ghost use Rattle.pdb_codeview.specs.InlineSites.{code_of};
ghost use Rattle.pdb_container.specs.ModuleStreams.{all_of_kind, code_in, exports_of, files_of, first_of_kind};
ghost use Rattle.pdb_container.specs.ModuleStreams.{first_or_empty, imports_of, inlinees_of, line_program};
ghost use Rattle.pdb_container.specs.ModuleStreams.{line_subsections, module_in, module_in_parts, subsections, symbols_of_substream};

use pdb_codeview::{
    CodeRecords, Files, LineSubsection, program_entries, read_exports, read_files, read_imports,
    read_inlinees, read_lines, read_symbols, symbol_spans,
};
use pdb_dbi::{ModuleStream, Substream, take_substream};
use pdb_msf::faults::{Fault, UNKNOWN_VERSION, part_or_fault};
use pdb_msf::{Bytes, ItemReader, PaddedItems, nothing_read, read_items};
use pdb_records::{
    CrossModuleExports, CrossModuleImports, LineProgram, ModuleInfo, Reading, StreamError, Symbol,
};
use std::alloc::{AllocError, Global};
use std::marker::Model;

/// The only known form of symbols (C13), by the number before them.
const SYMBOLS_FORM: u32 = 4;

/// The size of that number in bytes.
const SYMBOLS_FRONT: u32 = 4;

const LINES: u32 = 0xf2;

const FILES: u32 = 0xf4;

const INLINEES: u32 = 0xf6;

const IMPORTS: u32 = 0xf7;

const EXPORTS: u32 = 0xf8;

/// A subsection of a module's debug data: lines, files, inlinees, imports or exports.
#[derive(Drop)]
struct Subsection<'a> {
    kind: u32,
    content: &'a [u8],
}

impl<'a> Model for Subsection<'a> {
    ghost use Rattle.pdb_container.specs.ModuleStreams.{SubsectionBytes};

    ghost Value = { SubsectionBytes };

    ghost view = { λ s. record { kind = s.kind; content = s.content.now } };
}

/// Reads the records of a module from the bytes of its stream.
#[tactic(auto, unfolding(crate::specs::ModuleStreams::module_in))]
pub fn read_module(alloc: Global, place: ModuleStream, stream: &[u8]) -> Result<ModuleInfo, Fault>
    ensures answer { IfOk result (λ info. info ≡ module_in place stream.now) }
    ensures memory { IfErr result (λ fault. fault ≡ Fault.OutOfMemory) }
{
    let mut bytes = Bytes::new(stream);
    let symbols = take_substream(&mut bytes, place.symbols);
    take_substream(&mut bytes, place.c11_lines);
    let lines = take_substream(&mut bytes, place.lines);
    read_parts(alloc, &symbols, &lines)
}

// Reads the records of a module from its symbols and subsections.
fn read_parts(
    alloc: Global,
    symbols: &Substream<'_>,
    lines: &Substream<'_>,
) -> Result<ModuleInfo, Fault>
    ensures answer { IfOk result (λ info. info ≡ module_in_parts symbols.now lines.now) }
    ensures memory { IfErr result (λ fault. fault ≡ Fault.OutOfMemory) }
{
    let subsections = read_subsections(alloc, lines)?;
    let code = read_code(alloc, &subsections)?;
    let symbols = module_symbols(alloc, symbols, &code)?;
    let program = read_line_program(alloc, &subsections, &code.files, &symbols.items);
    let line_program = part_or_fault(program)?;
    let imports = part_or_fault(module_imports(alloc, &subsections))?;
    let exports = part_or_fault(module_exports(alloc, &subsections))?;
    let CodeRecords { files: _, inlinees } = code;
    Ok(ModuleInfo {
        symbols,
        line_program,
        inlinees: inlinees.list,
        imports,
        exports,
    })
}

// Reads the subsections of a substream in turn.
fn read_subsections<'a>(
    alloc: Global,
    substream: &Substream<'a>,
) -> Result<Reading<Subsection<'a>>, AllocError>
    ensures { IfOk result (λ read. read ≡ subsections substream.now) }
{
    let mut list = read_items(alloc, &PaddedItems(Subsections), substream.bytes)?;
    list.fault = list.fault.or(substream.fault);
    Ok(list)
}

/// Reads subsections, without the padding after each.
#[derive(Drop)]
struct Subsections;

impl<'a> ItemReader<'a> for Subsections {
    type Item = Subsection<'a>;

    ghost use Rattle.pdb_container.specs.ModuleStreams.{first_subsection};

    ghost first = { λ _. first_subsection };

    fn take(&self, rest: &mut Bytes<'a>) -> Result<Subsection<'a>, Fault> {
        let kind = rest.u32()?;
        let length = rest.u32()?;
        let content = rest.take(length as usize)?;
        Ok(Subsection { kind, content })
    }
}

// The content of the first subsection of this kind.
fn first_of_kind<'a>(list: &[Subsection<'a>], kind: u32) -> Option<&'a [u8]>
    ensures { option_map (λ content. content.now) result ≡ first_of_kind kind list.now }
{
    for subsection in list {
        if subsection.kind == kind {
            return Some(subsection.content);
        }
    }
    None
}

// The contents of all subsections of this kind.
fn all_of_kind<'a>(
    alloc: Global,
    list: &[Subsection<'a>],
    kind: u32,
) -> Result<Vec<&'a [u8]>, AllocError>
    ensures { IfOk result (λ all. map (λ content. content.now) all.items ≡ all_of_kind kind list.now) }
{
    let mut all = Vec::new(alloc);
    for subsection in list {
        if subsection.kind == kind {
            all.push(subsection.content)?;
        }
    }
    Ok(all)
}

// The content of the first subsection of this kind. If there is none, it is empty; or an error, if not all subsections
// could be read.
fn first_or_empty<'a>(
    subsections: &Reading<Subsection<'a>>,
    kind: u32,
) -> Result<&'a [u8], StreamError>
    ensures { MatchResult result (λ content. first_or_empty kind subsections.now ≡ Ok content.now)
        (λ error. first_or_empty kind subsections.now ≡ Err error) }
{
    match (first_of_kind(&subsections.items, kind), subsections.fault) {
        (Some(content), _) => Ok(content),
        (None, None) => Ok(&[]),
        (None, Some(error)) => Err(error),
    }
}

// Reads what inline sites refer to: files and inlinees.
fn read_code(alloc: Global, subsections: &Reading<Subsection<'_>>) -> Result<CodeRecords, Fault>
    ensures code { IfOk result (λ code. code_of code ≡ code_in subsections.now) }
    ensures files { IfOk result (λ code. code.files.fault ≡ (files_of subsections.now).fault) }
    ensures inlinees { IfOk result (λ code. code.inlinees.list ≡ inlinees_of subsections.now) }
    ensures memory { IfErr result (λ fault. fault ≡ Fault.OutOfMemory) }
{
    let files = read_files(alloc, &all_of_kind(alloc, &subsections.items, FILES)?)?;
    let mut inlinees = read_inlinees(alloc, &all_of_kind(alloc, &subsections.items, INLINEES)?)?;
    inlinees.list.fault = inlinees.list.fault.or(subsections.fault);
    Ok(CodeRecords { files, inlinees })
}

// Reads the symbols after the number of their form. They end early if the stream does.
fn module_symbols(
    alloc: Global,
    substream: &Substream<'_>,
    code: &CodeRecords,
) -> Result<Reading<Symbol>, Fault>
    ensures answer { IfOk result (λ read. read ≡ symbols_of_substream (code_of code.now) substream.now) }
    ensures memory { IfErr result (λ fault. fault ≡ Fault.OutOfMemory) }
{
    let mut rest = Bytes::new(substream.bytes);
    if rest.is_empty() {
        return Ok(nothing_read(alloc, substream.fault));
    }
    match rest.u32() {
        Ok(SYMBOLS_FORM) => {
            let mut symbols = read_symbols(alloc, rest.rest(), SYMBOLS_FRONT, code)?;
            symbols.fault = symbols.fault.or(substream.fault);
            Ok(symbols)
        }
        Ok(_) => Ok(nothing_read(alloc, Some(UNKNOWN_VERSION))),
        Err(error) => Ok(nothing_read(alloc, Some(error))),
    }
}

// Reads the line rows of all functions, and the files. If the list of subsections or of files is broken, there are
// none.
fn read_line_program(
    alloc: Global,
    subsections: &Reading<Subsection<'_>>,
    files: &Files,
    symbols: &[Symbol],
) -> Result<LineProgram, Fault>
    requires items { files.now.entries.items ≡ (files_of subsections.now).items }
    requires fault { files.now.fault ≡ (files_of subsections.now).fault }
    ensures { Gives (λ program. program) result (line_program subsections.now symbols.now) }
{
    if let Some(error) = subsections.fault.or(files.fault) {
        return Err(Fault::Broken(error));
    }
    let bytes = all_of_kind(alloc, &subsections.items, LINES)?;
    let lines = read_all_lines(alloc, &bytes, files)?;
    let procedures = symbol_spans(alloc, symbols)?;
    Ok(LineProgram {
        entries: program_entries(alloc, lines, procedures)?,
        files: files.infos(alloc)?,
    })
}

// Reads all subsections of lines.
fn read_all_lines(
    alloc: Global,
    subsections: &[&[u8]],
    files: &Files,
) -> Result<Vec<LineSubsection>, Fault>
    ensures { Gives (λ lines. lines.items) result
        (line_subsections files.now.entries.items (map (λ s. s.now) subsections.now)) }
{
    let mut lines = Vec::with_capacity(alloc, subsections.len())?;
    for bytes in subsections {
        lines.push(read_lines(alloc, bytes, files)?)?;
    }
    Ok(lines)
}

fn module_imports(
    alloc: Global,
    subsections: &Reading<Subsection<'_>>,
) -> Result<CrossModuleImports, Fault>
    ensures { Gives (λ read. read) result (imports_of subsections.now) }
{
    read_imports(alloc, first_or_empty(subsections, IMPORTS)?)
}

fn module_exports(
    alloc: Global,
    subsections: &Reading<Subsection<'_>>,
) -> Result<CrossModuleExports, Fault>
    ensures { Gives (λ read. read) result (exports_of subsections.now) }
{
    read_exports(alloc, first_or_empty(subsections, EXPORTS)?)
}
