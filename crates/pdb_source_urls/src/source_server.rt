//! Source server data: a text of sections, with variables and a line for each source file.

ghost use Rattle.std.specs.Prelude.{◌≡◌, IfOk, OnOk, map};
ghost use Rattle.pdb_source_urls.specs.SourceServer.{definition_seen, section_of, server_of, server_seen};
ghost use Rattle.pdb_source_urls.specs.SourceServer.{with_definition, with_line, with_line_by, without_return};
ghost use Rattle.pdb_source_urls.specs.SourceServer.{after_line, first_line};
ghost use Rattle.pdb_source_urls.specs.TextCuts.{cut_at};

use crate::server_files::ServerFiles;
use crate::text_cuts::cut_at;
use std::alloc::{AllocError, Global};

/// How many definitions of variables count at most.
const MOST_DEFINITIONS: usize = 1000;

/// Source server data.
#[derive(Drop)]
pub(crate) struct SourceServer {
    /// In the order of their definitions.
    pub(crate) variables: Vec<Variable>,
    /// In the order of their lines.
    pub(crate) files: ServerFiles,
}

/// A variable.
#[derive(Drop)]
pub(crate) struct Variable {
    pub(crate) name: Vec<u8>,
    pub(crate) value: Vec<u8>,
}

/// What the lines of a section are.
#[derive(Clone, Copy)]
pub(crate) enum Section {
    /// Definitions of variables.
    Variables,
    /// Source files.
    Files,
    /// They say nothing.
    Other,
}

/// The source server data of a stream.
#[tactic(auto, using(crate::proofs::ServerLemmas::after_line_shorter), unfolding(crate::specs::SourceServer::server_of))]
pub(crate) fn read_server(alloc: Global, text: &[u8]) -> Result<SourceServer, AllocError>
    ensures { IfOk result (λ server. server_seen server ≡ server_of text.now) }
{
    let mut server = SourceServer {
        variables: Vec::new(alloc),
        files: ServerFiles::new(alloc),
    };
    let mut section = Section::Other;
    let mut rest = text;
    while !rest.is_empty() {
        let (line, others) = first_line(rest);
        let started = section_of(line);
        add_line_by(&mut server, started, section, line)?;
        section = started.unwrap_or(section);
        rest = others;
    }
    Ok(server)
}

// Adds what a line says, unless it starts a section.
fn add_line_by(
    server: &mut SourceServer,
    started: Option<Section>,
    section: Section,
    line: &[u8],
) -> Result<(), AllocError>
    ensures { OnOk result (server_seen server.new ≡ with_line_by started section line.now (server_seen server.old)) }
{
    match started {
        Some(_) => Ok(()),
        None => add_line(server, section, line),
    }
}

// Adds what a line of a section says.
fn add_line(server: &mut SourceServer, section: Section, line: &[u8]) -> Result<(), AllocError>
    ensures { OnOk result (server_seen server.new ≡ with_line section line.now (server_seen server.old)) }
{
    match section {
        Section::Variables => add_variable(&mut server.variables, line),
        Section::Files => server.files.push(line),
        Section::Other => Ok(()),
    }
}

// Adds the variable that a line defines, if it defines one.
fn add_variable(variables: &mut Vec<Variable>, line: &[u8]) -> Result<(), AllocError>
    ensures { OnOk result (map definition_seen variables.new.items
        ≡ with_definition (cut_at 61 line.now) (map definition_seen variables.old.items)) }
{
    let Some((name, value)) = cut_at(line, b'=') else {
        return Ok(());
    };
    if MOST_DEFINITIONS <= variables.len() {
        return Ok(());
    }
    let alloc = *variables.allocator();
    let variable = Variable {
        name: Vec::from_slice(alloc, name)?,
        value: Vec::from_slice(alloc, value)?,
    };
    variables.push(variable)?;
    Ok(())
}

// The first line of a text, without its end, and the text after it.
fn first_line(text: &[u8]) -> (&[u8], &[u8])
    ensures line { result.0.now ≡ without_return (first_line text.now) }
    ensures rest { result.1.now ≡ after_line text.now }
{
    match cut_at(text, b'\n') {
        Some((line, rest)) => (without_return(line), rest),
        None => (without_return(text), &[]),
    }
}

// A line without the carriage return at its end.
fn without_return(line: &[u8]) -> &[u8]
    ensures { result.now ≡ without_return line.now }
{
    match line {
        [front @ .., b'\r'] => front,
        _ => line,
    }
}

// The section that a line starts, if it starts one.
fn section_of(line: &[u8]) -> Option<Section>
    ensures { result ≡ section_of line.now }
{
    if line.starts_with(b"SRCSRV: ini") || line.starts_with(b"SRCSRV: variables") {
        return Some(Section::Variables);
    }
    if line.starts_with(b"SRCSRV: source files") {
        return Some(Section::Files);
    }
    if line.starts_with(b"SRCSRV: end") {
        return Some(Section::Other);
    }
    None
}
