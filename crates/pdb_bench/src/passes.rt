//! Passes over addresses: repeated lookups of functions or of frames in one context, with the time of each pass.

use crate::steps::{print_memory, print_time};
use anyhow::Result;
use pdb_addr2line::pdb::PDB;
use pdb_addr2line::{Context, ContextPdbData, ModuleProvider};
use std::rt::{Clock, Files};
use std::time::Instant;

/// The passes over the addresses. The first one reads the records, and the later ones find them cached.
const PASSES: [&str; 5] = [
    "first pass",
    "second pass",
    "third pass",
    "fourth pass",
    "fifth pass",
];

/// The kind of lookup.
#[derive(Clone, Copy)]
enum Question {
    Function,
    Frames,
}

impl Question {
    /// The name of what is looked up.
    fn name(self) -> &'static str {
        match self {
            Question::Function => "functions",
            Question::Frames => "frames",
        }
    }
}

/// Owns records, and looks up addresses in them.
pub(crate) fn measure_records<R: Files + Clock + Print + Eprint + AllocGlobal>(
    rt: &R,
    records: PDB,
    addresses: &[u32],
) -> Result<()> {
    let data = ContextPdbData::try_from_pdb(rt.alloc(), records)?;
    measure_data(rt, &data, addresses)
}

/// Looks up the functions and the frames at addresses, in two contexts.
fn measure_data<R: Files + Clock + Print + Eprint + AllocGlobal>(
    rt: &R,
    data: &ContextPdbData<'_>,
    addresses: &[u32],
) -> Result<()> {
    println!(rt; "{0} addresses", addresses.len())?;
    measure_question(rt, data, addresses, Question::Function)?;
    measure_question(rt, data, addresses, Question::Frames)?;
    print_memory(rt)
}

/// Makes a context, and looks up the addresses.
fn measure_question<R: Clock + Print + Eprint>(
    rt: &R,
    data: &ContextPdbData<'_>,
    addresses: &[u32],
    question: Question,
) -> Result<()> {
    let start = Instant::now(rt)?;
    let mut context = data.make_context()?;
    measure_passes(rt, &mut context, start, addresses, question)
}

/// Looks up the addresses several times. `begun` is when the context was started.
fn measure_passes<R: Clock + Print + Eprint, P: ModuleProvider>(
    rt: &R,
    context: &mut Context<'_, P>,
    begun: Instant,
    addresses: &[u32],
    question: Question,
) -> Result<()> {
    print_time(rt, "context made", begun)?;
    for pass in PASSES {
        measure_pass(rt, context, pass, addresses, question)?;
    }
    Ok(())
}

/// Looks up the addresses once.
fn measure_pass<R: Clock + Print + Eprint, P: ModuleProvider>(
    rt: &R,
    context: &mut Context<'_, P>,
    pass: &str,
    addresses: &[u32],
    question: Question,
) -> Result<()> {
    let name = question.name();
    let start = Instant::now(rt)?;
    let found = match question {
        Question::Function => count_functions(context, addresses)?,
        Question::Frames => count_frames(context, addresses)?,
    };
    print_time(rt, name, start)?;
    println!(rt; "{pass}: {found} {name}")?;
    Ok(())
}

/// How many functions the addresses have in all.
fn count_functions<P: ModuleProvider>(
    context: &mut Context<'_, P>,
    addresses: &[u32],
) -> pdb_addr2line::Result<usize> {
    let mut found = 0usize;
    for address in addresses {
        let function = context.find_function(*address)?;
        found = found.saturating_add(function.iter().count());
    }
    Ok(found)
}

/// How many frames the addresses have in all.
fn count_frames<P: ModuleProvider>(
    context: &mut Context<'_, P>,
    addresses: &[u32],
) -> pdb_addr2line::Result<usize> {
    let mut found = 0usize;
    for address in addresses {
        if let Some(shown) = context.find_frames(*address)? {
            found = found.saturating_add(shown.frames.len());
        }
    }
    Ok(found)
}
