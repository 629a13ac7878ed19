//! Writes a report: looks up each address, and writes its complete text before the next lookup.

ghost use Rattle.std.specs.Prelude.{◌≡◌, [], ◌∷◌, map, Ok, OnOk, OnErr, IfErr};
ghost use Rattle.pdb_errors.specs.declared.error.Error.TheVariants.{OutOfMemory};
ghost use Rattle.pdb_report_lib.specs.declared.reports.ReportFault.TheVariants.{Lookup, Write};
ghost use Rattle.pdb_addr2line.specs.declared.calls.Call.TheVariants.{FindFrames};
ghost use Rattle.pdb_errors.specs.Outcomes.{Gives};
ghost use Rattle.pdb_addr2line.specs.Calls.{after_frames, after_calls};
ghost use Rattle.pdb_addr2line.specs.Lookups.{frames_answered};
ghost use Rattle.pdb_addr2line.specs.FunctionIter.{functions_at, functions_of, start_addresses};
ghost use Rattle.pdb_addr2line.specs.FunctionIter.{after_function, after_functions, OnlyGainsBroken, IsCutShort};
ghost use Rattle.pdb_report_lib.specs.PrintedLines.{list_text};
ghost use Rattle.pdb_report_lib.specs.Reports.{function_text, stack_text, addresses_text, report_text};
ghost use Rattle.pdb_report_lib.specs.Reports.{TakesText, EndsAtOnce, EndsAmidTexts, EndsListEarly, EndsEarly};
ghost use Rattle.pdb_report_lib.specs.Reports.{report_calls, IsLeft, IsLeftAmid, IsLeftByFrames};

use crate::printed_frames::frames_text;
use crate::printed_lines::{list_line, names_line};
use crate::sinks::{Sink, SinkFault};
use pdb_addr2line::{Context, Error, FunctionFrames, ModuleProvider};
use std::alloc::{AllocError, Global};

/// A command of the program.
#[derive(Clone, Copy)]
pub enum Command {
    /// The function at each address.
    Names,
    /// The frames at each address, with files and lines, the innermost first.
    Frames,
    /// All functions of the program, sorted by start. It takes no addresses.
    List,
}

/// Why a report ended early.
#[derive(Debug, Drop)]
pub enum ReportFault {
    /// A lookup failed. The sink has the texts of the addresses before it, or for a list the lines of the functions
    /// before it.
    Lookup(Error),
    /// The sink refused a piece of text.
    Write,
}

impl From<Error> for ReportFault {
    ghost from_gives = { λ e r. r ≡ Lookup e };

    fn from(error: Error) -> ReportFault {
        ReportFault::Lookup(error)
    }
}

impl From<AllocError> for ReportFault {
    ghost from_gives = { λ _ r. r ≡ Lookup OutOfMemory };

    fn from(_error: AllocError) -> ReportFault {
        ReportFault::Lookup(Error::OutOfMemory)
    }
}

impl From<SinkFault> for ReportFault {
    ghost from_gives = { λ _ r. r ≡ Write };

    fn from(_fault: SinkFault) -> ReportFault {
        ReportFault::Write
    }
}

// The frames at an address. The parts that the context finds broken are remembered.
fn look_up_frames<'a, P: ModuleProvider>(
    context: &mut Context<'a, P>,
    address: u32,
) -> Result<Option<FunctionFrames<'a>>, Error>
    ensures answer { Gives (λ f. f) result (frames_answered P.info context.old address) }
    ensures state { OnOk result (context.new ≡ after_frames P.info context.old address) }
    ensures gains { OnOk result (OnlyGainsBroken P.info context.old context.new) }
    ensures early { IfErr result (λ e. IsLeftByFrames P.info context.old address (Lookup e) context.new) }
{
    context.find_frames(address)
}

// Looks up an address, and writes its line.
fn put_function<P: ModuleProvider, W: Sink>(
    alloc: Global,
    context: &mut Context<'_, P>,
    address: u32,
    sink: &mut W,
) -> Result<(), ReportFault>
    ensures inputs { context.new.inputs ≡ context.old.inputs }
    ensures state { OnOk result (context.new ≡ after_function P.info context.old address) }
    ensures gains { OnlyGainsBroken P.info context.old context.new }
    ensures text { OnOk result
        (TakesText (function_text P.info context.old.inputs address) (W.state sink.old) (W.state sink.new)) }
    ensures refused { IfErr result
        (EndsAtOnce (function_text P.info context.old.inputs address) (W.state sink.old) (W.state sink.new)) }
{
    let function = context.find_function(address)?;
    let line = names_line(alloc, address, &function)?;
    sink.put(line.as_bytes())?;
    Ok(())
}

// Looks up the frames at an address, and writes their lines.
fn put_frames<P: ModuleProvider, W: Sink>(
    alloc: Global,
    context: &mut Context<'_, P>,
    address: u32,
    sink: &mut W,
) -> Result<(), ReportFault>
    ensures inputs { context.new.inputs ≡ context.old.inputs }
    ensures code_failed { OnOk result (context.new.code_failed ≡ context.old.code_failed) }
    ensures state { OnOk result (context.new ≡ after_frames P.info context.old address) }
    ensures early { IfErr result (λ fault. IsLeftByFrames P.info context.old address fault context.new) }
    ensures text { OnOk result
        (let text = stack_text P.info context.old.inputs context.old.code_failed address in
        TakesText text (W.state sink.old) (W.state sink.new)) }
    ensures refused { IfErr result
        (let text = stack_text P.info context.old.inputs context.old.code_failed address in
        EndsAtOnce text (W.state sink.old) (W.state sink.new)) }
{
    let frames = look_up_frames(context, address)?;
    let text = frames_text(alloc, address, &frames)?;
    sink.put(text.as_bytes())?;
    Ok(())
}

// Looks up the function at a start address, and writes its line. Writes nothing if there is no function.
fn put_listed<P: ModuleProvider, W: Sink>(
    alloc: Global,
    context: &mut Context<'_, P>,
    start: u32,
    sink: &mut W,
) -> Result<(), ReportFault>
    ensures inputs { context.new.inputs ≡ context.old.inputs }
    ensures state { OnOk result (context.new ≡ after_function P.info context.old start) }
    ensures gains { OnlyGainsBroken P.info context.old context.new }
    ensures text { OnOk result (TakesText
        (Ok (list_text (functions_at P.info context.old.inputs (start ∷ [])))) (W.state sink.old) (W.state sink.new)) }
    ensures refused { IfErr result (EndsListEarly [] (W.state sink.old) (W.state sink.new)) }
{
    let Some(function) = context.find_function(start)? else {
        return Ok(());
    };
    let line = list_line(alloc, &function)?;
    sink.put(line.as_bytes())?;
    Ok(())
}

// Writes the line of the function at each address, in order. Each line is written before the next lookup.
fn report_names<P: ModuleProvider, W: Sink>(
    alloc: Global,
    context: &mut Context<'_, P>,
    addresses: &[u32],
    sink: &mut W,
) -> Result<(), ReportFault>
    ensures inputs { context.new.inputs ≡ context.old.inputs }
    ensures state { OnOk result (context.new ≡ after_functions P.info context.old addresses.now) }
    ensures early { OnErr result (IsCutShort P.info context.old context.new addresses.now) }
    ensures text { OnOk result (TakesText (addresses_text (function_text P.info context.old.inputs) addresses.now)
        (W.state sink.old) (W.state sink.new)) }
    ensures refused { IfErr result (EndsAmidTexts
        (function_text P.info context.old.inputs) addresses.now (W.state sink.old) (W.state sink.new)) }
{
    for address in addresses {
        put_function(alloc, context, *address, sink)?;
    }
    Ok(())
}

// Writes the lines of the frames at each address, in order. They are written before the next lookup.
fn report_frames<P: ModuleProvider, W: Sink>(
    alloc: Global,
    context: &mut Context<'_, P>,
    addresses: &[u32],
    sink: &mut W,
) -> Result<(), ReportFault>
    ensures inputs { context.new.inputs ≡ context.old.inputs }
    ensures state { OnOk result
        (context.new ≡ after_calls P.info context.old (map FindFrames addresses.now)) }
    ensures early { IfErr result (IsLeftAmid P.info context.old context.new addresses.now) }
    ensures text { OnOk result
        (let text_of = stack_text P.info context.old.inputs context.old.code_failed in
        TakesText (addresses_text text_of addresses.now) (W.state sink.old) (W.state sink.new)) }
    ensures refused { IfErr result
        (let text_of = stack_text P.info context.old.inputs context.old.code_failed in
        EndsAmidTexts text_of addresses.now (W.state sink.old) (W.state sink.new)) }
{
    for address in addresses {
        put_frames(alloc, context, *address, sink)?;
    }
    Ok(())
}

// Writes the lines of all functions, sorted by start address. Each line is written before the next lookup.
fn report_list<P: ModuleProvider, W: Sink>(
    alloc: Global,
    context: &mut Context<'_, P>,
    sink: &mut W,
) -> Result<(), ReportFault>
    ensures inputs { context.new.inputs ≡ context.old.inputs }
    ensures state { OnOk result (context.new
        ≡ after_functions P.info context.old (start_addresses P.info context.old.inputs)) }
    ensures early { OnErr result
        (IsCutShort P.info context.old context.new (start_addresses P.info context.old.inputs)) }
    ensures text { OnOk result (TakesText
        (Ok (list_text (functions_of P.info context.old.inputs))) (W.state sink.old) (W.state sink.new)) }
    ensures refused { IfErr result
        (EndsListEarly (functions_of P.info context.old.inputs) (W.state sink.old) (W.state sink.new)) }
{
    let starts = context.start_addresses()?;
    for start in &starts {
        put_listed(alloc, context, *start, sink)?;
    }
    Ok(())
}

/// Writes the report of a command: about each address in order, or about each function. Each text is written completely
/// before the next lookup. [`Command::List`] ignores the addresses.
///
/// # Errors
///
/// [`ReportFault::Lookup`] at the first address whose lookup fails, or on allocation failure. [`ReportFault::Write`] if
/// the sink refuses a text.
pub fn report<P: ModuleProvider, W: Sink>(
    alloc: Global,
    context: &mut Context<'_, P>,
    command: Command,
    addresses: &[u32],
    sink: &mut W,
) -> Result<(), ReportFault>
    ensures inputs { context.new.inputs ≡ context.old.inputs }
    ensures state { OnOk result
        (context.new ≡ after_calls P.info context.old (report_calls command addresses.now)) }
    ensures early { IfErr result (IsLeft P.info context.old context.new command addresses.now) }
    ensures text { OnOk result
        (let text = report_text P.info context.old.inputs context.old.code_failed command addresses.now in
        TakesText text (W.state sink.old) (W.state sink.new)) }
    ensures refused { IfErr result (EndsEarly P.info context.old.inputs context.old.code_failed
        command addresses.now (W.state sink.old) (W.state sink.new)) }
{
    match command {
        Command::Names => report_names(alloc, context, addresses, sink),
        Command::Frames => report_frames(alloc, context, addresses, sink),
        Command::List => report_list(alloc, context, sink),
    }
}
