//! The records of a function: its addresses, its inlined calls and its lines, collected piece by piece.

ghost use Rattle.std.specs.Prelude.{◌≡◌, ◌≤◌, ◌<◌, ◌+◌, ℕ, List, [], true, Some, None, is_some, IfOk, OnOk};
ghost use Rattle.std.specs.Prelude.{◌++◌, All, string_bytes, if◌then◌else◌};
ghost use Rattle.std.specs.List.{flat_map};
ghost use Rattle.pdb_breakpad.specs.AddressSpans.{Ascend, EndBefore, content_at};
ghost use Rattle.pdb_breakpad.specs.InlineRecords.{LevelEndsBefore, calls_at};
ghost use Rattle.pdb_breakpad.specs.FunctionTexts.{function_head, function_text, line_line, parameter_size};
ghost use Rattle.pdb_breakpad.specs.FunctionRecords.{InOrder, IsNumbered, IsOf, Reads};
ghost use Rattle.pdb_breakpad.specs.NumberedCode.{KeepsAllNames};
ghost use Rattle.pdb_breakpad.specs.ShownFrames.{answer_shown, own_name};
ghost use Rattle.pdb_breakpad.specs.WrittenRecords.{AreReadable, FitsPlace, FitsSpan};

use crate::address_spans::{AddressSpans, Span, size_between};
use crate::inline_records::InlineRecords;
use crate::name_text::push_name;
use crate::numbered_code::{NumberedCode, SourceLocation, number_code};
use crate::pieces::Piece;
use crate::record_numbers::Numbers;
use crate::shown_names::{are_equal, function_name};
use pdb_addr2line::FunctionFrames;
use pdb_tables::{Probes, Segments};
use std::alloc::{AllocError, Global};

/// The records of a function so far, while the walk is still inside it.
#[derive(Drop)]
pub(crate) struct FunctionRecords<'a> {
    /// The answer at the last address, with its frames from the outermost to the innermost.
    found: FunctionFrames<'a>,
    /// The inlined calls and the location at the last address.
    code: NumberedCode,
    start: u32,
    last: u32,
    inlines: InlineRecords,
    lines: AddressSpans<SourceLocation>,
}

impl<'a> FunctionRecords<'a> {
    #[tactic(auto, using(crate::proofs::FunctionRecordLemmas::recorded))]
    /// The records of a function whose first piece was reached. The frames of the answer are ordered from the outermost
    /// to the innermost.
    pub(crate) fn new(
        alloc: Global,
        numbers: &mut Numbers,
        piece: Piece,
        found: FunctionFrames<'a>,
    ) -> Result<Self, AllocError>
        ensures answer { IfOk result (λ records. (a : ℕ) → piece.first ≤ a → a ≤ piece.last
            → Reads numbers.new records a (answer_shown found.entry)) }
        ensures addresses { IfOk result (λ records. (records.start ≡ piece.first) × (records.last ≡ piece.last)) }
        ensures order { IfOk result InOrder }
        ensures numbered { IfOk result (IsNumbered numbers.new) }
        ensures names { KeepsAllNames numbers.old numbers.new }
    {
        let code = number_code(alloc, numbers, &found.frames)?;
        let mut records = FunctionRecords {
            found,
            code,
            start: piece.first,
            last: piece.last,
            inlines: InlineRecords::new(alloc),
            lines: AddressSpans::new(alloc),
        };
        records.add_code(piece, false)?;
        Ok(records)
    }

    /// Whether an answer belongs to this function: it has the same start, end and name. Its frames are ordered from the
    /// outermost to the innermost.
    pub(crate) fn is_of(&self, found: &FunctionFrames<'_>) -> bool
        ensures { result ≡ true → IsOf self.now.found found.now }
    {
        self.found.start_rva == found.start_rva
            && self.found.end_rva == found.end_rva
            && own_name(&self.found) == own_name(found)
    }

    #[tactic(auto, using(crate::proofs::FunctionRecordLemmas::recorded))]
    /// Adds the next piece, whose answer belongs to this function. Its frames are ordered from the outermost to the
    /// innermost.
    pub(crate) fn add(
        &mut self,
        numbers: &mut Numbers,
        piece: Piece,
        found: FunctionFrames<'a>,
    ) -> Result<(), AllocError>
        requires next { piece.first ≡ self.old.last + 1 }
        requires same { IsOf self.old.found found }
        requires order { InOrder self.old }
        requires numbered { IsNumbered numbers.old self.old }
        ensures answer { OnOk result ((a : ℕ) → piece.first ≤ a → a ≤ piece.last
            → Reads numbers.new self.new a (answer_shown found.entry)) }
        ensures unchanged { OnOk result ((a : ℕ) → a ≤ self.old.last
            → (calls_at a self.new.inlines ≡ calls_at a self.old.inlines)
            × (content_at a self.new.lines ≡ content_at a self.old.lines)) }
        ensures name { OnOk result (own_name self.old.found.frames ≡ own_name self.new.found.frames) }
        ensures addresses { OnOk result ((self.new.start ≡ self.old.start) × (self.new.last ≡ piece.last)) }
        ensures order { OnOk result (InOrder self.new) }
        ensures numbered { OnOk result (IsNumbered numbers.new self.new) }
        ensures names { KeepsAllNames numbers.old numbers.new }
    {
        let goes_on = are_equal(&self.found.frames, &found.frames);
        if !goes_on {
            let alloc = *self.code.calls.allocator();
            self.code = number_code(alloc, numbers, &found.frames)?;
        }
        self.found = found;
        self.last = piece.last;
        self.add_code(piece, goes_on)
    }

    // Adds the calls and the line over the last piece, unless the function's end isn't known. If all frames are the
    // same as before, the line record is extended.
    #[tactic(auto, using(crate::proofs::InlineRecordLemmas::past))]
    fn add_code(&mut self, piece: Piece, goes_on: bool) -> Result<(), AllocError>
        requires inlines { (level : ℕ) → LevelEndsBefore piece.first self.old.inlines level }
        requires lines { EndBefore piece.first self.old.lines }
        ensures calls { OnOk result ((a : ℕ) → piece.first ≤ a → a ≤ piece.last → calls_at a self.new.inlines
            ≡ (if is_some self.new.found.end_rva then self.new.code.calls.items else [])) }
        ensures place { OnOk result ((a : ℕ) → piece.first ≤ a → a ≤ piece.last → content_at a self.new.lines
            ≡ (if is_some self.new.found.end_rva then self.new.code.place else None)) }
        ensures unchanged { OnOk result ((a : ℕ) → a < piece.first
            → (calls_at a self.new.inlines ≡ calls_at a self.old.inlines)
            × (content_at a self.new.lines ≡ content_at a self.old.lines)) }
        ensures inlines { OnOk result ((level : ℕ) → LevelEndsBefore (piece.last + 1) self.new.inlines level) }
        ensures lines { OnOk result (EndBefore (piece.last + 1) self.new.lines) }
        ensures found { self.new.found ≡ self.old.found }
        ensures code { self.new.code ≡ self.old.code }
        ensures addresses { (self.new.start ≡ self.old.start) × (self.new.last ≡ self.old.last) }
    {
        if self.found.end_rva.is_none() {
            return Ok(());
        }
        self.inlines.add(piece, &self.code.calls)?;
        let Some(place) = self.code.place else {
            return Ok(());
        };
        add_line(&mut self.lines, piece, place, goes_on)
    }

    /// The text of the records, after the last piece was added. `parameters` has the sizes of parameters by address. A
    /// function whose end isn't known has no lines and no inlined calls.
    pub(crate) fn text(
        &self,
        alloc: Global,
        parameters: &Segments<u32>,
    ) -> Result<String, AllocError>
        ensures answer { IfOk result (λ text. string_bytes text ≡ function_text parameters.now self.now) }
        ensures readable { IfOk result (λ text. AreReadable parameters.now self.now) }
    {
        let mut text = String::new(alloc);
        let size = parameter_size(parameters, self.start);
        push_head(&mut text, size, self.found.end_rva, self.start, self.last)?;
        push_name(&mut text, own_name(&self.found))?;
        self.inlines.push_records(&mut text)?;
        push_lines(&mut text, &self.lines)?;
        Ok(text)
    }
}

// How many bytes of parameters the function at an address takes from the stack; 0 if that isn't known.
fn parameter_size(parameters: &Segments<u32>, start: u32) -> u32
    ensures { result ≡ parameter_size parameters.now start }
{
    let mut probes = Probes::new();
    parameters.find(u64::from(start), &mut probes).unwrap_or(0)
}

// Appends the beginning of a function's record, up to its name.
fn push_head(
    text: &mut String,
    parameter_size: u32,
    end: Option<u32>,
    start: u32,
    last: u32,
) -> Result<(), AllocError>
    ensures { OnOk result (string_bytes text.new
        ≡ string_bytes text.old ++ function_head parameter_size end start last) }
{
    let size = size_between(start, last);
    match end {
        Some(_) => write!(text, "FUNC {start:x} {size:x} {parameter_size:x} "),
        None => write!(text, "PUBLIC {start:x} {parameter_size:x} "),
    }
}

// Adds the source location of a piece, which is after all others.
fn add_line(
    lines: &mut AddressSpans<SourceLocation>,
    piece: Piece,
    place: SourceLocation,
    goes_on: bool,
) -> Result<(), AllocError>
    requires order { EndBefore piece.first lines.old }
    ensures answer { OnOk result ((a : ℕ) → piece.first ≤ a → a ≤ piece.last
        → content_at a lines.new ≡ Some place) }
    ensures unchanged { OnOk result ((a : ℕ) → a < piece.first → content_at a lines.new ≡ content_at a lines.old) }
    ensures order { OnOk result (EndBefore (piece.last + 1) lines.new) }
{
    if goes_on && lines.content_before(piece.first) == Some(place) {
        lines.lengthen(piece)
    } else {
        lines.begin(piece, place)
    }
}

// Appends the records of lines.
fn push_lines(text: &mut String, lines: &AddressSpans<SourceLocation>) -> Result<(), AllocError>
    ensures state { OnOk result (string_bytes text.new ≡ string_bytes text.old ++ flat_map line_line lines.now) }
    ensures order { Ascend lines.now }
    ensures fits { OnOk result (All (FitsSpan FitsPlace) lines.now) }
{
    for span in lines.spans() {
        push_line(text, span)?;
    }
    Ok(())
}

// Appends the record of a line.
#[tactic(auto, unfolding(crate::specs::FunctionTexts::line_line))]
fn push_line(text: &mut String, span: &Span<SourceLocation>) -> Result<(), AllocError>
    ensures state { OnOk result (string_bytes text.new ≡ string_bytes text.old ++ line_line span.now) }
    ensures fits { FitsSpan FitsPlace span.now }
{
    let SourceLocation { file, line } = span.content;
    let start = span.start;
    let size = size_between(start, span.last);
    write!(text, "{start:x} {size:x} {line} {file}\n")
}

// The name of the containing function, the first frame of an answer.
fn own_name<'f>(found: &'f FunctionFrames<'_>) -> &'f str
    ensures { result.now ≡ own_name found.now.frames }
{
    match found.frames.first() {
        Some(frame) => function_name(frame),
        None => "",
    }
}
