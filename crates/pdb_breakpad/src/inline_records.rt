//! The INLINE records of a function, by their levels and addresses.

ghost use Rattle.std.specs.Prelude.{◌≡◌, ◌≢◌, ◌≤◌, ◌<◌, ◌+◌, ◌^◌, ◌++◌, ℕ, [], ◌∷◌, true, Some, length, slice_get};
ghost use Rattle.std.specs.Prelude.{All, map, string_bytes, IfOk, OnOk};
ghost use Rattle.std.specs.List.{flat_map};
ghost use Rattle.pdb_breakpad.specs.AddressSpans.{Ascend};
ghost use Rattle.pdb_breakpad.specs.FunctionTexts.{inline_line, inline_lines, inline_records_from};
ghost use Rattle.pdb_breakpad.specs.InlineRecords.{call_at, call_before, calls_at, LevelEndsBefore};
ghost use Rattle.pdb_breakpad.specs.WrittenRecords.{FitsCall, FitsSpan};

use crate::address_spans::{AddressSpans, Span, size_between};
use crate::numbered_code::SourceLocation;
use crate::pieces::Piece;
use pdb_tables::{Keyed, sort_by_key};
use std::alloc::{AllocError, Global};
use std::marker::Model;

/// An inlined call.
#[derive(Clone, Copy, PartialEq, Eq)]
pub(crate) struct InlinedCall {
    /// The source location of the call.
    pub place: SourceLocation,
    /// The number of the called function's name.
    pub origin: usize,
}

/// An inlined call, with its level and the addresses over which it is the call at that level.
#[derive(Clone, Copy)]
struct InlineRecord {
    /// The number of inlined calls that contain this one.
    level: usize,
    span: Span<InlinedCall>,
}

impl Keyed for InlineRecord {
    type Key = (u32, usize);

    ghost key_of = { λ r. (r.span.start, r.level) };

    fn key(&self) -> (u32, usize) {
        (self.span.start, self.level)
    }
}

/// The inlined calls of a function so far.
#[derive(Drop)]
pub(crate) struct InlineRecords {
    alloc: Global,
    /// The calls of each level. The level is the number of calls that contain them.
    levels: Vec<AddressSpans<InlinedCall>>,
}

impl Model for InlineRecords {
    ghost use Rattle.std.specs.Prelude.{List};
    ghost use Rattle.pdb_breakpad.specs.declared.address_spans.Span.{Span};
    ghost use Rattle.pdb_breakpad.specs.declared.inline_records.InlinedCall.{InlinedCall};

    ghost Value = { List (List (Span InlinedCall)) };

    ghost view = { λ r. r.levels.items };
}

impl InlineRecords {
    /// No calls.
    pub(crate) fn new(alloc: Global) -> InlineRecords
        ensures { result ≡ [] }
    {
        InlineRecords {
            alloc,
            levels: Vec::new(alloc),
        }
    }

    /// Adds the calls over a piece, which is after all others; the outermost call is the first. A call continues the
    /// record of its level if the address before has the same call there and all calls outside it continue, too.
    pub(crate) fn add(&mut self, piece: Piece, calls: &[InlinedCall]) -> Result<(), AllocError>
        requires order { (level : ℕ) → LevelEndsBefore piece.first self.old level }
        ensures answer { OnOk result ((a : ℕ) → piece.first ≤ a → a ≤ piece.last
            → calls_at a self.new ≡ calls.now) }
        ensures unchanged { OnOk result ((a : ℕ) → a < piece.first → calls_at a self.new ≡ calls_at a self.old) }
        ensures order { OnOk result ((level : ℕ) → LevelEndsBefore (piece.last + 1) self.new level) }
    {
        let mut goes_on = true;
        for (level, call) in calls.iter().enumerate() {
            goes_on = goes_on && self.call_before(level, piece.first) == Some(*call);
            self.add_call(level, piece, *call, goes_on)?;
        }
        Ok(())
    }

    // The call at a level at the address before `address`.
    fn call_before(&self, level: usize, address: u32) -> Option<InlinedCall>
        ensures { result ≡ call_before address self.now level }
    {
        self.levels.get(level)?.content_before(address)
    }

    // Adds the call at a level over a piece, which is after all others of its level.
    fn add_call(
        &mut self,
        level: usize,
        piece: Piece,
        call: InlinedCall,
        goes_on: bool,
    ) -> Result<(), AllocError>
        requires level { level ≤ length self.old }
        requires order { LevelEndsBefore piece.first self.old level }
        requires same { goes_on ≡ true → call_before piece.first self.old level ≡ Some call }
        ensures answer { OnOk result ((a : ℕ) → piece.first ≤ a → a ≤ piece.last
            → call_at a self.new level ≡ Some call) }
        ensures unchanged { OnOk result ((a other : ℕ) → a < piece.first
            → call_at a self.new other ≡ call_at a self.old other) }
        ensures others { OnOk result ((other : ℕ) → other ≢ level
            → slice_get self.new other ≡ slice_get self.old other) }
        ensures order { OnOk result (LevelEndsBefore (piece.last + 1) self.new level) }
    {
        let Some(spans) = self.levels.get_mut(level) else {
            return self.push_level(piece, call);
        };
        if goes_on {
            spans.lengthen(piece)
        } else {
            spans.begin(piece, call)
        }
    }

    // Adds a level with a call inside all others.
    fn push_level(&mut self, piece: Piece, call: InlinedCall) -> Result<(), AllocError>
        ensures { OnOk result (self.new
            ≡ self.old ++ (record { content = call; start = piece.first; last = piece.last } ∷ []) ∷ []) }
    {
        let mut spans = AddressSpans::new(self.alloc);
        spans.begin(piece, call)?;
        self.levels.push(spans)?;
        Ok(())
    }

    /// Appends the records, sorted by start; of equal starts the outermost comes first.
    pub(crate) fn push_records(&self, text: &mut String) -> Result<(), AllocError>
        ensures state { OnOk result (string_bytes text.new ≡ string_bytes text.old ++ inline_lines self.now) }
        ensures order { OnOk result (All Ascend self.now) }
        ensures levels { OnOk result (length self.now ≤ 2 ^ 64) }
        ensures fits { OnOk result (All (All (FitsSpan FitsCall)) self.now) }
    {
        let mut records = self.records()?;
        sort_by_key(&mut records)?;
        push_all(text, &records)
    }

    // The records, level by level.
    fn records(&self) -> Result<Vec<InlineRecord>, AllocError>
        ensures answer { IfOk result (λ records. records.items ≡ inline_records_from 0 self.now) }
        ensures order { IfOk result (λ records. All Ascend self.now) }
        ensures levels { IfOk result (λ records. length self.now ≤ 2 ^ 64) }
    {
        let mut records = Vec::new(self.alloc);
        for (level, spans) in self.levels.iter().enumerate() {
            push_level_records(&mut records, level, spans)?;
        }
        Ok(records)
    }
}

// Adds the records of a level.
fn push_level_records(
    records: &mut Vec<InlineRecord>,
    level: usize,
    spans: &AddressSpans<InlinedCall>,
) -> Result<(), AllocError>
    ensures state { OnOk result (records.new.items
        ≡ records.old.items ++ map (λ span. record { level = level; span = span }) spans.now) }
    ensures order { Ascend spans.now }
{
    for span in spans.spans() {
        records.push(InlineRecord { level, span: *span })?;
    }
    Ok(())
}

// Appends the records of inlined calls.
fn push_all(text: &mut String, inlines: &[InlineRecord]) -> Result<(), AllocError>
    ensures state { OnOk result (string_bytes text.new ≡ string_bytes text.old ++ flat_map inline_line inlines.now) }
    ensures fits { OnOk result (All (λ inlined. FitsSpan FitsCall inlined.span) inlines.now) }
{
    for inline_record in inlines {
        push_record(text, inline_record)?;
    }
    Ok(())
}

// Appends the record of an inlined call.
#[tactic(auto, unfolding(crate::specs::FunctionTexts::inline_line))]
fn push_record(text: &mut String, inline_record: &InlineRecord) -> Result<(), AllocError>
    ensures state { OnOk result (string_bytes text.new ≡ string_bytes text.old ++ inline_line inline_record.now) }
    ensures fits { FitsSpan FitsCall inline_record.now.span }
{
    let InlineRecord { level, span } = inline_record;
    let InlinedCall {
        place: SourceLocation { file, line },
        origin,
    } = span.content;
    let start = span.start;
    let size = size_between(start, span.last);
    write!(
        text,
        "INLINE {level} {line} {file} {origin} {start:x} {size:x}\n"
    )
}
