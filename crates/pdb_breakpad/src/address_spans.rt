//! `AddressSpans`: ascending address ranges, each with a value.

ghost use Rattle.std.specs.Prelude.{◌≡◌, ◌≤◌, ◌<◌, ◌+◌, ◌++◌, ℕ, [], ◌∷◌, Some, IsSome, OnOk};
ghost use Rattle.pdb_breakpad.specs.FunctionTexts.{size_between};
ghost use Rattle.pdb_breakpad.specs.AddressSpans.{Ascend, EndBefore, content_at, content_before};

use crate::pieces::Piece;
use std::alloc::{AllocError, Global};
use std::marker::Model;

/// A range of addresses with a value.
#[derive(Clone, Copy)]
pub(crate) struct Span<T> {
    pub content: T,
    pub start: u32,
    /// The last address of the range.
    pub last: u32,
}

/// The number of addresses from `first` to `last`, both included.
pub(crate) fn size_between(first: u32, last: u32) -> u64
    ensures { result ≡ size_between first last }
{
    u64::from(last.saturating_sub(first)) + 1
}

/// Ranges of addresses in ascending order, each with a value.
#[derive(Drop)]
pub(crate) struct AddressSpans<T: Copy> {
    spans: Vec<Span<T>>,
}

impl<T: Copy> Model for AddressSpans<T> {
    ghost use Rattle.std.specs.Prelude.{List};
    ghost use Rattle.pdb_breakpad.specs.declared.address_spans.Span.{Span};
    ghost use Rattle.pdb_breakpad.specs.AddressSpans.{Ascend};

    ghost Value = { List (Span T) };

    ghost view = { λ s. s.spans.items };

    ghost invariant = { λ s. Ascend s.spans.items };
}

impl<T: Copy> AddressSpans<T> {
    /// No ranges.
    pub(crate) fn new(alloc: Global) -> Self
        ensures { result ≡ [] }
    {
        AddressSpans {
            spans: Vec::new(alloc),
        }
    }

    /// The ranges, sorted by start.
    pub(crate) fn spans(&self) -> &[Span<T>]
        ensures answer { result.now ≡ self.now }
        ensures order { Ascend self.now }
    {
        &self.spans
    }

    /// The value of the last range, if it ends directly before this address.
    pub(crate) fn content_before(&self, address: u32) -> Option<T>
        ensures { result ≡ content_before address self.now }
    {
        let last = self.spans.last()?;
        if last.last.checked_add(1) == Some(address) {
            return Some(last.content);
        }
        None
    }

    /// Extends the last range to the end of a piece that follows it.
    #[tactic(auto, using(crate::proofs::AddressSpanLemmas::lengthened))]
    pub(crate) fn lengthen(&mut self, piece: Piece) -> Result<(), AllocError>
        requires order { EndBefore piece.first self.old }
        requires there { IsSome (content_before piece.first self.old) }
        ensures answer { OnOk result ((a : ℕ) → piece.first ≤ a → a ≤ piece.last
            → content_at a self.new ≡ content_before piece.first self.old) }
        ensures unchanged { OnOk result ((a : ℕ) → a < piece.first → content_at a self.new ≡ content_at a self.old) }
        ensures order { OnOk result (EndBefore (piece.last + 1) self.new) }
    {
        let Some(before) = self.spans.pop() else {
            return Ok(());
        };
        let longer = Span {
            last: piece.last,
            ..before
        };
        self.spans.push(longer)?;
        Ok(())
    }

    /// Appends a range for a piece, which is after all other ranges.
    #[tactic(auto, using(crate::proofs::AddressSpanLemmas::begun))]
    pub(crate) fn begin(&mut self, piece: Piece, content: T) -> Result<(), AllocError>
        requires order { EndBefore piece.first self.old }
        ensures answer { OnOk result ((a : ℕ) → piece.first ≤ a → a ≤ piece.last
            → content_at a self.new ≡ Some content) }
        ensures unchanged { OnOk result ((a : ℕ) → a < piece.first → content_at a self.new ≡ content_at a self.old) }
        ensures order { OnOk result (EndBefore (piece.last + 1) self.new) }
        ensures state { OnOk result (self.new
            ≡ self.old ++ record { content = content; start = piece.first; last = piece.last } ∷ []) }
    {
        self.spans.push(Span {
            content,
            start: piece.first,
            last: piece.last,
        })?;
        Ok(())
    }
}
