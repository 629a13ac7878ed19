//! Laws: of all candidates at an offset the one that starts last is picked, and of equal starts the first.
//!
//! These laws are on line rows, global functions and inlined bodies. The one on procedures is in `pdb_functions`.

ghost use Rattle.std.specs.Prelude.{ℕ, List, nat_le};
ghost use Rattle.pdb_records.specs.declared.addresses.PdbInternalSectionOffset.{PdbInternalSectionOffset};
ghost use Rattle.pdb_records.specs.declared.lines.LineInfo.{LineInfo};
ghost use Rattle.pdb_tables.specs.Pick.{pick, IsPicked};
ghost use Rattle.pdb_functions.specs.GlobalFunctions.{GlobalFunction};
ghost use Rattle.pdb_functions.specs.Spans.{global_function_covers};
ghost use Rattle.pdb_inline.specs.declared.inline_ranges.InlineRange.{InlineRange};
ghost use Rattle.pdb_inline.specs.InlineStacks.{inline_stack};
ghost use Rattle.pdb_frames.specs.Lines.{row_over};
ghost use Rattle.pdb_laws.specs.Picks.{ArePickedByDepth};

/// The line row at an offset is at or below it. No other such row has a greater offset, and of those with an equal one
/// it is the first in the file. There is none only if no row is at or below the offset.
pub fn line_row_starts_last()
    ensures { (rows : List LineInfo) (offset : ℕ)
        → IsPicked (λ row. nat_le row.offset offset) (λ row. row.offset) rows (row_over rows offset) }
{}

/// The global function at a section offset starts at or below it in its section. No other such one starts later, and of
/// equal starts it is the first. There is none only if none starts at or below.
pub fn global_function_starts_last()
    ensures { (section_offset : PdbInternalSectionOffset) (globals : List GlobalFunction)
        → IsPicked (global_function_covers section_offset) (λ f. f.start.offset) globals
        (pick (global_function_covers section_offset) (λ f. f.start.offset) globals) }
{}

/// The inlined bodies at an offset are, for the depths 0, 1, 2 and so on, the range of that depth that contains it and
/// starts last, and of equal starts the first. They end at the first depth without a range that contains the offset.
pub fn inlined_bodies_start_last()
    ensures { (ranges : List InlineRange) (x : ℕ) → ArePickedByDepth ranges x 0 (inline_stack ranges x) }
{}
