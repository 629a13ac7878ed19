//! Laws on answers: which errors they may contain, and what isn't known of neighbouring frames.

ghost use Rattle.std.specs.Prelude.{List};
ghost use Rattle.std.specs.List.{AllByRecursion};
ghost use Rattle.pdb_inline.specs.InlineStacks.{IsSoleOver};
ghost use Rattle.pdb_addr2line.specs.AnswerErrors.{HoldsErrorOfRecords};
ghost use Rattle.pdb_addr2line.specs.BrokenLists.{inlinees, sites};
ghost use Rattle.pdb_addr2line.specs.Calls.{answers_to};
ghost use Rattle.pdb_addr2line.specs.ContextInputs.{ContextState};
ghost use Rattle.pdb_addr2line.specs.declared.calls.Call.{Call};

use pdb_records::ModuleProvider;

/// Each answer to a list of calls has frames or a text; or an error of the records or of printing; or the error that a
/// part of the records failed before. It is never out of memory or a writer's refusal: these are errors of the call
/// itself.
pub fn answers_hold_errors_of_the_records<P: ModuleProvider>()
    ensures { (c : ContextState P) (calls : List Call)
        → AllByRecursion HoldsErrorOfRecords (answers_to P.info c calls) }
{}

/// In a badly nested list of symbols, two sites of the same depth may have ranges over the same code: one by a row of
/// its own, and one by a range that was added for a site inside it. So `frames_lie_directly_inside` doesn't apply to
/// the frames there.
pub fn own_row_beside_an_added_range_is_outside()
    ensures { IsSoleOver inlinees sites 37 → ⊥ }
{}
