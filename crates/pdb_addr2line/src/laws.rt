//! Laws that follow from the definitions in the contracts.
//!
//! Each function here does nothing. Its contract states a law, which the checker proves for all records.

ghost use Rattle.std.specs.Prelude.{◌≡◌, ℕ, ◌+◌, List, length, map, reverse, slice_get, Some, Ok};
ghost use Rattle.pdb_records.specs.Addresses.{internal_offset};
ghost use Rattle.pdb_records.specs.declared.addresses.PdbInternalSectionOffset.{PdbInternalSectionOffset};
ghost use Rattle.pdb_records.specs.declared.modules.ModuleInfo.{ModuleInfo};
ghost use Rattle.pdb_functions.specs.FunctionMatches.{FunctionMatch, found_procedure};
ghost use Rattle.pdb_functions.specs.Procedures.{ModuleProcedure};
ghost use Rattle.pdb_inline.specs.InlineStacks.{IsSoleOver};
ghost use Rattle.pdb_frames.specs.ExtendedInfo.{inlinee_ids};
ghost use Rattle.pdb_frames.specs.Frame.{FrameInfo, FramesInfo};
ghost use Rattle.pdb_addr2line.specs.Calls.{answer_to, answers_to, fresh, successful};
ghost use Rattle.pdb_addr2line.specs.declared.calls.Call.{Call};
ghost use Rattle.pdb_addr2line.specs.FrameLaws.{levels_over, sites_of, EndIn, Agree, AreNestedFrames};
ghost use Rattle.pdb_function_info.specs.Function.{FunctionInfo};
ghost use Rattle.pdb_addr2line.specs.Lookups.{found_at, function_at, records_of, frames_at};
ghost use Rattle.pdb_function_info.specs.NameTexts.{function_name, id_name};
ghost use Rattle.pdb_addr2line.specs.ContextInputs.{ContextInputs, ContextState, global_functions_of};

pub use crate::answer_laws::{
    answers_hold_errors_of_the_records, own_row_beside_an_added_range_is_outside,
};
pub use crate::function_laws::{start_addresses_are_all_starts, start_addresses_ascend};
pub use pdb_functions::lookup_laws::{
    contributions_are_refused_for, contributions_in_reading_order_stay,
    first_global_function_of_each_start_is_kept, first_procedure_of_each_start_is_kept,
    merged_contributions_are_apart, merged_contributions_hold_all,
    merged_contributions_hold_no_other_module, order_of_contributions_agrees_with_equality,
    pick_covers_with_greatest_start,
};
pub use pdb_inline::inline_range_laws::{
    added_ranges_are_of_maximal_runs, ranges_cover_deeper_sites, ranges_lie_in_ranges_above,
    stacks_have_all_levels, stacks_lie_directly_inside, well_nested_sites_are_inside_by_position,
};
pub use pdb_laws::blame::the_part_to_blame_has_the_error;
pub use pdb_laws::circles::{
    ids_are_circular_exactly_where_an_index_repeats,
    signatures_are_circular_exactly_where_an_index_repeats,
    types_are_circular_exactly_where_an_index_repeats,
};
pub use pdb_laws::picks::{
    global_function_starts_last, inlined_bodies_start_last, line_row_starts_last,
};
pub use pdb_laws::refusals::{ids_are_refused_for, signatures_are_refused_for};
use pdb_records::ModuleProvider;
pub use pdb_records::order_laws::{
    hash_of_indices_agrees_with_equality, order_of_indices_agrees_with_equality,
};
pub use pdb_tables::table_laws::{
    last_painted_gives_the_value, missing_runs_hold_what_is_missing, runs_are_determined,
    runs_of_ranges_hold_their_numbers,
};
pub use pdb_type_texts::signature_laws::{
    a_scope_that_repeats_is_circular, an_index_inside_itself_is_circular,
    every_id_has_one_unfolding, every_signature_has_one_unfolding, every_type_has_one_unfolding,
    siblings_may_repeat, text_does_not_depend_on_failed_parts,
    the_document_of_a_signature_is_what_it_unfolds_to, the_document_of_an_id_is_what_it_unfolds_to,
};
pub use pdb_types::size_laws::{
    chains_that_end_have_the_size_at_their_end, chains_that_never_end_have_no_size,
    chains_that_repeat_have_no_size,
};

/// If there are frames at an address, the last one is that of the containing function.
pub fn frames_end_in_the_function<P: ModuleProvider>()
    ensures { (s : ContextInputs P) (address : ℕ) (found : FunctionMatch) (frames_info : FramesInfo)
        → found_at P.info s address ≡ Some found
        → frames_at P.info s address ≡ Ok (Some frames_info)
        → EndIn frames_info.frames (function_name P.info s.type_inputs (global_functions_of s) found) }
{}

/// If there are frames at an address, there is one for each depth at which rows of the function's inline sites cover
/// it, and one for the function itself. So no inlined body is missing.
pub fn frames_have_all_levels<P: ModuleProvider>()
    ensures { (s : ContextInputs P) (address : ℕ) (section_offset : PdbInternalSectionOffset) (found : FunctionMatch)
        (frames_info : FramesInfo)
        → internal_offset s.address_map (record { 0 = address }) ≡ Some section_offset
        → found_at P.info s address ≡ Some found
        → frames_at P.info s address ≡ Ok (Some frames_info)
        → length frames_info.frames ≡ levels_over (records_of P.info s found) found section_offset.offset + 1 }
{}

/// If both lookups at an address find a function, both give the same start and end, and the last frame has the name of
/// the function.
pub fn functions_and_frames_agree<P: ModuleProvider>()
    ensures { (s : ContextInputs P) (address : ℕ) (function : FunctionInfo) (frames_info : FramesInfo)
        → function_at P.info s address ≡ Some function
        → frames_at P.info s address ≡ Ok (Some frames_info)
        → Agree function frames_info }
{}

/// If at most one inline site of each depth has ranges over an address, the site of each frame is directly inside that
/// of the next outer frame. Its depth is the frame's level, counted from the outermost frame, where those of inlined
/// bodies begin at 1.
pub fn frames_lie_directly_inside<P: ModuleProvider>()
    ensures { (s : ContextInputs P) (address : ℕ) (section_offset : PdbInternalSectionOffset) (module_index : ℕ)
        (p : ModuleProcedure)
        (info : ModuleInfo) (frames_info : FramesInfo) (level : ℕ) (frame inner : FrameInfo)
        → internal_offset s.address_map (record { 0 = address }) ≡ Some section_offset
        → found_at P.info s address ≡ Some (found_procedure module_index p)
        → records_of P.info s (found_procedure module_index p) ≡ Some info
        → frames_at P.info s address ≡ Ok (Some frames_info)
        → IsSoleOver (inlinee_ids info.inlinees.items) (sites_of info p) section_offset.offset
        → slice_get (reverse frames_info.frames) (level + 1) ≡ Some frame
        → slice_get (reverse frames_info.frames) (level + 2) ≡ Some inner
        → AreNestedFrames s.strings
        (id_name P.info s.type_inputs module_index) info p section_offset.offset level frame inner }
{}

/// Parts that failed before change no answer except errors. In any list of calls, an answer is successful exactly if a
/// context without failed parts gives one, and then both are equal.
pub fn successful_answers_are_those_of_a_fresh_context<P: ModuleProvider>()
    ensures { (c : ContextState P) (calls : List Call) → map successful (answers_to P.info c calls)
        ≡ map (λ call. successful (answer_to P.info (fresh c.inputs) call)) calls }
{}
