//! Calls each law of the crates below once.

use pdb_functions::lookup_laws as functions;
use pdb_inline::inline_range_laws as inline;
use pdb_tables::table_laws as ranges;

/// Calls each law once.
pub(crate) fn are_stated() {
    of_functions();
    of_inline_ranges();
    of_ranges();
}

/// Calls the laws on contributions, procedures and global functions.
fn of_functions() {
    functions::merged_contributions_are_apart();
    functions::merged_contributions_hold_all();
    functions::merged_contributions_hold_no_other_module();
    functions::order_of_contributions_agrees_with_equality();
    functions::contributions_in_reading_order_stay();
    functions::contributions_are_refused_for();
    functions::first_global_function_of_each_start_is_kept();
    functions::first_procedure_of_each_start_is_kept();
    functions::pick_covers_with_greatest_start();
}

/// Calls the laws on inline ranges and their stacks.
fn of_inline_ranges() {
    inline::ranges_cover_deeper_sites();
    inline::stacks_have_all_levels();
    inline::ranges_lie_in_ranges_above();
    inline::stacks_lie_directly_inside();
    inline::well_nested_sites_are_inside_by_position();
    inline::added_ranges_are_of_maximal_runs();
}

/// Calls the laws on sets of ranges and on segments.
fn of_ranges() {
    ranges::last_painted_gives_the_value::<u64>();
    ranges::runs_are_determined();
    ranges::runs_of_ranges_hold_their_numbers();
    ranges::missing_runs_hold_what_is_missing();
}
