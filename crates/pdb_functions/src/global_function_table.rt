//! `GlobalFunctionTable`: global functions sorted by start, to find the one at a section offset and the next one.

ghost use Rattle.std.specs.Prelude.{◌≡◌, ◌==◌, ◌+◌, ◌≤◌, None, not, map, option_map, find, length};
ghost use Rattle.pdb_records.specs.Addresses.{is_same_section_offset};
ghost use Rattle.pdb_tables.specs.Pick.{pick};
ghost use Rattle.pdb_tables.specs.Probes.{digits};
ghost use Rattle.pdb_functions.specs.GlobalFunctions.{global_function};
ghost use Rattle.pdb_tables.specs.Last.{last_over};
ghost use Rattle.pdb_functions.specs.FunctionMatches.{next_global, global_at, where_passes};
ghost use Rattle.pdb_functions.specs.Spans.{global_function_covers};
ghost use Rattle.pdb_functions.specs.Starts.{is_before, StartsAscend};

use crate::global_functions::GlobalFunction;
use pdb_records::PdbInternalSectionOffset;
use pdb_tables::{Neighbours, Probes, neighbours_at, neighbours_of};
use std::marker::Model;

/// Global functions sorted by section and start, each start once.
#[derive(Drop)]
pub struct GlobalFunctionTable<'a> {
    functions: Vec<GlobalFunction<'a>>,
}

// Contracts see a table as the list of functions.
impl<'a> Model for GlobalFunctionTable<'a> {
    ghost use Rattle.std.specs.Prelude.{List, map};
    ghost use Rattle.pdb_functions.specs.GlobalFunctions.{GlobalFunction, global_function};
    ghost use Rattle.pdb_functions.specs.Starts.{StartsAscend};

    ghost Value = { List GlobalFunction };

    ghost view = { λ t. map global_function t.functions.items };

    ghost invariant = { λ t. StartsAscend (λ f. f.start_offset) t.functions.items };
}

impl<'a> GlobalFunctionTable<'a> {
    // A table of functions that are sorted by section and start, each start once.
    pub(crate) fn new(functions: Vec<GlobalFunction<'a>>) -> Self
        requires { StartsAscend (λ f. f.start_offset) functions.items }
        ensures { result ≡ map global_function functions.entry.items }
    {
        GlobalFunctionTable { functions }
    }

    /// The functions.
    pub fn as_slice(&self) -> &[GlobalFunction<'a>]
        ensures { map global_function result.now ≡ self.now }
    {
        &self.functions
    }

    /// The number of functions.
    pub fn len(&self) -> usize
        ensures { result ≡ length self.now }
    {
        self.functions.len()
    }

    // The neighbours of a section offset: the last function that starts at or before it, and the first one after it.
    // `probes` counts the functions that are compared.
    fn neighbours(
        &self,
        section_offset: PdbInternalSectionOffset,
        probes: &mut Probes,
    ) -> Neighbours<GlobalFunction<'a>>
        ensures up_to { option_map global_function result.up_to
            ≡ last_over (λ f. not (is_before section_offset f.start)) None self.now }
        ensures behind { option_map global_function result.above
            ≡ find (λ f. is_before section_offset f.start) self.now }
        ensures ascend { StartsAscend (λ f. f.start) self.now }
        ensures bound { probes.new ≤ probes.old + digits (length self.now) }
    {
        neighbours_of(&self.functions, section_offset, probes)
    }

    /// The last function that starts at or before a section offset in its section. `next_place` gets the position of
    /// the next one.
    ///
    /// It is found by a binary search. `probes` counts the functions that are compared: at most as many as their number
    /// has binary digits.
    pub fn function_over(
        &self,
        section_offset: PdbInternalSectionOffset,
        next_place: &mut usize,
        probes: &mut Probes,
    ) -> Option<GlobalFunction<'a>>
        ensures answer { option_map global_function result
            ≡ pick (global_function_covers section_offset) (λ f. f.start.offset) self.now }
        ensures bound { probes.new ≤ probes.old + digits (length self.now) }
    {
        let next_to = self.neighbours(section_offset, probes);
        *next_place = next_to.place;
        in_section(next_to.up_to, section_offset.section)
    }

    /// The function that starts at a section offset. It is found by a binary search, with the same bound on `probes` as
    /// [`function_over`](Self::function_over).
    pub fn function_at(
        &self,
        start: PdbInternalSectionOffset,
        probes: &mut Probes,
    ) -> Option<GlobalFunction<'a>>
        ensures answer { option_map global_function result ≡ global_at start self.now }
        ensures bound { probes.new ≤ probes.old + digits (length self.now) }
    {
        let next_to = self.neighbours(start, probes);
        starting_at(next_to.up_to, start)
    }

    /// The next function of a section after an offset. If the function before `next_place` starts at the offset, it is
    /// the one at `next_place`; otherwise it is found by a binary search. `probes` counts the functions that are
    /// compared: at most two more than their number has binary digits.
    pub fn next_function(
        &self,
        section_offset: PdbInternalSectionOffset,
        next_place: usize,
        probes: &mut Probes,
    ) -> Option<GlobalFunction<'a>>
        ensures answer { option_map global_function result ≡ next_global section_offset self.now }
        ensures bound { probes.new ≤ probes.old + digits (length self.now) + 2 }
    {
        let mut next_to = neighbours_at(&self.functions, next_place, probes);
        if starting_at(next_to.up_to, section_offset).is_none() {
            next_to = self.neighbours(section_offset, probes);
        }
        in_section(next_to.above, section_offset.section)
    }
}

// A function, where it starts in a section.
fn in_section(function: Option<GlobalFunction<'_>>, section: u16) -> Option<GlobalFunction<'_>>
    ensures { option_map global_function result
        ≡ where_passes (λ f. f.start.section == section) (option_map global_function function.entry) }
{
    match function {
        Some(function) if function.start_offset.section == section => Some(function),
        _ => None,
    }
}

// A function, if it starts at a section offset.
fn starting_at(
    function: Option<GlobalFunction<'_>>,
    start: PdbInternalSectionOffset,
) -> Option<GlobalFunction<'_>>
    ensures { option_map global_function result
        ≡ where_passes (λ f. is_same_section_offset f.start start) (option_map global_function function.entry) }
{
    match function {
        Some(function) if function.start_offset == start => Some(function),
        _ => None,
    }
}
