//! Laws that follow from the definitions in this crate's contracts.
//!
//! Each function here does nothing. Its contract states a law, which the checker proves for all records.

ghost use Rattle.std.specs.Prelude.{◌≡◌, ◌^◌, List, [], ◌∷◌, ◌++◌, Ok, Err, Option, Some, None, find, nat_le};
ghost use Rattle.std.specs.Prelude.{length, option_to_list};
ghost use Rattle.std.specs.List.{AllByRecursion};
ghost use Rattle.pdb_records.specs.declared.addresses.ImageSectionHeader.{ImageSectionHeader};
ghost use Rattle.pdb_records.specs.declared.addresses.PdbInternalSectionOffset.{PdbInternalSectionOffset};
ghost use Rattle.pdb_records.specs.declared.debug_information.DebugInformation.{DebugInformation};
ghost use Rattle.pdb_records.specs.declared.error.Error.TheVariants.{Stream};
ghost use Rattle.pdb_records.specs.declared.error.StreamError.{StreamError};
ghost use Rattle.pdb_records.specs.declared.modules.ModuleInfo.{ModuleInfo};
ghost use Rattle.pdb_records.specs.declared.symbols.Symbol.{Symbol};
ghost use Rattle.pdb_records.specs.OrderLaws.{OrderAgrees};
ghost use Rattle.pdb_errors.specs.declared.error.Error.{Error};
ghost use Rattle.pdb_errors.specs.declared.error.Error.TheVariants.{PdbError, SectionContributionEndTooLarge};
ghost use Rattle.pdb_functions.specs.declared.merged_contributions.ModuleSectionContribution.{ModuleSectionContribution};
ghost use Rattle.pdb_functions.specs.MergedContributions.{claims, merged_contributions};
ghost use Rattle.pdb_functions.specs.GlobalFunctions.{listed_functions, global_functions};
ghost use Rattle.pdb_functions.specs.Procedures.{ModuleProcedure, procedure_at, procedures_from};
ghost use Rattle.pdb_functions.specs.Procedures.{symbol_procedures, info_procedures};
ghost use Rattle.pdb_functions.specs.FunctionMatches.{global_at};
ghost use Rattle.pdb_tables.specs.Pick.{pick, IsPicked};
ghost use Rattle.pdb_functions.specs.Spans.{procedure_covers};
ghost use Rattle.pdb_functions.specs.ReadingOrder.{reading_intervals, merged_in_reading_order, AreOnly};
ghost use Rattle.pdb_functions.specs.ReadingOrder.{StartsNeverFall};
ghost use Rattle.pdb_functions.specs.LookupLaws.{AreApart, LiesInOneOf, BeginsWithOneOf, EndsWithOneOf};
ghost use Rattle.pdb_functions.specs.LookupLaws.{IsApartFrom, NeighboursDiffer, IsOverlap};
ghost use Rattle.pdb_functions.specs.LookupLaws.{procedure_starting_at, last_procedure};
ghost use Rattle.pdb_functions.specs.Starts.{StartsAscend};

use crate::merged_contributions::ModuleSectionContribution;

/// Two merged contributions are equal exactly if neither is ordered before the other.
pub fn order_of_contributions_agrees_with_equality()
    ensures { OrderAgrees ⟦<ModuleSectionContribution as Ord>⟧.cmp ⟦<ModuleSectionContribution as PartialEq>⟧.eq }
{}

/// Merged contributions aren't empty, are sorted by section and start, and don't overlap.
pub fn merged_contributions_are_apart()
    ensures { (sections : List ImageSectionHeader) (debug : DebugInformation) (table : List ModuleSectionContribution)
        → merged_contributions sections debug ≡ Ok table → AreApart table }
{}

/// Each contribution that counts is inside a merged one of its module and section. Each merged one begins where one of
/// those begins, and ends where one of those ends.
pub fn merged_contributions_hold_all()
    ensures all { (sections : List ImageSectionHeader) (debug : DebugInformation)
        (table : List ModuleSectionContribution) → merged_contributions sections debug ≡ Ok table
        → AllByRecursion (LiesInOneOf table) (claims sections debug.section_contributions.items) }
    ensures begin { (sections : List ImageSectionHeader) (debug : DebugInformation)
        (table : List ModuleSectionContribution) → merged_contributions sections debug ≡ Ok table
        → AllByRecursion (BeginsWithOneOf (claims sections debug.section_contributions.items)) table }
    ensures end { (sections : List ImageSectionHeader) (debug : DebugInformation)
        (table : List ModuleSectionContribution) → merged_contributions sections debug ≡ Ok table
        → AllByRecursion (EndsWithOneOf (claims sections debug.section_contributions.items)) table }
{}

/// No byte of a merged contribution, gaps included, belongs to a contribution of another module. Between two merged
/// ones of the same module and section there is one of another module.
pub fn merged_contributions_hold_no_other_module()
    ensures apart { (sections : List ImageSectionHeader) (debug : DebugInformation)
        (table : List ModuleSectionContribution) → merged_contributions sections debug ≡ Ok table
        → AllByRecursion (λ interval.
        AllByRecursion (IsApartFrom interval) (claims sections debug.section_contributions.items)) table }
    ensures differ { (sections : List ImageSectionHeader) (debug : DebugInformation)
        (table : List ModuleSectionContribution) → merged_contributions sections debug ≡ Ok table
        → NeighboursDiffer table }
{}

/// Which refusal comes first: that of the first end of more than 32 bits in file order, then that of the fault after
/// the contributions. If neither exists, contributions are refused only for a byte that two modules claim.
pub fn contributions_are_refused_for()
    ensures end { (sections : List ImageSectionHeader) (debug : DebugInformation) (claim : ModuleSectionContribution)
        → find (λ c. nat_le (2 ^ 32) c.end_offset) (claims sections debug.section_contributions.items) ≡ Some claim
        → merged_contributions sections debug
        ≡ Err (SectionContributionEndTooLarge claim.module_index claim.section_index) }
    ensures fault { (sections : List ImageSectionHeader) (debug : DebugInformation) (fault : StreamError)
        → find (λ c. nat_le (2 ^ 32) c.end_offset) (claims sections debug.section_contributions.items) ≡ None
        → debug.section_contributions.fault ≡ Some fault
        → merged_contributions sections debug ≡ Err (PdbError (Stream fault)) }
    ensures overlap { (sections : List ImageSectionHeader) (debug : DebugInformation) (error : Error)
        → find (λ c. nat_le (2 ^ 32) c.end_offset) (claims sections debug.section_contributions.items) ≡ None
        → debug.section_contributions.fault ≡ None → merged_contributions sections debug ≡ Err error
        → IsOverlap (claims sections debug.section_contributions.items) error }
{}

/// If no module occurs again in a section after another one, and in each of its intervals starts and ends never
/// decrease, joining neighbours in file order gives exactly the merged contributions.
///
/// The law doesn't apply to a module that occurs again. For example, 0..0x10 of a module, then a contribution of
/// another section, then 0x30..0x40 of that module are two intervals in file order, but one merged contribution.
pub fn contributions_in_reading_order_stay()
    ensures { (sections : List ImageSectionHeader) (debug : DebugInformation) (table : List ModuleSectionContribution)
        → merged_in_reading_order sections debug ≡ Ok table
        → AreOnly (reading_intervals None (claims sections debug.section_contributions.items))
        → StartsNeverFall (claims sections debug.section_contributions.items)
        → merged_contributions sections debug ≡ Ok table }
{}

/// Global functions are sorted by section and start, each start once. At each start the first one is kept. Public
/// symbols come before all starts without a name, so that is the first public symbol of the start if there is one.
pub fn first_global_function_of_each_start_is_kept()
    ensures ascend { (sections : List ImageSectionHeader) (symbols : List Symbol) (debug : DebugInformation)
        → StartsAscend (λ f. f.start) (global_functions sections symbols debug) }
    ensures first { (sections : List ImageSectionHeader) (symbols : List Symbol) (debug : DebugInformation)
        (section_offset : PdbInternalSectionOffset)
        → global_at section_offset (global_functions sections symbols debug)
        ≡ global_at section_offset (listed_functions sections symbols debug) }
{}

/// Procedures of a module are sorted by section and start, each start once. At each start the first one in file order
/// is kept. Separated code takes its name and type from the last procedure before it, whether or not that one is kept.
/// If the symbols end early, there are none.
pub fn first_procedure_of_each_start_is_kept()
    ensures ascend { (symbols : List Symbol) → StartsAscend (λ p. p.offset) (symbol_procedures symbols) }
    ensures first { (symbols : List Symbol) (section_offset : PdbInternalSectionOffset)
        → procedure_starting_at section_offset (symbol_procedures symbols)
        ≡ procedure_starting_at section_offset (procedures_from 0 None symbols) }
    ensures behind { (symbols : List Symbol) (symbol : Symbol)
        → procedures_from 0 None (symbols ++ symbol ∷ [])
        ≡ procedures_from 0 None symbols ++ option_to_list
        (procedure_at (length symbols) (last_procedure (procedures_from 0 None symbols)) symbol) }
    ensures fault { (info : ModuleInfo) (fault : StreamError)
        → info.symbols.fault ≡ Some fault → info_procedures info ≡ [] }
{}

/// The procedure that is picked for a section offset contains it. No other procedure that contains it has a greater
/// start, and of equal starts it is the first. None is picked only if none contains the section offset.
pub fn pick_covers_with_greatest_start()
    ensures { (section_offset : PdbInternalSectionOffset) (procedures : List ModuleProcedure)
        → IsPicked (procedure_covers section_offset) (λ p. p.offset.offset) procedures
        (pick (procedure_covers section_offset) (λ p. p.offset.offset) procedures) }
{}
