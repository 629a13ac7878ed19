//! Lists the change points of a program's records.

ghost use Rattle.std.specs.Prelude.{◌≡◌, ◌≢◌, ◌++◌, map, [], IfOk, IfErr, OnOk, MatchResult, Some, slice_get};
ghost use Rattle.std.specs.List.Sorted.{IsStrictlyIncreasing};
ghost use Rattle.std.specs.Result.{result_unwrap_or};
ghost use Rattle.pdb_records.specs.Records.{Records};
ghost use Rattle.pdb_errors.specs.Outcomes.{Gives, streamed};
ghost use Rattle.pdb_errors.specs.declared.error.Error.TheVariants.{OutOfMemory};
ghost use Rattle.pdb_types.specs.declared.flags.TypeFormatterFlags.{TypeFormatterFlags};
ghost use Rattle.pdb_functions.specs.MergedContributions.{merged_contributions};
ghost use Rattle.pdb_functions.specs.GlobalFunctions.{global_function, global_functions};
ghost use Rattle.pdb_addr2line.specs.ContextData.{context_of, sections_read};
ghost use Rattle.pdb_addr2line.specs.ContextInputs.{ContextInputs};
ghost use Rattle.pdb_change_points.specs.ChangePoints.{AreChangePoints, program_points};
ghost use Rattle.pdb_change_points.specs.UniqueNumbers.{HaveSameMembers};
ghost use Rattle.pdb_change_points.specs.Points.{map_points, contribution_points, global_points};

use crate::module_points::add_modules_points;
use crate::points::{add_contribution_points, add_global_points, add_map_points};
use crate::unique_numbers::sort_unique;
use pdb_errors::{Error, Result};
use pdb_functions::{
    GlobalFunction, ModuleSectionContribution, compute_global_functions,
    compute_section_contributions,
};
use pdb_records::{
    AddressMap, DebugInformation, ImageSectionHeader, ModuleInfo, PDB, StreamError, SymbolTable,
};
use std::alloc::{AllocError, Global};

// Adds the change points of the address map, of merged contributions and of global functions.
fn add_front_points(
    points: &mut Vec<u32>,
    address_map: &AddressMap,
    contributions: &[ModuleSectionContribution],
    functions: &[GlobalFunction<'_>],
) -> Result<(), AllocError>
    ensures { OnOk result (points.new.items ≡ points.old.items ++ map_points address_map.now
        ++ contribution_points address_map.now contributions.now
        ++ global_points address_map.now (map global_function functions.now)) }
{
    add_map_points(points, address_map)?;
    add_contribution_points(points, address_map, contributions)?;
    add_global_points(points, address_map, functions)
}

// The change points of a program with these contributions, functions and modules, ascending and each once.
fn sorted_points(
    alloc: Global,
    address_map: &AddressMap,
    contributions: &[ModuleSectionContribution],
    functions: &[GlobalFunction<'_>],
    answers: &[Result<Option<ModuleInfo>, StreamError>],
) -> Result<Vec<u32>, AllocError>
    ensures order { IfOk result (λ v. IsStrictlyIncreasing v.items × (slice_get v.items 0 ≡ Some 0)) }
    ensures members { IfOk result (λ v. HaveSameMembers v.items
        (program_points address_map.now contributions.now (map global_function functions.now) answers.now)) }
{
    let mut points = Vec::new(alloc);
    points.push(0)?;
    add_front_points(&mut points, address_map, contributions, functions)?;
    add_modules_points(&mut points, alloc, address_map, answers)?;
    sort_unique(&mut points);
    Ok(points)
}

// The change points of a program with these sections, symbols, contributions and modules.
fn points_of_parts(
    alloc: Global,
    sections: &[ImageSectionHeader],
    address_map: &AddressMap,
    symbols: &SymbolTable,
    debug_information: &DebugInformation,
    answers: &[Result<Option<ModuleInfo>, StreamError>],
) -> Result<Vec<u32>>
    ensures order { IfOk result (λ v. IsStrictlyIncreasing v.items × (slice_get v.items 0 ≡ Some 0)) }
    ensures members { IfOk result (λ v. HaveSameMembers v.items (program_points address_map.now
        (result_unwrap_or (merged_contributions sections.now debug_information.now) [])
        (global_functions sections.now symbols.now.symbols.items debug_information.now) answers.now)) }
    ensures refused { IfErr result (λ e. e ≢ OutOfMemory
        → merged_contributions sections.now debug_information.now ≡ Err e) }
{
    let (contributions, starts) = compute_section_contributions(
        alloc,
        debug_information,
        sections,
    )?;
    let symbols = &symbols.symbols.items;
    let functions = compute_global_functions(alloc, sections, symbols, &starts)?;
    let points = sorted_points(
        alloc,
        address_map,
        &contributions,
        functions.as_slice(),
        answers,
    )?;
    Ok(points)
}

// The content of a stream, or the error of one that can't be read.
fn read<T>(stream: &Result<T, StreamError>) -> Result<&T>
    ensures { Gives (λ content. content.now) result (streamed stream.now) }
{
    match stream {
        Ok(content) => Ok(content),
        Err(fault) => Err(Error::from(*fault)),
    }
}

// The section headers; empty if the records have none.
fn sections_of(records: &PDB) -> Result<&[ImageSectionHeader]>
    ensures { Gives (λ s. s.now) result (sections_read records.now) }
{
    match &records.sections {
        Ok(Some(sections)) => Ok(sections),
        Ok(None) => Ok(&[]),
        Err(fault) => Err(Error::from(*fault)),
    }
}

/// The change points of a program's records, in ascending order and each once. The first is 0.
///
/// All addresses from one change point up to the next have the same contribution, the same function, the same name of
/// its symbol, and the same frames.
///
/// # Errors
///
/// `OutOfMemory` if memory runs out. If no context can be made over the records, the result may be [`Error::PdbError`]
/// for a stream that can't be read, or an error of
/// [`compute_section_contributions`](pdb_functions::compute_section_contributions).
pub fn change_points(alloc: Global, records: &PDB) -> Result<Vec<u32>>
    ensures answer { (flags : TypeFormatterFlags) (inputs : ContextInputs Records)
        → context_of flags records.now ≡ Ok inputs
        → MatchResult result (λ v. AreChangePoints inputs v.items) (λ e. e ≡ OutOfMemory) }
    ensures order { IfOk result (λ v. IsStrictlyIncreasing v.items × (slice_get v.items 0 ≡ Some 0)) }
{
    let debug_information = read(&records.debug_information)?;
    let symbols = read(&records.global_symbols)?;
    let address_map = read(&records.address_map)?;
    let sections = sections_of(records)?;
    points_of_parts(
        alloc,
        sections,
        address_map,
        symbols,
        debug_information,
        &records.module_infos,
    )
}
