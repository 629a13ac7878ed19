//! Collects the change points of modules: those of their procedures, line rows and inline ranges.

ghost use Rattle.std.specs.Prelude.{◌≡◌, ◌++◌, map, IfOk, OnOk};
ghost use Rattle.std.specs.List.{flat_map};
ghost use Rattle.std.specs.Option.{option_copied};
ghost use Rattle.pdb_functions.specs.Procedures.{module_procedure, info_procedures};
ghost use Rattle.pdb_frames.specs.ExtendedInfo.{extended_info};
ghost use Rattle.pdb_change_points.specs.UniqueNumbers.{HaveSameMembers};
ghost use Rattle.pdb_change_points.specs.ModulePoints.{ranges_or_none, inlined_points, code_points, module_points};
ghost use Rattle.pdb_change_points.specs.ModulePoints.{answer_points};

use crate::points::{add_entry_points, add_procedure_points, add_range_points};
use crate::unique_numbers::sort_unique;
use pdb_errors::{Error, Result};
use pdb_frames::{compute_extended_module_info, compute_procedure_inline_ranges};
use pdb_functions::{BasicModuleInfo, ProcedureSymbolFunction};
use pdb_inline::InlineRange;
use pdb_records::{AddressMap, IdIndex, ModuleInfo, StreamError};
use std::alloc::{AllocError, Global};
use std::collections::BTreeSet;

// The inline ranges of a procedure; none if they are refused.
fn ranges_or_none(
    alloc: Global,
    module_info: &ModuleInfo,
    procedure: &ProcedureSymbolFunction<'_>,
    inlinees: &BTreeSet<IdIndex>,
) -> Result<Vec<InlineRange>, AllocError>
    ensures { IfOk result (λ v. v.items
        ≡ ranges_or_none inlinees.now.keys module_info.now (module_procedure procedure.now)) }
{
    match compute_procedure_inline_ranges(alloc, module_info, procedure, inlinees) {
        Ok(ranges) => Ok(ranges),
        Err(error) => {
            let _ = error.unless_out_of_memory()?;
            Ok(Vec::new(alloc))
        }
    }
}

// Adds the starts and ends of the inline ranges of procedures.
fn add_inlined_points(
    points: &mut Vec<u32>,
    alloc: Global,
    address_map: &AddressMap,
    module_info: &ModuleInfo,
    inlinees: &BTreeSet<IdIndex>,
    procedures: &[ProcedureSymbolFunction<'_>],
) -> Result<(), AllocError>
    ensures { OnOk result (points.new.items ≡ points.old.items
        ++ inlined_points address_map.now inlinees.now.keys module_info.now (map module_procedure procedures.now)) }
{
    for procedure in procedures {
        let ranges = ranges_or_none(alloc, module_info, procedure, inlinees)?;
        add_range_points(points, address_map, procedure.offset.section, &ranges)?;
    }
    Ok(())
}

// Adds the change points of a module's code besides those of its procedures.
fn add_code_points(
    points: &mut Vec<u32>,
    alloc: Global,
    address_map: &AddressMap,
    module_info: &ModuleInfo,
    procedures: &[ProcedureSymbolFunction<'_>],
) -> Result<(), AllocError>
    requires { map module_procedure procedures.now ≡ info_procedures module_info.now }
    ensures { OnOk result (points.new.items ≡ points.old.items
        ++ code_points address_map.now module_info.now (extended_info module_info.now)) }
{
    match compute_extended_module_info(alloc, module_info) {
        Ok(known) => {
            let line_program = known.line_program;
            add_entry_points(points, address_map, &line_program.entries)?;
            add_inlined_points(
                points,
                alloc,
                address_map,
                module_info,
                &known.inlinees,
                procedures,
            )
        }
        Err(error) => {
            let _ = error.unless_out_of_memory()?;
            Ok(())
        }
    }
}

// Adds the change points of a module's records, which has these procedures.
fn add_points_with(
    points: &mut Vec<u32>,
    alloc: Global,
    address_map: &AddressMap,
    module_info: &ModuleInfo,
    procedures: &[ProcedureSymbolFunction<'_>],
) -> Result<(), AllocError>
    requires { map module_procedure procedures.now ≡ info_procedures module_info.now }
    ensures { OnOk result (points.new.items ≡ points.old.items ++ module_points address_map.now module_info.now) }
{
    add_procedure_points(points, address_map, procedures)?;
    add_code_points(points, alloc, address_map, module_info, procedures)
}

// Adds the change points of a module's records. If its symbols end early, it has no procedures.
fn add_own_points(
    points: &mut Vec<u32>,
    alloc: Global,
    address_map: &AddressMap,
    module_info: &ModuleInfo,
) -> Result<(), AllocError>
    ensures { OnOk result (points.new.items ≡ points.old.items ++ module_points address_map.now module_info.now) }
{
    match BasicModuleInfo::try_from_module_info(alloc, module_info) {
        Ok(module) => {
            let procedures = module.procedures();
            add_points_with(points, alloc, address_map, module_info, procedures)
        }
        Err(error) => {
            let _ = error.unless_out_of_memory()?;
            add_points_with(points, alloc, address_map, module_info, &[])
        }
    }
}

// Adds the change points of a module's records, each once.
fn add_module_points(
    points: &mut Vec<u32>,
    alloc: Global,
    address_map: &AddressMap,
    module_info: &ModuleInfo,
) -> Result<(), AllocError>
    ensures { OnOk result (HaveSameMembers points.new.items
        (points.old.items ++ module_points address_map.now module_info.now)) }
{
    let mut own = Vec::new(alloc);
    add_own_points(&mut own, alloc, address_map, module_info)?;
    sort_unique(&mut own);
    points.extend_from_slice(&own)
}

// Adds the change points of a module's records, if there are any.
fn add_listed_points(
    points: &mut Vec<u32>,
    alloc: Global,
    address_map: &AddressMap,
    module_info: Option<&ModuleInfo>,
) -> Result<(), AllocError>
    ensures { OnOk result (HaveSameMembers points.new.items
        (points.old.items ++ answer_points address_map.now (Ok (option_copied module_info.entry)))) }
{
    match module_info {
        Some(module_info) => add_module_points(points, alloc, address_map, module_info),
        None => Ok(()),
    }
}

// Adds the change points of a module, if its records can be read.
fn add_answer_points(
    points: &mut Vec<u32>,
    alloc: Global,
    address_map: &AddressMap,
    answer: &Result<Option<ModuleInfo>, StreamError>,
) -> Result<(), AllocError>
    ensures { OnOk result (HaveSameMembers points.new.items
        (points.old.items ++ answer_points address_map.now answer.now)) }
{
    match answer {
        Ok(module_info) => add_listed_points(points, alloc, address_map, module_info.as_ref()),
        Err(_) => Ok(()),
    }
}

// Adds the change points of all modules.
pub(crate) fn add_modules_points(
    points: &mut Vec<u32>,
    alloc: Global,
    address_map: &AddressMap,
    answers: &[Result<Option<ModuleInfo>, StreamError>],
) -> Result<(), AllocError>
    ensures { OnOk result (HaveSameMembers points.new.items
        (points.old.items ++ flat_map (answer_points address_map.now) answers.now)) }
{
    for answer in answers {
        add_answer_points(points, alloc, address_map, answer)?;
    }
    Ok(())
}
