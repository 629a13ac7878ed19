//! Adds the addresses at which records start and end to a list.

ghost use Rattle.std.specs.Prelude.{◌≡◌, ◌+◌, ◌++◌, map, OnOk};
ghost use Rattle.pdb_records.specs.Addresses.{rva, rva_of};
ghost use Rattle.pdb_functions.specs.GlobalFunctions.{global_function};
ghost use Rattle.pdb_functions.specs.Procedures.{module_procedure};
ghost use Rattle.pdb_change_points.specs.Points.{point_of, point_at, map_points, contribution_points};
ghost use Rattle.pdb_change_points.specs.Points.{global_points, procedure_points, row_points, entry_points};
ghost use Rattle.pdb_change_points.specs.Points.{range_points};

use pdb_functions::{GlobalFunction, ModuleSectionContribution, ProcedureSymbolFunction};
use pdb_inline::InlineRange;
use pdb_records::{AddressMap, LineInfo, PdbInternalSectionOffset, Rva, SymbolLines};
use std::alloc::AllocError;

// Adds an address, if there is one.
fn add_point(points: &mut Vec<u32>, address: Option<Rva>) -> Result<(), AllocError>
    ensures { OnOk result (points.new.items ≡ points.old.items ++ point_of address) }
{
    if let Some(address) = address {
        points.push(address.0)?;
    }
    Ok(())
}

// The address just after `size` bytes, if it fits 32 bits.
fn end_of(start: u32, size: u32) -> Option<Rva>
    ensures { result ≡ rva_of (start + size) }
{
    Some(Rva(start.checked_add(size)?))
}

// The address of an offset in a section.
fn address_at(address_map: &AddressMap, section: u16, offset: u64) -> Option<Rva>
    ensures { result ≡ rva address_map.now (record { section = section; offset = offset }) }
{
    let offset = u32::try_from(offset).ok()?;
    PdbInternalSectionOffset { section, offset }.to_rva(address_map)
}

// Adds the address of an offset in a section.
fn add_offset(
    points: &mut Vec<u32>,
    address_map: &AddressMap,
    section: u16,
    offset: u64,
) -> Result<(), AllocError>
    ensures { OnOk result (points.new.items ≡ points.old.items ++ point_at address_map.now section offset) }
{
    add_point(points, address_at(address_map, section, offset))
}

// Adds the addresses of two offsets in a section.
fn add_span(
    points: &mut Vec<u32>,
    address_map: &AddressMap,
    section: u16,
    start: u64,
    end: u64,
) -> Result<(), AllocError>
    ensures { OnOk result (points.new.items ≡ points.old.items
        ++ (point_at address_map.now section start ++ point_at address_map.now section end)) }
{
    add_offset(points, address_map, section, start)?;
    add_offset(points, address_map, section, end)
}

// Adds the starts and ends of the address map's ranges.
pub(crate) fn add_map_points(
    points: &mut Vec<u32>,
    address_map: &AddressMap,
) -> Result<(), AllocError>
    ensures { OnOk result (points.new.items ≡ points.old.items ++ map_points address_map.now) }
{
    for range in &address_map.sections {
        add_point(points, Some(Rva(range.virtual_address)))?;
        let end = end_of(range.virtual_address, range.virtual_size);
        add_point(points, end)?;
    }
    Ok(())
}

// Adds the starts and ends of merged contributions.
pub(crate) fn add_contribution_points(
    points: &mut Vec<u32>,
    address_map: &AddressMap,
    contributions: &[ModuleSectionContribution],
) -> Result<(), AllocError>
    ensures { OnOk result (points.new.items
        ≡ points.old.items ++ contribution_points address_map.now contributions.now) }
{
    for contribution in contributions {
        let start = u64::from(contribution.start_offset);
        let end = u64::from(contribution.end_offset);
        add_span(points, address_map, contribution.section_index, start, end)?;
    }
    Ok(())
}

// Adds the starts of global functions.
pub(crate) fn add_global_points(
    points: &mut Vec<u32>,
    address_map: &AddressMap,
    functions: &[GlobalFunction<'_>],
) -> Result<(), AllocError>
    ensures { OnOk result (points.new.items
        ≡ points.old.items ++ global_points address_map.now (map global_function functions.now)) }
{
    for function in functions {
        let PdbInternalSectionOffset { section, offset } = function.start_offset;
        add_offset(points, address_map, section, u64::from(offset))?;
    }
    Ok(())
}

// Adds the starts and ends of procedures.
pub(crate) fn add_procedure_points(
    points: &mut Vec<u32>,
    address_map: &AddressMap,
    procedures: &[ProcedureSymbolFunction<'_>],
) -> Result<(), AllocError>
    ensures { OnOk result (points.new.items
        ≡ points.old.items ++ procedure_points address_map.now (map module_procedure procedures.now)) }
{
    for procedure in procedures {
        let start = u64::from(procedure.offset.offset);
        let end = start + u64::from(procedure.len);
        add_span(points, address_map, procedure.offset.section, start, end)?;
    }
    Ok(())
}

// Adds the offsets of line rows in a section.
fn add_row_points(
    points: &mut Vec<u32>,
    address_map: &AddressMap,
    section: u16,
    rows: &[LineInfo],
) -> Result<(), AllocError>
    ensures { OnOk result (points.new.items ≡ points.old.items ++ row_points address_map.now section rows.now) }
{
    for row in rows {
        add_offset(points, address_map, section, u64::from(row.offset))?;
    }
    Ok(())
}

// Adds the offsets of the rows of a line program.
pub(crate) fn add_entry_points(
    points: &mut Vec<u32>,
    address_map: &AddressMap,
    entries: &[SymbolLines],
) -> Result<(), AllocError>
    ensures { OnOk result (points.new.items ≡ points.old.items ++ entry_points address_map.now entries.now) }
{
    for entry in entries {
        add_row_points(
            points,
            address_map,
            entry.offset.section,
            &entry.lines.items,
        )?;
    }
    Ok(())
}

// Adds the starts and ends of inline ranges in a section.
pub(crate) fn add_range_points(
    points: &mut Vec<u32>,
    address_map: &AddressMap,
    section: u16,
    ranges: &[InlineRange],
) -> Result<(), AllocError>
    ensures { OnOk result (points.new.items
        ≡ points.old.items ++ range_points address_map.now section ranges.now) }
{
    for range in ranges {
        add_span(
            points,
            address_map,
            section,
            range.start_offset,
            range.end_offset,
        )?;
    }
    Ok(())
}
