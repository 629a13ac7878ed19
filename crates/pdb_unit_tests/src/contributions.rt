//! Checks of merged contributions, their table, and global functions.

use crate::checks::Checks;
use crate::modules::is_fault;
use pdb_errors::{Error, Result};
use pdb_functions::{
    ContributionTable, GlobalFunctionTable, ModuleSectionContribution, compute_global_functions,
    compute_section_contributions,
};
use pdb_records::{
    DebugInformation, ImageSectionHeader, MachineType, PdbInternalSectionOffset, PublicSymbol,
    RawString, Reading, S_PUB32, SectionContribution, StreamError, Symbol, SymbolData,
};
use pdb_tables::Probes;
use std::alloc::{AllocError, Global};

/// A contribution: its section, its offset, its size and its module.
type Given = (u16, u32, u32, usize);

/// The merged contributions, and the starts of those that count.
type Merged = (
    Vec<ModuleSectionContribution>,
    Vec<PdbInternalSectionOffset>,
);

/// Contributions in no order. Two of one module have a gap between them, one is outside of code, and one is empty.
static GIVEN: [Given; 6] = [
    (1, 0x40, 0x10, 1),
    (1, 0, 0x10, 0),
    (1, 0x20, 0x10, 0),
    (2, 0x10, 0x10, 3),
    (1, 0x60, 0, 2),
    (1, 0xffff_fff0, 0x0f, 4),
];

/// Two sections of code, and one without code between them.
static SECTIONS: [ImageSectionHeader; 3] = [
    ImageSectionHeader {
        virtual_address: 0x1000,
        virtual_size: 0x2_0000,
        execute: true,
    },
    ImageSectionHeader {
        virtual_address: 0x3_0000,
        virtual_size: 0x100,
        execute: false,
    },
    ImageSectionHeader {
        virtual_address: 0x4_0000,
        virtual_size: 0x100,
        execute: true,
    },
];

/// A section offset, by its section and its offset.
fn section_offset(section: u16, offset: u32) -> PdbInternalSectionOffset {
    PdbInternalSectionOffset { section, offset }
}

/// A merged contribution, by its section, its start and end, and its module.
fn run(
    section_index: u16,
    start_offset: u32,
    end_offset: u32,
    module_index: usize,
) -> ModuleSectionContribution {
    ModuleSectionContribution {
        section_index,
        start_offset,
        end_offset,
        module_index,
    }
}

/// The merged contributions of [`GIVEN`], sorted by section, start, end and module.
static COUNTED: [Given; 3] = [
    (1, 0, 0x30, 0),
    (1, 0x40, 0x50, 1),
    (1, 0xffff_fff0, 0xffff_ffff, 4),
];

/// Debug information with these contributions, and with this fault after them.
fn debug_information(
    alloc: Global,
    given: &[Given],
    fault: Option<StreamError>,
) -> Result<DebugInformation, AllocError> {
    let mut items = Vec::new(alloc);
    for &(section, offset, size, module) in given {
        items.push(SectionContribution {
            offset: section_offset(section, offset),
            size,
            module,
        })?;
    }
    Ok(DebugInformation {
        machine_type: Ok(MachineType::Amd64),
        modules: Reading {
            items: Vec::new(alloc),
            fault: None,
        },
        section_contributions: Reading { items, fault },
    })
}

/// The merged contributions of these, and the starts of those that count.
fn merged(alloc: Global, given: &[Given]) -> Result<Merged> {
    compute_section_contributions(alloc, &debug_information(alloc, given, None)?, &SECTIONS)
}

/// Whether [`GIVEN`] is merged into [`COUNTED`].
fn is_merged(alloc: Global) -> Result<bool> {
    let starts = [
        section_offset(1, 0x40),
        section_offset(1, 0),
        section_offset(1, 0x20),
        section_offset(1, 0xffff_fff0),
    ];
    let (merged, section_offsets) = merged(alloc, &GIVEN)?;
    Ok(are(&merged, &COUNTED) && section_offsets.as_slice() == starts.as_slice())
}

/// Whether merged contributions are the expected ones, in which the third number is the end.
fn are(merged: &[ModuleSectionContribution], wanted: &[Given]) -> bool {
    if merged.len() != wanted.len() {
        return false;
    }
    for (at, &(section, start, end, module)) in wanted.iter().enumerate() {
        if merged[at] != run(section, start, end, module) {
            return false;
        }
    }
    true
}

/// Contributions in reading order, and their merged ones, sorted by section, start, end and module: one that ends below
/// the one before it, modules that alternate, the same in reverse, one that starts below the one before it, and a
/// module that comes back in a section with nothing between.
static MERGED: [(&[Given], &[Given]); 5] = [
    (&[(1, 0, 0x20, 0), (1, 0, 0x10, 0)], &[(1, 0, 0x20, 0)]),
    (
        &[(1, 0, 0x20, 0), (1, 0x30, 0x10, 0), (1, 0x20, 0x10, 1)],
        &[(1, 0, 0x20, 0), (1, 0x20, 0x30, 1), (1, 0x30, 0x40, 0)],
    ),
    (
        &[(1, 0x20, 0x10, 1), (1, 0x30, 0x10, 0), (1, 0, 0x20, 0)],
        &[(1, 0, 0x20, 0), (1, 0x20, 0x30, 1), (1, 0x30, 0x40, 0)],
    ),
    (&[(1, 0x10, 0x10, 0), (1, 0, 0x30, 0)], &[(1, 0, 0x30, 0)]),
    (
        &[(1, 0, 0x10, 0), (3, 0, 0x10, 1), (1, 0x30, 0x10, 0)],
        &[(1, 0, 0x40, 0), (3, 0, 0x10, 1)],
    ),
];

/// Whether contributions of this module are refused for an end in the first section that is too large.
fn is_too_large(alloc: Global, given: &[Given], module: usize) -> bool {
    matches!(
        merged(alloc, given),
        Err(Error::SectionContributionEndTooLarge(found, 1)) if found == module
    )
}

/// Whether contributions are refused for an overlap in the first section, of the first two modules.
fn is_overlap(alloc: Global, given: &[Given]) -> bool {
    matches!(
        merged(alloc, given),
        Err(Error::OverlappingSectionContributions(1, 0, 1))
    )
}

/// Whether contributions with an overlap are refused for the fault after them.
fn is_fault_first(alloc: Global) -> Result<bool> {
    let fault = StreamError(9);
    let given = [(1, 0, 0x20, 0), (1, 0x10, 0x20, 1)];
    let debug = debug_information(alloc, &given, Some(fault))?;
    let merged = compute_section_contributions(alloc, &debug, &SECTIONS);
    Ok(merged.is_err_and(|error| is_fault(&error, fault)))
}

/// Three thousand adjacent contributions, each of another module.
fn side_by_side(alloc: Global) -> Result<Vec<Given>, AllocError> {
    let mut given = Vec::new(alloc);
    for at in 0..3000u32 {
        given.push((1u16, 0x10 * at, 0x10u32, at as usize))?;
    }
    Ok(given)
}

/// The contribution at an offset of a section.
fn over(table: &ContributionTable, section: u16, offset: u32) -> Option<ModuleSectionContribution> {
    table.contribution_over(section_offset(section, offset), &mut Probes::new())
}

/// Whether a table of three thousand contributions finds those at some section offsets.
fn is_table_of_thousands(table: &ContributionTable) -> bool {
    over(table, 1, 0) == Some(run(1, 0, 0x10, 0))
        && over(table, 1, 0x7fff) == Some(run(1, 0x7ff0, 0x8000, 0x7ff))
        && over(table, 2, 0).is_none()
}

/// Whether all three thousand contributions start a function, and are found in their table.
fn finds_thousands(alloc: Global) -> Result<bool> {
    let (counted, starts) = merged(alloc, &side_by_side(alloc)?)?;
    let table = ContributionTable::new(alloc, counted)?;
    Ok(starts.len() == 3000 && is_table_of_thousands(&table))
}

/// Three thousand consecutive public symbols.
fn publics(alloc: Global) -> Result<Vec<Symbol>, AllocError> {
    let mut symbols = Vec::new(alloc);
    for at in 0..3000u32 {
        symbols.push(Symbol {
            raw_kind: S_PUB32,
            content: Some(SymbolData::Public(PublicSymbol {
                offset: section_offset(1, 0x10 * at),
                name: RawString(Vec::new(alloc)),
            })),
        })?;
    }
    Ok(symbols)
}

/// Whether functions are found that contain, start at, and follow a section offset.
fn finds_functions(functions: &GlobalFunctionTable<'_>) -> bool {
    let probes = &mut Probes::new();
    let over = functions.function_over(section_offset(1, 0x1f), &mut 0, probes);
    let at = functions.function_at(section_offset(1, 8), probes);
    let next = functions.next_function(section_offset(1, 0xbb70), 0, probes);
    let (Some(over), Some(at), Some(next)) = (over, at, next) else {
        return false;
    };
    over.start_offset.offset == 0x10
        && over.name.is_some()
        && at.name.is_none()
        && next.start_offset.offset == 0x2_0000
}

/// Whether these are the functions of three thousand symbols and two starts.
fn are_thousands(functions: &GlobalFunctionTable<'_>) -> bool {
    functions.len() == 3002 && functions.as_slice().len() == 3002 && finds_functions(functions)
}

/// Whether three thousand public symbols and two starts have such functions in the first two sections.
fn finds_thousands_of_functions(alloc: Global) -> Result<bool> {
    let starts = [section_offset(1, 8), section_offset(1, 0)];
    let symbols = publics(alloc)?;
    let functions = compute_global_functions(alloc, &SECTIONS[..2], &symbols, &starts)?;
    Ok(are_thousands(&functions))
}

/// Whether all contributions of [`MERGED`] are merged as expected.
fn take_turns(alloc: Global) -> Result<bool> {
    for (given, wanted) in &MERGED {
        if !are(&merged(alloc, given)?.0, wanted) {
            return Ok(false);
        }
    }
    Ok(true)
}

/// The checks of contributions and of global functions.
pub(crate) fn checks(alloc: Global) -> Checks {
    let end_before_overlap = [
        (1, 0, 0x20, 0),
        (1, 0x10, 0x20, 1),
        (1, 0xffff_fff0, 0x20, 3),
    ];
    Checks::NONE
        .and_tried("contributions and where they start", is_merged(alloc))
        .and_tried("modules that take turns", take_turns(alloc))
        .and_tried("a fault behind an overlap", is_fault_first(alloc))
        .and(
            "an end that is too large behind an overlap",
            is_too_large(alloc, &end_before_overlap, 3),
        )
        .and(
            "an end that is too large",
            is_too_large(alloc, &[(1, 0xffff_fff0, 0x20, 0)], 0),
        )
        .and(
            "an overlap",
            is_overlap(alloc, &[(1, 0, 0x20, 0), (1, 0x10, 0x20, 1)]),
        )
        .and_tried("thousands of contributions", finds_thousands(alloc))
        .and_tried(
            "thousands of global functions",
            finds_thousands_of_functions(alloc),
        )
}
