//! Computes the inline ranges of a procedure: those of its sites' own rows, and those added for the sites inside them.

ghost use Rattle.std.specs.Prelude.{◌≡◌, ◌++◌, map, IfOk, OnOk, OnErr};
ghost use Rattle.std.specs.List.{flat_map};
ghost use Rattle.pdb_errors.specs.Outcomes.{Gives};
ghost use Rattle.pdb_inline.specs.CoveredRuns.{read_by_depth, ranges_by_depth};
ghost use Rattle.pdb_inline.specs.InlineRanges.{own_range, own_ranges, procedure_inline_ranges};
ghost use Rattle.pdb_inline.specs.Sites.{site_view};

use crate::missing_rows::ranges_added_to_sites;
use crate::site_rows::{counted_rows, row_end};
use crate::sites::{Site, procedure_sites};
use pdb_errors::Result;
use pdb_records::{FileIndex, IdIndex, InlineRow, ModuleInfo, SymbolIndex};
use pdb_tables::{Keyed, sort_by_key};
use std::alloc::{AllocError, Global};
use std::collections::BTreeSet;

/// A range of a procedure's code that came from an inlined body.
#[derive(Clone, Copy)]
pub struct InlineRange {
    /// The start of the range, in bytes from the start of the procedure's section.
    pub start_offset: u64,
    /// The offset just after the last byte of the range.
    pub end_offset: u64,
    /// The number of inlined bodies that contain this one.
    pub call_depth: usize,
    /// The function that was inlined.
    pub inlinee: IdIndex,
    /// The source file of the code, if it is known.
    pub file_index: Option<FileIndex>,
    /// The source line of the code, if it is known.
    pub line_start: Option<u32>,
}

impl Keyed for InlineRange {
    type Key = (usize, u64);

    ghost key_of = { λ range. (range.call_depth, range.start_offset) };

    fn key(&self) -> (usize, u64) {
        (self.call_depth, self.start_offset)
    }
}

// Adds the ranges of a site's rows.
fn push_own(
    ranges: &mut Vec<InlineRange>,
    site: Site<'_>,
    rows: &[InlineRow],
) -> Result<(), AllocError>
    ensures { OnOk result (ranges.new.items
        ≡ ranges.old.items ++ map (own_range site.entry.depth site.entry.symbol.now) rows.now) }
{
    for row in rows {
        ranges.push(InlineRange {
            start_offset: u64::from(row.offset),
            end_offset: row_end(row),
            call_depth: site.depth,
            inlinee: site.symbol.inlinee,
            file_index: Some(row.file_index),
            line_start: Some(row.line_start),
        })?;
    }
    Ok(())
}

// The ranges of the sites' own rows.
fn own_ranges_of_sites(
    alloc: Global,
    inlinees: &BTreeSet<IdIndex>,
    sites: &[Site<'_>],
) -> Result<Vec<InlineRange>, AllocError>
    ensures { IfOk result (λ v. v.items
        ≡ flat_map (λ site. own_ranges inlinees.now.keys site.depth site.symbol) (map site_view sites.now)) }
{
    let mut ranges = Vec::new(alloc);
    for site in sites {
        let rows = counted_rows(alloc, inlinees, site.symbol)?;
        push_own(&mut ranges, *site, &rows)?;
    }
    Ok(ranges)
}

// The ranges of sites, unsorted: those of their own rows, and then those added for the rows of sites inside them.
fn read_ranges(
    alloc: Global,
    inlinees: &BTreeSet<IdIndex>,
    sites: &[Site<'_>],
) -> Result<Vec<InlineRange>, AllocError>
    ensures { IfOk result (λ v. v.items ≡ read_by_depth inlinees.now.keys (map site_view sites.now)) }
{
    let mut ranges = own_ranges_of_sites(alloc, inlinees, sites)?;
    let added = ranges_added_to_sites(alloc, inlinees, sites)?;
    ranges.extend_from_slice(&added)?;
    Ok(ranges)
}

// The ranges of sites, sorted by depth and start.
fn ranges_of_sites(
    alloc: Global,
    inlinees: &BTreeSet<IdIndex>,
    sites: &[Site<'_>],
) -> Result<Vec<InlineRange>, AllocError>
    ensures { IfOk result (λ v. v.items ≡ ranges_by_depth inlinees.now.keys (map site_view sites.now)) }
{
    let mut ranges = read_ranges(alloc, inlinees, sites)?;
    sort_by_key(&mut ranges)?;
    Ok(ranges)
}

/// The ranges of a procedure's code that came from inlined bodies, sorted by depth and start. `position` is the
/// position of the procedure's symbol, and `end` that of the symbol that closes it.
///
/// Each site has the ranges of its own rows. It also has a range for each run of code that rows of sites inside it
/// cover, but its own rows don't; such a range has the file of the site's first row, and no line. With equal depth and
/// start, ranges of rows come before added ones, and sites in the order of their symbols. Rows count only if the site's
/// id is among the inlinees.
///
/// # Errors
///
/// [`Error::PdbError`](pdb_errors::Error::PdbError) if the procedure's symbols continue to the end of the list, and the
/// list ends early.
pub fn inline_ranges_of_procedure(
    alloc: Global,
    module_info: &ModuleInfo,
    position: SymbolIndex,
    end: SymbolIndex,
    inlinees: &BTreeSet<IdIndex>,
) -> Result<Vec<InlineRange>>
    ensures { Gives (λ v. v.items) result
        (procedure_inline_ranges inlinees.now.keys module_info.now position.0 end.0) }
{
    let symbols = &module_info.symbols;
    let sites = procedure_sites(alloc, &symbols.items, symbols.fault, position.0, end.0)?;
    Ok(ranges_of_sites(alloc, inlinees, &sites)?)
}
