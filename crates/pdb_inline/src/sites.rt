//! Walks over a procedure's symbols, and finds its inline sites and their depths.

ghost use Rattle.std.specs.Prelude.{◌≡◌, ◌+◌, ◌-◌, ◌^◌, ◌++◌, drop, length, min, nat_lt, map};
ghost use Rattle.std.specs.Prelude.{reverse, option_map, option_to_list, Option, Some, None, OnOk};
ghost use Rattle.std.specs.Option.{option_copied};
ghost use Rattle.pdb_errors.specs.Outcomes.{Gives};
ghost use Rattle.pdb_inline.specs.Sites.{site_of, nested_end, innermost_end, through_after, open_after};
ghost use Rattle.pdb_inline.specs.Sites.{opened_at, walk, unless_met, at_depth, site_view, open_site};

use pdb_errors::{Error, Result};
use pdb_records::{InlineSiteSymbol, StreamError, Symbol, SymbolData, SymbolIndex, is_site_kind};
use std::alloc::{AllocError, Global};

// A place in a procedure where a call was replaced by the callee's body.
#[derive(Clone, Copy)]
pub(crate) struct Site<'a> {
    // The position of its symbol.
    pub(crate) position: usize,
    // The number of sites that contain it.
    pub(crate) depth: usize,
    // The content of its symbol.
    pub(crate) symbol: &'a InlineSiteSymbol,
}

// The content of a symbol, if it opens a site.
fn site_symbol(symbol: &Symbol) -> Option<&InlineSiteSymbol>
    ensures { option_copied result ≡ site_of symbol.now }
{
    if !is_site_kind(symbol.raw_kind) {
        return None;
    }
    match &symbol.content {
        Some(SymbolData::InlineSite(site)) => Some(site),
        _ => None,
    }
}

// The end of the procedure that a symbol opens, if it opens one.
fn procedure_end(symbol: &Symbol) -> Option<SymbolIndex>
    ensures { option_map (λ end. end.0) result ≡ nested_end symbol.now }
{
    if !is_site_kind(symbol.raw_kind) {
        return None;
    }
    match &symbol.content {
        Some(SymbolData::Procedure(procedure)) => Some(procedure.end),
        _ => None,
    }
}

// The next position of the walk. A procedure inside this one is skipped to its end.
fn position_after(at: usize, symbol: &Symbol) -> usize
    ensures { result ≡ min (through_after at (nested_end symbol.now) at + 1) (2 ^ 64 - 1) }
{
    let through = match procedure_end(symbol) {
        Some(end) if at < end.0 => end.0,
        _ => at,
    };
    through.saturating_add(1)
}

// The next end: that of the innermost open site, or of the procedure if no site is open.
fn first_end(procedure_end: usize, outer: &[Site<'_>]) -> usize
    ensures { result ≡ innermost_end procedure_end (reverse (map open_site outer.now)) }
{
    match outer.last() {
        Some(site) => site.symbol.end.0,
        None => procedure_end,
    }
}

// Opens the site of the symbol at a position, if it opens one.
fn open_at<'a>(
    at: usize,
    symbol: &'a Symbol,
    sites: &mut Vec<Site<'a>>,
    outer: &mut Vec<Site<'a>>,
) -> Result<(), AllocError>
    ensures found { OnOk result (map site_view sites.new.items ≡ map site_view sites.old.items
        ++ option_to_list (option_map
        (λ s. at_depth (opened_at at (reverse (map open_site outer.old.items)) s)) (site_of symbol.now))) }
    ensures opened { OnOk result (reverse (map open_site outer.new.items)
        ≡ open_after at (site_of symbol.now) (reverse (map open_site outer.old.items))) }
{
    if let Some(symbol) = site_symbol(symbol) {
        let site = Site {
            position: at,
            depth: outer.len(),
            symbol,
        };
        sites.push(site)?;
        outer.push(site)?;
    }
    Ok(())
}

// Closes the innermost open site. `false` if no site is open: then the procedure is closed.
#[tactic(auto, using(crate::proofs::SiteLemmas::closed_rest))]
fn close_innermost(outer: &mut Vec<Site<'_>>) -> bool
    ensures answer { result ≡ nat_lt 0 (length outer.old.items) }
    ensures state { reverse (map open_site outer.new.items) ≡ drop 1 (reverse (map open_site outer.old.items)) }
{
    outer.pop().is_some()
}

// The sites of a procedure by the positions of its symbol and its end, in the order of their symbols.
pub(crate) fn procedure_sites(
    alloc: Global,
    symbols: &[Symbol],
    fault: Option<StreamError>,
    position: usize,
    end: usize,
) -> Result<Vec<Site<'_>>>
    ensures { Gives (λ v. map site_view v.items) result
        (unless_met (walk symbols.now fault position end) (map at_depth (walk symbols.now fault position end).sites)) }
{
    let mut sites = Vec::new(alloc);
    let mut outer = Vec::new(alloc);
    let mut at = position.saturating_add(1);
    while at < symbols.len() {
        if first_end(end, &outer) <= at {
            if !close_innermost(&mut outer) {
                return Ok(sites);
            }
            at += 1;
        } else {
            let symbol = &symbols[at];
            open_at(at, symbol, &mut sites, &mut outer)?;
            at = position_after(at, symbol);
        }
    }
    match fault {
        Some(fault) => Err(Error::from(fault)),
        None => Ok(sites),
    }
}
