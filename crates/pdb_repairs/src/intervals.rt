//! Intervals of bytes that belong to one module. A byte belongs to the module with the greatest claim that covers it.

ghost use Rattle.std.specs.Prelude.{◌≡◌, ℕ, ◌<◌, List, map, not, reverse, IfOk, OnOk, None};
ghost use Rattle.std.specs.List.Sorted.{IsPermutation, IsSorted};
ghost use Rattle.std.specs.Ordering.{nat_cmp};
ghost use Rattle.pdb_tables.specs.InOrder.{in_order};
ghost use Rattle.pdb_tables.specs.Keyed.{KeysAscend};
ghost use Rattle.pdb_tables.specs.Segments.{value_at};
ghost use Rattle.pdb_repairs.specs.Claims.{claim_of, is_same_module, owner, owns, owns_all};
ghost use Rattle.pdb_repairs.specs.Intervals.{AreOwners, edges_of, ends_before, intervals_after, is_of, is_smaller};
ghost use Rattle.pdb_repairs.specs.Intervals.{segment_of};

use crate::claims::{Claim, claim_of};
use pdb_records::SectionContribution;
use pdb_tables::{Keyed, Probes, Segment, Segments, neighbours_of};
use std::alloc::{AllocError, Global};

/// Bytes that belong to one module, or to none. The interval ends where the next one begins.
#[derive(Clone, Copy)]
pub struct Interval {
    pub start: u64,
    pub module_index: Option<usize>,
}

impl Keyed for Interval {
    type Key = u64;

    ghost key_of = { λ interval. interval.start };

    fn key(&self) -> u64 {
        self.start
    }
}

// Sorts claims by size. The sort is stable.
fn sort_by_size(claims: &mut Vec<Claim>) -> Result<(), AllocError>
    ensures { OnOk result (claims.new.items ≡ in_order is_smaller claims.old.items) }
{
    claims.sort_by_key(|claim: &Claim| claim.end.saturating_sub(claim.start))
}

// The claims sorted by size, the greatest last. Of equal ones the first of the list comes last.
fn by_size(alloc: Global, claims: &[Claim]) -> Result<Vec<Claim>, AllocError>
    ensures { IfOk result (λ v. v.items ≡ in_order is_smaller (reverse claims.now)) }
{
    let mut sorted: Vec<Claim> = claims.iter().rev().copied().collect(alloc)?;
    sort_by_size(&mut sorted)?;
    Ok(sorted)
}

// A claim as a segment.
fn segment_of(claim: &Claim) -> Segment<usize>
    ensures { result ≡ segment_of claim.now }
{
    Segment {
        start: claim.start,
        end: claim.end,
        value: claim.module_index,
    }
}

// Claims as segments.
fn segments_of(alloc: Global, claims: &[Claim]) -> Result<Vec<Segment<usize>>, AllocError>
    ensures { IfOk result (λ v. v.items ≡ map segment_of claims.now) }
{
    claims.iter().map(segment_of).collect(alloc)
}

// A table of the module to which each byte belongs.
fn owners(alloc: Global, claims: &[Claim]) -> Result<Segments<usize>, AllocError>
    ensures { IfOk result (λ table. (byte : ℕ) → value_at table byte ≡ owner claims.now byte) }
{
    let sorted = by_size(alloc, claims)?;
    let segments = segments_of(alloc, &sorted)?;
    Segments::from_overlapping(alloc, &segments)
}

// The starts and ends of all claims, in ascending order.
fn edges(alloc: Global, claims: &[Claim]) -> Result<Vec<u64>, AllocError>
    ensures ascend { IfOk result (λ v. IsSorted nat_cmp v.items) }
    ensures same { IfOk result (λ v. IsPermutation (edges_of claims.now) v.items) }
{
    let mut edges: Vec<u64> = Vec::new(alloc);
    for claim in claims {
        edges.push(claim.start)?;
        edges.push(claim.end)?;
    }
    edges.sort_unstable();
    Ok(edges)
}

// Whether both are the same module, or both are none.
fn is_same_module(a: Option<usize>, b: Option<usize>) -> bool
    ensures { result ≡ is_same_module a b }
{
    match (a, b) {
        (None, None) => true,
        (Some(a), Some(b)) => a == b,
        _ => false,
    }
}

// Whether an interval belongs to this module.
fn is_of(interval: Option<Interval>, module_index: Option<usize>) -> bool
    ensures { result ≡ is_of interval module_index }
{
    match interval {
        Some(interval) => is_same_module(interval.module_index, module_index),
        None => false,
    }
}

// The intervals that begin at these bytes. One begins at each byte whose module differs from that of the byte before.
fn intervals_at(
    alloc: Global,
    owners: &Segments<usize>,
    bytes: &[u64],
) -> Result<Vec<Interval>, AllocError>
    ensures { IfOk result (λ v. v.items ≡ intervals_after (value_at owners.now) None bytes.now) }
{
    let mut intervals = Vec::new(alloc);
    let mut last = None;
    for &byte in bytes {
        let module_index = owners.find(byte, &mut Probes::new());
        if !is_of(last, module_index) {
            let interval = Interval {
                start: byte,
                module_index,
            };
            intervals.push(interval)?;
            last = Some(interval);
        }
    }
    Ok(intervals)
}

/// The intervals of bytes that belong to one module, in ascending order. An interval begins only where a claim begins
/// or ends.
pub fn intervals(alloc: Global, claims: &[Claim]) -> Result<Vec<Interval>, AllocError>
    ensures { IfOk result (λ v. AreOwners claims.now v.items) }
{
    let owners = owners(alloc, claims)?;
    let edges = edges(alloc, claims)?;
    intervals_at(alloc, &owners, &edges)
}

// Whether an interval ends before a byte. `next` is the interval after it.
fn ends_before(next: Option<Interval>, byte: u64) -> bool
    ensures { result ≡ ends_before next byte }
{
    match next {
        Some(next) => next.start < byte,
        None => false,
    }
}

// Whether each byte of a claim belongs to its module. The claim has at least one byte.
fn owns_all(claim: &Claim, intervals: &[Interval]) -> bool
    requires bytes { claim.now.start < claim.now.end }
    requires ascend { KeysAscend nat_cmp (λ i. i.start) intervals.now }
    ensures { (claims : List Claim) → AreOwners claims intervals.now → result ≡ owns_all claims claim.now }
{
    let here = neighbours_of(intervals, claim.start, &mut Probes::new());
    is_of(here.up_to, Some(claim.module_index)) && !ends_before(here.above, claim.end)
}

/// Whether each byte of a contribution belongs to its module. The contribution has at least one byte. If its end
/// doesn't fit a section's offsets, the answer is no.
pub fn owns(contribution: &SectionContribution, intervals: &[Interval]) -> bool
    requires bytes { 0 < contribution.now.size }
    requires ascend { KeysAscend nat_cmp (λ i. i.start) intervals.now }
    ensures { (claims : List Claim) → AreOwners claims intervals.now
        → result ≡ owns claims (claim_of contribution.now) }
{
    match claim_of(contribution) {
        Some(claim) => owns_all(&claim, intervals),
        None => false,
    }
}
