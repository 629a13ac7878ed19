//! Paints segments over a list of others, one or many.

ghost use Rattle.std.specs.Prelude.{◌≡◌, ℕ, ◌*◌, Bool, None, ◌+◌, ◌<◌, ◌≤◌, ◌++◌, length, IfOk, IsOk, OnOk, OnErr};
ghost use Rattle.pdb_tables.specs.Segments.{painted, painted_in_turn, value_at, IsOrderedFrom};
ghost use Rattle.pdb_tables.specs.Painting.{clipped, segments_within, segments_from, going_past, overlaid, end_from};
ghost use Rattle.pdb_tables.specs.Painting.{HaveEdges};

use crate::segment::Segment;
use std::alloc::{AllocError, Global};

// Appends the part of a segment from `lo` up to, but not including, `hi`, if it isn't empty.
fn push_clipped<T: Copy>(
    all: &mut Vec<Segment<T>>,
    segment: Segment<T>,
    lo: u64,
    hi: u64,
) -> Result<(), AllocError>
    ensures { OnOk result (all.new.items ≡ all.old.items ++ clipped lo hi segment) }
{
    let start = lo.max(segment.start);
    let end = hi.min(segment.end);
    if start < end {
        let value = segment.value;
        all.push(Segment { start, end, value })?;
    }
    Ok(())
}

// Appends the parts of segments from `lo` up to, but not including, `hi`. Returns the segments from the first one on
// that ends after `hi`, and reads no further.
fn push_segments_within<'a, T: Copy>(
    all: &mut Vec<Segment<T>>,
    segments: &'a [Segment<T>],
    lo: u64,
    hi: u64,
) -> Result<&'a [Segment<T>], AllocError>
    requires { IsOrderedFrom 0 segments.now }
    ensures state { OnOk result (all.new.items ≡ all.old.items ++ segments_within lo hi segments.now) }
    ensures answer { IfOk result (λ rest. rest.now ≡ going_past hi segments.now) }
{
    for (at, &segment) in segments.iter().enumerate() {
        push_clipped(all, segment, lo, hi)?;
        if hi < segment.end {
            return Ok(&segments[at..]);
        }
    }
    Ok(&[])
}

// Appends the parts of segments from `lo` on.
fn push_segments_from<T: Copy>(
    all: &mut Vec<Segment<T>>,
    segments: &[Segment<T>],
    lo: u64,
) -> Result<(), AllocError>
    ensures { OnOk result (all.new.items ≡ all.old.items ++ segments_from lo segments.now) }
{
    for &segment in segments {
        push_clipped(all, segment, lo, segment.end)?;
    }
    Ok(())
}

// The segments of the first list, and the parts of the second list that they don't cover. Each list is read once.
pub(crate) fn overlaid<T: Copy>(
    alloc: Global,
    tops: &[Segment<T>],
    under: &[Segment<T>],
) -> Result<Vec<Segment<T>>, AllocError>
    requires tops { IsOrderedFrom 0 tops.now }
    requires under { IsOrderedFrom 0 under.now }
    ensures { IfOk result (λ all. all.items ≡ overlaid 0 tops.now under.now) }
{
    let mut all = Vec::new(alloc);
    let mut rest = under;
    let mut from = 0;
    for &top in tops {
        rest = push_segments_within(&mut all, rest, from, top.start)?;
        all.push(top)?;
        from = top.end;
    }
    push_segments_from(&mut all, rest, from)?;
    Ok(all)
}

// The end of the last segment; 0 if there is none.
fn end_of<T: Copy>(segments: &[Segment<T>]) -> u64
    ensures { result ≡ end_from 0 segments.now }
{
    match segments.last() {
        Some(last) => last.end,
        None => 0,
    }
}

// Gives the numbers from `lo` up to, but not including, `hi` a value. If no segment ends after `lo`, this takes
// amortized constant time.
pub(crate) fn paint<T: Copy>(
    segments: &mut Vec<Segment<T>>,
    lo: u64,
    hi: u64,
    value: T,
) -> Result<(), AllocError>
    requires { IsOrderedFrom 0 segments.old.items }
    ensures ordered { IsOrderedFrom 0 segments.new.items }
    ensures state { OnOk result
        ((x : ℕ) → value_at segments.new.items x ≡ painted lo hi value (value_at segments.old.items x) x) }
    ensures bound { length segments.new.items ≤ length segments.old.items + 2 }
    ensures empty { hi ≤ lo → IsOk result }
    ensures unchanged { hi ≤ lo → segments.new.items ≡ segments.old.items }
    ensures unchanged_if_refused { OnErr result (segments.new.items ≡ segments.old.items) }
{
    if hi <= lo {
        return Ok(());
    }
    let top = Segment {
        start: lo,
        end: hi,
        value,
    };
    if end_of(segments) <= lo {
        segments.push(top)?;
    } else {
        *segments = overlaid(*segments.allocator(), &[top], segments)?;
    }
    Ok(())
}

// A list of one segment; without it if the segment is empty.
fn one_or_none<T: Copy>(alloc: Global, segment: Segment<T>) -> Result<Vec<Segment<T>>, AllocError>
    ensures { IfOk result (λ all. all.items ≡ clipped segment.start segment.end segment) }
{
    let mut all = Vec::new(alloc);
    push_clipped(&mut all, segment, segment.start, segment.end)?;
    Ok(all)
}

// The result of painting the segments in turn. The later half of the list is painted over the earlier half, so each
// segment is copied O(log n) times.
pub(crate) fn painted_in_turn<T: Copy>(
    alloc: Global,
    segments: &[Segment<T>],
) -> Result<Vec<Segment<T>>, AllocError>
    ensures ordered { IfOk result (λ all. IsOrderedFrom 0 all.items) }
    ensures answer { IfOk result (λ all. (x : ℕ) → value_at all.items x ≡ painted_in_turn segments.now None x) }
    ensures edges { IfOk result (λ all. (p : ℕ → Bool) → HaveEdges p segments.now → HaveEdges p all.items) }
{
    match segments {
        [] => Ok(Vec::new(alloc)),
        [only] => one_or_none(alloc, *only),
        _ => {
            let (earlier, later) = segments.split_at(segments.len() / 2);
            let under = painted_in_turn(alloc, earlier)?;
            let tops = painted_in_turn(alloc, later)?;
            overlaid(alloc, &tops, &under)
        }
    }
}
