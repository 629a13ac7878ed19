//! Pieces: ranges of addresses that all have the same answer.

ghost use Rattle.std.specs.Prelude.{◌≡◌, ◌<◌, ◌≤◌, ◌+◌, length, slice_index};
ghost use Rattle.std.specs.List.Sorted.{IsStrictlyIncreasing};
ghost use Rattle.pdb_breakpad.specs.Pieces.{piece_end};

/// A range of addresses.
#[derive(Clone, Copy)]
pub(crate) struct Piece {
    pub first: u32,
    pub last: u32,
    ghost ordered: { first ≤ last },
}

/// The piece that begins at the point with this position. It ends before the next point, or at the last 32-bit address.
pub(crate) fn piece_at(points: &[u32], position: usize) -> Piece
    requires position { position < length points.now }
    requires ascend { IsStrictlyIncreasing points.now }
    ensures first { result.first ≡ slice_index points.now position }
    ensures last { result.last + 1 ≡ piece_end points.now position }
{
    let first = points[position];
    let last = match points.get(position + 1) {
        Some(&next) => next - 1,
        None => u32::MAX,
    };
    Piece { first, last }
}
