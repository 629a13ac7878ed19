//! Checks of tables of segments.

use crate::checks::Checks;
use pdb_tables::{Probes, Segment, Segments};
use std::alloc::{AllocError, Global};

/// A segment: its start, its end and its value.
type Painted = (u64, u64, u64);

/// A number, and its value in a table.
type Valued = (u64, Option<u64>);

/// Segments: the second is inside the first, two are empty, and the last covers the others.
static FEW: [Painted; 5] = [
    (0, 10, 1),
    (3, 5, 2),
    (5, 5, 3),
    (8, 6, 3),
    (2, u64::MAX, 4),
];

/// Values after all of [`FEW`] but the last were painted.
static BEFORE_LAST: [Valued; 6] = [
    (2, Some(1)),
    (4, Some(2)),
    (5, Some(1)),
    (9, Some(1)),
    (10, None),
    (u64::MAX, None),
];

/// Segments: many cover others, and two are empty.
static MANY: [Painted; 9] = [
    (10, 40, 1),
    (20, 30, 2),
    (25, 25, 3),
    (35, 50, 4),
    (60, 55, 5),
    (0, 12, 6),
    (22, 24, 7),
    (45, 48, 8),
    (22, 23, 9),
];

/// Values after [`MANY`] were painted.
static OF_MANY: [Valued; 5] = [
    (11, Some(6)),
    (22, Some(9)),
    (23, Some(7)),
    (24, Some(2)),
    (50, None),
];

/// Whether a table has these values at these numbers.
fn has_values(table: &Segments<u64>, values: &[Valued]) -> bool {
    let mut probes = Probes::new();
    values
        .iter()
        .all(|&(x, value)| table.find(x, &mut probes) == value)
}

/// The table after segments were painted in order.
fn painted_in_turn(alloc: Global, painted: &[Painted]) -> Result<Segments<u64>, AllocError> {
    let mut table = Segments::new(alloc);
    for &(start, end, value) in painted {
        table.paint(start, end, value)?;
    }
    Ok(table)
}

/// Whether segments that are painted in order make a table of `len` entries with these values.
fn paint(alloc: Global, painted: &[Painted], len: usize, values: &[Valued]) -> bool {
    painted_in_turn(alloc, painted).is_ok_and(|table| {
        table.len() == len && has_values(&table, values)
    })
}

/// Whether a table without segments has no value for a number, and needs no probe.
fn looks_at_nothing(table: &Segments<u8>) -> bool {
    let mut probes = Probes::new();
    probes.tick();
    table.find(7, &mut probes).is_none() && probes.count() == 1
}

/// The number of entries that a binary search probes for the first one that starts above x. The entry at a position is
/// the range from 4 times the position on.
fn looks(entries: usize, x: u64) -> u64 {
    let (mut from, mut to) = (0, entries);
    for looks in 0..64u64 {
        if from >= to {
            return looks;
        }
        let middle = from + (to - from) / 2;
        if x < (middle as u64).saturating_mul(4) {
            to = middle;
        } else {
            from = middle + 1;
        }
    }
    64
}

/// A thousand ranges of two numbers at intervals of four, each with its position as the value.
fn spaced(alloc: Global) -> Result<Segments<u64>, AllocError> {
    let mut table = Segments::new(alloc);
    for at in 0..1000u64 {
        table.paint(4 * at, 4 * at + 2, at)?;
    }
    Ok(table)
}

/// The value of a number in those ranges.
fn spaced_value(x: u64) -> Option<u64> {
    if x % 4 < 2 && x < 4000 {
        Some(x / 4)
    } else {
        None
    }
}

/// Whether a number has its value in those ranges, after as many probes as a binary search takes.
fn is_found(table: &Segments<u64>, x: u64) -> bool {
    let mut probes = Probes::new();
    table.find(x, &mut probes) == spaced_value(x)
        && probes.count() <= 10
        && probes.count() == looks(1000, x)
}

/// Whether there are those ranges, and each number in and around them is found.
fn are_spaced(table: &Segments<u64>) -> bool {
    table.len() == 1000 && (0..4010u64).all(|x| is_found(table, x))
}

/// Segments that are painted at once.
fn painted_at_once(alloc: Global, painted: &[Painted]) -> Result<Segments<u64>, AllocError> {
    let mut segments = Vec::new(alloc);
    for &(start, end, value) in painted {
        segments.push(Segment { start, end, value })?;
    }
    Segments::from_overlapping(alloc, &segments)
}

/// Whether two tables have the same values up to a number.
fn are_alike(table: &Segments<u64>, other: &Segments<u64>, end: u64) -> bool {
    let mut probes = Probes::new();
    (0..end).all(|x| table.find(x, &mut probes) == other.find(x, &mut probes))
}

/// Whether a table is small, and the same as if [`MANY`] were painted in order.
fn is_painted_in_turn(alloc: Global, table: &Segments<u64>) -> bool {
    painted_in_turn(alloc, &MANY).is_ok_and(|in_turn| {
        table.len() <= 18 && are_alike(table, &in_turn, 64)
    })
}

/// Three thousand segments, each in the one before it.
fn nested(alloc: Global) -> Result<Vec<Painted>, AllocError> {
    let mut painted = Vec::new(alloc);
    for at in 0..3000u64 {
        painted.push((at, 6000 - at, at))?;
    }
    Ok(painted)
}

/// Whether nested segments have their values, and are found with few probes.
fn are_nested(table: &Segments<u64>) -> bool {
    let mut probes = Probes::new();
    table.len() == 5999
        && table.find(1234, &mut probes) == Some(1234)
        && table.find(4000, &mut probes) == Some(1999)
        && table.find(5999, &mut probes) == Some(0)
        && table.find(6000, &mut probes).is_none()
        && probes.count() <= 4 * 13
}

/// Whether a table counts its probes, from 0 on.
fn counts_probes(alloc: Global) -> bool {
    let mut probes = Probes::new();
    let none = probes.count();
    probes.tick();
    none == 0 && probes.count() == 1 && looks_at_nothing(&Segments::new(alloc))
}

/// Whether thousands of segments are painted.
fn paints_thousands(alloc: Global) -> Result<bool, AllocError> {
    let table = painted_at_once(alloc, &nested(alloc)?)?;
    Ok(are_nested(&table))
}

/// The checks of segments.
pub(crate) fn checks(alloc: Global) -> Checks {
    let over_all = [(1, Some(1)), (u64::MAX - 1, Some(4))];
    Checks::NONE
        .and(
            "segments over others",
            paint(alloc, &FEW[..4], 3, &BEFORE_LAST),
        )
        .and(
            "a segment over all others",
            paint(alloc, &FEW, 2, &over_all),
        )
        .and("probes that are counted", counts_probes(alloc))
        .and(
            "a search with few probes",
            spaced(alloc).is_ok_and(|table| are_spaced(&table)),
        )
        .and(
            "a list of segments",
            painted_at_once(alloc, &MANY).is_ok_and(|table| {
                has_values(&table, &OF_MANY) && is_painted_in_turn(alloc, &table)
            }),
        )
        .and(
            "no segments",
            painted_at_once(alloc, &[]).is_ok_and(|table| table.len() == 0),
        )
        .and_tried("thousands of segments", paints_thousands(alloc))
}
