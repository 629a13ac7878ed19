//! `HintTable`: a hash table of hints at which position of a list an entry is. It is tried before a map is searched.

use std::alloc::{AllocError, Global};

// The first number of homes.
const FEWEST_HOMES: usize = 16;

// The number of consecutive slots in which a hint may be: its home, and those after it.
const NEIGHBOURS: usize = 8;

// Hints at which position of a list an entry is, by the entry's number.
//
// Each number has a home slot, which other numbers may share. Its hint is there or in one of the next slots. So the
// hints of nearby numbers are near each other, too. A hint may be wrong: the caller must check whether the entry at its
// position is the right one.
#[derive(Drop)]
pub(crate) struct HintTable {
    slots: Vec<Option<u32>>,
    // The number of homes: a power of two, or 0 if there are no slots.
    homes: usize,
    // The number of inserted hints.
    inserted: usize,
}

impl HintTable {
    // An empty table. It takes no memory.
    pub(crate) fn new(alloc: Global) -> Self {
        HintTable {
            slots: Vec::new(alloc),
            homes: 0,
            inserted: 0,
        }
    }

    // The first slot for the hint of a number.
    fn home_of(&self, number: usize) -> usize {
        number & self.homes.wrapping_sub(1)
    }

    // The hints that may belong to a number.
    pub(crate) fn near(&self, number: usize) -> &[Option<u32>] {
        let home = self.home_of(number);
        self.slots
            .get(home..home.saturating_add(NEIGHBOURS))
            .unwrap_or(&[])
    }

    // The first free slot for the hint of a number, or its home if none is free.
    fn slot_for(&self, number: usize) -> usize {
        let home = self.home_of(number);
        match self.near(number).iter().position(|hint| hint.is_none()) {
            Some(behind) => home.saturating_add(behind),
            None => home,
        }
    }

    // Stores a position as the hint for a number. A position of more than 32 bits gets no hint.
    pub(crate) fn put(&mut self, number: usize, position: usize) {
        let slot = self.slot_for(number);
        if let Some(hint) = self.slots.get_mut(slot) {
            *hint = u32::try_from(position).ok();
        }
    }

    // Makes room for one more hint. If half of the homes are used, the table is doubled, and older hints are forgotten.
    pub(crate) fn make_room(&mut self) -> Result<(), AllocError> {
        if self.inserted >= self.homes / 2 {
            let homes = self.homes.saturating_mul(2).max(FEWEST_HOMES);
            self.slots = free_slots(
                *self.slots.allocator(),
                homes.saturating_add(NEIGHBOURS - 1),
            )?;
            self.homes = homes;
        }
        self.inserted = self.inserted.saturating_add(1);
        Ok(())
    }
}

// `count` empty slots.
fn free_slots(alloc: Global, count: usize) -> Result<Vec<Option<u32>>, AllocError> {
    let mut slots = Vec::with_capacity(alloc, count)?;
    for _ in 0..count {
        slots.push(None)?;
    }
    Ok(slots)
}
