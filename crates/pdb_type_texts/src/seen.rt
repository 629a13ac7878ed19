//! `Seen`: sets of open indices, level by level. An index that is inserted twice is refused.

ghost use Rattle.std.specs.Prelude.{◌≡◌, ℕ, Bool, false, not, ◌&&◌, ◌||◌, ◌==◌};
ghost use Rattle.std.specs.Prelude.{[], ◌∷◌, ◌++◌, OnOk, OnErr, IfOk, IfErr};
ghost use Rattle.std.specs.Borrow.{sem, RestsIfErr};
ghost use Rattle.pdb_type_texts.specs.Seen.{has, base, IsRefusal};
ghost use Rattle.pdb_type_texts.specs.Levels.{LendsSet, set_row};

use pdb_errors::Error;
use pdb_records::TypeIndex;
use std::alloc::{AllocFailed, Global};
use std::collections::BTreeSet;
use std::fmt;

/// An index was seen before.
#[derive(Clone, Copy)]
pub struct AlreadySeenError(pub TypeIndex);

impl fmt::Debug for AlreadySeenError {
    fn fmt<W: fmt::Write>(&self, f: &mut fmt::Formatter<W>) -> fmt::Result {
        let number = self.0.0;
        write!(f, "AlreadySeenError({number})")
    }
}

/// Why an index was not inserted.
#[derive(Debug, Clone, Copy)]
pub enum SeenError {
    /// The index is already in the set.
    Already(AlreadySeenError),
    /// Memory ran out.
    OutOfMemory,
}

impl From<AllocFailed<TypeIndex>> for SeenError {
    ghost use Rattle.pdb_type_texts.specs.declared.seen.SeenError.TheVariants.{OutOfMemory};

    ghost from_gives = { λ _ r. r ≡ OutOfMemory };

    fn from(_failed: AllocFailed<TypeIndex>) -> SeenError {
        SeenError::OutOfMemory
    }
}

impl From<AlreadySeenError> for Error {
    ghost use Rattle.pdb_errors.specs.declared.error.Error.TheVariants.{CircularTypeDefinition};

    ghost from_gives = { λ seen r. r ≡ CircularTypeDefinition seen.0.0 };

    fn from(seen: AlreadySeenError) -> Error {
        Error::CircularTypeDefinition(seen.0.0)
    }
}

impl From<SeenError> for Error {
    ghost use Rattle.pdb_type_texts.specs.Seen.{error_of};

    ghost from_gives = { λ seen r. r ≡ error_of seen };

    fn from(seen: SeenError) -> Error {
        match seen {
            SeenError::Already(already) => Error::from(already),
            SeenError::OutOfMemory => Error::OutOfMemory,
        }
    }
}

/// The indices that a level inserted into a set, and how they are removed again.
pub trait Inserted {
    /// Whether an index with this number was inserted.
    ghost holds: { Self → ℕ → Bool };

    /// Removes what was inserted.
    fn undo(self, set: &mut BTreeSet<TypeIndex>)
        ensures { (q : ℕ) → has set.new q ≡ (has set.old q && not (holds self q)) };
}

impl Inserted for Vec<TypeIndex> {
    ghost use Rattle.pdb_type_texts.specs.Seen.{holds as held};

    ghost holds = { λ inserted q. held inserted.items q };

    fn undo(self, set: &mut BTreeSet<TypeIndex>) {
        for index in &self {
            let _ = set.remove(index);
        }
    }
}

// Inserts an index into a set, and into a level's own list. If it is refused, both stay as they were.
fn put(
    set: &mut BTreeSet<TypeIndex>,
    inserted: &mut Vec<TypeIndex>,
    index: TypeIndex,
) -> Result<(), SeenError>
    ensures state { OnOk result ((q : ℕ) → has set.new q ≡ (has set.old q || q == index.0)) }
    ensures absent { OnOk result (has set.old index.0 ≡ false) }
    ensures refused { IfErr result (λ e. IsRefusal e index (has set.old index.0)) }
    ensures inserted_unchanged { OnErr result (inserted.new.items ≡ inserted.old.items) }
    ensures unchanged_if_refused { OnErr result ((q : ℕ) → has set.new q ≡ has set.old q) }
    ensures inserted { OnOk result (inserted.new.items ≡ inserted.old.items ++ index ∷ []) }
    ensures base_unchanged { (q : ℕ) → base set.new inserted.new.items q ≡ base set.old inserted.old.items q }
{
    if set.contains(&index) {
        return Err(SeenError::Already(AlreadySeenError(index)));
    }
    inserted.push(index)?;
    match set.insert(index) {
        Ok(_) => Ok(()),
        Err(_) => {
            let _ = inserted.pop();
            Err(SeenError::OutOfMemory)
        }
    }
}

/// A level of open indices. The indices that it inserts into a set are removed when it is dropped.
pub struct Seen<'a, I: Inserted = Vec<TypeIndex>> {
    /// All open indices.
    pub set: &'a mut BTreeSet<TypeIndex>,
    /// The indices that this level inserted.
    pub inserted: I,
}

impl<I: Inserted> Drop for Seen<'_, I> {
    fn drop(self)
        ensures { (q : ℕ) → has self.exit.0.now q
            ≡ (has self.entry.set.now q && not (I.holds self.entry.inserted q)) }
    {
        let Seen { set, inserted } = self;
        inserted.undo(set);
    }
}

impl<'a> Seen<'a> {
    /// A level over a set. It takes no memory.
    pub fn new(alloc: Global, set: &'a mut BTreeSet<TypeIndex>) -> Seen<'a>
        ensures same_reference { result.set.ghost_name ≡ set.entry.ghost_name }
        ensures same_set { (q : ℕ) → has result.set.now q ≡ has set.entry.now q }
        ensures nothing { result.inserted.items ≡ [] }
    {
        Seen {
            set,
            inserted: Vec::new(alloc),
        }
    }

    /// Inserts an index until this level is dropped.
    ///
    /// # Errors
    ///
    /// [`SeenError::Already`] if the index is in the set, and `OutOfMemory` if memory runs out. In both cases the set
    /// stays as it was.
    pub fn insert(&mut self, index: TypeIndex) -> Result<(), SeenError>
        ensures same_reference { self.new.set.ghost_name ≡ self.old.set.ghost_name }
        ensures state { OnOk result ((q : ℕ) → has self.new.set.now q ≡ (has self.old.set.now q || q == index.0)) }
        ensures absent { OnOk result (has self.old.set.now index.0 ≡ false) }
        ensures refused { IfErr result (λ e. IsRefusal e index (has self.old.set.now index.0)) }
        ensures inserted_unchanged { OnErr result (self.new.inserted.items ≡ self.old.inserted.items) }
        ensures unchanged_if_refused { OnErr result ((q : ℕ) → has self.new.set.now q ≡ has self.old.set.now q) }
        // Whatever the result is, the indices of outer levels stay.
        ensures inserted { OnOk result (self.new.inserted.items ≡ self.old.inserted.items ++ index ∷ []) }
        ensures base_unchanged { (q : ℕ) → base self.new.set.now self.new.inserted.items q
            ≡ base self.old.set.now self.old.inserted.items q }
    {
        put(self.set, &mut self.inserted, index)
    }

    // A level over a set, with one index inserted. If it is refused, the set stays as it was.
    fn with_one(
        set: &'a mut BTreeSet<TypeIndex>,
        alloc: Global,
        index: TypeIndex,
    ) -> Result<Seen<'a>, SeenError>
        ensures same_reference { IfOk result (λ level. level.set.ghost_name ≡ set.entry.ghost_name) }
        ensures answer { IfOk result (λ level. (q : ℕ)
            → has level.set.now q ≡ (has set.entry.now q || q == index.0)) }
        ensures absent { OnOk result (has set.entry.now index.0 ≡ false) }
        ensures one { IfOk result (λ level. level.inserted.items ≡ index ∷ []) }
        ensures refused { IfErr result (λ e. IsRefusal e index (has set.entry.now index.0)) }
        ensures* unchanged_if_refused { sem 𝓛 (RestsIfErr set_row set.entry (λ level. level.set.ghost_name) result
            (λ end. (q : ℕ) → has end q ≡ has set.entry.now q)) }
    {
        let mut inserted = Vec::new(alloc);
        put(set, &mut inserted, index)?;
        Ok(Seen { set, inserted })
    }

    /// A level above this one. The indices that it inserts are removed when it is dropped, and this level stays. The
    /// set of this level is then as that level's set ended.
    pub fn new_level(&mut self) -> Seen<'_>
        ensures same_set { (q : ℕ) → has result.set.now q ≡ has self.entry.now.set.now q }
        ensures nothing { result.inserted.items ≡ [] }
        ensures* below { sem 𝓛 (LendsSet self.entry result.set) }
    {
        let alloc = *self.inserted.allocator();
        Seen::new(alloc, self.set)
    }

    /// A level above this one, with one index inserted.
    ///
    /// # Errors
    ///
    /// Those of [`Seen::insert`]. The set then stays as it was.
    pub fn insert_one(&mut self, index: TypeIndex) -> Result<Seen<'_>, SeenError>
        ensures answer { IfOk result (λ level. (q : ℕ)
            → has level.set.now q ≡ (has self.entry.now.set.now q || q == index.0)) }
        ensures absent { OnOk result (has self.entry.now.set.now index.0 ≡ false) }
        ensures one { IfOk result (λ level. level.inserted.items ≡ index ∷ []) }
        ensures refused { IfErr result (λ e. IsRefusal e index (has self.entry.now.set.now index.0)) }
    {
        let alloc = *self.inserted.allocator();
        Seen::with_one(self.set, alloc, index)
    }
}
