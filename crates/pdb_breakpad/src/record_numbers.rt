//! Gives numbers to files and to the names of inlined functions, in the order of their first use.

ghost use Rattle.std.specs.Prelude.{◌≡◌, ◌++◌, ℕ, List, [], ◌∷◌, Some, IfOk, IfSome, OnOk, OnErr, length, map, slice_get};
ghost use Rattle.std.specs.Prelude.{string_bytes, if◌then◌else◌};
ghost use Rattle.std.specs.BTreeMap.{get_by_text};
ghost use Rattle.std.specs.Str.{bytes_eq};
ghost use Rattle.pdb_breakpad.specs.NameRecords.{keyword, name_record, name_records};
ghost use Rattle.pdb_breakpad.specs.RecordNumbers.{KeepsNames};
ghost use Rattle.pdb_breakpad.specs.WrittenRecords.{FitNumbers};

use crate::name_text::push_name;
use std::alloc::{AllocError, Global};
use std::collections::BTreeMap;
use std::marker::Model;

/// What the names belong to.
#[derive(Clone, Copy)]
pub(crate) enum NameKind {
    File,
    InlineOrigin,
}

impl NameKind {
    /// The beginning of the record of such a name.
    fn keyword(self) -> &'static str
        ensures { result.now ≡ keyword self }
    {
        match self {
            NameKind::File => "FILE ",
            NameKind::InlineOrigin => "INLINE_ORIGIN ",
        }
    }
}

/// How many slots there are for numbers of recent names.
const SLOTS: usize = 1 << 12;

/// Names with their numbers.
#[derive(Drop)]
pub(crate) struct NumberedNames {
    numbers: BTreeMap<String, usize>,
    /// The names, by their numbers.
    names: Vec<String>,
    /// The numbers of recent names, each in the slot of its name. Several names may share a slot, so the name of a
    /// number found there must be compared.
    recent: Vec<usize>,
}

// Contracts see the names, by their numbers.
impl Model for NumberedNames {
    ghost use Rattle.std.specs.Prelude.{ℕ, List, map, string_bytes};
    ghost use Rattle.pdb_breakpad.specs.RecordNumbers.{KnowsNumbers};

    ghost Value = { List (List ℕ) };

    ghost view = { λ n. map string_bytes n.names.items };

    ghost invariant = { λ n. KnowsNumbers n.numbers (map string_bytes n.names.items) };
}

// The number of a name in a map.
fn number_in(numbers: &BTreeMap<String, usize>, name: &str) -> Option<usize>
    ensures { result ≡ get_by_text numbers.now name.now }
{
    match numbers.get(name) {
        Some(number) => Some(*number),
        None => None,
    }
}

// Stores the number of a name in a map.
fn put(numbers: &mut BTreeMap<String, usize>, name: String, number: usize) -> Result<(), AllocError>
    ensures state { OnOk result ((asked : List ℕ) → get_by_text numbers.new asked
        ≡ (if bytes_eq (string_bytes name) asked then Some number else get_by_text numbers.old asked)) }
    ensures unchanged_if_refused { OnErr result ((asked : List ℕ)
        → get_by_text numbers.new asked ≡ get_by_text numbers.old asked) }
{
    numbers.insert(name, number)?;
    Ok(())
}

// Appends a copy of a name, and returns its position.
fn push_copy(names: &mut Vec<String>, name: &str) -> Result<usize, AllocError>
    ensures answer { IfOk result (λ position. position ≡ length (map string_bytes names.old.items)) }
    ensures state { OnOk result (map string_bytes names.new.items ≡ map string_bytes names.old.items ++ name.now ∷ []) }
    ensures unchanged_if_refused { OnErr result
        (map string_bytes names.new.items ≡ map string_bytes names.old.items) }
{
    let position = names.len();
    let copy = String::from_str(*names.allocator(), name)?;
    names.push(copy)?;
    Ok(position)
}

// The slot of a name, by its length and its last 32 bytes.
fn slot_of(name: &str) -> usize {
    let bytes = name.as_bytes();
    let mut hash = bytes.len();
    for &byte in bytes.iter().rev().take(32) {
        hash = hash.wrapping_mul(31).wrapping_add(usize::from(byte));
    }
    hash % SLOTS
}

impl NumberedNames {
    fn new(alloc: Global) -> NumberedNames
        ensures { result ≡ [] }
    {
        NumberedNames {
            numbers: BTreeMap::new(alloc),
            names: Vec::new(alloc),
            recent: Vec::new(alloc),
        }
    }

    /// The number of a name. A new name gets the next number.
    pub(crate) fn number_of(&mut self, name: &str) -> Result<usize, AllocError>
        ensures answer { IfOk result (λ number. slice_get self.new number ≡ Some name.now) }
        ensures state { KeepsNames self.old self.new }
    {
        let slot = slot_of(name);
        if let Some(number) = self.recent_number(slot, name) {
            return Ok(number);
        }
        let number = match number_in(&self.numbers, name) {
            Some(number) => number,
            None => self.add(name)?,
        };
        self.keep_recent(slot, number)?;
        Ok(number)
    }

    // The number in a slot, if it belongs to this name.
    fn recent_number(&self, slot: usize, name: &str) -> Option<usize>
        ensures { IfSome result (λ number. slice_get self.now number ≡ Some name.now) }
    {
        let number = *self.recent.get(slot)?;
        let known = self.names.get(number)?;
        if known.as_str() == name {
            Some(number)
        } else {
            None
        }
    }

    // Stores a number in a slot.
    fn keep_recent(&mut self, slot: usize, number: usize) -> Result<(), AllocError>
        ensures unchanged { self.new ≡ self.old }
    {
        if self.recent.is_empty() {
            self.recent.resize(SLOTS, 0)?;
        }
        if let Some(recent) = self.recent.get_mut(slot) {
            *recent = number;
        }
        Ok(())
    }

    // Gives a name the next number.
    #[tactic(auto, using(crate::proofs::NumberLemmas::numbered))]
    fn add(&mut self, name: &str) -> Result<usize, AllocError>
        ensures answer { IfOk result (λ number. slice_get self.new number ≡ Some name.now) }
        ensures state { KeepsNames self.old self.new }
    {
        let known = String::from_str(*self.names.allocator(), name)?;
        let number = push_copy(&mut self.names, name)?;
        put(&mut self.numbers, known, number)?;
        Ok(number)
    }

    /// The number of names.
    pub(crate) fn len(&self) -> usize
        ensures { result ≡ length self.now }
    {
        self.names.len()
    }

    /// Appends a record of each name, in the order of their numbers.
    pub(crate) fn push_records(&self, text: &mut String, kind: NameKind) -> Result<(), AllocError>
        ensures { OnOk result (string_bytes text.new
            ≡ string_bytes text.old ++ name_records (keyword kind) 0 self.now) }
    {
        for (number, name) in self.names.iter().enumerate() {
            push_record(text, kind, number, name.as_str())?;
        }
        Ok(())
    }
}

// Appends the record of a name.
#[tactic(auto, unfolding(crate::specs::NameRecords::name_record))]
fn push_record(
    text: &mut String,
    kind: NameKind,
    number: usize,
    name: &str,
) -> Result<(), AllocError>
    ensures { OnOk result (string_bytes text.new
        ≡ string_bytes text.old ++ name_record (keyword kind) number name.now) }
{
    text.push_str(kind.keyword())?;
    write!(text, "{number} ")?;
    push_name(text, name)
}

/// The numbers of a symbol file.
#[derive(Drop)]
pub(crate) struct Numbers {
    pub files: NumberedNames,
    /// The names of inlined functions.
    pub origins: NumberedNames,
}

impl Numbers {
    pub(crate) fn new(alloc: Global) -> Numbers {
        Numbers {
            files: NumberedNames::new(alloc),
            origins: NumberedNames::new(alloc),
        }
    }

    /// Does nothing. It only shows to the prover that the numbers fit their type, because a list has at most as many
    /// names as the type can count.
    pub(crate) fn fit(&self)
        ensures { FitNumbers self.now }
    {
        let _counts = (self.files.len(), self.origins.len());
    }
}
