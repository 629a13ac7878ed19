//! `KnownRecords`: the records that were read of a file so far, and which ones these are.

ghost use Rattle.std.specs.Prelude.{◌≡◌};
ghost use Rattle.pdb_known.specs.Known.{is_covered, is_read, is_sized};

use pdb_records::PDB;
use std::marker::Model;

// The first cross-module index. The entries of such indices are in other modules.
const FIRST_IMPORT: u32 = 1 << 31;

/// Which entries of a list of types or ids were read.
#[derive(Drop)]
pub struct EntriesRead {
    /// The index of the stream's first entry.
    pub first: u32,
    /// Whether each entry was read, by its position from the first.
    pub read: Vec<bool>,
}

impl Model for EntriesRead {
    ghost use Rattle.pdb_known.specs.Known.{Span};

    ghost Value = { Span };

    ghost view = { λ e. record { first = e.first; read = e.read.items } };
}

impl EntriesRead {
    /// Whether nothing remains to be read for an index: its entry was read, or the list has none. `false` for a
    /// cross-module index.
    pub fn is_covered(&self, index: u32) -> bool
        ensures { result ≡ is_covered self.now index }
    {
        if index >= FIRST_IMPORT {
            return false;
        }
        if index < self.first {
            return true;
        }
        match self.read.get((index - self.first) as usize) {
            Some(read) => *read,
            None => true,
        }
    }
}

/// The records that were read of a file.
#[derive(Drop)]
pub struct KnownRecords {
    /// The records so far.
    pub records: PDB,
    /// Whether all records were read.
    pub all: bool,
    /// Whether each module was read, by its module index.
    pub modules: Vec<bool>,
    /// Which types were read.
    pub types: EntriesRead,
    /// Which types have the same size as over all records.
    pub sizes: EntriesRead,
    /// Which ids were read.
    pub ids: EntriesRead,
}

impl Model for KnownRecords {
    ghost use Rattle.pdb_known.specs.Known.{Known};

    ghost Value = { Known };

    ghost view = { λ k. record {
      records = k.records;
      all = k.all;
      modules = k.modules.items;
      types = k.types;
      sizes = k.sizes;
      ids = k.ids;
    } };
}

impl KnownRecords {
    /// Whether nothing remains to be read of a module: it was read, or there is none at this module index.
    pub fn is_read(&self, module_index: usize) -> bool
        ensures { result ≡ is_read self.now module_index }
    {
        match self.modules.get(module_index) {
            Some(read) => *read,
            None => true,
        }
    }

    /// Whether a type was read, and has the same size as over all records.
    pub fn is_sized(&self, index: u32) -> bool
        ensures { result ≡ is_sized self.now index }
    {
        self.types.is_covered(index) && self.sizes.is_covered(index)
    }
}
