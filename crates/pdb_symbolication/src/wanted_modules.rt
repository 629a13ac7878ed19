//! `WantedModule`: the modules that the frames of a request name, each with the offsets that are asked for.

ghost use Rattle.std.specs.List.Sorted.{IsStrictlyIncreasing};
ghost use Rattle.std.specs.Prelude.{◌≡◌, ◌==◌, ◌<◌, ◌^◌, ◌⊎◌, position, Contains, IsTrue, OnOk, string_bytes, true, ℕ};
ghost use Rattle.pdb_symbolication.specs.HarmlessNames.{is_harmless};

use pdb_identity::DebugId;
use std::alloc::AllocError;

/// A module that frames of a request name. Its name, appended to a folder, is a file directly in it.
#[derive(Drop)]
pub struct WantedModule {
    pub name: String,
    pub debug_id: DebugId,
    /// The offsets that are asked for, relative to where the module is loaded: ascending, and each once. Offsets of
    /// more than 32 bits are omitted, because no module is that large.
    pub offsets: Vec<u32>,
    pub ghost harmless: { IsTrue (is_harmless (string_bytes name)) },
    pub ghost ascending: { IsStrictlyIncreasing offsets.items },
}

impl WantedModule {
    // The number of an offset in this list, if it is there.
    pub(crate) fn number_of(&self, offset: u64) -> Option<usize>
        ensures { result ≡ position (λ at. at == offset) self.now.offsets.items }
    {
        number_in(&self.offsets, offset)
    }
}

// The number of an offset in an ascending list, if it is there.
fn number_in(offsets: &[u32], offset: u64) -> Option<usize>
    requires { IsStrictlyIncreasing offsets.now }
    ensures { result ≡ position (λ at. at == offset) offsets.now }
{
    match u32::try_from(offset) {
        Ok(offset) => offsets.binary_search(&offset).ok(),
        Err(_) => None,
    }
}

/// A module that frames name. Its name, appended to a folder, is a file directly in it.
#[derive(Drop)]
pub(crate) struct NamedModule {
    pub name: String,
    pub debug_id: DebugId,
    /// The offsets that are asked for, in the order of the request. Offsets of more than 32 bits are omitted.
    pub offsets: Vec<u32>,
    pub ghost harmless: { IsTrue (is_harmless (string_bytes name)) },
}

impl NamedModule {
    // Whether the module has this name and this debug id.
    pub(crate) fn is_of(&self, name: &str, debug_id: &DebugId) -> bool
        ensures name { result ≡ true → string_bytes self.now.name ≡ name.now }
        ensures debug_id { result ≡ true → self.now.debug_id ≡ debug_id.now }
    {
        self.name.as_str() == name && self.debug_id == *debug_id
    }

    // Adds an offset that a frame asks for.
    pub(crate) fn add_offset(&mut self, offset: u64) -> Result<(), AllocError>
        ensures name { self.new.name ≡ self.old.name }
        ensures debug_id { self.new.debug_id ≡ self.old.debug_id }
        ensures kept { OnOk result ((other : ℕ) → Contains self.old.offsets.items other
            → Contains self.new.offsets.items other) }
        ensures added { OnOk result (offset < 2 ^ 32 → Contains self.new.offsets.items offset) }
        ensures only { OnOk result ((other : ℕ) → Contains self.new.offsets.items other
            → Contains self.old.offsets.items other ⊎ other ≡ offset) }
    {
        if let Ok(offset) = u32::try_from(offset) {
            self.offsets.push(offset)?;
        }
        Ok(())
    }

    // The wanted module, with its offsets sorted and each once.
    pub(crate) fn wanted(self) -> WantedModule
        ensures name { result.name ≡ self.name }
        ensures debug_id { result.debug_id ≡ self.debug_id }
        ensures kept { (offset : ℕ) → Contains self.offsets.items offset → Contains result.offsets.items offset }
        ensures only { (offset : ℕ) → Contains result.offsets.items offset → Contains self.offsets.items offset }
    {
        let mut offsets = self.offsets;
        offsets.sort_unstable();
        offsets.dedup();
        WantedModule {
            name: self.name,
            debug_id: self.debug_id,
            offsets,
        }
    }
}

/// What the frames of a job ask for an entry of its memory map.
#[derive(Clone, Copy)]
pub(crate) enum Search {
    /// No frame names the entry.
    NotAsked,
    /// No file can have that name and that debug id.
    Impossible,
    /// The wanted module at this position.
    Module(usize),
}

/// The modules that the frames of a request name.
#[derive(Drop)]
pub struct WantedModules {
    pub modules: Vec<WantedModule>,
    /// For each job, the search for each entry of its memory map.
    pub(crate) searches: Vec<Vec<Search>>,
}
