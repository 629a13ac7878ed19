//! Collects the modules that the frames of a request name.

ghost use Rattle.std.specs.Prelude.{◌≡◌, ◌<◌, ◌||◌, ◌++◌, ◌∷◌, [], ℕ, true, Some};
ghost use Rattle.std.specs.Prelude.{length, vec_len, slice_get, IfOk, IfSome, IsTrue, OnOk, OnSome, option_map};
ghost use Rattle.std.specs.Prelude.{string_bytes};
ghost use Rattle.pdb_symbolication.specs.Findings.{search_of};
ghost use Rattle.pdb_symbolication.specs.HarmlessNames.{is_harmless};
ghost use Rattle.pdb_symbolication.specs.WantedModules.{AsksFor, AsksForEach, FrameAsks, GainsOnly, HasOffset, JobAsks};
ghost use Rattle.pdb_symbolication.specs.WantedModules.{KeepsIdentities, KeepsModules, KeepsOffsets, KeepsServed};
ghost use Rattle.pdb_symbolication.specs.WantedModules.{LeadToEntries, LeadsTo, NoMore, ServesFrame, ServesJob};
ghost use Rattle.pdb_symbolication.specs.WantedModules.{ServesStack, StackAsks, identities_in, identities_of};
ghost use Rattle.pdb_symbolication.specs.WantedModules.{identity_of};
ghost use Rattle.pdb_symbolication.specs.WantedModules.{identity_text, is_asked, is_entry, offsets_in, offsets_of};
ghost use Rattle.pdb_symbolication.specs.WantedModules.{named_identity, stack_names};

use crate::harmless_names::is_harmless_name;
use crate::requests::{FrameModule, Job, MemoryMapEntry, Stack, StackFrame, SymbolicationRequest};
use crate::wanted_modules::{NamedModule, Search, WantedModule, WantedModules};
use pdb_identity::DebugId;
use std::alloc::{AllocError, Global};
use std::collections::BTreeMap;

impl WantedModules {
    /// The modules of a request. Entries with the same name and debug id are one module, also if they are in different
    /// jobs.
    pub fn of(alloc: Global, request: &SymbolicationRequest) -> Result<WantedModules, AllocError>
        ensures answer { IfOk result (AsksForEach request.now) }
    {
        let mut collector = Collector {
            alloc,
            modules: Vec::new(alloc),
            positions: BTreeMap::new(alloc),
        };
        let mut searches = Vec::new(alloc);
        for job in &request.jobs {
            searches.push(collector.add_job(job)?)?;
        }
        Ok(WantedModules {
            modules: collector.finish()?,
            searches,
        })
    }
}

/// The modules that the frames named so far.
#[derive(Drop)]
struct Collector {
    alloc: Global,
    modules: Vec<NamedModule>,
    /// The positions of the modules, by name and debug id.
    positions: BTreeMap<String, usize>,
}

impl Collector {
    // Adds the frames of a job. Returns what they ask for each entry of its memory map.
    fn add_job(&mut self, job: &Job) -> Result<Vec<Search>, AllocError>
        ensures led { IfOk result (λ searches.
            LeadToEntries (identities_in self.new) job.now.memory_map.items searches.items) }
        ensures kept { OnOk result (KeepsIdentities (identities_in self.old) (identities_in self.new)) }
        ensures asked { IfOk result (λ searches. AsksFor job.now searches.items) }
        ensures offsets_kept { OnOk result (KeepsOffsets (offsets_in self.old) (offsets_in self.new)) }
        ensures served { IfOk result (λ searches. ServesJob (offsets_in self.new) searches.items job.now) }
        ensures only { IfOk result (λ searches. GainsOnly (offsets_in self.old) (offsets_in self.new)
            (λ position offset. JobAsks searches.items position offset job.now)) }
    {
        let mut searches = vec![in self.alloc; Search::NotAsked; job.memory_map.len()]?;
        for stack in &job.stacks {
            self.add_stack(job, &mut searches, stack)?;
        }
        Ok(searches)
    }

    fn add_stack(
        &mut self,
        job: &Job,
        searches: &mut [Search],
        stack: &Stack,
    ) -> Result<(), AllocError>
        requires count { length searches.old ≡ vec_len job.now.memory_map }
        requires led { LeadToEntries (identities_in self.old) job.now.memory_map.items searches.old }
        ensures led { OnOk result (LeadToEntries (identities_in self.new) job.now.memory_map.items searches.new) }
        ensures kept { OnOk result (KeepsIdentities (identities_in self.old) (identities_in self.new)) }
        ensures asked { OnOk result ((index : ℕ) → index < length searches.old → is_asked (search_of searches.new index)
            ≡ (is_asked (search_of searches.old index) || stack_names index stack.now)) }
        ensures offsets_kept { OnOk result (KeepsOffsets (offsets_in self.old) (offsets_in self.new)) }
        ensures still_served { OnOk result (KeepsServed searches.old searches.new) }
        ensures served { OnOk result (ServesStack (offsets_in self.new) searches.new stack.now) }
        ensures still_led { OnOk result (KeepsModules searches.old searches.new) }
        ensures only { OnOk result (GainsOnly (offsets_in self.old) (offsets_in self.new)
            (λ position offset. StackAsks searches.new position offset stack.now)) }
    {
        for &frame in &stack.frames {
            self.add_frame(job, searches, frame)?;
        }
        Ok(())
    }

    fn add_frame(
        &mut self,
        job: &Job,
        searches: &mut [Search],
        frame: StackFrame,
    ) -> Result<(), AllocError>
        requires count { length searches.old ≡ vec_len job.now.memory_map }
        requires led { LeadToEntries (identities_in self.old) job.now.memory_map.items searches.old }
        ensures led { OnOk result (LeadToEntries (identities_in self.new) job.now.memory_map.items searches.new) }
        ensures kept { OnOk result (KeepsIdentities (identities_in self.old) (identities_in self.new)) }
        ensures asked { OnOk result ((index : ℕ) → index < length searches.old → is_asked (search_of searches.new index)
            ≡ (is_asked (search_of searches.old index) || is_entry index frame.module)) }
        ensures offsets_kept { OnOk result (KeepsOffsets (offsets_in self.old) (offsets_in self.new)) }
        ensures still_served { OnOk result (KeepsServed searches.old searches.new) }
        ensures served { OnOk result (ServesFrame (offsets_in self.new) searches.new frame) }
        ensures still_led { OnOk result (KeepsModules searches.old searches.new) }
        ensures only { OnOk result (GainsOnly (offsets_in self.old) (offsets_in self.new)
            (λ position offset. FrameAsks searches.new position offset frame)) }
    {
        let FrameModule::At(index) = frame.module else {
            return Ok(());
        };
        let (Some(entry), Some(&before)) = (job.memory_map.get(index), searches.get(index)) else {
            return Ok(());
        };
        let search = self.made_search(entry, before)?;
        searches[index] = search;
        match search {
            Search::Module(position) => self.add_offset(position, frame.offset),
            _ => Ok(()),
        }
    }

    // The search for an entry that a frame names. It may exist from an earlier frame.
    fn made_search(&mut self, entry: &MemoryMapEntry, before: Search) -> Result<Search, AllocError>
        requires { LeadsTo (identities_in self.old) (identity_of entry.now) before }
        ensures same { IfOk result (λ search. is_asked before ≡ true → search ≡ before) }
        ensures asked { IfOk result (λ search. is_asked search ≡ true) }
        ensures led { IfOk result (LeadsTo (identities_in self.new) (identity_of entry.now)) }
        ensures kept { OnOk result (KeepsIdentities (identities_in self.old) (identities_in self.new)) }
        ensures offsets_kept { OnOk result (KeepsOffsets (offsets_in self.old) (offsets_in self.new)) }
        ensures no_more { OnOk result (NoMore (offsets_in self.old) (offsets_in self.new)) }
    {
        match before {
            Search::NotAsked => self.search_for(entry),
            _ => Ok(before),
        }
    }

    // The search for an entry that a frame names.
    fn search_for(&mut self, entry: &MemoryMapEntry) -> Result<Search, AllocError>
        ensures asked { IfOk result (λ search. is_asked search ≡ true) }
        ensures led { IfOk result (LeadsTo (identities_in self.new) (identity_of entry.now)) }
        ensures kept { OnOk result (KeepsIdentities (identities_in self.old) (identities_in self.new)) }
        ensures offsets_kept { OnOk result (KeepsOffsets (offsets_in self.old) (offsets_in self.new)) }
        ensures no_more { OnOk result (NoMore (offsets_in self.old) (offsets_in self.new)) }
    {
        match searched_id(entry) {
            Some(debug_id) => self.module_of(entry.name.as_str(), debug_id),
            None => Ok(Search::Impossible),
        }
    }

    // The search for the module with this name and debug id, which is added if it is new.
    fn module_of(&mut self, name: &str, debug_id: DebugId) -> Result<Search, AllocError>
        requires harmless { IsTrue (is_harmless name.now) }
        ensures asked { IfOk result (λ search. is_asked search ≡ true) }
        ensures led { IfOk result (LeadsTo (identities_in self.new) (Some (name.now, debug_id))) }
        ensures kept { OnOk result (KeepsIdentities (identities_in self.old) (identities_in self.new)) }
        ensures offsets_kept { OnOk result (KeepsOffsets (offsets_in self.old) (offsets_in self.new)) }
        ensures no_more { OnOk result (NoMore (offsets_in self.old) (offsets_in self.new)) }
    {
        let key = key_of(self.alloc, name, debug_id)?;
        let known = self.known_position(&key, name, &debug_id);
        match known {
            Some(position) => Ok(Search::Module(position)),
            None => {
                let position = self.add_module(name, debug_id)?;
                self.positions.insert(key, position)?;
                Ok(Search::Module(position))
            }
        }
    }

    // The position of the module with this name and debug id, by its key.
    fn known_position(&self, key: &String, name: &str, debug_id: &DebugId) -> Option<usize>
        ensures { IfSome result (λ position.
            slice_get (identities_in self.now) position ≡ Some (name.now, debug_id.now)) }
    {
        match self.positions.get(key) {
            Some(&position) if self.is_at(position, name, debug_id) => Some(position),
            _ => None,
        }
    }

    fn is_at(&self, position: usize, name: &str, debug_id: &DebugId) -> bool
        ensures { result ≡ true → slice_get (identities_in self.now) position ≡ Some (name.now, debug_id.now) }
    {
        match self.module_at(position) {
            Some(module) => module.is_of(name, debug_id),
            None => false,
        }
    }

    fn module_at(&self, position: usize) -> Option<&NamedModule>
        ensures { option_map (λ one. named_identity one.now) result ≡ slice_get (identities_in self.now) position }
    {
        self.modules.get(position)
    }

    // Adds a module, and returns its position.
    fn add_module(&mut self, name: &str, debug_id: DebugId) -> Result<usize, AllocError>
        requires harmless { IsTrue (is_harmless name.now) }
        ensures added { OnOk result (identities_in self.new ≡ identities_in self.old ++ (name.now, debug_id) ∷ []) }
        ensures position { IfOk result (λ position. position ≡ length (identities_in self.old)) }
        ensures offsets_added { OnOk result (offsets_in self.new ≡ offsets_in self.old ++ [] ∷ []) }
    {
        let position = self.modules.len();
        self.modules.push(NamedModule {
            name: String::from_str(self.alloc, name)?,
            debug_id,
            offsets: Vec::new(self.alloc),
        })?;
        Ok(position)
    }

    // Adds an offset that a frame asks for to the module at this position.
    fn add_offset(&mut self, position: usize, offset: u64) -> Result<(), AllocError>
        requires known { position < length (identities_in self.old) }
        ensures identities { identities_in self.new ≡ identities_in self.old }
        ensures kept { OnOk result (KeepsOffsets (offsets_in self.old) (offsets_in self.new)) }
        ensures added { OnOk result (HasOffset (offsets_in self.new) position offset) }
        ensures only { OnOk result (GainsOnly (offsets_in self.old) (offsets_in self.new)
            (λ at one. at ≡ position × one ≡ offset)) }
    {
        match self.modules.get_mut(position) {
            Some(module) => module.add_offset(offset),
            None => Ok(()),
        }
    }

    // The wanted modules, with their offsets sorted.
    fn finish(self) -> Result<Vec<WantedModule>, AllocError>
        ensures identities { IfOk result (λ modules. identities_of modules.items ≡ identities_in self) }
        ensures offsets { IfOk result (λ modules. KeepsOffsets (offsets_in self) (offsets_of modules.items)) }
        ensures no_more { IfOk result (λ modules. NoMore (offsets_in self) (offsets_of modules.items)) }
    {
        let mut modules = Vec::new(self.alloc);
        for module in self.modules {
            modules.push(module.wanted())?;
        }
        Ok(modules)
    }
}

// The debug id by which an entry's file is looked for, if its name is harmless.
fn searched_id(entry: &MemoryMapEntry) -> Option<DebugId>
    ensures answer { option_map (λ id. (string_bytes entry.now.name, id)) result ≡ identity_of entry.now }
    ensures harmless { OnSome result (IsTrue (is_harmless (string_bytes entry.now.name))) }
{
    if !is_harmless_name(entry.name.as_str()) {
        return None;
    }
    DebugId::parse(entry.debug_id.as_str())
}

// The key of a module in the map of positions.
fn key_of(alloc: Global, name: &str, debug_id: DebugId) -> Result<String, AllocError>
    ensures { IfOk result (λ key. string_bytes key ≡ identity_text (name.now, debug_id)) }
{
    format!(in alloc; "{name}/{}", debug_id.compact())
}
