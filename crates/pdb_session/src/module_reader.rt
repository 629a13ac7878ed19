//! Reads modules of a PDB file, with the types and ids that their functions name.

ghost use Rattle.std.specs.Prelude.{◌≡◌, All, List, false, length, None, IfOk, OnErr, OnOk};
ghost use Rattle.pdb_container.specs.DebugRecords.{module_infos};
ghost use Rattle.pdb_container.specs.ModulePlaces.{ModuleOrFault};
ghost use Rattle.pdb_container.specs.Front.{SameFront};
ghost use Rattle.pdb_known.specs.Known.{all_read};
ghost use Rattle.pdb_msf.specs.MsfLayout.{IfFile, with_bytes};
ghost use Rattle.pdb_session.specs.FileParts.{AreModulesOf, HasRepairsOf, IsModuleOf, IsWhole, OpensFile, ReadsFile};
ghost use Rattle.pdb_session.specs.FileParts.{nothing_read, with_all, with_ids, with_modules, with_types};
ghost use Rattle.pdb_session.specs.Session.{no_entries};
ghost use Rattle.pdb_session.specs.UntoldRepairs.{LeaveUntold};

use crate::front_records::{FileFront, FrontRecords, read_front_records};
use crate::front_streams::FrontStreams;
use crate::items_read::{IdsRead, TypesRead, read_all_items, read_ids, read_types};
use crate::module_reads::{
    ModuleRead, has_any_unnamed_code, name_code, put_modules, read_modules, read_modules_at,
    repair_modules,
};
use crate::reachable_types::ReachableTypes;
use crate::type_lists::TypeLists;
use pdb_container::parts::{ModuleInfoResult, ModulePlace};
use pdb_container::{MsfLayout, OpenError, Source, SourceError};
use pdb_known::{EntriesRead, KnownRecords};
use pdb_records::{IdInformation, TypeInformation};
use pdb_repairs::Repair;
use std::alloc::{AllocError, Global};

/// What reads the parts of a PDB file that are missing.
#[derive(Drop)]
pub struct FileReader<S> {
    pub map: MsfLayout,
    pub source: S,
    /// Where the records of each module are.
    pub places: Vec<ModulePlace>,
    pub lists: TypeLists,
    reach: ReachableTypes,
}

impl<S: Source + Drop> FileReader<S> {
    /// A reader of a file of this length, and everything in it except types, ids and modules.
    pub fn open(
        alloc: Global,
        mut source: S,
        file_length: usize,
    ) -> Result<(Self, FileFront), OpenError>
        ensures file { IfOk result (λ opened. OpensFile (S.bytes opened.0.source) opened.0.map
            opened.0.places.items opened.0.lists opened.1.records) }
        ensures inputs { IfOk result (λ opened. S.bytes opened.0.source ≡ S.bytes source) }
        ensures length { IfOk result (λ opened. opened.0.map.file_length ≡ file_length) }
    {
        let map = MsfLayout::read(alloc, &mut source, file_length)?;
        let streams = FrontStreams::read(alloc, &map, &mut source)?;
        let front = read_front_records(alloc, streams, file_length)?;
        let FrontRecords {
            places,
            lists,
            reach,
            front,
        } = front;
        let reader = FileReader {
            map,
            source,
            places,
            lists,
            reach,
        };
        Ok((reader, front))
    }

    /// How many modules the file has.
    pub fn module_count(&self) -> usize
        ensures { result ≡ length self.now.places.items }
    {
        self.places.len()
    }

    /// Marks for the types, for the types whose size is known, and for the ids of the file: none was read.
    pub fn nothing_read(
        &self,
        alloc: Global,
    ) -> Result<(EntriesRead, EntriesRead, EntriesRead), AllocError>
        ensures types { IfOk result (λ entries. entries.0 ≡ nothing_read self.now.lists.types.places) }
        ensures sizes { IfOk result (λ entries. entries.1 ≡ nothing_read self.now.lists.types.places) }
        ensures ids { IfOk result (λ entries. entries.2 ≡ nothing_read self.now.lists.ids.places) }
    {
        let lists = &self.lists;
        Ok((
            lists.types.nothing_read(alloc)?,
            lists.types.nothing_read(alloc)?,
            lists.ids.nothing_read(alloc)?,
        ))
    }

    /// Reads the modules at these positions, and the types and ids that their functions name. Broken parts of these
    /// modules are removed, and added to the repairs that are kept for each module.
    ///
    /// Chunks and jumps have no name of their own, and any module may list their function. If one of the modules has
    /// such code, everything that is left is read.
    ///
    /// If memory runs out or a range of the file can't be read, the call fails and marks nothing as read.
    pub fn read_modules(
        &mut self,
        alloc: Global,
        known: &mut KnownRecords,
        kept: &mut Vec<Vec<Repair>>,
        positions: &[usize],
    ) -> Result<(), SourceError>
        requires left { known.old.all ≡ false }
        requires count { length kept.old.items ≡ length self.old.places.items }
        requires file { ReadsFile (S.bytes self.old.source) self.old.map self.old.places.items self.old.lists known.old }
        ensures untold { IfFile (S.bytes self.old.source) self.old.map.file_length (λ file.
            LeaveUntold (module_infos (with_bytes file self.old.map)) known.old.modules kept.old.items
            known.new.modules kept.new.items) }
        ensures count { length kept.new.items ≡ length self.old.places.items }
        ensures places { self.new.places ≡ self.old.places }
        ensures file { ReadsFile (S.bytes self.new.source) self.new.map self.new.places.items self.new.lists known.new }
        ensures whole { IsWhole known.new }
        ensures front { SameFront known.old.records known.new.records }
        ensures unchanged { OnErr result (known.new ≡ known.old) }
        ensures inputs { S.bytes self.new.source ≡ S.bytes self.old.source }
        ensures map { self.new.map ≡ self.old.map }
    {
        let (map, source) = (&self.map, &mut self.source);
        let modules = read_modules_at(alloc, map, source, &self.places, positions)?;
        if has_any_unnamed_code(alloc, &modules)? {
            return self.read_all(alloc, known, kept);
        }
        self.reach
            .add_modules(alloc, &mut self.source, &self.lists, &modules)?;
        let types = read_types(alloc, &mut self.source, &self.lists.types, &self.reach)?;
        let ids = read_ids(alloc, &mut self.source, &self.lists.ids, &self.reach)?;
        put_types(known, types);
        put_ids(known, ids);
        put_read_modules(known, kept, modules);
        Ok(())
    }

    /// Reads everything that is left. Broken parts of the modules are removed, and added to the repairs that are kept
    /// for each module.
    ///
    /// If memory runs out or a range of the file can't be read, the call fails and marks nothing as read.
    pub fn read_all(
        &mut self,
        alloc: Global,
        known: &mut KnownRecords,
        kept: &mut Vec<Vec<Repair>>,
    ) -> Result<(), SourceError>
        requires left { known.old.all ≡ false }
        requires count { length kept.old.items ≡ length self.old.places.items }
        requires file { ReadsFile (S.bytes self.old.source) self.old.map self.old.places.items self.old.lists known.old }
        ensures untold { IfFile (S.bytes self.old.source) self.old.map.file_length (λ file.
            LeaveUntold (module_infos (with_bytes file self.old.map)) known.old.modules kept.old.items
            known.new.modules kept.new.items) }
        ensures count { length kept.new.items ≡ length self.old.places.items }
        ensures places { self.new.places ≡ self.old.places }
        ensures file { ReadsFile (S.bytes self.new.source) self.new.map self.new.places.items self.new.lists known.new }
        ensures all { OnOk result (known.new ≡ all_read known.new.records) }
        ensures whole { IsWhole known.new }
        ensures front { SameFront known.old.records known.new.records }
        ensures unchanged { OnErr result (known.new ≡ known.old) }
        ensures inputs { S.bytes self.new.source ≡ S.bytes self.old.source }
        ensures map { self.new.map ≡ self.old.map }
    {
        let types = read_all_items(alloc, &mut self.source, &self.lists.types)?;
        let ids = read_all_items(alloc, &mut self.source, &self.lists.ids)?;
        let mut modules = read_modules(alloc, &self.map, &mut self.source, &self.places)?;
        name_code(alloc, known, &mut modules, self.map.file_length())?;
        let repairs = repair_modules(alloc, known, kept, &mut modules)?;
        put_all(alloc, known, types, ids, modules);
        *kept = repairs;
        self.lists.types.places = None;
        self.lists.ids.places = None;
        self.reach = ReachableTypes::over_nothing(alloc);
        Ok(())
    }
}

// Replaces the types by those that were read, if the list could be read.
fn put_types(known: &mut KnownRecords, types: Option<TypesRead>)
    ensures { known.new ≡ with_types known.old types }
{
    if let Some(read) = types {
        known.records.type_information = Ok(read.information);
        known.types = read.types;
        known.sizes = read.sizes;
    }
}

// Replaces the ids by those that were read, if the list could be read.
fn put_ids(known: &mut KnownRecords, ids: Option<IdsRead>)
    ensures { known.new ≡ with_ids known.old ids }
{
    if let Some(read) = ids {
        known.records.id_information = Ok(read.information);
        known.ids = read.ids;
    }
}

// Stores the modules that were read and their repairs at their positions, and marks them as read.
fn put_read_modules(known: &mut KnownRecords, kept: &mut Vec<Vec<Repair>>, read: Vec<ModuleRead>)
    ensures rest { known.new ≡ with_modules known.old known.new.modules known.new.records.module_infos }
    ensures same { (whole : List ModuleOrFault) → All (IsModuleOf whole) read.items
        → AreModulesOf whole known.old.modules known.old.records.module_infos
        → AreModulesOf whole known.new.modules known.new.records.module_infos }
    ensures untold { (whole : List ModuleOrFault) → All (HasRepairsOf whole) read.items
        → LeaveUntold whole known.old.modules kept.old.items known.new.modules kept.new.items }
    ensures count { length kept.new.items ≡ length kept.old.items }
{
    put_modules(
        &mut known.records.module_infos,
        &mut known.modules,
        kept,
        read,
    );
}

// Replaces everything by what was read, and marks all as read.
fn put_all(
    alloc: Global,
    known: &mut KnownRecords,
    types: Option<TypeInformation>,
    ids: Option<IdInformation>,
    modules: Vec<ModuleInfoResult>,
)
    ensures { known.new ≡ all_read (with_all known.old.records types ids modules.items) }
{
    if let Some(types) = types {
        known.records.type_information = Ok(types);
    }
    if let Some(ids) = ids {
        known.records.id_information = Ok(ids);
    }
    known.records.module_infos = modules;
    known.all = true;
    known.modules = Vec::new(alloc);
    known.types = no_entries(alloc);
    known.sizes = no_entries(alloc);
    known.ids = no_entries(alloc);
}

/// The marks for a list without entries.
pub fn no_entries(alloc: Global) -> EntriesRead
    ensures { result ≡ no_entries }
{
    EntriesRead {
        first: 0,
        read: Vec::new(alloc),
    }
}
