//! Reads modules of a file from their own streams.

ghost use Rattle.std.specs.Prelude.{◌≡◌, ◌≤◌, List, All, false, length, map, IfErr, IfOk, OnOk};
ghost use Rattle.pdb_container.specs.DebugRecords.{tabled};
ghost use Rattle.pdb_container.specs.ModulePlaces.{ModuleOrFault, module_of, place_at};
ghost use Rattle.pdb_container.specs.UnnamedCode.{named_modules};
ghost use Rattle.pdb_msf.specs.MsfLayout.{IfFile, with_bytes};
ghost use Rattle.pdb_repairs.specs.Repaired.{repaired_read};
ghost use Rattle.pdb_session.specs.FileParts.{AreModulesOf, HasNames, HasRepairsOf, IsModuleOf, IsReadFrom};
ghost use Rattle.pdb_session.specs.UntoldRepairs.{LeaveUntold, kept_at, untold_from};

use pdb_container::parts::{
    ModuleInfoResult, ModulePlace, has_unnamed_code, module_in_stream, name_unnamed_code,
};
use pdb_container::{MsfLayout, Source, SourceError};
use pdb_known::KnownRecords;
use pdb_msf::part_of_source;
use pdb_repairs::{Repair, repair_module_info};
use std::alloc::{AllocError, Global};

/// A module that was read from its own stream.
#[derive(Drop)]
pub struct ModuleRead {
    /// Its module index.
    pub position: usize,
    /// Its records after repairs, or why they can't be read.
    pub info: ModuleInfoResult,
    /// The repairs of its broken parts.
    pub repairs: Vec<Repair>,
}

/// Reads the modules at these positions, each from its own stream, and removes their broken parts.
pub fn read_modules_at<S: Source>(
    alloc: Global,
    map: &MsfLayout,
    source: &mut S,
    places: &[ModulePlace],
    positions: &[usize],
) -> Result<Vec<ModuleRead>, SourceError>
    ensures answer { IfOk result (λ read. IfFile (S.bytes source.old) map.now.file_length (λ file.
        All (IsReadFrom file map.now places.now) read.items)) }
    ensures inputs { S.bytes source.new ≡ S.bytes source.old }
{
    let mut read = Vec::new(alloc);
    for &position in positions {
        read.push(read_module_at(alloc, map, source, places, position)?)?;
    }
    Ok(read)
}

// Reads the module at a position.
fn read_module_at<S: Source>(
    alloc: Global,
    map: &MsfLayout,
    source: &mut S,
    places: &[ModulePlace],
    position: usize,
) -> Result<ModuleRead, SourceError>
    ensures answer { IfOk result (λ read. IfFile (S.bytes source.old) map.now.file_length (λ file.
        IsReadFrom file map.now places.now read)) }
    ensures inputs { S.bytes source.new ≡ S.bytes source.old }
{
    let mut info = read_module(alloc, map, source, place_at(places, position))?;
    let mut repairs = Vec::new(alloc);
    repair_module_info(alloc, position, &mut info, &mut repairs)?;
    Ok(ModuleRead {
        position,
        info,
        repairs,
    })
}

// Which stream has the records of the module at a position; none after the last module.
fn place_at(places: &[ModulePlace], position: usize) -> ModulePlace
    ensures { result ≡ place_at places.now position }
{
    places.get(position).copied().unwrap_or(Ok(None))
}

/// Reads the modules at all of these places, each from its own stream, without repairs.
pub fn read_modules<S: Source>(
    alloc: Global,
    streams: &MsfLayout,
    source: &mut S,
    places: &[ModulePlace],
) -> Result<Vec<ModuleInfoResult>, SourceError>
    ensures answer { IfOk result (λ infos. IfFile (S.bytes source.old) streams.now.file_length (λ file.
        infos.items ≡ map (module_of (with_bytes file streams.now)) places.now)) }
    ensures count { IfOk result (λ infos. length infos.items ≡ length places.now) }
    ensures inputs { S.bytes source.new ≡ S.bytes source.old }
{
    let mut infos = Vec::new(alloc);
    for &place in places {
        infos.push(read_module(alloc, streams, source, place)?)?;
    }
    Ok(infos)
}

// The records of a module, or why they can't be read. Its chunks and jumps have no names yet.
fn read_module<S: Source>(
    alloc: Global,
    map: &MsfLayout,
    source: &mut S,
    place: ModulePlace,
) -> Result<ModuleInfoResult, SourceError>
    ensures answer { IfOk result (λ read. IfFile (S.bytes source.old) map.now.file_length (λ file.
        read ≡ module_of (with_bytes file map.now) place)) }
    ensures refused { IfErr result (λ fault. fault ≡ SourceError.Unreadable
        → S.refuses_from source.old ≤ map.now.file_length) }
    ensures inputs { S.bytes source.new ≡ S.bytes source.old }
    ensures refusals { S.refuses_from source.new ≡ S.refuses_from source.old }
{
    match place {
        Ok(Some(place)) => match map.load(alloc, source, u32::from(place.stream))? {
            Ok(stream) => part_of_source(module_in_stream(alloc, place, &stream)),
            Err(error) => Ok(Err(error)),
        },
        Ok(None) => Ok(Ok(None)),
        Err(error) => Ok(Err(error)),
    }
}

/// Whether one of these modules has chunks or jumps without a name. Their function may be in any module.
pub fn has_any_unnamed_code(alloc: Global, modules: &[ModuleRead]) -> Result<bool, AllocError>
    ensures { IfOk result (λ has. has ≡ false → All HasNames modules.now) }
{
    for read in modules {
        if has_code_without_name(alloc, read)? {
            return Ok(true);
        }
    }
    Ok(false)
}

// Whether a module has chunks or jumps without a name.
fn has_code_without_name(alloc: Global, read: &ModuleRead) -> Result<bool, AllocError>
    ensures { IfOk result (λ has. has ≡ false → HasNames read.now) }
{
    match &read.info {
        Ok(Some(info)) => has_unnamed_code(alloc, &info.symbols.items),
        _ => Ok(false),
    }
}

/// Stores modules and their repairs at their positions, and sets their marks. A module that is marked stays as it is.
pub fn put_modules(
    modules: &mut [ModuleInfoResult],
    marks: &mut [bool],
    kept: &mut [Vec<Repair>],
    read: Vec<ModuleRead>,
)
    ensures modules { (whole : List ModuleOrFault) → All (IsModuleOf whole) read.items
        → AreModulesOf whole marks.old modules.old → AreModulesOf whole marks.new modules.new }
    ensures untold { (whole : List ModuleOrFault) → All (HasRepairsOf whole) read.items
        → LeaveUntold whole marks.old kept.old marks.new kept.new }
    ensures count { length kept.new ≡ length kept.old }
{
    for one in read {
        put_module(modules, marks, kept, one);
    }
}

// Stores a module and its repairs at its position, and sets its mark.
fn put_module(
    modules: &mut [ModuleInfoResult],
    marks: &mut [bool],
    kept: &mut [Vec<Repair>],
    read: ModuleRead,
)
    ensures modules { (whole : List ModuleOrFault) → IsModuleOf whole read
        → AreModulesOf whole marks.old modules.old → AreModulesOf whole marks.new modules.new }
    ensures untold { (whole : List ModuleOrFault) → HasRepairsOf whole read
        → LeaveUntold whole marks.old kept.old marks.new kept.new }
    ensures count { length kept.new ≡ length kept.old }
{
    let ModuleRead {
        position,
        info,
        repairs,
    } = read;
    if position < modules.len()
        && position < marks.len()
        && position < kept.len()
        && !marks[position]
    {
        modules[position] = info;
        marks[position] = true;
        kept[position] = repairs;
    }
}

/// Names the chunks and jumps of modules that were all read. These names together take at most `file_length` bytes.
pub fn name_code(
    alloc: Global,
    known: &KnownRecords,
    modules: &mut [ModuleInfoResult],
    file_length: usize,
) -> Result<(), AllocError>
    ensures { OnOk result
        (modules.new ≡ named_modules file_length (tabled known.now.records.global_symbols) modules.old) }
{
    let records = &known.records;
    match name_unnamed_code(alloc, modules, &records.global_symbols, file_length) {
        Ok(()) => Ok(()),
        Err(_) => Err(AllocError),
    }
}

/// Removes the broken parts of modules. Returns the repairs of each module: those that are kept if it was read before,
/// otherwise all.
pub fn repair_modules(
    alloc: Global,
    known: &KnownRecords,
    kept: &[Vec<Repair>],
    modules: &mut [ModuleInfoResult],
) -> Result<Vec<Vec<Repair>>, AllocError>
    ensures state { OnOk result (modules.new ≡ map repaired_read modules.old) }
    ensures repairs { IfOk result (λ repairs. map (λ told. told.items) repairs.items
        ≡ untold_from known.now.modules kept.now 0 modules.old) }
{
    let mut repairs = Vec::new(alloc);
    for (module_index, info) in modules.iter_mut().enumerate() {
        let mut told = Vec::new(alloc);
        repair_module_info(alloc, module_index, info, &mut told)?;
        if known.is_read(module_index) {
            told = repairs_at(alloc, kept, module_index)?;
        }
        repairs.push(told)?;
    }
    Ok(repairs)
}

// A copy of the repairs that are kept for a module.
fn repairs_at(
    alloc: Global,
    kept: &[Vec<Repair>],
    position: usize,
) -> Result<Vec<Repair>, AllocError>
    ensures { IfOk result (λ repairs. repairs.items ≡ kept_at kept.now position) }
{
    match kept.get(position) {
        Some(repairs) => Vec::from_slice(alloc, repairs),
        None => Ok(Vec::new(alloc)),
    }
}
