//! Reads the records of each module, and names its chunks and jumps that have no name of their own.

ghost use Rattle.std.specs.Prelude.{◌≡◌, IfErr, IfOk};
ghost use Rattle.pdb_container.specs.DebugRecords.{global_symbols, module_infos, streams_of_modules, tabled};
ghost use Rattle.pdb_container.specs.ModulePlaces.{modules_read};

use crate::module_places::{ModuleInfoResult, module_places, read_module_info};
use crate::unnamed_code::name_unnamed_code;
use pdb_dbi::ModuleStream;
use pdb_msf::Container;
use pdb_msf::faults::Fault;
use pdb_records::{StreamError, SymbolTable};
use std::alloc::Global;

/// The records of each module of a container; `None` for a module without a stream. Chunks and jumps get names from
/// `symbols`, the global symbols.
#[tactic(auto, unfolding(crate::specs::DebugRecords::module_infos))]
pub fn module_infos(
    alloc: Global,
    container: &Container<'_>,
    streams: &[ModuleStream],
    symbols: &Result<SymbolTable, StreamError>,
) -> Result<Vec<ModuleInfoResult>, Fault>
    requires streams { streams.now ≡ streams_of_modules container.now }
    requires symbols { tabled symbols.now ≡ global_symbols container.now }
    ensures answer { IfOk result (λ infos. infos.items ≡ module_infos container.now) }
    ensures memory { IfErr result (λ fault. fault ≡ Fault.OutOfMemory) }
{
    let mut infos = read_modules(alloc, container, streams)?;
    name_unnamed_code(alloc, &mut infos, symbols, container.file_length())?;
    Ok(infos)
}

// Reads the records of each module. Chunks and jumps don't have names yet.
#[tactic(auto, unfolding(crate::specs::ModulePlaces::modules_read))]
fn read_modules(
    alloc: Global,
    container: &Container<'_>,
    streams: &[ModuleStream],
) -> Result<Vec<ModuleInfoResult>, Fault>
    ensures answer { IfOk result (λ infos. infos.items ≡ modules_read container.now streams.now) }
    ensures memory { IfErr result (λ fault. fault ≡ Fault.OutOfMemory) }
{
    let places = module_places(alloc, container, container.file_length(), streams)?;
    let mut infos = Vec::with_capacity(alloc, places.len())?;
    for place in &places {
        infos.push(read_module_info(alloc, container, *place)?)?;
    }
    Ok(infos)
}
