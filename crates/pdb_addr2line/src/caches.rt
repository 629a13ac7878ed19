//! `Caches`: what a context has read from the records, such as procedures, code, and where functions start.

ghost use Rattle.std.specs.Prelude.{◌≡◌, Some, None, option_map, IfOk};
ghost use Rattle.pdb_functions.specs.ModuleInfoCache.{readable_info};
ghost use Rattle.pdb_functions.specs.FunctionMatches.{function_match, function_module};
ghost use Rattle.pdb_frames.specs.CodeCache.{IsCodeCache};
ghost use Rattle.pdb_frames.specs.CodeCaches.{ModuleRecords};
ghost use Rattle.pdb_frames.specs.CodeParts.{part_to_blame};

use pdb_frames::{CodeCache, CodePart};
use pdb_functions::{BasicModuleInfoCache, FunctionMatch};
use pdb_records::{Module, ModuleProvider};
use std::alloc::{AllocError, Global};

// What a context has read so far, so that it is read once. Printed names are cached in its formatter.
#[derive(Drop)]
pub(crate) struct Caches<'a, P: ModuleProvider> {
    // The procedures of modules.
    pub(crate) infos: BasicModuleInfoCache<'a, P>,
    // Line programs, rows and inline ranges.
    pub(crate) code: CodeCache<'a>,
    // Where functions start, after that was asked for the first time.
    pub(crate) starts: Option<Vec<u32>>,
}

impl<'a, P: ModuleProvider> Caches<'a, P> {
    // Empty caches. They take no memory.
    pub(crate) fn new(alloc: Global, provider: &'a P) -> Self
        ensures infos { result.infos.provider ≡ provider.now }
        ensures is_cache { (records : ModuleRecords) → IsCodeCache records result.code }
        ensures starts { result.starts ≡ None }
    {
        Caches {
            infos: BasicModuleInfoCache::new(alloc, provider),
            code: CodeCache::new(alloc),
            starts: None,
        }
    }
}

// The part of the records that is broken, if the frames of a function can't be found.
pub(crate) fn part_blamed_by<'a, P: ModuleProvider>(
    caches: &mut Caches<'a, P>,
    modules: &[Module],
    function: FunctionMatch<'_>,
) -> Result<Option<CodePart>, AllocError>
    ghost records: { ModuleRecords }
    requires records { records ≡ readable_info (P.info caches.old.infos.provider) modules.now }
    requires is_cache { IsCodeCache records caches.old.code }
    ensures answer { let found = function_match function.entry in
        IfOk result (λ part. part
        ≡ option_map (λ info. part_to_blame info found) (records (function_module found))) }
    ensures is_cache { IsCodeCache records caches.new.code }
    ensures infos { caches.new.infos.provider ≡ caches.old.infos.provider }
    ensures starts { caches.new.starts ≡ caches.old.starts }
{
    let module_index = function.module_index();
    let Some(info) = caches.infos.get_basic_module_info(modules, module_index)? else {
        return Ok(None);
    };
    let part = caches.code.part_to_blame(info.module_info(), function)?;
    Ok(Some(part))
}
