//! The extended info of a module: its line program, and the ids of the functions inlined in its code.

ghost use Rattle.std.specs.Prelude.{◌≡◌, IfOk, OnOk};
ghost use Rattle.std.specs.BTreeSet.{insert_key};
ghost use Rattle.pdb_errors.specs.Outcomes.{Gives};
ghost use Rattle.pdb_frames.specs.ExtendedInfo.{extended_info_view, id_cmp, inlinee_ids, extended_info};

use pdb_errors::{Error, Result};
use pdb_records::{IdIndex, Inlinee, LineProgram, ModuleInfo};
use std::alloc::{AllocError, Global};
use std::collections::BTreeSet;

/// A module's line program, and the functions that are inlined in its code.
#[derive(Drop)]
pub struct ExtendedModuleInfo<'a> {
    /// The source lines of the code.
    pub line_program: &'a LineProgram,
    /// The ids of the functions that are inlined in the code.
    pub inlinees: BTreeSet<IdIndex>,
}

// Adds an id to a set.
fn add_id(ids: &mut BTreeSet<IdIndex>, id: IdIndex) -> Result<(), AllocError>
    ensures { OnOk result (ids.new.keys ≡ insert_key id_cmp ids.old.keys id) }
{
    ids.insert(id)?;
    Ok(())
}

// The ids of the functions that are inlined in a module's code, as a set.
fn inlinee_ids(alloc: Global, inlinees: &[Inlinee]) -> Result<BTreeSet<IdIndex>, AllocError>
    ensures { IfOk result (λ ids. ids.keys ≡ inlinee_ids inlinees.now) }
{
    let mut ids = BTreeSet::new(alloc);
    for inlinee in inlinees {
        add_id(&mut ids, inlinee.index)?;
    }
    Ok(ids)
}

/// Computes the extended info of a module.
///
/// # Errors
///
/// [`Error::PdbError`] if the line program can't be read, or else if the list of inlinees ends early.
pub fn compute_extended_module_info(
    alloc: Global,
    module_info: &ModuleInfo,
) -> Result<ExtendedModuleInfo<'_>>
    ensures { Gives extended_info_view result (extended_info module_info.now) }
{
    let line_program = match &module_info.line_program {
        Ok(line_program) => line_program,
        Err(fault) => return Err(Error::from(*fault)),
    };
    if let Some(fault) = module_info.inlinees.fault {
        return Err(Error::from(fault));
    }
    let inlinees = inlinee_ids(alloc, &module_info.inlinees.items)?;
    Ok(ExtendedModuleInfo {
        line_program,
        inlinees,
    })
}
