//! `ModuleProvider`: supplies the records of a module when they are needed.

ghost use Rattle.std.specs.Prelude.{◌≡◌, ℕ, Option, Result};
ghost use Rattle.pdb_records.specs.declared.error.StreamError.{StreamError};
ghost use Rattle.pdb_records.specs.declared.debug_information.Module.{Module};
ghost use Rattle.pdb_records.specs.declared.modules.ModuleInfo.{ModuleInfo};
ghost use Rattle.pdb_records.specs.Provided.{provided};

use crate::debug_information::Module;
use crate::error::StreamError;
use crate::modules::ModuleInfo;

/// Supplies the records of a module when they are needed.
///
/// An implementation may read them from elsewhere. It must give the same answer to the same question: its answer is a
/// function of its own value, the module index and the module.
pub trait ModuleProvider {
    /// The records of the module at this module index.
    ghost info: { Self → ℕ → Module → Result (Option ModuleInfo) StreamError };

    /// The records of the module at a module index in the list of modules, or `None` if it has none.
    fn get_module_info(
        &self,
        module_index: usize,
        module: &Module,
    ) -> Result<Option<&ModuleInfo>, StreamError>
        ensures { provided result ≡ info self.now module_index «module».now };
}
