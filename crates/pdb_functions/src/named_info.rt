//! `NamedInfo`: the cached procedures of a module, with the name that the module had then.

use crate::module_info::BasicModuleInfo;
use pdb_records::RawString;

// The cached procedures of a module, with its name.
#[derive(Drop)]
pub(crate) struct NamedInfo<'a> {
    // The name that the module had when it was read.
    pub(crate) name: RawString,
    // Its procedures, or `None` if it has no records that can be read.
    pub(crate) info: Option<BasicModuleInfo<'a>>,
}
