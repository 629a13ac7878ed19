//! `Reader`: what is passed to all functions that read a records file, and what the versions of the format have.

ghost use Rattle.std.specs.Prelude.{◌≡◌};
ghost use Rattle.pdb_json_values.specs.Versions.{has_names_in_bytes, has_module_files};

use std::alloc::Global;

/// The version of a file that doesn't name one.
pub const FIRST_VERSION: u8 = 1;

/// The version of the format with names in bytes and with module files.
pub const SECOND_VERSION: u8 = 2;

/// The allocator and the version of the file, for all functions that read a part of it.
#[derive(Clone, Copy)]
pub struct Reader {
    pub alloc: Global,
    pub version: u8,
}

impl Reader {
    /// Whether a name may be an array of its bytes.
    pub fn has_names_in_bytes(self) -> bool
        ensures { result ≡ has_names_in_bytes self.version }
    {
        self.version == SECOND_VERSION
    }

    /// Whether the records of a module may be in a file of their own.
    pub fn has_module_files(self) -> bool
        ensures { result ≡ has_module_files self.version }
    {
        self.version == SECOND_VERSION
    }
}
