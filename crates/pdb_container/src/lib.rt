//! Reads PDB files: turns the bytes of a file into the records of `pdb_records`.
//!
//! [`read_pdb`] returns an error only if the file as a whole can't be read. If only a part is broken, the records have
//! a failed stream, or a reading with a fault. Its number is one of those in [`faults`].
#![tactic(auto)]

mod debug_records;
mod front;
mod functions_by_start;
mod identity;
mod info;
mod module_infos;
mod module_places;
mod module_streams;
mod name_stream;
pub mod parts;
mod pdb_file;
mod pdb_file_error;
mod unnamed_code;

pub use identity::{PdbIdentity, read_identity, read_identity_of};
pub use pdb_file::{PdbFile, read_pdb, read_pdb_file};
pub use pdb_file_error::PdbFileError;
pub use pdb_identity::{CompactDebugId, DebugId, Machine};
pub use pdb_msf::{
    Container, ContainerError, MsfLayout, OpenError, RangeError, Source, SourceError, StreamSubset,
    faults, other_file,
};
