//! `ContainerError`: why a file can't be read at all, such as a program, a compressed file or an older version.

ghost use Rattle.std.specs.Prelude.{◌≡◌};
ghost use Rattle.pdb_msf.specs.ContainerError.{other_fault};

use crate::faults::Fault;
use thiserror::Error;

/// Why a file can't be read at all.
#[derive(Debug, Clone, Copy, PartialEq, Eq, Error)]
pub enum ContainerError {
    /// The file doesn't begin as a PDB file of version 7.00 does, or has an invalid block size.
    #[error("not a PDB file")]
    NotAPdbFile,
    /// The file is a program or a library.
    #[error("a program (EXE or DLL), not its PDB file")]
    Program,
    /// The file has the debug records of a .NET program.
    #[error("a .NET portable PDB")]
    PortablePdb,
    /// The file is compressed, as files in symbol stores may be.
    #[error("a compressed file (CAB, .pd_)")]
    Compressed,
    /// The file is a PDB file of the version before 7.00.
    #[error("a PDB file of version 2.00 (JG)")]
    OldPdbFile,
    /// The file ends before its directory of streams does.
    #[error("the file is cut short before the end of its directory")]
    CutShort,
    /// All streams together are longer than the file.
    #[error("the streams are longer than the file together")]
    StreamsTooLong,
    /// Memory ran out. The same call may succeed later.
    #[error("out of memory")]
    OutOfMemory,
}

/// The kind of a file that isn't a PDB file of version 7.00, by its first bytes.
#[tactic(auto, unfolding(crate::specs::ContainerError::other_fault))]
pub fn other_file(file: &[u8]) -> ContainerError
    ensures { result ≡ other_fault file.now }
{
    if file.starts_with(b"MZ") {
        return ContainerError::Program;
    }
    if file.starts_with(b"BSJB") {
        return ContainerError::PortablePdb;
    }
    if file.starts_with(b"MSCF") || file.starts_with(b"SZDD") {
        return ContainerError::Compressed;
    }
    if file.starts_with(b"Microsoft C/C++ program database 2.00") {
        return ContainerError::OldPdbFile;
    }
    ContainerError::NotAPdbFile
}

impl From<Fault> for ContainerError {
    ghost use Rattle.pdb_msf.specs.Faults.{GivesFault};

    ghost from_gives = { GivesFault };

    fn from(fault: Fault) -> ContainerError {
        match fault {
            Fault::Broken(_) => ContainerError::CutShort,
            Fault::OutOfMemory => ContainerError::OutOfMemory,
        }
    }
}
