//! Why a call from C has no answer, and the negative number that it returns for each reason.

ghost use Rattle.std.specs.Prelude.{◌≡◌};
ghost use Rattle.pdb_c.specs.declared.call_error.CallError.TheVariants.{OutOfMemory as out_of_memory};
ghost use Rattle.pdb_c.specs.CallError.{code, refusal_of_fault, refusal_of_records, refusal_of_report};
ghost use Rattle.pdb_c.specs.CallError.{refusal_of_container, refusal_of_file, refusal_of_session, refusal_of_source};

use pdb_addr2line::Error;
use pdb_container::{ContainerError, OpenError, SourceError};
use pdb_json::RecordFault;
use pdb_report_lib::ReportFault;
use pdb_session::SessionError;
use std::alloc::AllocError;

/// Why a call from C has no answer.
#[derive(Debug, Clone, Copy)]
pub enum CallError {
    /// No addresses were given.
    NoAddresses,
    /// The bytes aren't JSON.
    NotJson,
    /// The JSON text isn't a valid records file: a value is missing, of the wrong kind, or out of range.
    NoRecords,
    /// The number of module files that were passed isn't the number that the records file names.
    ModuleFiles,
    /// The records are refused, for example because two modules claim the same bytes.
    RecordsRefused,
    /// The records of an address's module are refused.
    AddressRefused,
    /// Memory ran out. The same call may succeed later.
    OutOfMemory,
    /// The text is longer than the buffer.
    BufferTooSmall,
    /// The handle is closed.
    Closed,
    /// The bytes aren't a PDB file.
    NotAPdbFile,
    /// The bytes are a program or a library, not its PDB file.
    Program,
    /// The bytes are the debug records of a .NET program.
    PortablePdb,
    /// The bytes are a compressed file.
    Compressed,
    /// The bytes are a PDB file of the version before 7.00.
    OldPdbFile,
    /// The bytes end before the file's directory of streams does.
    CutShort,
    /// All streams together are longer than the PDB file.
    StreamsTooLong,
    /// The PDB file is one that a compiler writes for its object files, not a linker for a program.
    OfObjects,
    /// The types of the PDB file have a format from before 2005.
    OldTypes,
    /// The PDB file has no section headers, so it isn't known where sections are loaded.
    NoSectionHeaders,
    /// Addresses were rearranged after linking (OMAP).
    Rearranged,
    /// A stream of the PDB file is broken without which nothing can be answered.
    BrokenStream,
    /// The PDB file has no debug id.
    NoDebugId,
}

impl CallError {
    // The number that a call returns for this error. The header uses -1 for null pointers, which never reach these
    // calls.
    pub(crate) fn code(self) -> i64
        ensures { result ≡ code self }
    {
        match self {
            CallError::NoAddresses => -2,
            CallError::NotJson => -3,
            CallError::NoRecords => -4,
            CallError::ModuleFiles => -5,
            CallError::RecordsRefused => -6,
            CallError::AddressRefused => -7,
            CallError::OutOfMemory => -8,
            CallError::BufferTooSmall => -9,
            CallError::Closed => -10,
            CallError::NotAPdbFile => -11,
            CallError::Program => -12,
            CallError::PortablePdb => -13,
            CallError::Compressed => -14,
            CallError::OldPdbFile => -15,
            CallError::CutShort => -16,
            CallError::StreamsTooLong => -17,
            CallError::OfObjects => -18,
            CallError::OldTypes => -19,
            CallError::NoSectionHeaders => -20,
            CallError::Rearranged => -21,
            CallError::BrokenStream => -22,
            CallError::NoDebugId => -23,
        }
    }
}

// The error of a call that could not allocate its result.
impl From<AllocError> for CallError {
    ghost from_gives = { λ _ refusal. refusal ≡ out_of_memory };

    fn from(_error: AllocError) -> CallError {
        CallError::OutOfMemory
    }
}

impl From<Error> for CallError {
    ghost from_gives = { λ error refusal. refusal ≡ refusal_of_records error };

    /// The error of a call over whose records no context can be made.
    fn from(error: Error) -> CallError {
        match error {
            Error::OutOfMemory => CallError::OutOfMemory,
            _ => CallError::RecordsRefused,
        }
    }
}

impl From<RecordFault> for CallError {
    ghost from_gives = { λ fault refusal. refusal ≡ refusal_of_fault fault };

    fn from(fault: RecordFault) -> CallError {
        match fault {
            RecordFault::NotJson => CallError::NotJson,
            RecordFault::ModuleFiles { .. } => CallError::ModuleFiles,
            RecordFault::OutOfMemory => CallError::OutOfMemory,
            _ => CallError::NoRecords,
        }
    }
}

impl From<ReportFault> for CallError {
    ghost from_gives = { λ fault refusal. refusal ≡ refusal_of_report fault };

    /// The error of a call whose report ends early. The text is collected in memory, so a refused write means that
    /// memory ran out.
    fn from(fault: ReportFault) -> CallError {
        match fault {
            ReportFault::Lookup(Error::OutOfMemory) => CallError::OutOfMemory,
            ReportFault::Lookup(_) => CallError::AddressRefused,
            ReportFault::Write => CallError::OutOfMemory,
        }
    }
}

impl From<ContainerError> for CallError {
    ghost from_gives = { λ fault refusal. refusal ≡ refusal_of_container fault };

    /// The error of a call whose bytes can't be read as a PDB file.
    fn from(fault: ContainerError) -> CallError {
        match fault {
            ContainerError::NotAPdbFile => CallError::NotAPdbFile,
            ContainerError::Program => CallError::Program,
            ContainerError::PortablePdb => CallError::PortablePdb,
            ContainerError::Compressed => CallError::Compressed,
            ContainerError::OldPdbFile => CallError::OldPdbFile,
            ContainerError::CutShort => CallError::CutShort,
            ContainerError::StreamsTooLong => CallError::StreamsTooLong,
            ContainerError::OutOfMemory => CallError::OutOfMemory,
        }
    }
}

impl From<pdb_container::PdbFileError> for CallError {
    ghost from_gives = { λ why refusal. refusal ≡ refusal_of_file why };

    /// The error of a call if nothing can be answered over the records of a PDB file.
    fn from(why: pdb_container::PdbFileError) -> CallError {
        match why {
            pdb_container::PdbFileError::OfObjects => CallError::OfObjects,
            pdb_container::PdbFileError::OldTypes(_) => CallError::OldTypes,
            pdb_container::PdbFileError::NoSectionHeaders => CallError::NoSectionHeaders,
            pdb_container::PdbFileError::Rearranged => CallError::Rearranged,
            pdb_container::PdbFileError::Broken(_, _) => CallError::BrokenStream,
        }
    }
}

impl From<SessionError> for CallError {
    ghost from_gives = { λ error refusal. refusal ≡ refusal_of_session error };

    /// What a call answers where no part of a file can be opened. Each range of the file is in memory, so one that
    /// can't be read is after the file's end.
    fn from(error: SessionError) -> CallError {
        match error {
            SessionError::File(OpenError::Container(fault)) => CallError::from(fault),
            SessionError::File(OpenError::Unreadable) => CallError::CutShort,
            SessionError::Refused(refusal) => CallError::from(refusal),
            SessionError::Records(error) => CallError::from(error),
        }
    }
}

impl From<SourceError> for CallError {
    ghost from_gives = { λ error refusal. refusal ≡ refusal_of_source error };

    /// What a call answers where no more of a file can be read.
    fn from(error: SourceError) -> CallError {
        match error {
            SourceError::OutOfMemory => CallError::OutOfMemory,
            SourceError::Unreadable => CallError::CutShort,
        }
    }
}
