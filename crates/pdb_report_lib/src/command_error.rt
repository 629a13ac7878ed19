//! `CommandError`: why the program ended early, with its message and its exit status.

ghost use Rattle.std.specs.Prelude.{◌≡◌};
ghost use Rattle.pdb_report_lib.specs.CommandError.{status_of, command_error_of};

use crate::reports::ReportFault;
use pdb_addr2line::Error;
use pdb_json::RecordFault;

/// Why the program ended early. The error's text is the line that the program prints.
#[derive(Debug, Drop, thiserror::Error)]
pub enum CommandError<'w> {
    /// The records were refused, or memory ran out.
    #[error("pdb_report: {0}")]
    Refused(Error),
    /// The command line can't be parsed.
    #[error("usage: pdb_report RECORDS (frames|names ADDRESS...|list)")]
    Usage,
    /// The records file could not be read.
    #[error("pdb_report: cannot read {0}")]
    CannotRead(&'w str),
    /// The module file at this path could not be read.
    #[error("pdb_report: cannot read {0}")]
    CannotReadModule(String),
    /// The file can't be read as a records file.
    #[error("pdb_report: {0}: {1}")]
    Records(&'w str, RecordFault),
    /// The answers could not be written.
    #[error("pdb_report: cannot write")]
    CannotWrite,
}

impl CommandError<'_> {
    /// The exit status for this error.
    pub fn status(&self) -> u8
        ensures { result ≡ status_of self.now }
    {
        match self {
            CommandError::Refused(_) => 1,
            _ => 2,
        }
    }
}

impl<'w> From<ReportFault> for CommandError<'w> {
    ghost from_gives = { λ fault stop. stop ≡ command_error_of fault };

    fn from(fault: ReportFault) -> CommandError<'w> {
        match fault {
            ReportFault::Lookup(error) => CommandError::Refused(error),
            ReportFault::Write => CommandError::CannotWrite,
        }
    }
}
