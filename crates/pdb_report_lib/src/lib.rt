//! Writes the reports of the program `pdb_report`: functions or frames at addresses, or all functions.
#![tactic(auto)]

mod command_error;
mod file_reports;
mod printed_frames;
mod printed_lines;
mod report_arguments;
pub mod report_laws;
mod report_runs;
mod reports;
mod sinks;

pub use command_error::CommandError;
pub use file_reports::{report_file, report_read};
pub use pdb_records_files::ran_out_of_memory;
pub use report_arguments::{ReportArguments, parse, parse_address};
pub use report_runs::run;
pub use reports::{Command, ReportFault, report};
pub use sinks::{Out, Sink, SinkFault};
