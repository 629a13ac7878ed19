//! Requests of Mozilla's symbolication API and their answers: functions, files and lines of addresses in stacks.
//!
//! [`SymbolicationRequest::from_slice`] parses a whole request. [`WantedModules`] lists the modules that its frames
//! name, each once, with the offsets that are asked for. The caller finds these modules and makes a [`FrameText`] for
//! each offset. [`write_answer`] writes each text at its frames. This crate opens no file; [`is_harmless_name`] says
//! which names of modules are safe to use as names of files in a folder.
#![tactic(auto)]

mod findings;
mod frame_texts;
mod harmless_names;
mod json_text;
mod named_modules;
mod request_answers;
mod request_reader;
mod requests;
mod wanted_modules;
mod whole_writes;

pub use frame_texts::{FrameText, FrameTexts, SymbolizedFrame, SymbolizedFunction};
pub use harmless_names::is_harmless_name;
pub use json_text::write_quoted;
pub use pdb_json_values::RecordFault;
pub use request_answers::{error_line, write_answer};
pub use requests::{FrameModule, Job, MemoryMapEntry, Stack, StackFrame, SymbolicationRequest};
pub use wanted_modules::{WantedModule, WantedModules};
pub use whole_writes::write_whole;
