//! Reads the unwind tables of an ARM64 program: how a function's caller is found from each of its addresses.
//!
//! [`function_lines`] reads the function of an entry of the exception directory. Its unwind info is a separate record
//! or packed into the entry. [`push_entry`] writes its lines as STACK CFI records of a Breakpad symbol file. The rules
//! at an offset of a function are defined by `rule_at` in specs/Functions.antt. Lines and records are proved to give
//! these rules at each offset, for all bytes.
#![tactic(auto)]

mod canonical;
mod cfi_lines;
mod cfi_records;
mod cfi_text;
mod epilogues;
mod functions;
mod packed_data;
mod program_records;
mod registers;
mod rules;
mod unwind_codes;
mod unwind_errors;
mod unwind_info;

pub use cfi_lines::{CfiLine, function_lines};
pub use cfi_records::{CfiItem, RegisterRule, first_items, later_items, records_keep_places};
pub use cfi_text::push_entry;
pub use epilogues::Epilogue;
pub use functions::{FunctionUnwind, epilogues_have_rules, reach_behind, read_function};
pub use program_records::{OmittedEntry, UnwindRecords, unwind_records};
pub use registers::{BaseRegister, Register};
pub use rules::{RegisterOffset, Rules};
pub use unwind_codes::{Operation, UnwindCode};
pub use unwind_errors::{EntryError, UnwindError};
pub use unwind_info::UnwindInfo;
