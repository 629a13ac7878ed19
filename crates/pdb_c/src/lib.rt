//! The library for C: lookups and reports over PDB files and records files, written into the caller's buffers.
//!
//! Any language that can call C can call it. A report has the same text as that of the program `pdb_report`.
//! `include/limberlime.h` declares the calls, checks that no pointer is null, and names the numbers that the calls
//! return.
#![tactic(auto)]

mod answer_buffers;
mod buffers;
mod call_error;
mod contexts;
mod found_frames;
mod frame_calls;
mod frame_rows;
mod handle;
mod handle_calls;
mod handle_laws;
mod library_version;
mod machine_calls;
mod module_contents;
mod openings;
mod part_calls;
mod part_laws;
mod part_openings;
mod pdb_calls;
mod pdb_openings;
mod records_calls;
mod records_file_calls;
mod report_texts;

pub use call_error::CallError;
pub use found_frames::AnswerSizes;
pub use frame_calls::{
    limberlime_find_frames_unchecked, limberlime_find_function_unchecked,
    limberlime_next_start_unchecked,
};
pub use frame_rows::{FrameRow, TextPlace};
pub use handle::Handle;
pub use handle_calls::{
    limberlime_close_unchecked, limberlime_frames_of_unchecked, limberlime_names_of_unchecked,
    limberlime_open_unchecked,
};
pub use handle_laws::a_handle_is_answered_as_its_bytes_are;
pub use library_version::limberlime_version_unchecked;
pub use machine_calls::limberlime_machine_unchecked;
pub use part_calls::{limberlime_is_read_unchecked, limberlime_open_part_unchecked};
pub use part_laws::a_part_answers_as_its_file;
pub use pdb_calls::{limberlime_debug_id_unchecked, limberlime_open_pdb_unchecked};
pub use records_calls::{limberlime_module_files_unchecked, limberlime_open_records_unchecked};
pub use records_file_calls::{limberlime_frames_unchecked, limberlime_names_unchecked};
