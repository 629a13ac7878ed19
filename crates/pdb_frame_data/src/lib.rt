//! Reads how x86 code keeps its frames from a PDB file, and writes STACK WIN records of it for a Breakpad symbol file.
//!
//! A PDB file of an x86 program has frame data (FRAMEDATA) for each range of code, with a program that computes the
//! caller's registers; or the older FPO data (FPO_DATA). The records are defined over the bytes of the file, in
//! specs/StackWin.antt, for all bytes.
#![tactic(auto)]

mod fpo_data;
mod frame_data;
mod frame_streams;
mod omitted_frame_data;
mod parameter_sizes;
mod stack_win;
mod stack_win_text;

pub use fpo_data::{FpoData, FrameType, read_fpo_data};
pub use frame_data::{FrameData, read_frame_data};
pub use omitted_frame_data::{FrameDataError, OmittedFrameData};
pub use stack_win::{StackWinRecords, read_stack_win};
