//! Writes the text of STACK WIN records.

ghost use Rattle.std.specs.Prelude.{◌≡◌, ◌++◌, OnOk, string_bytes};
ghost use Rattle.pdb_frame_data.specs.StackWinText.{code_fields, fpo_sizes, fpo_text, frame_data_sizes, frame_data_text};
ghost use Rattle.pdb_frame_data.specs.StackWinText.{frame_number, program_field, size_fields, without_program};

use crate::fpo_data::{FpoData, FrameType};
use crate::frame_data::FrameData;
use std::alloc::AllocError;

/// The sizes in a record, in bytes.
#[derive(Clone, Copy)]
pub(crate) struct FrameSizes {
    pub(crate) prologue: u32,
    pub(crate) parameters: u32,
    pub(crate) saved_registers: u32,
    pub(crate) locals: u64,
    pub(crate) max_stack: u32,
}

/// The number that STACK WIN records have for frame data.
const FRAME_DATA: u8 = 4;

/// Appends the record of frame data, with its program.
pub(crate) fn push_frame_data(
    text: &mut String,
    entry: FrameData,
    program: &str,
) -> Result<(), AllocError>
    ensures { OnOk result (string_bytes text.new ≡ string_bytes text.old ++ frame_data_text entry program.now) }
{
    push_code(text, FRAME_DATA, entry.rva, entry.size)?;
    push_sizes(text, frame_data_sizes(entry))?;
    push_program(text, program)
}

// Appends a program.
fn push_program(text: &mut String, program: &str) -> Result<(), AllocError>
    ensures { OnOk result (string_bytes text.new ≡ string_bytes text.old ++ program_field program.now) }
{
    text.push_str(" 1 ")?;
    text.push_str(program)?;
    text.push_str("\n")
}

/// Appends the record of FPO data.
pub(crate) fn push_fpo(text: &mut String, entry: FpoData) -> Result<(), AllocError>
    ensures { OnOk result (string_bytes text.new ≡ string_bytes text.old ++ fpo_text entry) }
{
    push_code(text, frame_number(entry.frame), entry.rva, entry.size)?;
    push_sizes(text, fpo_sizes(entry))?;
    text.push_str(without_program(entry.allocates_base_pointer))
}

// The text in place of a program, in a record of FPO data.
fn without_program(allocates_base_pointer: bool) -> &'static str
    ensures { result.now ≡ without_program allocates_base_pointer }
{
    if allocates_base_pointer {
        " 0 1\n"
    } else {
        " 0 0\n"
    }
}

// Appends the beginning of a record: the kind of the frame, the address and the size of the code.
#[tactic(auto, unfolding(crate::specs::StackWinText::code_fields))]
fn push_code(text: &mut String, frame: u8, rva: u32, size: u32) -> Result<(), AllocError>
    ensures { OnOk result (string_bytes text.new ≡ string_bytes text.old ++ code_fields frame rva size) }
{
    write!(text, "STACK WIN {frame:x} {rva:x} {size:x}")
}

// Appends the sizes.
#[tactic(auto, unfolding(crate::specs::StackWinText::size_fields))]
fn push_sizes(text: &mut String, sizes: FrameSizes) -> Result<(), AllocError>
    ensures { OnOk result (string_bytes text.new ≡ string_bytes text.old ++ size_fields sizes) }
{
    let FrameSizes {
        prologue,
        parameters,
        saved_registers,
        locals,
        max_stack,
    } = sizes;
    write!(text, " {prologue:x} 0 {parameters:x}")?;
    write!(text, " {saved_registers:x} {locals:x} {max_stack:x}")
}

// The sizes of an entry of frame data.
fn frame_data_sizes(entry: FrameData) -> FrameSizes
    ensures { result ≡ frame_data_sizes entry }
{
    FrameSizes {
        prologue: u32::from(entry.prologue_size),
        parameters: entry.parameter_size,
        saved_registers: u32::from(entry.saved_register_size),
        locals: u64::from(entry.local_size),
        max_stack: entry.max_stack_size,
    }
}

// The sizes of an entry of FPO data.
fn fpo_sizes(entry: FpoData) -> FrameSizes
    ensures { result ≡ fpo_sizes entry }
{
    FrameSizes {
        prologue: u32::from(entry.prologue_size),
        parameters: 4 * u32::from(entry.parameters),
        saved_registers: 4 * u32::from(entry.saved_registers),
        locals: 4 * u64::from(entry.locals),
        max_stack: 0,
    }
}

// The number of a kind of frame.
fn frame_number(frame: FrameType) -> u8
    ensures { result ≡ frame_number frame }
{
    match frame {
        FrameType::Fpo => 0,
        FrameType::Trap => 1,
        FrameType::Tss => 2,
        FrameType::NonFpo => 3,
    }
}
