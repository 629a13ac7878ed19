//! How many bytes of parameters code takes from the stack, by its frame data and FPO data.

ghost use Rattle.std.specs.Prelude.{◌≡◌, ◌++◌, map, IfOk};
ghost use Rattle.pdb_frame_data.specs.ParameterSizes.{fpo_segment, frame_data_segment, parameter_sizes};

use crate::fpo_data::FpoData;
use crate::frame_data::FrameData;
use pdb_tables::Segment;
use std::alloc::{AllocError, Global};

/// The parameter sizes of all entries, by address: those of FPO data come first, and then those of frame data, which
/// win if both cover an address.
pub(crate) fn parameter_sizes(
    alloc: Global,
    fpo: &[FpoData],
    frame_data: &[FrameData],
) -> Result<Vec<Segment<u32>>, AllocError>
    ensures { IfOk result (λ sizes. sizes.items ≡ parameter_sizes fpo.now frame_data.now) }
{
    let mut sizes = fpo_sizes(alloc, fpo)?;
    for &entry in frame_data {
        sizes.push(frame_data_segment(entry))?;
    }
    Ok(sizes)
}

// The parameter sizes of FPO data.
fn fpo_sizes(alloc: Global, fpo: &[FpoData]) -> Result<Vec<Segment<u32>>, AllocError>
    ensures { IfOk result (λ sizes. sizes.items ≡ map fpo_segment fpo.now) }
{
    let mut sizes = Vec::new(alloc);
    for &entry in fpo {
        sizes.push(fpo_segment(entry))?;
    }
    Ok(sizes)
}

// The addresses of an entry of FPO data, and the size of its parameters in bytes.
fn fpo_segment(entry: FpoData) -> Segment<u32>
    ensures { result ≡ fpo_segment entry }
{
    let start = u64::from(entry.rva);
    Segment {
        start,
        end: start + u64::from(entry.size),
        value: u32::from(entry.parameters) * 4,
    }
}

// The addresses of an entry of frame data, and the size of its parameters in bytes.
fn frame_data_segment(entry: FrameData) -> Segment<u32>
    ensures { result ≡ frame_data_segment entry }
{
    let start = u64::from(entry.rva);
    Segment {
        start,
        end: start + u64::from(entry.size),
        value: entry.parameter_size,
    }
}
