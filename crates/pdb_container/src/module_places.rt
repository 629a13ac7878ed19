//! Which stream has the records of each module, and whether it is read.

ghost use Rattle.std.specs.Prelude.{◌≡◌, Some, Ok, IfErr, IfOk};
ghost use Rattle.pdb_msf.specs.Faults.{Gives};
ghost use Rattle.pdb_container.specs.ModulePlaces.{left_behind, module_of, place_within, places_within};
ghost use Rattle.pdb_container.specs.ModuleStreams.{module_in};

use crate::module_streams::read_module;
use pdb_dbi::{ModuleStream, stream_number};
use pdb_msf::Container;
use pdb_msf::faults::{Fault, TOO_LONG, part_or_fault};
use pdb_records::{ModuleInfo, StreamError};
use std::alloc::{AllocError, Global};

/// The records of a module, `None` if it has no stream, or why they can't be read.
pub type ModuleInfoResult = Result<Option<ModuleInfo>, StreamError>;

/// Which stream has the records of a module, `None` if it has none, or why it isn't read.
pub type ModulePlace = Result<Option<ModuleStream>, StreamError>;

/// Which stream has the records of each module. Together at most `file_length` bytes of module streams are read. A
/// module whose stream is longer than the bytes that are left gets an error.
pub fn module_places(
    alloc: Global,
    container: &Container<'_>,
    file_length: usize,
    streams: &[ModuleStream],
) -> Result<Vec<ModulePlace>, AllocError>
    ensures { IfOk result (λ places. places.items ≡ places_within container.now file_length streams.now) }
{
    let mut places = Vec::with_capacity(alloc, streams.len())?;
    let mut left = file_length;
    for place in streams {
        places.push(place_within(container, *place, &mut left))?;
    }
    Ok(places)
}

// Which stream has the records of a module. `left` is how many bytes of module streams may still be read.
fn place_within(container: &Container<'_>, place: ModuleStream, left: &mut usize) -> ModulePlace
    ensures answer { result ≡ place_within container.now left.old place }
    ensures state { left.new ≡ left_behind container.now left.old place }
{
    let Some(number) = stream_number(place.stream) else {
        return Ok(None);
    };
    let size = container.stream_size(u32::from(number)).unwrap_or(0) as usize;
    if *left < size {
        return Err(TOO_LONG);
    }
    *left -= size;
    Ok(Some(place))
}

/// Reads the records of a module, or says why they can't be read.
pub fn read_module_info(
    alloc: Global,
    container: &Container<'_>,
    place: ModulePlace,
) -> Result<ModuleInfoResult, Fault>
    ensures answer { IfOk result (λ read. read ≡ module_of container.now place) }
    ensures memory { IfErr result (λ fault. fault ≡ Fault.OutOfMemory) }
{
    part_or_fault(placed_module(alloc, container, place))
}

// Reads the records of a module.
fn placed_module(
    alloc: Global,
    container: &Container<'_>,
    place: ModulePlace,
) -> Result<Option<ModuleInfo>, Fault>
    ensures { Gives (λ read. read) result (module_of container.now place) }
{
    let Some(place) = place? else {
        return Ok(None);
    };
    let stream = container.stream(alloc, u32::from(place.stream))?;
    module_in_stream(alloc, place, stream.as_slice())
}

/// Reads the records of a module from the bytes of its stream.
pub fn module_in_stream(
    alloc: Global,
    place: ModuleStream,
    stream: &[u8],
) -> Result<Option<ModuleInfo>, Fault>
    ensures { Gives (λ read. read) result (Ok (Some (module_in place stream.now))) }
{
    Ok(Some(read_module(alloc, place, stream)?))
}
