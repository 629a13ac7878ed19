//! The identity of a PDB file: its GUID, its age, when it was made, and the machine.

ghost use Rattle.std.specs.Prelude.{◌≡◌, ◌≤◌, IfErr, IfOk, option_map};
ghost use Rattle.std.specs.Result.{result_ok};
ghost use Rattle.pdb_container.specs.DebugRecords.{of_file};
ghost use Rattle.pdb_container.specs.Identity.{build_of, debug_build, identity, identity_by};
ghost use Rattle.pdb_dbi.specs.DebugHeader.{header};
ghost use Rattle.pdb_msf.specs.Faults.{Opens};
ghost use Rattle.pdb_msf.specs.MsfLayout.{IfFile, Reads, with_bytes};

use crate::debug_records::DEBUG;
use crate::info::INFO;
use pdb_dbi::read_header;
use pdb_identity::{DebugId, InfoHeader, Machine};
use pdb_msf::faults::{Fault, part_or_fault};
use pdb_msf::{Container, ContainerError, MsfLayout, OpenError, Source, SourceError, StreamSubset};
use std::alloc::Global;

/// The identity of a PDB file.
#[derive(Debug, Clone, Copy, PartialEq, Eq)]
pub struct PdbIdentity {
    /// The GUID, and the age in the debug information, which programs have too. If it can't be read, the age of the
    /// info stream.
    pub debug_id: DebugId,
    /// When the file was made, in seconds since 1970. If the linker was told to make reproducible files, this is a
    /// hash.
    pub time_stamp: u32,
    pub machine: Option<Machine>,
}

/// Reads the identity of a PDB file. `None` if its info stream can't be read as far as the GUID.
pub fn read_identity(alloc: Global, bytes: &[u8]) -> Result<Option<PdbIdentity>, ContainerError>
    ensures { Opens (λ found. found) result (of_file identity bytes.now) }
{
    let container = Container::open(alloc, bytes)?;
    Ok(identity_in(alloc, &container)?)
}

/// Reads the identity of a PDB file of this length, range by range. The errors are those of
/// [`MsfLayout::read`](crate::MsfLayout::read).
pub fn read_identity_of<S: Source>(
    alloc: Global,
    source: &mut S,
    file_length: usize,
) -> Result<Option<PdbIdentity>, OpenError>
    ensures answer { IfFile (S.bytes source.old) file_length (λ file.
        Reads (λ found. found) result (of_file identity file)) }
    ensures refused { IfErr result (λ fault. fault ≡ OpenError.Unreadable → S.refuses_from source.old ≤ file_length) }
    ensures inputs { S.bytes source.new ≡ S.bytes source.old }
    ensures refusals { S.refuses_from source.new ≡ S.refuses_from source.old }
{
    let map = MsfLayout::read(alloc, source, file_length)?;
    Ok(load_identity(alloc, &map, source)?)
}

#[tactic(auto, unfolding(crate::specs::Identity::identity, crate::specs::Identity::debug_build))]
fn load_identity<S: Source>(
    alloc: Global,
    map: &MsfLayout,
    source: &mut S,
) -> Result<Option<PdbIdentity>, SourceError>
    ensures answer { IfOk result (λ found. IfFile (S.bytes source.old) map.now.file_length (λ file.
        found ≡ identity (with_bytes file map.now))) }
    ensures refused { IfErr result (λ fault. fault ≡ SourceError.Unreadable
        → S.refuses_from source.old ≤ map.now.file_length) }
    ensures inputs { S.bytes source.new ≡ S.bytes source.old }
    ensures refusals { S.refuses_from source.new ≡ S.refuses_from source.old }
{
    let Ok(info) = map.load(alloc, source, INFO)? else {
        return Ok(None);
    };
    let Some(front) = InfoHeader::read(&info) else {
        return Ok(None);
    };
    match map.load(alloc, source, DEBUG)? {
        Ok(debug) => Ok(Some(identity_by(build_in(&debug), front))),
        Err(_) => Ok(Some(identity_by(None, front))),
    }
}

#[tactic(auto, unfolding(crate::specs::Identity::identity))]
fn identity_in(alloc: Global, container: &Container<'_>) -> Result<Option<PdbIdentity>, Fault>
    ensures answer { IfOk result (λ found. found ≡ identity container.now) }
    ensures memory { IfErr result (λ fault. fault ≡ Fault.OutOfMemory) }
{
    let Ok(info) = part_or_fault(container.stream(alloc, INFO))? else {
        return Ok(None);
    };
    let Some(front) = InfoHeader::read(info.as_slice()) else {
        return Ok(None);
    };
    let build = debug_build(alloc, container)?;
    Ok(Some(identity_by(build, front)))
}

// The identity by the header of the info stream, and the build in the debug information.
fn identity_by(build: Option<DebugBuild>, front: InfoHeader) -> PdbIdentity
    ensures { result ≡ identity_by build front }
{
    PdbIdentity {
        debug_id: DebugId {
            guid: front.guid,
            age: build.map_or(front.age, |build| build.age),
        },
        time_stamp: front.time_stamp,
        machine: build.map(|build| Machine(build.machine)),
    }
}

/// The age and the machine in the header of the debug information.
#[derive(Clone, Copy)]
struct DebugBuild {
    age: u32,
    machine: u16,
}

#[tactic(auto, unfolding(crate::specs::Identity::debug_build))]
fn debug_build(alloc: Global, container: &Container<'_>) -> Result<Option<DebugBuild>, Fault>
    ensures answer { IfOk result (λ build. build ≡ debug_build container.now) }
    ensures memory { IfErr result (λ fault. fault ≡ Fault.OutOfMemory) }
{
    match part_or_fault(container.stream(alloc, DEBUG))? {
        Ok(stream) => Ok(build_in(stream.as_slice())),
        Err(_) => Ok(None),
    }
}

// The age and the machine in the header of these bytes; `None` if it can't be read.
fn build_in(debug: &[u8]) -> Option<DebugBuild>
    ensures { result ≡ option_map build_of (result_ok (header debug.now)) }
{
    match read_header(debug) {
        Ok(header) => Some(DebugBuild {
            age: header.age,
            machine: header.machine,
        }),
        Err(_) => None,
    }
}
