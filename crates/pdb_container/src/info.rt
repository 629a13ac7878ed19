//! Reads the info stream: the version, the named streams, and the list of features.

ghost use Rattle.std.specs.Prelude.{◌≡◌, ◌≤◌, ◌<◌, ◌==◌, ◌||◌, drop, length, IfErr, IfOk, OnErr, OnOk};
ghost use Rattle.pdb_container.specs.Info.{all_numbers, bits_size, features, features_by, features_in};
ghost use Rattle.pdb_container.specs.Info.{features_place, named_stream_number, named_stream, names, pairs_place};
ghost use Rattle.pdb_container.specs.Info.{stands_at, table_size, version};
ghost use Rattle.pdb_msf.specs.Msf.{stream_of};
ghost use Rattle.pdb_msf.specs.declared.faults.TheConstants.{CUT};

use pdb_msf::faults::{Fault, NO_STREAM, part_or_fault};
use pdb_msf::{Bytes, Container, StreamBytes};
use pdb_records::StreamError;
use std::alloc::Global;
use std::marker::Model;

/// The number of the info stream.
pub const INFO: u32 = 1;

/// The bytes before the named streams: version, signature, age and GUID.
const FRONT: usize = 28;

/// The first version whose files have ids. This number is in the place of a feature list, and nothing follows it.
const FIRST_WITH_IDS: u32 = 20_091_201;

/// The feature number of a file with ids.
const HAS_IDS: u32 = 20_140_508;

/// The feature number of a file whose lines and types are in object files, with only public symbols of its own: the
/// letters `MINI`.
const NAMES_ONLY: u32 = 0x494e_494d;

/// The features that a file lists.
#[derive(Clone, Copy)]
pub struct Features {
    /// Whether the file has a stream of ids.
    pub ids: bool,
    /// Whether lines and types are in object files.
    pub names_only: bool,
}

/// The features of a file that lists none.
const NO_FEATURES: Features = Features {
    ids: false,
    names_only: false,
};

/// The bytes of the info stream, or why they can't be read. Contracts see only these.
#[derive(Drop)]
pub struct InfoStream<'a> {
    bytes: Result<StreamBytes<'a>, StreamError>,
}

impl<'a> Model for InfoStream<'a> {
    ghost use Rattle.pdb_container.specs.Info.{Info, seen};

    ghost Value = { Info };

    ghost view = { λ i. seen i.bytes };
}

impl<'a> InfoStream<'a> {
    /// Reads the info stream of a file.
    pub fn read(alloc: Global, container: &Container<'a>) -> Result<Self, Fault>
        ensures answer { IfOk result (λ info. info ≡ stream_of container.now 1) }
        ensures memory { IfErr result (λ fault. fault ≡ Fault.OutOfMemory) }
    {
        Ok(InfoStream {
            bytes: part_or_fault(container.stream(alloc, INFO))?,
        })
    }

    /// The version of the file; 0 if the stream can't be read so far.
    pub fn version(&self) -> u32
        ensures { result ≡ version self.now }
    {
        match &self.bytes {
            Ok(bytes) => Bytes::new(bytes.as_slice()).u32().unwrap_or(0),
            Err(_) => 0,
        }
    }

    /// The number of the stream with this name, which includes the zero at its end.
    pub fn named_stream(&self, name: &[u8]) -> Result<u32, StreamError>
        ensures { result ≡ named_stream name.now self.now }
    {
        match &self.bytes {
            Ok(bytes) => number_of_name(bytes.as_slice(), name),
            Err(error) => Err(*error),
        }
    }

    /// The features that the file lists. If the stream can't be read as far as the list, there are none.
    pub fn features(&self) -> Features
        ensures { result ≡ features self.now }
    {
        match &self.bytes {
            Ok(bytes) => features_in(bytes.as_slice()),
            Err(_) => NO_FEATURES,
        }
    }
}

// The number of the stream with this name, by the bytes of the info stream.
fn number_of_name(info: &[u8], name: &[u8]) -> Result<u32, StreamError>
    ensures { result ≡ named_stream_number name.now info.now }
{
    let mut bytes = Bytes::new(info);
    let (names, count) = take_table_front(&mut bytes)?;
    for _ in 0..count {
        let start = bytes.u32()?;
        let number = bytes.u32()?;
        if stands_at(names, start as usize, name) {
            return Ok(number);
        }
    }
    Err(NO_STREAM)
}

// The features that the bytes of the info stream list.
#[tactic(auto, unfolding(crate::specs::Info::features_in))]
fn features_in(info: &[u8]) -> Features
    ensures { result ≡ features_in info.now }
{
    let mut bytes = Bytes::new(info);
    match pass_table(&mut bytes) {
        Ok(()) => take_features(bytes),
        Err(_) => NO_FEATURES,
    }
}

// The features that these numbers list, up to the end or to `FIRST_WITH_IDS`.
fn take_features(mut bytes: Bytes<'_>) -> Features
    ensures { result ≡ features_by (all_numbers bytes.entry) }
{
    let mut features = NO_FEATURES;
    for _ in 0..bytes.len() {
        let Ok(listed) = bytes.u32() else {
            break;
        };
        if listed == FIRST_WITH_IDS {
            features.ids = true;
            break;
        }
        features = with_listed(features, listed);
    }
    features
}

// The features with the one that the number means, if it means any.
fn with_listed(features: Features, listed: u32) -> Features
    ensures ids { result.ids ≡ (features.ids || (listed == 20140508)) }
    ensures names_only { result.names_only ≡ (features.names_only || (listed == 1229867341)) }
{
    Features {
        ids: features.ids || listed == HAS_IDS,
        names_only: features.names_only || listed == NAMES_ONLY,
    }
}

// Reads the front of the table of named streams: the names, and the number of entries. Leaves the entries.
fn take_table_front<'a>(bytes: &mut Bytes<'a>) -> Result<(&'a [u8], u32), StreamError>
    ensures names { IfOk result (λ front. front.0.now ≡ names bytes.old) }
    ensures size { IfOk result (λ front. front.1 ≡ table_size bytes.old) }
    ensures there { OnOk result (pairs_place bytes.old ≤ length bytes.old) }
    ensures state { OnOk result (bytes.new ≡ drop (pairs_place bytes.old) bytes.old) }
    ensures refused { OnErr result (length bytes.old < pairs_place bytes.old) }
    ensures fault { IfErr result (λ error. error ≡ CUT) }
{
    bytes.take(FRONT)?;
    let length = bytes.u32()?;
    let names = bytes.take(length as usize)?;
    let count = bytes.u32()?;
    bytes.u32()?;
    pass_bits(bytes)?;
    pass_bits(bytes)?;
    Ok((names, count))
}

// Skips everything before the list of features.
fn pass_table(bytes: &mut Bytes<'_>) -> Result<(), StreamError>
    ensures there { OnOk result (features_place bytes.old ≤ length bytes.old) }
    ensures state { OnOk result (bytes.new ≡ drop (features_place bytes.old) bytes.old) }
    ensures refused { OnErr result (length bytes.old < features_place bytes.old) }
{
    let (_, count) = take_table_front(bytes)?;
    bytes.take((count as usize).saturating_mul(8))?;
    Ok(())
}

// Skips a bit set that says which slots of the table have an entry.
fn pass_bits(bytes: &mut Bytes<'_>) -> Result<(), StreamError>
    ensures there { OnOk result (bits_size bytes.old ≤ length bytes.old) }
    ensures state { OnOk result (bytes.new ≡ drop (bits_size bytes.old) bytes.old) }
    ensures refused { OnErr result (length bytes.old < bits_size bytes.old) }
    ensures fault { IfErr result (λ error. error ≡ CUT) }
{
    let words = bytes.u32()?;
    bytes.take((words as usize).saturating_mul(4))?;
    Ok(())
}

// Whether the names have this one at the offset `start`.
fn stands_at(names: &[u8], start: usize, name: &[u8]) -> bool
    ensures { result ≡ stands_at names.now name.now start }
{
    if names.len() < start {
        return false;
    }
    names[start..].starts_with(name)
}
