//! Reads the streams of a file that are needed before any of its modules.

ghost use Rattle.std.specs.Prelude.{◌≡◌, ◌≤◌, IfErr, IfOk, OnOk};
ghost use Rattle.pdb_container.specs.DebugRecords.{debug_header};
ghost use Rattle.pdb_container.specs.Info.{features};
ghost use Rattle.pdb_file_laws.specs.SameFronts.{SameFronts};
ghost use Rattle.pdb_msf.specs.Msf.{stream_of};
ghost use Rattle.pdb_msf.specs.MsfLayout.{IfFile, IsSubsetOf, with_bytes};
ghost use Rattle.pdb_container.specs.TypeRecords.{id_information, type_information};
ghost use Rattle.pdb_tpi.specs.IdLeaves.{ids};
ghost use Rattle.pdb_tpi.specs.TypeLeaves.{types};
ghost use Rattle.pdb_session.specs.FileParts.{HasItems};
ghost use Rattle.pdb_session.specs.FrontStreams.{HasStreams, KeepsStreams, named_by_front, named_by_header};

use crate::type_lists::{PlacesOrFault, id_list, type_list};
use pdb_container::parts::{DEBUG, IDS, INFO, InfoStream, NAMES, SECTIONS, TYPES, debug_stream};
use pdb_dbi::{optional_stream, read_header, stream_number};
use pdb_msf::faults::{Fault, part_or_fault};
use pdb_msf::{Container, MsfLayout, Source, SourceError, StreamSubset};
use std::alloc::Global;

/// The streams of a file that are read before any of its modules.
#[derive(Drop)]
pub struct FrontStreams {
    /// The streams other than those of types and ids, with their bytes.
    pub excerpt: StreamSubset,
    /// Where each type record starts. Their bytes stay in the file.
    pub types: PlacesOrFault,
    /// Where each id record starts; `None` if the file has no ids.
    pub ids: PlacesOrFault,
}

impl FrontStreams {
    /// Reads these streams of a file.
    #[tactic(auto, using(crate::proofs::FrontStreamLemmas::blocks_within))]
    pub fn read<S: Source>(
        alloc: Global,
        map: &MsfLayout,
        source: &mut S,
    ) -> Result<Self, SourceError>
        ensures front { IfOk result (λ streams. IfFile (S.bytes source.old) map.now.file_length (λ file.
            SameFronts streams.excerpt (with_bytes file map.now))) }
        ensures types { IfOk result (λ streams. IfFile (S.bytes source.old) map.now.file_length (λ file.
            HasItems types file streams.types (type_information (with_bytes file map.now)))) }
        ensures ids { IfOk result (λ streams. IfFile (S.bytes source.old) map.now.file_length (λ file.
            HasItems ids file streams.ids (id_information (with_bytes file map.now)))) }
        ensures inputs { S.bytes source.new ≡ S.bytes source.old }
        ensures refused { IfErr result (λ fault. fault ≡ SourceError.Unreadable
            → S.refuses_from source.old ≤ map.now.file_length) }
        ensures refusals { S.refuses_from source.new ≡ S.refuses_from source.old }
    {
        let mut excerpt = StreamSubset::new(alloc, map)?;
        excerpt.add(alloc, map, source, INFO)?;
        excerpt.add(alloc, map, source, DEBUG)?;
        let front = named_in_excerpt(alloc, &excerpt)?;
        add_streams(alloc, map, source, &front.numbers, &mut excerpt)?;
        let types = type_list(alloc, source, map.blocks(alloc, TYPES)?)?;
        let ids = if front.has_ids {
            id_list(alloc, source, map.blocks(alloc, IDS)?)?
        } else {
            Ok(None)
        };
        Ok(FrontStreams {
            excerpt,
            types,
            ids,
        })
    }
}

// Adds the streams of these numbers to an excerpt.
fn add_streams<S: Source>(
    alloc: Global,
    map: &MsfLayout,
    source: &mut S,
    numbers: &[u32],
    excerpt: &mut StreamSubset,
) -> Result<(), SourceError>
    ensures added { OnOk result (IsSubsetOf excerpt.old map.now
        → IfFile (S.bytes source.old) map.now.file_length (λ file.
        HasStreams excerpt.new (with_bytes file map.now) numbers.now)) }
    ensures kept { OnOk result (IsSubsetOf excerpt.old map.now
        → IfFile (S.bytes source.old) map.now.file_length (λ file.
        KeepsStreams (with_bytes file map.now) excerpt.old excerpt.new)) }
    ensures excerpt { IsSubsetOf excerpt.old map.now → IsSubsetOf excerpt.new map.now }
    ensures refused { IfErr result (λ fault. fault ≡ SourceError.Unreadable
        → S.refuses_from source.old ≤ map.now.file_length) }
    ensures inputs { S.bytes source.new ≡ S.bytes source.old }
    ensures refusals { S.refuses_from source.new ≡ S.refuses_from source.old }
{
    for &number in numbers {
        excerpt.add(alloc, map, source, number)?;
    }
    Ok(())
}

// The streams that the info stream and the debug information stream name.
#[derive(Drop)]
struct NamedByFront {
    /// The numbers of these streams.
    numbers: Vec<u32>,
    has_ids: bool,
}

fn named_in_excerpt(alloc: Global, excerpt: &StreamSubset) -> Result<NamedByFront, SourceError>
    ensures numbers { IfOk result (λ named. named.numbers.items ≡ named_by_front excerpt.now) }
    ensures has_ids { IfOk result (λ named. named.has_ids ≡ (features (stream_of excerpt.now 1)).ids) }
    ensures memory { IfErr result (λ fault. fault ≡ SourceError.OutOfMemory) }
{
    let container = excerpt.container(alloc)?;
    match named_by_front(alloc, &container) {
        Ok(named) => Ok(named),
        Err(_) => Err(SourceError::OutOfMemory),
    }
}

fn named_by_front(alloc: Global, container: &Container<'_>) -> Result<NamedByFront, Fault>
    ensures numbers { IfOk result (λ named. named.numbers.items ≡ named_by_front container.now) }
    ensures has_ids { IfOk result (λ named. named.has_ids ≡ (features (stream_of container.now 1)).ids) }
{
    let info = InfoStream::read(alloc, container)?;
    let mut numbers = named_by_header(alloc, container)?;
    if let Ok(number) = info.named_stream(&NAMES) {
        numbers.push(number)?;
    }
    Ok(NamedByFront {
        numbers,
        has_ids: info.features().ids,
    })
}

// The numbers of the streams that the debug information names and that are read before any module: global symbols and
// section headers.
#[tactic(auto, unfolding(pdb_container::specs::DebugRecords::debug_header))]
fn named_by_header(alloc: Global, container: &Container<'_>) -> Result<Vec<u32>, Fault>
    ensures { IfOk result (λ numbers. numbers.items ≡ named_by_header (debug_header container.now)) }
{
    let mut numbers = Vec::new(alloc);
    let Ok(stream) = part_or_fault(debug_stream(alloc, container))? else {
        return Ok(numbers);
    };
    let Ok(header) = read_header(stream.as_slice()) else {
        return Ok(numbers);
    };
    if let Some(number) = stream_number(header.global_symbols) {
        numbers.push(u32::from(number))?;
    }
    if let Some(number) = optional_stream(header.optional_streams.bytes, SECTIONS) {
        numbers.push(u32::from(number))?;
    }
    Ok(numbers)
}
