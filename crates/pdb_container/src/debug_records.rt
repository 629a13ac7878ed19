//! Reads the debug information stream (DBI) and the streams that it names: sections, address map, global symbols.

ghost use Rattle.std.specs.Prelude.{◌≡◌, ◌++◌, Ok, Err, IfErr, IfOk, OnOk, option_map};
ghost use Rattle.pdb_container.specs.DebugRecords.{address_map, address_map_of, debug_header, debug_information};
ghost use Rattle.pdb_container.specs.DebugRecords.{debug_stream, global_symbols};
ghost use Rattle.pdb_container.specs.DebugRecords.{information_of, rearranges, sections, sections_of};
ghost use Rattle.pdb_container.specs.DebugRecords.{streams_of_modules};
ghost use Rattle.pdb_container.specs.DebugRecords.{symbol_stream, tabled};
ghost use Rattle.pdb_dbi.specs.ModuleSubstream.{module_streams};
ghost use Rattle.pdb_msf.specs.Faults.{Gives};
ghost use Rattle.pdb_msf.specs.Streams.{bytes_of};
ghost use Rattle.pdb_records.specs.Sections.{listed};

use pdb_codeview::read_global_symbols;
use pdb_dbi::{
    DebugHeader, ModuleStream, map_addresses, optional_stream, read_contributions, read_header,
    read_modules, read_sections, stream_number,
};
use pdb_msf::faults::{Fault, NO_STREAM, REARRANGED, part_or_fault};
use pdb_msf::{Container, StreamBytes};
use pdb_records::{AddressMap, DebugInformation, ImageSectionHeader, StreamError, SymbolTable};
use std::alloc::Global;

/// The number of the debug information stream (DBI).
pub const DEBUG: u32 = 3;

/// Positions in the optional debug header: two streams for addresses that were rearranged (OMAP), and the section
/// headers.
const REARRANGED_TO: usize = 3;

const REARRANGED_FROM: usize = 4;

pub const SECTIONS: usize = 5;

/// The records in the debug information stream and in the streams that it names.
#[derive(Drop)]
pub struct DebugRecords {
    pub debug_information: Result<DebugInformation, StreamError>,
    pub sections: Result<Option<Vec<ImageSectionHeader>>, StreamError>,
    pub address_map: Result<AddressMap, StreamError>,
    pub global_symbols: Result<SymbolTable, StreamError>,
    /// The stream of each module, with the sizes of its parts.
    pub module_streams: Vec<ModuleStream>,
}

/// Reads the debug information stream and the streams that it names.
#[tactic(auto, unfolding(crate::specs::DebugRecords::debug_header))]
pub fn debug_records(alloc: Global, container: &Container<'_>) -> Result<DebugRecords, Fault>
    ensures information { IfOk result (λ read. read.debug_information ≡ debug_information container.now) }
    ensures sections { IfOk result (λ read. listed read.sections ≡ sections container.now) }
    ensures address_map { IfOk result (λ read. read.address_map ≡ address_map container.now) }
    ensures global_symbols { IfOk result (λ read. tabled read.global_symbols ≡ global_symbols container.now) }
    ensures modules { IfOk result (λ read. read.module_streams.items ≡ streams_of_modules container.now) }
    ensures memory { IfErr result (λ fault. fault ≡ Fault.OutOfMemory) }
{
    let stream = match part_or_fault(debug_stream(alloc, container))? {
        Ok(stream) => stream,
        Err(error) => return Ok(without_debug_stream(alloc, container, error)),
    };
    match read_header(stream.as_slice()) {
        Ok(header) => records_of_header(alloc, container, &header),
        Err(error) => Ok(without_debug_stream(alloc, container, error)),
    }
}

/// The debug information stream. An empty one counts as missing.
#[tactic(auto, unfolding(crate::specs::DebugRecords::debug_stream))]
pub fn debug_stream<'a>(alloc: Global, container: &Container<'a>) -> Result<StreamBytes<'a>, Fault>
    ensures { Gives bytes_of result (debug_stream container.now) }
{
    if container.stream_size(DEBUG) == Some(0) {
        return Err(Fault::Broken(NO_STREAM));
    }
    container.stream(alloc, DEBUG)
}

// The records if the debug information stream can't be read: each part has its error.
#[tactic(auto, using(crate::proofs::DebugLemmas::without_header))]
fn without_debug_stream(
    alloc: Global,
    container: &Container<'_>,
    error: StreamError,
) -> DebugRecords
    requires { debug_header container.now ≡ Err error }
    ensures information { result.debug_information ≡ debug_information container.now }
    ensures sections { listed result.sections ≡ sections container.now }
    ensures address_map { result.address_map ≡ address_map container.now }
    ensures global_symbols { tabled result.global_symbols ≡ global_symbols container.now }
    ensures modules { result.module_streams.items ≡ streams_of_modules container.now }
{
    DebugRecords {
        debug_information: Err(error),
        sections: Err(error),
        address_map: Err(error),
        global_symbols: Err(error),
        module_streams: Vec::new(alloc),
    }
}

#[tactic(auto, using(crate::proofs::DebugLemmas::with_header))]
fn records_of_header(
    alloc: Global,
    container: &Container<'_>,
    header: &DebugHeader<'_>,
) -> Result<DebugRecords, Fault>
    requires { debug_header container.now ≡ Ok header.now }
    ensures information { IfOk result (λ read. read.debug_information ≡ debug_information container.now) }
    ensures sections { IfOk result (λ read. listed read.sections ≡ sections container.now) }
    ensures address_map { IfOk result (λ read. read.address_map ≡ address_map container.now) }
    ensures global_symbols { IfOk result (λ read. tabled read.global_symbols ≡ global_symbols container.now) }
    ensures modules { IfOk result (λ read. read.module_streams.items ≡ streams_of_modules container.now) }
    ensures memory { IfErr result (λ fault. fault ≡ Fault.OutOfMemory) }
{
    let mut module_streams = Vec::new(alloc);
    let debug_information = debug_information(alloc, header, &mut module_streams)?;
    let sections = sections(alloc, container, header)?;
    let address_map = address_map(alloc, container, header, &sections)?;
    let global_symbols = part_or_fault(global_symbols(alloc, container, header.global_symbols))?;
    Ok(DebugRecords {
        debug_information: Ok(debug_information),
        sections,
        address_map,
        global_symbols,
        module_streams,
    })
}

fn debug_information(
    alloc: Global,
    header: &DebugHeader<'_>,
    streams: &mut Vec<ModuleStream>,
) -> Result<DebugInformation, Fault>
    ensures answer { IfOk result (λ read. read ≡ information_of header.now) }
    ensures state { OnOk result (streams.new.items ≡ streams.old.items ++ module_streams header.now.modules) }
    ensures memory { IfErr result (λ fault. fault ≡ Fault.OutOfMemory) }
{
    let modules = read_modules(alloc, &header.modules, streams)?;
    let section_contributions = read_contributions(alloc, &header.section_contributions)?;
    Ok(DebugInformation {
        machine_type: Ok(header.machine_type),
        modules,
        section_contributions,
    })
}

// The section headers, or why they can't be read.
fn sections(
    alloc: Global,
    container: &Container<'_>,
    header: &DebugHeader<'_>,
) -> Result<Result<Option<Vec<ImageSectionHeader>>, StreamError>, Fault>
    ensures answer { IfOk result (λ read. listed read ≡ sections_of container.now header.now) }
    ensures memory { IfErr result (λ fault. fault ≡ Fault.OutOfMemory) }
{
    part_or_fault(section_headers(alloc, container, header))
}

#[tactic(auto, unfolding(crate::specs::DebugRecords::sections_of))]
fn section_headers(
    alloc: Global,
    container: &Container<'_>,
    header: &DebugHeader<'_>,
) -> Result<Option<Vec<ImageSectionHeader>>, Fault>
    ensures { Gives (option_map (λ headers. headers.items)) result (sections_of container.now header.now) }
{
    let Some(number) = optional_stream(header.optional_streams.bytes, SECTIONS) else {
        return Ok(None);
    };
    let stream = container.stream(alloc, u32::from(number))?;
    Ok(Some(read_sections(alloc, stream.as_slice())?))
}

// Where the sections are loaded, or why that isn't known.
fn address_map(
    alloc: Global,
    container: &Container<'_>,
    header: &DebugHeader<'_>,
    sections: &Result<Option<Vec<ImageSectionHeader>>, StreamError>,
) -> Result<Result<AddressMap, StreamError>, Fault>
    requires { listed sections.now ≡ sections_of container.now header.now }
    ensures answer { IfOk result (λ read. read ≡ address_map_of container.now header.now) }
    ensures memory { IfErr result (λ fault. fault ≡ Fault.OutOfMemory) }
{
    part_or_fault(mapped_addresses(alloc, container, header, sections))
}

// Where the sections are loaded. That isn't known if addresses were rearranged after linking.
#[tactic(auto, unfolding(crate::specs::DebugRecords::address_map_of))]
fn mapped_addresses(
    alloc: Global,
    container: &Container<'_>,
    header: &DebugHeader<'_>,
    sections: &Result<Option<Vec<ImageSectionHeader>>, StreamError>,
) -> Result<AddressMap, Fault>
    requires { listed sections.now ≡ sections_of container.now header.now }
    ensures { Gives (λ mapped. mapped) result (address_map_of container.now header.now) }
{
    let numbers = header.optional_streams.bytes;
    if is_rearranged(container, optional_stream(numbers, REARRANGED_TO))
        || is_rearranged(container, optional_stream(numbers, REARRANGED_FROM))
    {
        return Err(Fault::Broken(REARRANGED));
    }
    match sections {
        Ok(Some(sections)) => map_addresses(alloc, sections),
        Ok(None) => Err(Fault::Broken(NO_STREAM)),
        Err(error) => Err(Fault::Broken(*error)),
    }
}

// Whether a stream says how addresses were rearranged. A stream that is present and empty doesn't.
fn is_rearranged(container: &Container<'_>, number: Option<u16>) -> bool
    ensures { result ≡ rearranges container.now number }
{
    match number {
        Some(number) => container.stream_size(u32::from(number)) != Some(0),
        None => false,
    }
}

// Reads the global symbols, in the stream of this number.
#[tactic(auto, unfolding(crate::specs::DebugRecords::symbol_stream))]
fn global_symbols(
    alloc: Global,
    container: &Container<'_>,
    number: u16,
) -> Result<SymbolTable, Fault>
    ensures { Gives (λ table. table.symbols) result (symbol_stream container.now number) }
{
    let Some(number) = stream_number(number) else {
        return Err(Fault::Broken(NO_STREAM));
    };
    let stream = container.stream(alloc, u32::from(number))?;
    read_global_symbols(alloc, stream.as_slice())
}
