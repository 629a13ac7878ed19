//! `PublicNames`: the undemangled names of public symbols, for `--no-demangle`, and the sections of a program.

ghost use Rattle.std.specs.Prelude.{◌≡◌, ℕ, Some, None, option_map, string_bytes, IfOk, OnOk, if◌then◌else◌};
ghost use Rattle.std.specs.Option.{option_or};
ghost use Rattle.pdb_records.specs.Addresses.{internal_offset, is_same_section_offset};
ghost use Rattle.pdb_records.specs.Names.{lossy};
ghost use Rattle.pdb_records.specs.declared.addresses.PdbInternalSectionOffset.{PdbInternalSectionOffset};
ghost use Rattle.pdb_symbolizer_lib.specs.PublicNames.{decorated, decorated_frame, function_name, known_name, name_in};
ghost use Rattle.pdb_symbolizer_lib.specs.PublicNames.{public_name, public_name_in, sections_of, wanted_name};

use pdb_frames::{Frame, FunctionFrames};
use pdb_records::{AddressMap, PDB, PdbInternalSectionOffset, RawString, Rva, Symbol, SymbolData};
use pdb_symbolizer_input::options::Options;
use pdb_symbolizer_input::repair_lines::text_of;
use pdb_tables::insert_first;
use std::alloc::{AllocError, Global};
use std::collections::BTreeMap;

/// The name of the public symbol at each section offset, as the records have it.
type NamesOfStarts = BTreeMap<PdbInternalSectionOffset, RawString>;

/// The sections of a program, and the names of its public symbols by section offset.
#[derive(Drop)]
pub struct PublicNames {
    address_map: AddressMap,
    names: NamesOfStarts,
}

// The sections of these records; empty if they have no address map.
fn address_map_of(alloc: Global, records: &PDB) -> Result<AddressMap, AllocError>
    ensures { IfOk result (λ map. map ≡ sections_of records.now.address_map) }
{
    let sections = match &records.address_map {
        Ok(map) => Vec::from_slice(alloc, &map.sections)?,
        Err(_) => Vec::new(alloc),
    };
    Ok(AddressMap { sections })
}

// Adds the names of public symbols. At each section offset the first one is kept.
fn add_names(alloc: Global, names: &mut NamesOfStarts, symbols: &[Symbol]) -> Result<(), AllocError>
    ensures { OnOk result ((start : PdbInternalSectionOffset) → name_in names.new start
        ≡ option_or (name_in names.old start) (public_name symbols.now start)) }
{
    for symbol in symbols {
        if let Some(SymbolData::Public(symbol)) = &symbol.content {
            add_name(alloc, names, symbol.offset, &symbol.name)?;
        }
    }
    Ok(())
}

// Adds a name, unless this section offset already has one.
fn add_name(
    alloc: Global,
    names: &mut NamesOfStarts,
    start: PdbInternalSectionOffset,
    name: &RawString,
) -> Result<(), AllocError>
    ensures { OnOk result ((asked : PdbInternalSectionOffset) → name_in names.new asked
        ≡ option_or (name_in names.old asked)
        (if is_same_section_offset start asked then Some (lossy name.now) else None)) }
{
    if names.contains_key(&start) {
        return Ok(());
    }
    let copy = RawString(Vec::from_slice(alloc, name.0.as_slice())?);
    insert_first(names, start, copy)
}

// The names of the public symbols; empty if the records have none.
fn names_of(alloc: Global, records: &PDB) -> Result<NamesOfStarts, AllocError>
    ensures { IfOk result (λ names. (start : PdbInternalSectionOffset)
        → name_in names start ≡ public_name_in records.now start) }
{
    let mut names = BTreeMap::new(alloc);
    if let Ok(table) = &records.global_symbols {
        add_names(alloc, &mut names, &table.symbols.items)?;
    }
    Ok(names)
}

impl PublicNames {
    /// The sections of these records, and their public names if the options want these.
    pub fn for_answers(
        alloc: Global,
        options: &Options<'_>,
        records: &PDB,
    ) -> Result<Self, AllocError>
        ensures sections { IfOk result (λ known. known.address_map ≡ sections_of records.now.address_map) }
        ensures names { IfOk result (λ known. (start : PdbInternalSectionOffset)
            → name_in known.names start ≡ wanted_name options.now records.now start) }
        ensures functions { IfOk result (λ known. (start : ℕ)
            → known_name known start ≡ function_name options.now records.now start) }
    {
        let address_map = address_map_of(alloc, records)?;
        let names = if options.shows_decorated_names() {
            names_of(alloc, records)?
        } else {
            BTreeMap::new(alloc)
        };
        Ok(PublicNames { address_map, names })
    }

    // The section offset of an address that is relative to where the program is loaded.
    fn section_offset(&self, address: u32) -> Option<PdbInternalSectionOffset>
        ensures { result ≡ internal_offset self.now.address_map (record { 0 = address }) }
    {
        Rva(address).to_internal_offset(&self.address_map)
    }

    /// Whether an address, relative to where the program is loaded, is in a section.
    pub fn lies_in_section(&self, address: u64) -> bool {
        match u32::try_from(address) {
            Ok(address) => self.section_offset(address).is_some(),
            Err(_) => false,
        }
    }

    /// Renames the containing function, the last frame, by the public symbol at its start, if there is one.
    pub fn decorate<'a>(
        &self,
        alloc: Global,
        found: FunctionFrames<'a>,
    ) -> Result<FunctionFrames<'a>, AllocError>
        ensures { IfOk result (λ named. named ≡ decorated (known_name self.now found.entry.start_rva) found.entry) }
    {
        let FunctionFrames {
            start_rva,
            end_rva,
            mut frames,
        } = found;
        if let Some(last) = frames.pop() {
            frames.push(self.decorated_frame(alloc, start_rva, last)?)?;
        }
        Ok(FunctionFrames {
            start_rva,
            end_rva,
            frames,
        })
    }

    // Renames a frame by the public symbol at the address `start`, if there is one.
    fn decorated_frame<'a>(
        &self,
        alloc: Global,
        start: u32,
        frame: Frame<'a>,
    ) -> Result<Frame<'a>, AllocError>
        ensures { IfOk result (λ named. named ≡ decorated_frame (known_name self.now start) frame.entry) }
    {
        let Frame {
            function,
            file,
            line,
        } = frame;
        let function = match self.name_of(alloc, start)? {
            Some(name) => Some(name),
            None => function,
        };
        Ok(Frame {
            function,
            file,
            line,
        })
    }

    // The name of the public symbol at an address.
    fn name_of(&self, alloc: Global, start: u32) -> Result<Option<String>, AllocError>
        ensures { IfOk result (λ name. option_map string_bytes name ≡ known_name self.now start) }
    {
        let Some(start) = self.section_offset(start) else {
            return Ok(None);
        };
        match self.names.get(&start) {
            Some(name) => Ok(Some(text_of(alloc, name)?)),
            None => Ok(None),
        }
    }
}
