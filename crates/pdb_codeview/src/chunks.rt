//! Chunks: code of functions that is separate from their main code, and how annotations refer to it.

ghost use Rattle.std.specs.Prelude.{◌≡◌, IfOk};
ghost use Rattle.std.specs.List.Sorted.{IsNonDecreasingBy};
ghost use Rattle.pdb_codeview.specs.Chunks.{chunk_of, chunks_among, chunks_at, chunks_by_function, numbered_start};
ghost use Rattle.pdb_codeview.specs.Places.{place};

use crate::places::{HasPlace, place, sort_by_place};
use crate::symbol_contents::section_offset;
use crate::symbol_layout::{
    SEPARATED_OFFSET, SEPARATED_PARENT_OFFSET, SEPARATED_PARENT_SECTION, SEPARATED_SECTION,
    SEPARATED_SIZE,
};
use crate::symbol_records::SymbolRecord;
use pdb_records::{PdbInternalSectionOffset, S_SEPCODE};
use std::alloc::{AllocError, Global};

/// A chunk: separated code of a function.
#[derive(Clone, Copy)]
pub(crate) struct Chunk {
    /// The start of its function.
    pub(crate) function: PdbInternalSectionOffset,
    pub(crate) start: PdbInternalSectionOffset,
}

/// The code to which inline sites belong: a function or one of its chunks.
#[derive(Clone, Copy)]
pub(crate) struct CodePlace {
    pub(crate) start: PdbInternalSectionOffset,
    /// The start of its function. It equals `start` unless this is a chunk.
    pub(crate) function: PdbInternalSectionOffset,
}

impl HasPlace for Chunk {
    ghost place_of = { λ chunk. place chunk.function };

    fn place(&self) -> u64 {
        place(self.function)
    }
}

/// The chunks among these symbols, sorted by function. Those of one function keep the order of the symbols.
pub(crate) fn chunks_by_function(
    alloc: Global,
    symbols: &[SymbolRecord<'_>],
) -> Result<Vec<Chunk>, AllocError>
    ensures answer { IfOk result (λ chunks. chunks.items ≡ chunks_by_function symbols.now) }
    ensures ascending { IfOk result (λ chunks. IsNonDecreasingBy (λ chunk. place chunk.function) chunks.items) }
{
    let mut chunks = listed_chunks(alloc, symbols)?;
    sort_by_place(&mut chunks)?;
    Ok(chunks)
}

// The chunks among these symbols.
fn listed_chunks(alloc: Global, symbols: &[SymbolRecord<'_>]) -> Result<Vec<Chunk>, AllocError>
    ensures { IfOk result (λ chunks. chunks.items ≡ chunks_among symbols.now) }
{
    let mut chunks = Vec::new(alloc);
    for symbol in symbols {
        if let Some(chunk) = chunk_of(symbol) {
            chunks.push(chunk)?;
        }
    }
    Ok(chunks)
}

// The chunk of a symbol, if the symbol is a separated code record.
fn chunk_of(symbol: &SymbolRecord<'_>) -> Option<Chunk>
    ensures { result ≡ chunk_of symbol.now }
{
    let content = symbol.content;
    if symbol.raw_kind != S_SEPCODE || content.len() < SEPARATED_SIZE {
        return None;
    }
    Some(Chunk {
        function: section_offset(content, SEPARATED_PARENT_OFFSET, SEPARATED_PARENT_SECTION),
        start: section_offset(content, SEPARATED_OFFSET, SEPARATED_SECTION),
    })
}

/// The chunks of the function that starts at a section offset. `chunks` are sorted by function.
pub(crate) fn chunks_at(chunks: &[Chunk], function: PdbInternalSectionOffset) -> &[Chunk]
    requires { IsNonDecreasingBy (λ chunk. place chunk.function) chunks.now }
    ensures { result.now ≡ chunks_at (place function) chunks.now }
{
    let wanted = place(function);
    let first = chunks.partition_point(|chunk| place(chunk.function) < wanted);
    let rest = &chunks[first..];
    let count = rest.partition_point(|chunk| place(chunk.function) <= wanted);
    &rest[..count]
}

/// The offset at which the chunk with this number starts, counted from 1, if it is in this section.
pub(crate) fn numbered_start(chunks: &[Chunk], section: u16, number: u32) -> Option<u32>
    ensures { result ≡ numbered_start section chunks.now number }
{
    let chunk = chunks.get((number as usize).saturating_sub(1))?;
    if chunk.start.section != section {
        return None;
    }
    Some(chunk.start.offset)
}
