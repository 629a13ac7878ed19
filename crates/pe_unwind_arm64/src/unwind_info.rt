//! Reads the unwind info of a function from its record (.xdata).

ghost use Rattle.std.specs.Prelude.{◌≡◌, ◌≤◌, ◌<◌, ◌+◌, ◌^◌, ◌∷◌, [], Ok, IfOk};
ghost use Rattle.pe_unwind_arm64.specs.UnwindErrors.{Gives};
ghost use Rattle.pe_unwind_arm64.specs.UnwindInfo.{epilogues_by, extended_header, first_scope, header_in, header_of};
ghost use Rattle.pe_unwind_arm64.specs.UnwindInfo.{header_with, info_by, info_in, scope_bytes, scope_of, scopes_in};

use crate::epilogues::{Epilogue, epilogue_of, last_epilogue, own_count};
use crate::unwind_codes::{UnwindCode, bytes_behind, codes_in};
use crate::unwind_errors::{EntryError, UnwindError};
use pe_image::{bytes_at, u32_at};
use std::alloc::Global;
use std::marker::Model;

/// The size of a word of the header, and of an epilogue scope, in bytes.
const WORD: usize = 4;

/// The unwind info of a function, without its length.
#[derive(Drop)]
pub struct UnwindInfo {
    /// The codes in file order: that of the last instruction comes first.
    pub codes: Vec<UnwindCode>,
    /// The number of instructions of the prologue.
    pub prologue: usize,
    /// The epilogues, in the order of their starts.
    pub epilogues: Vec<Epilogue>,
}

impl Model for UnwindInfo {
    ghost use Rattle.pe_unwind_arm64.specs.UnwindInfo.{Info};

    ghost Value = { Info };

    ghost view = { λ info. record {
      codes = info.codes.items;
      prologue = info.prologue;
      epilogues = info.epilogues.items;
    } };
}

/// The header of an unwind info.
#[derive(Debug, Clone, Copy)]
pub(crate) struct Header {
    /// The length of the function in instructions.
    pub(crate) length: u32,
    /// Whether there is one epilogue, at the function's end.
    is_single: bool,
    /// The number of epilogues; or, if there is one at the function's end, the index of its codes.
    epilogues: u32,
    /// The number of words that contain codes.
    words: u32,
    /// The size of the header in bytes.
    size: usize,
}

/// Reads the unwind info at the start of these bytes.
pub(crate) fn info_in(alloc: Global, bytes: &[u8]) -> Result<UnwindInfo, UnwindError>
    ensures answer { Gives (λ info. info) result (info_in bytes.now) }
{
    let header = header_in(bytes)?;
    let size = scope_bytes(header);
    let Some(scopes) = bytes_at(bytes, header.size, size) else {
        return Err(UnwindError::Refused(EntryError::InfoOutsideOfImage));
    };
    let listed = header.words as usize;
    let Some(listed) = bytes_at(bytes, header.size + size, WORD * listed) else {
        return Err(UnwindError::Refused(EntryError::CodesCut));
    };
    info_by(alloc, header, scopes, codes_in(alloc, listed)?)
}

// Decodes the first word of a header.
fn header_of(word: u32) -> Header
    ensures answer { result ≡ header_of word }
    ensures small { result.length < 2 ^ 18 }
    ensures near { result.size ≤ 8 }
    ensures bound { result.epilogues < 2 ^ 16 }
    ensures short { result.words < 2 ^ 8 }
{
    Header {
        length: word % 0x4_0000,
        is_single: word / 0x20_0000 % 2 == 1,
        epilogues: word / 0x40_0000 % 32,
        words: word / 0x800_0000,
        size: WORD,
    }
}

// Decodes a header whose second word has the last two numbers.
fn header_with(word: u32, more: u32) -> Header
    ensures answer { result ≡ header_with word more }
    ensures small { result.length < 2 ^ 18 }
    ensures near { result.size ≤ 8 }
    ensures bound { result.epilogues < 2 ^ 16 }
    ensures short { result.words < 2 ^ 8 }
{
    let first = header_of(word);
    Header {
        length: first.length,
        is_single: first.is_single,
        epilogues: more % 0x1_0000,
        words: more / 0x1_0000 % 256,
        size: 2 * WORD,
    }
}

// Reads a header of two words.
fn extended_header(word: u32, bytes: &[u8]) -> Result<Header, EntryError>
    ensures answer { result ≡ extended_header word bytes.now }
    ensures small { IfOk result (λ header. header.length < 2 ^ 18) }
    ensures near { IfOk result (λ header. header.size ≤ 8) }
    ensures bound { IfOk result (λ header. header.epilogues < 2 ^ 16) }
    ensures short { IfOk result (λ header. header.words < 2 ^ 8) }
{
    match u32_at(bytes, WORD) {
        None => Err(EntryError::InfoOutsideOfImage),
        Some(more) => Ok(header_with(word, more)),
    }
}

/// Reads the header at the start of these bytes.
pub(crate) fn header_in(bytes: &[u8]) -> Result<Header, EntryError>
    ensures answer { result ≡ header_in bytes.now }
    ensures small { IfOk result (λ header. header.length < 2 ^ 18) }
    ensures near { IfOk result (λ header. header.size ≤ 8) }
    ensures bound { IfOk result (λ header. header.epilogues < 2 ^ 16) }
    ensures short { IfOk result (λ header. header.words < 2 ^ 8) }
{
    let Some(word) = u32_at(bytes, 0) else {
        return Err(EntryError::InfoOutsideOfImage);
    };
    if word / 0x4_0000 % 4 != 0 {
        return Err(EntryError::UnknownVersion);
    }
    if word / 0x40_0000 == 0 {
        return extended_header(word, bytes);
    }
    Ok(header_of(word))
}

// The size of the epilogue scopes in bytes.
fn scope_bytes(header: Header) -> usize
    requires few { header.epilogues < 2 ^ 16 }
    ensures answer { result ≡ scope_bytes header }
    ensures bound { result < 2 ^ 18 }
{
    if header.is_single {
        return 0;
    }
    WORD * header.epilogues as usize
}

// The unwind info, by its header, its epilogue scopes and its codes.
fn info_by(
    alloc: Global,
    header: Header,
    scopes: &[u8],
    codes: Vec<UnwindCode>,
) -> Result<UnwindInfo, UnwindError>
    ensures answer { Gives (λ info. info) result (info_by header scopes.now codes.items) }
{
    let prologue = own_count(&codes)?;
    let epilogues = epilogues_by(alloc, header, &codes, scopes)?;
    Ok(UnwindInfo {
        codes,
        prologue,
        epilogues,
    })
}

// The epilogues of a function, by the header and the scopes of its unwind info.
fn epilogues_by(
    alloc: Global,
    header: Header,
    codes: &[UnwindCode],
    scopes: &[u8],
) -> Result<Vec<Epilogue>, UnwindError>
    ensures answer { Gives (λ epilogues. epilogues.items) result (epilogues_by header codes.now scopes.now) }
{
    if header.is_single {
        let one = last_epilogue(header.length, codes, header.epilogues as usize)?;
        return single(alloc, one);
    }
    scopes_in(alloc, header.epilogues, header.length, codes, scopes)
}

/// A list of one epilogue.
pub(crate) fn single(alloc: Global, one: Epilogue) -> Result<Vec<Epilogue>, UnwindError>
    ensures answer { Gives (λ epilogues. epilogues.items) result (Ok (one ∷ [])) }
{
    let mut epilogues = Vec::new(alloc);
    epilogues.push(one)?;
    Ok(epilogues)
}

// Decodes an epilogue scope.
fn scope_of(
    reach: usize,
    length: u32,
    codes: &[UnwindCode],
    word: u32,
) -> Result<Epilogue, EntryError>
    ensures answer { result ≡ scope_of reach length codes.now word }
{
    epilogue_of(
        reach,
        length,
        codes,
        word % 0x4_0000,
        (word / 0x40_0000) as usize,
    )
}

// The first number of a list of epilogue scopes.
fn first_scope(bytes: &[u8]) -> u32
    ensures answer { result ≡ first_scope bytes.now }
{
    u32_at(bytes, 0).unwrap_or(0)
}

// The first `count` epilogues, by their scopes.
#[tactic(auto, unfolding(crate::specs::UnwindInfo::scopes_in))]
fn scopes_in(
    alloc: Global,
    count: u32,
    length: u32,
    codes: &[UnwindCode],
    bytes: &[u8],
) -> Result<Vec<Epilogue>, UnwindError>
    ensures answer { Gives (λ read. read.items) result (scopes_in count length codes.now bytes.now) }
{
    let mut read = Vec::new(alloc);
    let mut reach = 0;
    let mut rest = bytes;
    for _ in 0..count {
        let one = scope_of(reach, length, codes, first_scope(rest))?;
        reach = one.end;
        read.push(one)?;
        rest = bytes_behind(rest, WORD);
    }
    Ok(read)
}
