//! Reads numeric leaves: numbers whose first two bytes are the value, or a kind that says its width.

ghost use Rattle.std.specs.Prelude.{◌≡◌, ◌≤◌, ◌<◌, drop, length, Ok, Err, IfErr, IfOk, MatchResult, OnErr, OnOk};
ghost use Rattle.pdb_msf.specs.declared.faults.TheConstants.{CUT};
ghost use Rattle.pdb_tpi.specs.NumericLeaves.{eight_byte_number, numeric_leaf, size_in, size_of, wide_number};

use byteorder::{ByteOrder, LittleEndian};
use pdb_msf::Bytes;
use pdb_msf::faults::BAD_NUMBER;
use pdb_records::{StreamError, Variant};

/// Numbers below this one are values. Others are kinds, which say the width of the value after them.
const LF_NUMERIC: u16 = 0x8000;

/// Reads the next numeric leaf of a record.
#[tactic(auto, unfolding(crate::specs::NumericLeaves::numeric_leaf))]
pub(crate) fn take_variant(rest: &mut Bytes<'_>) -> Result<Variant, StreamError>
    ensures { MatchResult result (λ number. numeric_leaf rest.old ≡ Ok (number, rest.new))
        (λ error. numeric_leaf rest.old ≡ Err error) }
{
    let leaf = rest.u16()?;
    if leaf < LF_NUMERIC {
        return Ok(Variant::U16(leaf));
    }
    take_wide(leaf, rest)
}

// Reads the next number, whose kind is `leaf`.
fn take_wide(leaf: u16, rest: &mut Bytes<'_>) -> Result<Variant, StreamError>
    ensures { MatchResult result (λ number. wide_number leaf rest.old ≡ Ok (number, rest.new))
        (λ error. wide_number leaf rest.old ≡ Err error) }
{
    match leaf {
        0x8000 => Ok(Variant::I8(rest.u8()?.cast_signed())),
        0x8001 => Ok(Variant::I16(rest.u16()?.cast_signed())),
        0x8002 => Ok(Variant::U16(rest.u16()?)),
        0x8003 => Ok(Variant::I32(rest.u32()?.cast_signed())),
        0x8004 => Ok(Variant::U32(rest.u32()?)),
        0x8009 => Ok(Variant::I64(take_u64(rest)?.cast_signed())),
        0x800a => Ok(Variant::U64(take_u64(rest)?)),
        _ => Err(BAD_NUMBER),
    }
}

// Reads the next eight-byte number.
fn take_u64(rest: &mut Bytes<'_>) -> Result<u64, StreamError>
    ensures answer { IfOk result (λ read. read ≡ eight_byte_number rest.old) }
    ensures there { OnOk result (8 ≤ length rest.old) }
    ensures state { OnOk result (rest.new ≡ drop 8 rest.old) }
    ensures refused { OnErr result (length rest.old < 8) }
    ensures fault { IfErr result (λ error. error ≡ CUT) }
{
    let taken = rest.take(8)?;
    Ok(LittleEndian::read_u64(taken))
}

/// Reads the next numeric leaf of a record as a size.
#[tactic(auto, unfolding(crate::specs::NumericLeaves::size_in))]
pub(crate) fn take_size(rest: &mut Bytes<'_>) -> Result<u64, StreamError>
    ensures { MatchResult result (λ size. size_in rest.old ≡ Ok (size, rest.new))
        (λ error. size_in rest.old ≡ Err error) }
{
    let number = take_variant(rest)?;
    size_of(number)
}

// The number as a size. A negative number is refused.
fn size_of(number: Variant) -> Result<u64, StreamError>
    ensures { result ≡ size_of number }
{
    match number {
        Variant::U8(size) => Ok(u64::from(size)),
        Variant::U16(size) => Ok(u64::from(size)),
        Variant::U32(size) => Ok(u64::from(size)),
        Variant::U64(size) => Ok(size),
        Variant::I8(size) => u64::try_from(size).map_err(|_| BAD_NUMBER),
        Variant::I16(size) => u64::try_from(size).map_err(|_| BAD_NUMBER),
        Variant::I32(size) => u64::try_from(size).map_err(|_| BAD_NUMBER),
        Variant::I64(size) => u64::try_from(size).map_err(|_| BAD_NUMBER),
    }
}
