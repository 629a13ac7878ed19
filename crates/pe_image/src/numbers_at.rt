//! Reads bytes and little-endian numbers at offsets in a list of bytes.

ghost use Rattle.std.specs.Prelude.{◌≡◌, IfSome, length, option_map};
ghost use Rattle.pe_image.specs.NumbersAt.{bytes_at, number_at};

use byteorder::{ByteOrder, LittleEndian};

/// `count` bytes from the offset `at` on, or `None` if there are fewer.
pub fn bytes_at(bytes: &[u8], at: usize, count: usize) -> Option<&[u8]>
    ensures answer { option_map (λ found. found.now) result ≡ bytes_at bytes.now at count }
    ensures count { IfSome result (λ found. length found.now ≡ count) }
{
    if bytes.len() < at {
        return None;
    }
    let (_, rest) = bytes.split_at(at);
    if rest.len() < count {
        return None;
    }
    let (found, _) = rest.split_at(count);
    Some(found)
}

/// The number in the two bytes at the offset `at`.
pub fn u16_at(bytes: &[u8], at: usize) -> Option<u16>
    ensures answer { result ≡ number_at 2 bytes.now at }
{
    let found = bytes_at(bytes, at, 2)?;
    Some(LittleEndian::read_u16(found))
}

/// The number in the four bytes at the offset `at`.
pub fn u32_at(bytes: &[u8], at: usize) -> Option<u32>
    ensures answer { result ≡ number_at 4 bytes.now at }
{
    let found = bytes_at(bytes, at, 4)?;
    Some(LittleEndian::read_u32(found))
}

/// The number in the eight bytes at the offset `at`.
pub fn u64_at(bytes: &[u8], at: usize) -> Option<u64>
    ensures answer { result ≡ number_at 8 bytes.now at }
{
    let found = bytes_at(bytes, at, 8)?;
    Some(LittleEndian::read_u64(found))
}
