//! Splits a list of symbols into records, and reads the names at their ends.

ghost use Rattle.std.specs.Prelude.{◌≡◌, ◌≤◌, length, IfErr, IfOk, IfSome, option_map};
ghost use Rattle.std.specs.List.Sorted.{IsNonDecreasingBy};
ghost use Rattle.pdb_codeview.specs.SymbolRecords.{is_filler, name_behind, name_in, position_at, symbol_records};

use pdb_msf::faults::{BAD_LENGTH, Fault};
use pdb_msf::{Bytes, ItemReader, push_items};
use pdb_records::{Reading, SymbolIndex};
use std::alloc::Global;
use std::marker::Model;

/// The kind of a record that is only padding.
pub(crate) const S_ALIGN: u16 = 0x0402;

/// The kind of a record that only reserves space.
pub(crate) const S_SKIP: u16 = 0x0007;

/// Kinds below this one have names with a length before them. All others have names that end in a zero.
const ZERO_ENDED_NAMES: u16 = 0x1100;

/// The bytes of a symbol record.
#[derive(Drop)]
pub(crate) struct SymbolRecord<'a> {
    /// The offset of the record in its stream, in bytes.
    pub(crate) start: usize,
    pub(crate) raw_kind: u16,
    /// The bytes after the kind.
    pub(crate) content: &'a [u8],
}

impl<'a> Model for SymbolRecord<'a> {
    ghost use Rattle.pdb_codeview.specs.SymbolRecords.{SymbolBytes};

    ghost Value = { SymbolBytes };

    ghost view = { λ r. record { start = r.start; raw_kind = r.raw_kind; content = r.content.now } };
}

impl<'a> SymbolRecord<'a> {
    // Whether the record is padding or reserved space.
    fn is_filler(&self) -> bool
        ensures { result ≡ is_filler self.now }
    {
        self.raw_kind == S_ALIGN || self.raw_kind == S_SKIP
    }

    /// The name after the first `size` bytes of the content, if it is there.
    pub(crate) fn name_behind(&self, size: usize) -> Option<&'a [u8]>
        ensures answer { option_map (λ name. name.now) result ≡ name_behind size self.now }
        ensures there { IfSome result (λ _. size ≤ length self.now.content) }
    {
        let mut rest = Bytes::new(self.content);
        match rest.take(size) {
            Ok(_) => name_in(self.raw_kind, rest.rest()),
            Err(_) => None,
        }
    }
}

// The name at the start of these bytes, in the form that this kind has.
fn name_in(raw_kind: u16, bytes: &[u8]) -> Option<&[u8]>
    ensures { option_map (λ name. name.now) result ≡ name_in raw_kind bytes.now }
{
    let mut rest = Bytes::new(bytes);
    if raw_kind < ZERO_ENDED_NAMES {
        rest.counted_text().ok()
    } else {
        rest.text().ok()
    }
}

/// The position of the first symbol that starts at or after an offset. The symbols are sorted by start.
pub(crate) fn position_at(symbols: &[SymbolRecord<'_>], place: u32) -> SymbolIndex
    requires { IsNonDecreasingBy (λ symbol. symbol.start) symbols.now }
    ensures { result ≡ position_at symbols.now place }
{
    SymbolIndex(symbols.partition_point(|symbol| symbol.start < place as usize))
}

/// Splits a list into its symbols. Padding and reserved space are skipped. The stream has `front` bytes before the
/// list.
pub(crate) fn split_symbol_records<'a>(
    alloc: Global,
    bytes: &'a [u8],
    front: u32,
) -> Result<Reading<SymbolRecord<'a>>, Fault>
    ensures answer { IfOk result (λ list. list ≡ symbol_records front bytes.now) }
    ensures ascending { IfOk result (λ list. IsNonDecreasingBy (λ symbol. symbol.start) list.items) }
    ensures memory { IfErr result (λ fault. fault ≡ Fault.OutOfMemory) }
{
    let end = front as usize + bytes.len();
    let mut items = Vec::new(alloc);
    let fault = push_items(&SymbolRecords { end }, bytes, &mut items)?;
    items.retain(|record| !record.is_filler());
    Ok(Reading { items, fault })
}

/// Reads the records of a list that ends at this offset of its stream.
#[derive(Drop)]
struct SymbolRecords {
    end: usize,
}

impl<'a> ItemReader<'a> for SymbolRecords {
    type Item = SymbolRecord<'a>;

    ghost use Rattle.pdb_codeview.specs.SymbolRecords.{first_record};

    ghost first = { λ list. first_record list.end };

    fn take(&self, rest: &mut Bytes<'a>) -> Result<SymbolRecord<'a>, Fault> {
        let start = self.end.saturating_sub(rest.len());
        let length = rest.u16()?;
        let mut record = Bytes::new(rest.take(usize::from(length))?);
        match record.u16() {
            Ok(raw_kind) => Ok(SymbolRecord {
                start,
                raw_kind,
                content: record.rest(),
            }),
            Err(_) => Err(Fault::Broken(BAD_LENGTH)),
        }
    }
}
