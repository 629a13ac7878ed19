//! Splits the bytes of a list into records of types or ids.

ghost use Rattle.std.specs.Prelude.{◌≡◌, ◌+◌, ◌≤◌, drop, length, None, Some, IfErr, IfOk, OnOk};
ghost use Rattle.pdb_tpi.specs.TypeRecords.{first_record, record_fault, record_len};

use pdb_msf::Bytes;
use pdb_msf::faults::BAD_LENGTH;
use pdb_records::StreamError;
use std::marker::Model;

/// The bytes of a type record or an id record.
#[derive(Drop)]
pub(crate) struct TypeRecord<'a> {
    pub(crate) kind: u16,
    /// The bytes after the kind.
    pub(crate) content: &'a [u8],
}

impl<'a> Model for TypeRecord<'a> {
    ghost use Rattle.pdb_tpi.specs.TypeRecords.{TypeBytes};

    ghost Value = { TypeBytes };

    ghost view = { λ r. record { kind = r.kind; content = r.content.now } };
}

/// Reads the next record of a list.
pub(crate) fn take_record<'a>(rest: &mut Bytes<'a>) -> Result<TypeRecord<'a>, StreamError>
    ensures answer { IfOk result (λ taken. taken ≡ first_record rest.old) }
    ensures there { OnOk result (record_fault rest.old ≡ None) }
    ensures within { OnOk result (2 + record_len rest.old ≤ length rest.old) }
    ensures state { OnOk result (rest.new ≡ drop (2 + record_len rest.old) rest.old) }
    ensures refused { IfErr result (λ error. record_fault rest.old ≡ Some error) }
{
    let length = rest.u16()?;
    let mut record = Bytes::new(rest.take(usize::from(length))?);
    match record.u16() {
        Ok(kind) => Ok(TypeRecord {
            kind,
            content: record.rest(),
        }),
        Err(_) => Err(BAD_LENGTH),
    }
}
