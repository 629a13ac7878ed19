//! Reads the stream `/names`: strings by their offsets.

ghost use Rattle.pdb_container.specs.NameStream.{string_table_in};
ghost use Rattle.pdb_msf.specs.Faults.{Gives};

use pdb_msf::faults::{Fault, UNKNOWN_VERSION};
use pdb_msf::{Bytes, ItemReader, copy_name, read_all_items};
use pdb_records::{RawString, StringRef, StringTable};
use std::alloc::Global;

/// The first four bytes of the table.
const SIGNATURE: u32 = 0xeffe_effe;

/// Reads the strings of the stream `/names`, each with its offset in the table.
#[tactic(auto, unfolding(crate::specs::NameStream::string_table_in))]
pub fn read_strings(alloc: Global, stream: &[u8]) -> Result<StringTable, Fault>
    ensures { Gives (λ table. table) result (string_table_in stream.now) }
{
    let mut bytes = Bytes::new(stream);
    if bytes.u32()? != SIGNATURE {
        return Err(Fault::Broken(UNKNOWN_VERSION));
    }
    bytes.u32()?;
    let length = bytes.u32()?;
    let texts = bytes.take(length as usize)?;
    let strings = read_all_items(
        alloc,
        &TextReader {
            alloc,
            whole: length,
        },
        texts,
    )?;
    Ok(StringTable { strings })
}

/// Reads the strings of a table of `whole` bytes.
#[derive(Drop)]
struct TextReader {
    alloc: Global,
    whole: u32,
}

impl<'a> ItemReader<'a> for TextReader {
    type Item = (StringRef, RawString);

    ghost use Rattle.pdb_container.specs.NameStream.{next_text};

    ghost first = { λ table. next_text table.whole };

    fn take(&self, rest: &mut Bytes<'a>) -> Result<(StringRef, RawString), Fault> {
        let place = (self.whole as usize).saturating_sub(rest.len()) as u32;
        let text = copy_name(self.alloc, rest.text()?)?;
        Ok((StringRef(place), text))
    }
}
