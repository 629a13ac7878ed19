//! Reads lists of indices that follow their count.

ghost use Rattle.pdb_msf.specs.Faults.{Gives};
ghost use Rattle.pdb_tpi.specs.IndexLists.{index_list};

use pdb_msf::faults::Fault;
use pdb_msf::{Bytes, ItemReader, read_all_items};
use pdb_records::TypeIndex;
use std::alloc::Global;

/// Reads a list of indices that follow their count.
#[tactic(auto, unfolding(crate::specs::IndexLists::index_list))]
pub(crate) fn read_indices(alloc: Global, bytes: &[u8]) -> Result<Vec<TypeIndex>, Fault>
    ensures { Gives (λ list. list.items) result (index_list bytes.now) }
{
    let mut rest = Bytes::new(bytes);
    let count = rest.u32()? as usize;
    read_all_items(alloc, &Indices, rest.take(4 * count)?)
}

/// Reads indices in turn.
struct Indices;

impl<'a> ItemReader<'a> for Indices {
    type Item = TypeIndex;

    ghost use Rattle.pdb_msf.specs.ItemLists.{first_entry};
    ghost use Rattle.pdb_tpi.specs.IndexLists.{index};

    ghost first = { λ _. first_entry index 4 };

    fn take(&self, rest: &mut Bytes<'a>) -> Result<TypeIndex, Fault> {
        Ok(TypeIndex(rest.u32()?))
    }
}
