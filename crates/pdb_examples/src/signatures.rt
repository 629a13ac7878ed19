//! The signature of a function by its type.

use anyhow::Result;
use pdb_addr2line::ContextPdbData;
use pdb_addr2line::pdb::TypeIndex;
use pdb_container::read_pdb;

/// Prints a function's signature, for its name and the index of its type as a module writes it. The formatter prints
/// ids of inlined functions too, by `format_id`.
pub fn print_signature<R: Print + AllocGlobal>(
    rt: &R,
    pdb: &[u8],
    name: &str,
    module_index: usize,
    type_index: u32,
) -> Result<()> {
    let records = read_pdb(rt.alloc(), pdb)?;
    let data = ContextPdbData::try_from_pdb(rt.alloc(), records)?;
    let mut formatter = data.make_type_formatter()?;
    let text = formatter.format_function(name, module_index, TypeIndex(type_index))?;
    println!(rt; "{text}")?;
    Ok(())
}
