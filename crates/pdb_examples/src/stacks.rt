//! The stacks of addresses: each function in whose code an address lies, the innermost inlined one first.

use anyhow::Result;
use pdb_addr2line::{Frame, TypeFormatterFlags};
use pdb_session::{PdbSession, SessionContext};
use std::alloc::Global;

/// Prints the stack of each address. They are hexadecimal digits, relative to where the program is loaded.
pub fn print_stacks<R: Print + AllocGlobal>(rt: &R, pdb: &[u8], words: &[String]) -> Result<()> {
    let addresses = parse_addresses(rt.alloc(), words)?;
    let mut session = PdbSession::open(rt.alloc(), pdb, pdb.len())?.session;
    session.read_for(&addresses)?;
    let data = session.data()?;
    let mut context = data.context(TypeFormatterFlags::default())?;
    for &address in &addresses {
        print_stack(rt, &mut context, address)?;
    }
    Ok(())
}

/// The addresses that words spell.
fn parse_addresses(alloc: Global, words: &[String]) -> Result<Vec<u32>> {
    let mut addresses = Vec::new(alloc);
    for word in words {
        addresses.push(u32::from_str_radix(word.as_str(), 16)?)?;
    }
    Ok(addresses)
}

/// Prints the stack of an address.
fn print_stack<R: Print>(rt: &R, context: &mut SessionContext<'_, '_>, address: u32) -> Result<()> {
    match context.find_frames(address)? {
        Some(found) => print_frames(rt, &found.frames),
        None => Ok(println!(rt; "{address:x} lies in no function")?),
    }
}

/// Prints a line for each frame.
fn print_frames<R: Print>(rt: &R, frames: &[Frame<'_>]) -> Result<()> {
    for frame in frames {
        let name = frame
            .function
            .as_ref()
            .map_or("<unknown>", |name| name.as_str());
        let file = frame.file.as_ref().map_or("??", |file| file.as_str());
        println!(rt; "{name} at {file}:{}", frame.line.unwrap_or(0))?;
    }
    Ok(())
}
