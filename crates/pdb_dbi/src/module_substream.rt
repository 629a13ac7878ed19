//! Reads the list of modules: their names, and which stream has the records of each.

ghost use Rattle.std.specs.Prelude.{◌≡◌, ◌++◌, length, map, IfErr, IfOk, OnOk};
ghost use Rattle.pdb_dbi.specs.ModuleSubstream.{module_list, module_stream, module_streams, modules};

use crate::substreams::Substream;
use pdb_msf::faults::Fault;
use pdb_msf::{Bytes, ItemReader, PaddedItems, copy_name, push_items, u16_at, u32_at};
use pdb_records::{Module, Reading};
use std::alloc::Global;
use std::marker::Model;

/// The size of a module's entry before its names, in bytes.
const FRONT: usize = 64;

/// The stream with a module's records, and the sizes of its parts.
#[derive(Clone, Copy)]
pub struct ModuleStream {
    /// The number of the stream; 65535 if there is none.
    pub stream: u16,
    /// The size of the symbols in bytes, with the signature before them.
    pub symbols: u32,
    /// The size of lines in the older form (C11), in bytes.
    pub c11_lines: u32,
    /// The size of the subsections of lines, files and inlinees (C13), in bytes.
    pub lines: u32,
}

/// An entry of the list of modules.
#[derive(Drop)]
struct ModuleEntry<'a> {
    name: &'a [u8],
    stream: ModuleStream,
}

impl<'a> Model for ModuleEntry<'a> {
    ghost use Rattle.pdb_dbi.specs.ModuleSubstream.{ListedModule};

    ghost Value = { ListedModule };

    ghost view = { λ m. record { name = m.name.now; stream = m.stream } };
}

/// Reads the modules in order, and appends the stream of each.
pub fn read_modules(
    alloc: Global,
    substream: &Substream<'_>,
    streams: &mut Vec<ModuleStream>,
) -> Result<Reading<Module>, Fault>
    ensures answer { IfOk result (λ reading. reading ≡ modules substream.now) }
    ensures state { OnOk result (streams.new.items ≡ streams.old.items ++ module_streams substream.now) }
    ensures memory { IfErr result (λ fault. fault ≡ Fault.OutOfMemory) }
{
    let mut modules = read_list(alloc, substream.bytes, streams)?;
    modules.fault = modules.fault.or(substream.fault);
    Ok(modules)
}

// Reads a list of modules, up to the first one that is cut off.
fn read_list(
    alloc: Global,
    bytes: &[u8],
    streams: &mut Vec<ModuleStream>,
) -> Result<Reading<Module>, Fault>
    ensures items { IfOk result (λ reading.
        reading.items ≡ map (λ listed. record { name = listed.name }) (module_list bytes.now).items) }
    ensures fault { IfOk result (λ reading. reading.fault ≡ (module_list bytes.now).fault) }
    ensures state { OnOk result
        (streams.new.items ≡ streams.old.items ++ map (λ listed. listed.stream) (module_list bytes.now).items) }
    ensures memory { IfErr result (λ fault. fault ≡ Fault.OutOfMemory) }
{
    let mut listed = Vec::new(alloc);
    let fault = push_items(&PaddedItems(ModuleEntries), bytes, &mut listed)?;
    let mut items = Vec::with_capacity(alloc, listed.len())?;
    for entry in &listed {
        let name = copy_name(alloc, entry.name)?;
        items.push(Module { name })?;
        streams.push(entry.stream)?;
    }
    Ok(Reading { items, fault })
}

/// Reads the entries of the list, without padding.
#[derive(Drop)]
struct ModuleEntries;

impl<'a> ItemReader<'a> for ModuleEntries {
    type Item = ModuleEntry<'a>;

    ghost use Rattle.pdb_dbi.specs.ModuleSubstream.{first_module};

    ghost first = { λ _. first_module };

    #[tactic(auto, using(crate::proofs::ModuleLemmas::no_front))]
    fn take(&self, rest: &mut Bytes<'a>) -> Result<ModuleEntry<'a>, Fault> {
        let stream = module_stream(rest.take(FRONT)?);
        let name = rest.text()?;
        rest.text()?;
        Ok(ModuleEntry { name, stream })
    }
}

fn module_stream(front: &[u8]) -> ModuleStream
    requires { length front.now ≡ 64 }
    ensures { result ≡ module_stream front.now }
{
    ModuleStream {
        stream: u16_at(front, 34),
        symbols: u32_at(front, 36),
        c11_lines: u32_at(front, 40),
        lines: u32_at(front, 44),
    }
}
