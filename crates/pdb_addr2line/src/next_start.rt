//! Finds the first function that starts at or after an address.

ghost use Rattle.std.specs.Prelude.{◌≡◌, find, nat_le, slice_get, MatchResult};
ghost use Rattle.pdb_errors.specs.declared.error.Error.TheVariants.{OutOfMemory};
ghost use Rattle.pdb_addr2line.specs.FunctionLaws.{Ascend};
ghost use Rattle.pdb_addr2line.specs.FunctionIter.{start_addresses};

use crate::context::Context;
use pdb_errors::Result;
use pdb_records::ModuleProvider;

// The address at a position.
fn address_at(addresses: &[u32], position: usize) -> Option<u32>
    ensures { result ≡ slice_get addresses.now position }
{
    addresses.get(position).copied()
}

// The first of ascending addresses that is at or above `address`.
fn first_from(addresses: &[u32], address: u32) -> Option<u32>
    requires { Ascend addresses.now }
    ensures { result ≡ find (λ start. nat_le address start) addresses.now }
{
    let position = addresses.partition_point(|start| *start < address);
    address_at(addresses, position)
}

impl<'a, P: ModuleProvider> Context<'a, P> {
    /// The first of the [start addresses](Context::start_addresses) that is at or above this one, for callers that walk
    /// over functions one at a time. `None` if no function starts there.
    ///
    /// # Errors
    ///
    /// `OutOfMemory` if memory runs out. Only the first call for start addresses allocates.
    #[tactic(auto, using(crate::proofs::StartLemmas::starts_ascend))]
    pub fn next_start_address(&mut self, address: u32) -> Result<Option<u32>>
        ensures answer { MatchResult result
            (λ start. start ≡ find (λ start. nat_le address start) (start_addresses P.info self.old.inputs))
            (λ e. e ≡ OutOfMemory) }
        ensures unchanged { self.new ≡ self.old }
    {
        if let Some(starts) = &self.caches.starts {
            return Ok(first_from(starts, address));
        }
        let starts = self.find_start_addresses()?;
        let start = first_from(&starts, address);
        self.caches.starts = Some(starts);
        Ok(start)
    }
}
