//! Laws on the start addresses of functions.

ghost use Rattle.std.specs.Prelude.{ℕ, ◌↔◌};
ghost use Rattle.std.specs.List.{Contains};
ghost use Rattle.pdb_addr2line.specs.FunctionLaws.{Ascend, IsStart};
ghost use Rattle.pdb_addr2line.specs.FunctionIter.{start_addresses};
ghost use Rattle.pdb_addr2line.specs.ContextInputs.{ContextInputs};

use pdb_records::ModuleProvider;

// Start addresses are in strictly ascending order, so each occurs once.
#[tactic(auto, using(crate::proofs::StartLemmas::starts_ascend))]
pub fn start_addresses_ascend<P: ModuleProvider>()
    ensures { (s : ContextInputs P) → Ascend (start_addresses P.info s) }
{}

// An address is a start address exactly if it is the start of a global function, with or without a name, or of a
// procedure of a listed module.
pub fn start_addresses_are_all_starts<P: ModuleProvider>()
    ensures { (s : ContextInputs P) (address : ℕ)
        → Contains (start_addresses P.info s) address ↔ IsStart P.info s address }
{}
