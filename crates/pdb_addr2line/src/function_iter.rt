//! Lists the functions of a program, sorted by start, with an iterator or all at once.

ghost use Rattle.std.specs.Prelude.{◌≡◌, [], ◌∷◌, ◌++◌, length, map, IfOk, OnOk, OnErr, MatchResult};
ghost use Rattle.pdb_errors.specs.declared.error.Error.TheVariants.{OutOfMemory};
ghost use Rattle.pdb_function_info.specs.Function.{function_view};
ghost use Rattle.pdb_addr2line.specs.FunctionIter.{start_addresses, functions_at, functions_of, after_function};
ghost use Rattle.pdb_addr2line.specs.FunctionIter.{after_functions, IsCutShort, OnlyGainsBroken};
ghost use Rattle.pdb_addr2line.specs.FunctionSteps.{untried, lender, ContinuesNext};

use crate::context::Context;
use pdb_errors::Result;
use pdb_function_info::Function;
use pdb_records::ModuleProvider;
use std::vec::IntoIter;

/// An iterator over the functions of a program, sorted by start, from [`Context::functions`].
///
/// It looks up one start address after the other, and skips those at which there is no function. If memory runs out, it
/// returns `OutOfMemory` for that address, and continues with the next one.
#[derive(Drop)]
pub struct FunctionIter<'c, 'a, P: ModuleProvider> {
    context: &'c mut Context<'a, P>,
    untried: IntoIter<u32>,
}

impl<'c, 'a, P: ModuleProvider> FunctionIter<'c, 'a, P> {
    /// The number of start addresses that weren't looked up yet. At most this many functions follow.
    pub fn remaining(&self) -> usize
        ensures { result ≡ length (untried self.now) }
    {
        self.untried.len()
    }
}

impl<'c, 'a, P: ModuleProvider> Iterator for FunctionIter<'c, 'a, P> {
    ghost use Rattle.std.specs.Iterator.{item_count};
    ghost use Rattle.pdb_addr2line.specs.FunctionSteps.{untried, ContinuesNext};

    type Item = Result<Function>;

    ghost next_gives = { ContinuesNext P.info };

    ghost remaining = { item_count untried };

    fn next(&mut self) -> Option<Result<Function>> {
        while let Some(address) = self.untried.next() {
            let answered = self.context.find_function(address).transpose();
            if answered.is_some() {
                return answered;
            }
        }
        None
    }
}

impl<'a, P: ModuleProvider> Context<'a, P> {
    /// The functions of the program, sorted by start: the results of [`Context::find_function`] at each address where a
    /// global function or a procedure starts.
    ///
    /// # Errors
    ///
    /// `OutOfMemory` if memory runs out.
    pub fn functions(&mut self) -> Result<FunctionIter<'_, 'a, P>>
        ensures answer { MatchResult result
            (λ it. untried it ≡ start_addresses P.info self.old.inputs)
            (λ e. e ≡ OutOfMemory) }
        ensures unchanged { IfOk result (λ it. lender it ≡ self.old) }
        ensures same_reference { IfOk result (λ it. it.context.ghost_name ≡ self.entry.ghost_name) }
    {
        let untried = self.start_addresses()?.into_iter();
        Ok(FunctionIter {
            context: self,
            untried,
        })
    }

    // All functions of the program.
    //
    // # Errors
    //
    // `OutOfMemory` if memory runs out.
    pub(crate) fn all_functions(&mut self) -> Result<Vec<Function>>
        ensures answer { MatchResult result
            (λ v. map function_view v.items ≡ functions_of P.info self.old.inputs)
            (λ e. e ≡ OutOfMemory) }
        ensures state { OnOk result (self.new
            ≡ after_functions P.info self.old (start_addresses P.info self.old.inputs)) }
        ensures early { OnErr result
            (IsCutShort P.info self.old self.new (start_addresses P.info self.old.inputs)) }
        ensures gains { OnErr result (OnlyGainsBroken P.info self.old self.new) }
    {
        let addresses = self.start_addresses()?;
        let mut functions = Vec::new(self.alloc);
        for address in &addresses {
            self.add_function(&mut functions, *address)?;
        }
        Ok(functions)
    }

    // Adds the function at an address, if there is one.
    fn add_function(&mut self, functions: &mut Vec<Function>, address: u32) -> Result<()>
        ensures added { MatchResult result
            (λ _. map function_view functions.new.items ≡ map function_view functions.old.items
            ++ functions_at P.info self.old.inputs (address ∷ []))
            (λ e. e ≡ OutOfMemory) }
        ensures state { OnOk result (self.new ≡ after_function P.info self.old address) }
        ensures early { OnErr result (IsCutShort P.info self.old self.new (address ∷ [])) }
        ensures gains { OnlyGainsBroken P.info self.old self.new }
    {
        if let Some(function) = self.find_function(address)? {
            functions.push(function)?;
        }
        Ok(())
    }
}
