//! Lookups of an address in which functions without another name get their symbols' names.

ghost use Rattle.std.specs.Prelude.{◌≡◌, Ok, None, option_map, string_bytes, OnOk, IfErr, MatchResult};
ghost use Rattle.std.specs.Option.{option_or};
ghost use Rattle.pdb_errors.specs.Outcomes.{Gives};
ghost use Rattle.pdb_errors.specs.declared.error.Error.TheVariants.{OutOfMemory};
ghost use Rattle.pdb_function_info.specs.Frames.{ButForMemory};
ghost use Rattle.pdb_function_info.specs.NameTexts.{GainsBroken};
ghost use Rattle.pdb_function_info.specs.Function.{function_view};
ghost use Rattle.pdb_addr2line.specs.FunctionIter.{after_function, OnlyGainsBroken};
ghost use Rattle.pdb_addr2line.specs.Lookups.{code_failed_after, failed_after_frames};
ghost use Rattle.pdb_addr2line.specs.NamedFunctions.{named_frame, named_frames, named_frames_answered};
ghost use Rattle.pdb_addr2line.specs.NamedFunctions.{named_function_at, symbol_name_at};

use crate::context::Context;
use pdb_errors::Result;
use pdb_frames::{Frame, FunctionFrames};
use pdb_function_info::{Function, symbol_name};
use pdb_records::ModuleProvider;

impl<'a, P: ModuleProvider> Context<'a, P> {
    /// Like [`find_function`](Context::find_function), but a procedure whose signature can't be printed gets its
    /// symbol's name, as the records have it.
    ///
    /// # Errors
    ///
    /// `OutOfMemory` if memory runs out.
    pub fn find_named_function(&mut self, address: u32) -> Result<Option<Function>>
        ensures answer { MatchResult result
            (λ found. option_map function_view found ≡ named_function_at P.info self.old.inputs address)
            (λ e. e ≡ OutOfMemory) }
        ensures inputs { self.new.inputs ≡ self.old.inputs }
        ensures state { OnOk result (self.new ≡ after_function P.info self.old address) }
        ensures code_failed { self.new.code_failed ≡ self.old.code_failed }
        ensures gains { OnlyGainsBroken P.info self.old self.new }
        ensures broken { GainsBroken P.info self.old.inputs.type_inputs self.old.failed self.new.failed }
    {
        match self.find_function(address)? {
            None => Ok(None),
            Some(mut found) => {
                found.name = self.name_or_symbol(address, found.name)?;
                Ok(Some(found))
            }
        }
    }

    /// Like [`find_frames`](Context::find_frames), but a procedure whose signature can't be printed gets its symbol's
    /// name, as the records have it.
    ///
    /// # Errors
    ///
    /// Those of `find_frames`.
    pub fn find_named_frames(&mut self, address: u32) -> Result<Option<FunctionFrames<'a>>>
        ensures answer { Gives (λ f. f) result (named_frames_answered P.info self.old address) }
        ensures inputs { self.new.inputs ≡ self.old.inputs }
        ensures failed { ButForMemory result
            (self.new.failed ≡ failed_after_frames P.info self.old.inputs address self.old.failed) }
        ensures code_failed { ButForMemory result
            (self.new.code_failed ≡ code_failed_after P.info self.old address) }
        ensures answered { OnOk result (self.new.code_failed ≡ self.old.code_failed) }
        ensures unchanged { IfErr result (λ e. e ≡ OutOfMemory → self.new.code_failed ≡ self.old.code_failed) }
        ensures broken { GainsBroken P.info self.old.inputs.type_inputs self.old.failed self.new.failed }
    {
        match self.find_frames(address)? {
            None => Ok(None),
            Some(found) => {
                let named = self.named_frames(address, found)?;
                Ok(Some(named))
            }
        }
    }

    // These frames. If the containing function has no name, it gets that of the symbol at an address.
    fn named_frames(
        &mut self,
        address: u32,
        found: FunctionFrames<'a>,
    ) -> Result<FunctionFrames<'a>>
        ensures answer { MatchResult result
            (λ named. named ≡ named_frames (symbol_name_at P.info self.old.inputs address) found.entry)
            (λ e. e ≡ OutOfMemory) }
        ensures unchanged { self.new ≡ self.old }
    {
        let FunctionFrames {
            start_rva,
            end_rva,
            mut frames,
        } = found;
        let Some(last) = frames.pop() else {
            return Ok(FunctionFrames {
                start_rva,
                end_rva,
                frames,
            });
        };
        frames.push(self.named_frame(address, last)?)?;
        Ok(FunctionFrames {
            start_rva,
            end_rva,
            frames,
        })
    }

    // A frame. If it has no name, it gets that of the symbol at an address.
    fn named_frame(&mut self, address: u32, frame: Frame<'a>) -> Result<Frame<'a>>
        ensures answer { MatchResult result
            (λ named. named ≡ named_frame (symbol_name_at P.info self.old.inputs address) frame.entry)
            (λ e. e ≡ OutOfMemory) }
        ensures unchanged { self.new ≡ self.old }
    {
        let Frame {
            function,
            file,
            line,
        } = frame;
        Ok(Frame {
            function: self.name_or_symbol(address, function)?,
            file,
            line,
        })
    }

    // A name, or if there is none, that of the symbol at an address.
    fn name_or_symbol(&mut self, address: u32, name: Option<String>) -> Result<Option<String>>
        ensures answer { MatchResult result
            (λ found. option_map string_bytes found
            ≡ option_or (option_map string_bytes name) (symbol_name_at P.info self.old.inputs address))
            (λ e. e ≡ OutOfMemory) }
        ensures unchanged { self.new ≡ self.old }
    {
        match name {
            Some(name) => Ok(Some(name)),
            None => self.symbol_name(address),
        }
    }

    // The name of the symbol of the function at an address.
    fn symbol_name(&mut self, address: u32) -> Result<Option<String>>
        ensures answer { MatchResult result
            (λ found. option_map string_bytes found ≡ symbol_name_at P.info self.old.inputs address)
            (λ e. e ≡ OutOfMemory) }
        ensures unchanged { self.new ≡ self.old }
    {
        match self.found(address)? {
            Some(found) => Ok(symbol_name(self.alloc, found)?),
            None => Ok(None),
        }
    }
}
