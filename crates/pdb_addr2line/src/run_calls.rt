//! Answers a list of calls in turn.

ghost use Rattle.std.specs.Prelude.{◌≡◌, ◌∷◌, [], IfOk, OnOk, IfErr, OnErr};
ghost use Rattle.pdb_types.specs.FailedParts.{with_met};
ghost use Rattle.pdb_types.specs.TypeSizes.{size_of};
ghost use Rattle.pdb_errors.specs.declared.error.Error.TheVariants.{OutOfMemory};
ghost use Rattle.pdb_type_texts.specs.Printed.{signature_run, id_run};
ghost use Rattle.pdb_addr2line.specs.Calls.{FunctionView, FramesView, FunctionsView, SizeView};
ghost use Rattle.pdb_addr2line.specs.Calls.{TextView, answer_view, printed, with_failed, after_frames};
ghost use Rattle.pdb_addr2line.specs.Calls.{Appends, StopsEarly, answer_to, answers_to, after_call, after_calls};
ghost use Rattle.pdb_addr2line.specs.FunctionIter.{after_function, after_functions, functions_of};
ghost use Rattle.pdb_addr2line.specs.FunctionIter.{start_addresses, OnlyGainsBroken};
ghost use Rattle.pdb_addr2line.specs.Lookups.{function_at, frames_answered};

use crate::calls::{Answer, Call};
use crate::context::Context;
use pdb_errors::Result;
use pdb_records::{IdIndex, ModuleProvider, TypeIndex};

impl<'a, P: ModuleProvider> Context<'a, P> {
    /// Answers calls in turn, and appends an answer for each.
    ///
    /// Each answer equals that of a plain scan of the records, whatever was asked before. The only exception is a part
    /// of the records that failed before: it gives its `Unsuccessful` error.
    ///
    /// # Errors
    ///
    /// `OutOfMemory` if memory runs out. The answers to the calls before that one were then appended, and it can be
    /// repeated.
    pub fn run_calls(&mut self, calls: &[Call<'_>], answers: &mut Vec<Answer<'a>>) -> Result<()>
        // Each answer equals that of a plain scan of the records, except that a part that failed before gives its
        // Unsuccessful error.
        ensures answers { OnOk result
            (Appends answers.old.items answers.new.items (answers_to P.info self.old calls.now)) }
        ensures state { OnOk result (self.new ≡ after_calls P.info self.old calls.now) }
        ensures memory { IfErr result (λ e. e ≡ OutOfMemory) }
        ensures early { OnErr result
            (StopsEarly P.info self.old calls.now answers.old.items answers.new.items self.new) }
    {
        for call in calls {
            self.append_answer(*call, answers)?;
        }
        Ok(())
    }

    // Answers a call, and appends the answer.
    fn append_answer(&mut self, call: Call<'_>, answers: &mut Vec<Answer<'a>>) -> Result<()>
        ensures answers { OnOk result
            (Appends answers.old.items answers.new.items (answer_to P.info self.old call.entry ∷ [])) }
        ensures state { OnOk result (self.new ≡ after_call P.info self.old call.entry) }
        ensures memory { IfErr result (λ e. e ≡ OutOfMemory) }
        ensures unchanged_if_refused { OnErr result (answers.new.items ≡ answers.old.items) }
        ensures gains { OnErr result (OnlyGainsBroken P.info self.old self.new) }
    {
        answers.reserve(1)?;
        let answer = self.answer(call)?;
        match answers.push(answer) {
            Ok(()) => Ok(()),
            Err(_) => unreachable!(),
        }
    }

    // The answer to a call.
    fn answer(&mut self, call: Call<'_>) -> Result<Answer<'a>>
        ensures answer { IfOk result (λ a. answer_view a ≡ answer_to P.info self.old call.entry) }
        ensures state { OnOk result (self.new ≡ after_call P.info self.old call.entry) }
        ensures memory { IfErr result (λ e. e ≡ OutOfMemory) }
        ensures gains { OnErr result (OnlyGainsBroken P.info self.old self.new) }
    {
        match call {
            Call::FindFunction(address) => self.answer_function(address),
            Call::FindFrames(address) => self.answer_frames(address),
            Call::Functions => self.answer_functions(),
            Call::FunctionCount => Ok(Answer::Count(self.function_count())),
            Call::TypeSize(module_index, index) => self.answer_size(module_index, index),
            Call::FormatFunction(name, module_index, index) => {
                self.answer_signature(name, module_index, index)
            }
            Call::FormatId(module_index, index) => self.answer_id(module_index, index),
        }
    }

    // Answers with the function at an address.
    fn answer_function(&mut self, address: u32) -> Result<Answer<'a>>
        ensures answer { IfOk result (λ a. answer_view a
            ≡ FunctionView (function_at P.info self.old.inputs address)) }
        ensures state { OnOk result (self.new ≡ after_function P.info self.old address) }
        ensures memory { IfErr result (λ e. e ≡ OutOfMemory) }
        ensures gains { OnErr result (OnlyGainsBroken P.info self.old self.new) }
    {
        let function = self.find_function(address)?;
        Ok(Answer::Function(function))
    }

    // Answers with the frames at an address, or with their error.
    fn answer_frames(&mut self, address: u32) -> Result<Answer<'a>>
        ensures answer { IfOk result (λ a. answer_view a ≡ FramesView (frames_answered P.info self.old address)) }
        ensures state { OnOk result (self.new ≡ after_frames P.info self.old address) }
        ensures memory { IfErr result (λ e. e ≡ OutOfMemory) }
        ensures gains { OnErr result (OnlyGainsBroken P.info self.old self.new) }
    {
        match self.find_frames(address) {
            Ok(frames) => Ok(Answer::Frames(Ok(frames))),
            Err(error) => Ok(Answer::Frames(Err(error.unless_out_of_memory()?))),
        }
    }

    // Answers with all functions.
    fn answer_functions(&mut self) -> Result<Answer<'a>>
        ensures answer { IfOk result (λ a. answer_view a ≡ FunctionsView (functions_of P.info self.old.inputs)) }
        ensures state { OnOk result (self.new
            ≡ after_functions P.info self.old (start_addresses P.info self.old.inputs)) }
        ensures memory { IfErr result (λ e. e ≡ OutOfMemory) }
        ensures gains { OnErr result (OnlyGainsBroken P.info self.old self.new) }
    {
        let functions = self.all_functions()?;
        Ok(Answer::Functions(functions))
    }

    // Answers with the size of a type.
    fn answer_size(&mut self, module_index: usize, index: TypeIndex) -> Result<Answer<'a>>
        ensures answer { IfOk result (λ a. answer_view a
            ≡ SizeView (size_of P.info self.old.inputs.type_inputs module_index index.0).size) }
        ensures state { OnOk result (self.new ≡ with_failed self.old
            (with_met self.old.failed (size_of P.info self.old.inputs.type_inputs module_index index.0).met)) }
        ensures memory { IfErr result (λ e. e ≡ OutOfMemory) }
        ensures unchanged_if_refused { OnErr result (self.new ≡ self.old) }
    {
        let size = self.names.get_type_size(module_index, index)?;
        Ok(Answer::Size(size))
    }

    // Answers with the signature of a function, or with its error.
    fn answer_signature(
        &mut self,
        name: &str,
        module_index: usize,
        index: TypeIndex,
    ) -> Result<Answer<'a>>
        ensures answer { let type_inputs = self.old.inputs.type_inputs in
            let run = signature_run P.info type_inputs module_index name.now index.0 self.old.failed in
            IfOk result (λ a. answer_view a ≡ TextView (printed run)) }
        ensures state { let type_inputs = self.old.inputs.type_inputs in
            let run = signature_run P.info type_inputs module_index name.now index.0 self.old.failed in
            OnOk result (self.new ≡ with_failed self.old run.failed) }
        ensures memory { IfErr result (λ e. e ≡ OutOfMemory) }
        ensures gains { OnErr result (OnlyGainsBroken P.info self.old self.new) }
    {
        match self.names.format_function(name, module_index, index) {
            Ok(text) => Ok(Answer::Text(Ok(text))),
            Err(error) => Ok(Answer::Text(Err(error.unless_out_of_memory()?))),
        }
    }

    // Answers with the text of an id, or with its error.
    fn answer_id(&mut self, module_index: usize, index: IdIndex) -> Result<Answer<'a>>
        ensures answer { let type_inputs = self.old.inputs.type_inputs in
            let run = id_run P.info type_inputs module_index index.0 self.old.failed in
            IfOk result (λ a. answer_view a ≡ TextView (printed run)) }
        ensures state { let type_inputs = self.old.inputs.type_inputs in
            let run = id_run P.info type_inputs module_index index.0 self.old.failed in
            OnOk result (self.new ≡ with_failed self.old run.failed) }
        ensures memory { IfErr result (λ e. e ≡ OutOfMemory) }
        ensures gains { OnErr result (OnlyGainsBroken P.info self.old self.new) }
    {
        match self.names.format_id(module_index, index) {
            Ok(text) => Ok(Answer::Text(Ok(text))),
            Err(error) => Ok(Answer::Text(Err(error.unless_out_of_memory()?))),
        }
    }
}
