//! The words of a run: options from the environment first, and then those of the command line.

use crate::command_line::{Personality, personality_of};
use crate::response_files::{expand_words, push_words};
use crate::run_errors::RunError;
use std::alloc::Global;
use std::env::{self, VarError};
use std::rt::{Env, Files};

/// The words of a run: the program's name, the words in the environment variable for that name, and those of the
/// command line, where each response file is replaced by its words.
pub fn words_of_run<R: Env + Files + AllocGlobal>(
    rt: &R,
    words: &[String],
) -> Result<Vec<String>, RunError> {
    let mut all = Vec::new(rt.alloc());
    let (program, words) = words.split_at_checked(1).unwrap_or((&[], words));
    for name in program {
        all.push(String::from_str(rt.alloc(), name.as_str())?)?;
    }
    push_variable(rt, rt.alloc(), variable_of(program), &mut all)?;
    expand_words(rt, words, &mut all)?;
    Ok(all)
}

// The environment variable that has options for a program of this name.
fn variable_of(program: &[String]) -> &'static str {
    match personality_of(program) {
        Personality::Addr2line => "LLVM_ADDR2LINE_OPTS",
        _ => "LLVM_SYMBOLIZER_OPTS",
    }
}

// Appends the words in an environment variable, if it is set.
fn push_variable<R: Env + Alloc<A = Global>>(
    rt: &R,
    alloc: Global,
    name: &str,
    words: &mut Vec<String>,
) -> Result<(), RunError> {
    match env::var(rt, name) {
        Ok(text) => Ok(push_words(alloc, text.as_str(), words)?),
        Err(VarError::NotPresent) => Ok(()),
        Err(VarError::OutOfMemory) => Err(RunError::want_of_memory()),
        Err(VarError::NotUnicode) => Err(RunError::NoText),
    }
}
