//! Lists of calls, and their expected answers.

use crate::call_answers::{text_of_answer, text_of_clone};
use crate::texts::{around, hexadecimal, module_index};
use pdb_addr2line::pdb::{IdIndex, TypeIndex};
use pdb_addr2line::{Answer, Call, Context, ContextPdbData};
use std::alloc::{AllocError, Global};

/// The lines of a list of calls.
#[derive(Clone, Copy)]
pub(crate) struct CallList<'t> {
    lines: &'t str,
}

impl<'t> CallList<'t> {
    /// How many calls it has.
    pub(crate) fn calls(self) -> u64 {
        let mut calls: u64 = 0;
        for _ in self.lines.lines() {
            calls = calls.saturating_add(1);
        }
        calls
    }

    /// Its lines.
    pub(crate) fn lines(self) -> &'t str {
        self.lines
    }

    /// Its first line.
    pub(crate) fn first(self) -> &'t str {
        self.lines.lines().next().unwrap_or("")
    }
}

/// The lists of calls in the lines for one file.
pub(crate) fn lists_of(alloc: Global, part: &str) -> Result<Vec<CallList<'_>>, AllocError> {
    let mut lists = Vec::new(alloc);
    let Some((_, text)) = around(part, "\n") else {
        return Ok(lists);
    };
    for lines in text.split("\n\n") {
        if around(lines, " | ").is_some() {
            lists.push(CallList { lines })?;
        }
    }
    Ok(lists)
}

/// The call `size MODULE INDEX`, without its first word.
fn size_call(text: &str) -> Option<Call<'_>> {
    let (module, index) = module_index(text)?;
    Some(Call::TypeSize(module, TypeIndex(hexadecimal(index)?)))
}

/// The call `signature MODULE INDEX NAME`, without its first word.
fn signature_call(text: &str) -> Option<Call<'_>> {
    let (module, rest) = module_index(text)?;
    let (index, name) = around(rest, " ")?;
    Some(Call::FormatFunction(name, module, TypeIndex(hexadecimal(index)?)))
}

/// The call `id MODULE INDEX`, without its first word.
fn id_call(text: &str) -> Option<Call<'_>> {
    let (module, index) = module_index(text)?;
    Some(Call::FormatId(module, IdIndex(hexadecimal(index)?)))
}

/// The call in a text, if it is one.
fn call_of(text: &str) -> Option<Call<'_>> {
    let (word, rest) = around(text, " ").unwrap_or((text, ""));
    match word {
        "function" => Some(Call::FindFunction(hexadecimal(rest)?)),
        "frames" => Some(Call::FindFrames(hexadecimal(rest)?)),
        "functions" => Some(Call::Functions),
        "count" => Some(Call::FunctionCount),
        "size" => size_call(rest),
        "signature" => signature_call(rest),
        "id" => id_call(rest),
        _ => None,
    }
}

/// The call in a line, and its expected answer.
fn parts(line: &str) -> (&str, &str) {
    around(line, " | ").unwrap_or((line, ""))
}

/// A size question: the module index of the module that has the index, the index, and the expected size.
#[derive(Clone, Copy)]
pub(crate) struct WantedSize {
    pub(crate) module: usize,
    pub(crate) index: TypeIndex,
    pub(crate) size: u64,
}

/// The size question in a line, if it is one.
pub(crate) fn wanted_size(line: &str) -> Option<WantedSize> {
    let (text, wanted) = parts(line);
    let Call::TypeSize(module, index) = call_of(text)? else {
        return None;
    };
    let size = wanted.parse::<u64>().ok()?;
    Some(WantedSize {
        module,
        index,
        size,
    })
}

/// The calls of a list, as far as its lines are calls.
pub(crate) fn calls_of(alloc: Global, list: CallList<'_>) -> Result<Vec<Call<'_>>, AllocError> {
    let mut calls = Vec::new(alloc);
    for line in list.lines.lines() {
        if let Some(call) = call_of(parts(line).0) {
            calls.push(call)?;
        }
    }
    Ok(calls)
}

/// How often a call is repeated after an allocation failure.
const ATTEMPTS: usize = 3;

/// The outcome of a list of calls.
#[derive(Clone, Copy)]
pub(crate) struct Outcome {
    /// Whether the answers differ from the expected ones.
    pub(crate) differs: bool,
    /// Whether an allocation failed in a call, which was then repeated.
    pub(crate) made_again: bool,
}

impl Outcome {
    /// The outcome if allocations failed in each attempt.
    const NO_ANSWERS: Outcome = Outcome {
        differs: true,
        made_again: true,
    };
}

/// Runs a list of calls, and returns its outcome.
pub(crate) fn outcome_of(
    alloc: Global,
    data: &ContextPdbData<'_>,
    list: CallList<'_>,
) -> Result<Outcome, AllocError> {
    let calls = calls_of(alloc, list)?;
    match data.make_context() {
        Ok(context) => outcome_over(alloc, context, list, &calls, false),
        Err(_) => match data.make_context() {
            Ok(context) => outcome_over(alloc, context, list, &calls, true),
            Err(_) => Ok(Outcome::NO_ANSWERS),
        },
    }
}

/// Runs these calls in a new context, and tells whether the context had to be made again.
fn outcome_over(
    alloc: Global,
    context: Context<'_, ContextPdbData<'_>>,
    list: CallList<'_>,
    calls: &[Call<'_>],
    made_again: bool,
) -> Result<Outcome, AllocError> {
    let mut context = context;
    let mut answers = Vec::new(alloc);
    let refusals = refusals_of(&mut context, calls, &mut answers);
    Ok(Outcome {
        differs: !are_wanted(alloc, list, &answers, Looked::Answers)?,
        made_again: made_again || refusals > 0,
    })
}

/// Makes calls to a context, and returns how often an allocation failed. After a failure, the call is repeated, and
/// then the calls after it are made.
fn refusals_of<'d>(
    context: &mut Context<'d, ContextPdbData<'_>>,
    calls: &[Call<'_>],
    answers: &mut Vec<Answer<'d>>,
) -> usize {
    for refusals in 0..ATTEMPTS {
        let left = calls.get(answers.len()..).unwrap_or(&[]);
        if context.run_calls(left, answers).is_ok() {
            return refusals;
        }
    }
    ATTEMPTS
}

/// Whether texts are the expected ones, one for each line.
fn are_texts(list: CallList<'_>, texts: &[String]) -> bool {
    let mut left = texts;
    for line in list.lines.lines() {
        match left {
            [first, others @ ..] if first.as_str() == parts(line).1 => left = others,
            _ => return false,
        }
    }
    left.is_empty()
}

/// Which texts of answers are compared.
#[derive(Clone, Copy)]
pub(crate) enum Looked {
    Answers,
    Clones,
}

/// Whether answers, or clones of them, are the expected ones, one for each line.
pub(crate) fn are_wanted(
    alloc: Global,
    list: CallList<'_>,
    answers: &[Answer<'_>],
    looked: Looked,
) -> Result<bool, AllocError> {
    let mut texts = Vec::new(alloc);
    for answer in answers {
        texts.push(match looked {
            Looked::Answers => text_of_answer(alloc, answer)?,
            Looked::Clones => text_of_clone(alloc, answer)?,
        })?;
    }
    Ok(are_texts(list, &texts))
}
