//! Lists of calls to contexts that are made in other ways, and calls that are made one by one.

use crate::lists::{CallList, Looked, are_wanted, calls_of, lists_of, wanted_size};
use crate::parts::{Counting, context_of, context_over};
use crate::tally::Tally;
use crate::texts::print_line;
use pdb_addr2line::pdb::PDB;
use pdb_addr2line::{
    Answer, Call, Context, ContextPdbData, Error, Function, ModuleProvider, TypeFormatter,
    TypeFormatterFlags,
};
use pdb_json::read_records;
use std::alloc::Global;
use std::cell::Cell;
use std::io;

/// Runs the lists over a records file in contexts that are made in each way.
pub(crate) fn over_data<R: Print + AllocGlobal>(
    rt: &R,
    data: &ContextPdbData<'_>,
    file: &[u8],
    part: &str,
    tally: Tally,
) -> io::Result<Tally> {
    let mut tally = tally;
    for list in lists_of(rt.alloc(), part)? {
        tally = tally.asked(list.calls());
        if !is_answered_in_each_way(rt.alloc(), data, file, list) {
            print_line(rt, list.first(), " differs")?;
            tally = tally.differing();
        }
    }
    Ok(tally)
}

/// Whether contexts that are made in each way answer a list as expected.
fn is_answered_in_each_way(
    alloc: Global,
    data: &ContextPdbData<'_>,
    file: &[u8],
    list: CallList<'_>,
) -> bool {
    read_records(alloc, file).is_ok_and(|mut records| {
        is_answered_with_flags(alloc, data, list)
            && is_answered_by_parts(alloc, data, &records, list)
            && is_asked_once(alloc, data, &records, list)
            && is_answered_when_lent(alloc, &mut records, list)
    })
}

/// Whether a context with flags of its own answers a list.
fn is_answered_with_flags(alloc: Global, data: &ContextPdbData<'_>, list: CallList<'_>) -> bool {
    data.make_context_with_formatter_flags(TypeFormatterFlags::NO_ARGUMENTS)
        .is_ok_and(|context| is_answered_by(alloc, context, list))
}

/// Whether a context of parts, over records of its own, answers a list.
fn is_answered_by_parts(
    alloc: Global,
    data: &ContextPdbData<'_>,
    records: &PDB,
    list: CallList<'_>,
) -> bool {
    let Ok(formatter) = data.make_type_formatter() else {
        return false;
    };
    context_of(alloc, data, records, formatter).is_some_and(|context| {
        is_answered_by(alloc, context, list)
    })
}

/// Whether a context over lent records answers a list.
fn is_answered_when_lent(alloc: Global, records: &mut PDB, list: CallList<'_>) -> bool {
    ContextPdbData::try_from_pdb_ref(alloc, records).is_ok_and(|data| {
        is_answered_over(alloc, &data, list)
    })
}

/// Whether the context made from this data answers a list as expected.
fn is_answered_over(alloc: Global, data: &ContextPdbData<'_>, list: CallList<'_>) -> bool {
    data.make_context()
        .is_ok_and(|context| is_answered_by(alloc, context, list))
}

/// Whether a context answers a list as expected, at once and one by one, and finds its functions by their start
/// addresses. Its formatter must then answer the sizes in the list.
fn is_answered_by<P: ModuleProvider>(
    alloc: Global,
    context: Context<'_, P>,
    list: CallList<'_>,
) -> bool {
    let mut context = context;
    let is_answered = is_answered(alloc, &mut context, list)
        && is_answered_one_by_one(alloc, &mut context, list)
        && starts_lead_to_functions(alloc, &mut context);
    let mut formatter = context.into_type_formatter();
    is_answered && answers_sizes(&mut formatter, list)
}

/// Whether a context answers a list at once.
fn is_answered<P: ModuleProvider>(
    alloc: Global,
    context: &mut Context<'_, P>,
    list: CallList<'_>,
) -> bool {
    let Ok(calls) = calls_of(alloc, list) else {
        return false;
    };
    let mut answers = Vec::new(alloc);
    context.run_calls(&calls, &mut answers).is_ok()
        && matches!(are_wanted(alloc, list, &answers, Looked::Answers), Ok(true))
}

/// The functions of a context, one by one.
fn functions_of<P: ModuleProvider>(
    alloc: Global,
    context: &mut Context<'_, P>,
) -> Result<Vec<Function>, Error> {
    let mut found = Vec::new(alloc);
    let mut functions = context.functions()?;
    while let Some(function) = functions.next() {
        found.push(function?)?;
    }
    Ok(found)
}

/// The functions of a context, from one start address to the next.
fn functions_by_starts<P: ModuleProvider>(
    alloc: Global,
    context: &mut Context<'_, P>,
) -> Result<Vec<Function>, Error> {
    let mut found = Vec::new(alloc);
    let mut untried = Some(0);
    for _ in 0..=u32::MAX {
        let Some(address) = untried else {
            break;
        };
        let Some(start) = context.next_start_address(address)? else {
            break;
        };
        if let Some(function) = context.find_function(start)? {
            found.push(function)?;
        }
        untried = start.checked_add(1);
    }
    Ok(found)
}

/// Whether functions are the same, one by one.
fn are_equal(functions: &[Function], others: &[Function]) -> bool {
    functions.len() == others.len()
        && functions.iter().zip(others).all(|(function, other)| {
            function.start_rva == other.start_rva
                && function.end_rva == other.end_rva
                && function.name == other.name
        })
}

/// Whether a context has the same functions by their start addresses.
fn starts_lead_to_functions<P: ModuleProvider>(
    alloc: Global,
    context: &mut Context<'_, P>,
) -> bool {
    match (
        functions_of(alloc, context),
        functions_by_starts(alloc, context),
    ) {
        (Ok(functions), Ok(found)) => are_equal(&functions, &found),
        _ => false,
    }
}

/// Makes a call by its own method of the context, and appends the answer.
fn ask<'d, P: ModuleProvider>(
    alloc: Global,
    context: &mut Context<'d, P>,
    call: Call<'_>,
    answers: &mut Vec<Answer<'d>>,
) -> Result<(), Error> {
    let answer = match call {
        Call::FindFunction(address) => Answer::Function(context.find_function(address)?),
        Call::FindFrames(address) => Answer::Frames(Ok(context.find_frames(address)?)),
        Call::Functions => Answer::Functions(functions_of(alloc, context)?),
        Call::FunctionCount => Answer::Count(context.function_count()),
        other => return context.run_calls(&[other], answers),
    };
    answers.push(answer)?;
    Ok(())
}

/// Makes the calls to a context one by one, and appends the answers.
fn ask_all<'d, P: ModuleProvider>(
    alloc: Global,
    context: &mut Context<'d, P>,
    calls: &[Call<'_>],
    answers: &mut Vec<Answer<'d>>,
) -> Result<(), Error> {
    for call in calls {
        ask(alloc, context, *call, answers)?;
    }
    Ok(())
}

/// Whether a context answers a list one by one. The answers, and clones of them, are compared after all calls.
fn is_answered_one_by_one<P: ModuleProvider>(
    alloc: Global,
    context: &mut Context<'_, P>,
    list: CallList<'_>,
) -> bool {
    let Ok(calls) = calls_of(alloc, list) else {
        return false;
    };
    let mut answers = Vec::new(alloc);
    ask_all(alloc, context, &calls, &mut answers).is_ok()
        && matches!(are_wanted(alloc, list, &answers, Looked::Answers), Ok(true))
        && matches!(are_wanted(alloc, list, &answers, Looked::Clones), Ok(true))
}

/// Whether a formatter answers the sizes in a list.
fn answers_sizes<P: ModuleProvider>(
    formatter: &mut TypeFormatter<'_, P>,
    list: CallList<'_>,
) -> bool {
    for line in list.lines().lines() {
        if let Some(wanted) = wanted_size(line) {
            let size = formatter.get_type_size(wanted.module, wanted.index);
            if size.ok() != Some(wanted.size) {
                return false;
            }
        }
    }
    true
}

/// Whether a context from parts answers a list twice and calls its counting provider only the first time, and once more
/// after its caches are cleared.
fn is_asked_once(
    alloc: Global,
    data: &ContextPdbData<'_>,
    records: &PDB,
    list: CallList<'_>,
) -> bool {
    let counting = Counting {
        provider: data,
        asked: Cell::new(0),
    };
    context_over(alloc, &counting, records).is_some_and(|mut context| {
        asks_once(alloc, &mut context, &counting.asked, list)
    })
}

/// Whether a context answers a list twice and calls its provider only the first time, and once more after its caches
/// are cleared.
fn asks_once<P: ModuleProvider>(
    alloc: Global,
    context: &mut Context<'_, P>,
    asked: &Cell<u32>,
    list: CallList<'_>,
) -> bool {
    let is_answered_first = is_answered(alloc, context, list);
    let first = asked.get();
    let is_answered_again = is_answered(alloc, context, list);
    let again = asked.get();
    context.clear_caches();
    let is_answered_anew = is_answered(alloc, context, list);
    let all = is_answered_first && is_answered_again && is_answered_anew;
    all && first > 0 && again == first && asked.get() > first
}
