//! Parts of contexts that no list of calls tests.

use pdb_addr2line::parts::{
    BasicModuleInfo, InlineRange, ProcedureSymbolFunction, compute_procedure_inline_ranges,
};
use pdb_addr2line::pdb::{FileIndex, IdIndex, Module, ModuleInfo, RawString, TypeIndex};
use pdb_addr2line::{Context, ContextPdbData, ModuleProvider, Result, TypeFormatterFlags};
use std::alloc::Global;
use std::collections::BTreeSet;

/// Whether a named part works as it should over the records: `starts`, the number of function starts that are tried;
/// `ranges`, the inline ranges of a procedure; `procedures`, the records of modules and the procedures in them;
/// `formatter`, one with flags of its own over a program with no module.
pub(crate) fn is_as_it_should(alloc: Global, data: &ContextPdbData<'_>, name: &str) -> bool {
    match name {
        "starts" => has_three_starts(data),
        "ranges" => has_ranges(alloc, data),
        "procedures" => has_one_module(alloc, data),
        "formatter" => has_size(data),
        _ => false,
    }
}

/// Whether the expected number of function starts is left after those up to the last function were tried.
fn are_tried(context: &mut Context<'_, ContextPdbData<'_>>) -> bool {
    let Ok(mut functions) = context.functions() else {
        return false;
    };
    let before = functions.remaining();
    while let Some(_) = functions.next() {}
    before == 3 && functions.remaining() == 0
}

/// Whether a context tries three function starts. One of them is the end of the section, where no function is.
fn has_three_starts(data: &ContextPdbData<'_>) -> bool {
    data.make_context()
        .is_ok_and(|mut context| are_tried(&mut context))
}

/// The range that is added for the outer site: it has no row of its own, so the range has no file and no line.
static OUTER: InlineRange = InlineRange {
    start_offset: 32,
    end_offset: 48,
    call_depth: 0,
    inlinee: IdIndex(4097),
    file_index: None,
    line_start: None,
};

/// The row of the inner site.
static INNER: InlineRange = InlineRange {
    start_offset: 32,
    end_offset: 48,
    call_depth: 1,
    inlinee: IdIndex(4098),
    file_index: Some(FileIndex(0)),
    line_start: Some(7),
};

/// Whether two ranges have the same code and come from the same row.
fn are_alike(range: &InlineRange, other: &InlineRange) -> bool {
    range.start_offset == other.start_offset
        && range.end_offset == other.end_offset
        && range.call_depth == other.call_depth
        && range.inlinee == other.inlinee
        && range.file_index == other.file_index
        && range.line_start == other.line_start
}

/// The ids that are inlined in the module.
fn inlinees(alloc: Global) -> Result<BTreeSet<IdIndex>> {
    let mut inlinees = BTreeSet::new(alloc);
    for id in [IdIndex(4097), IdIndex(4098)] {
        inlinees.insert(id)?;
    }
    Ok(inlinees)
}

/// The ranges of a procedure.
fn ranges_of(
    alloc: Global,
    info: &ModuleInfo,
    procedure: &ProcedureSymbolFunction<'_>,
) -> Result<Vec<InlineRange>> {
    let inlinees = inlinees(alloc)?;
    compute_procedure_inline_ranges(alloc, info, procedure, &inlinees)
}

/// Whether a procedure has the two ranges, the outer one first.
fn has_both(alloc: Global, info: &ModuleInfo, procedure: &ProcedureSymbolFunction<'_>) -> bool {
    ranges_of(alloc, info, procedure).is_ok_and(|ranges| match ranges.as_slice() {
        [outer, inner] => are_alike(outer, &OUTER) && are_alike(inner, &INNER),
        _ => false,
    })
}

/// Whether a module's one procedure has the two ranges.
fn has_procedure_with_both(alloc: Global, info: &ModuleInfo) -> bool {
    BasicModuleInfo::try_from_module_info(alloc, info).is_ok_and(|basic| match basic.procedures() {
        [procedure] => has_both(alloc, info, procedure),
        _ => false,
    })
}

/// A module without a name.
fn unnamed(alloc: Global) -> Module {
    Module {
        name: RawString(Vec::new(alloc)),
    }
}

/// Whether the first module of a program has them.
fn has_ranges(alloc: Global, data: &ContextPdbData<'_>) -> bool {
    match data.get_module_info(0, &unnamed(alloc)) {
        Ok(Some(info)) => has_procedure_with_both(alloc, info),
        _ => false,
    }
}

/// Whether the records of a module have one procedure.
fn has_one_procedure(alloc: Global, info: &ModuleInfo) -> bool {
    BasicModuleInfo::try_from_module_info(alloc, info).is_ok_and(|basic| {
        basic.procedures().len() == 1 && basic.module_info().symbols.items.len() == 1
    })
}

/// Whether a program has the records of one module, which has one procedure.
fn has_one_module(alloc: Global, data: &ContextPdbData<'_>) -> bool {
    let module = unnamed(alloc);
    match (
        data.get_module_info(0, &module),
        data.get_module_info(1, &module),
    ) {
        (Ok(Some(info)), Ok(None)) => has_one_procedure(alloc, info),
        _ => false,
    }
}

/// Whether a formatter with flags of its own answers the size of a type, and has no modules.
fn has_size(data: &ContextPdbData<'_>) -> bool {
    data.make_type_formatter_with_flags(TypeFormatterFlags::NO_ARGUMENTS)
        .is_ok_and(|mut formatter| {
            formatter.get_type_size(0, TypeIndex(4096)).ok() == Some(10)
                && formatter.modules().is_empty()
        })
}
