//! Prints return types of functions, and lists of types such as their arguments.

ghost use Rattle.std.specs.Prelude.{◌≡◌, ◌||◌, OnOk};
ghost use Rattle.pdb_type_texts.specs.FlagTests.{without_return_type};
ghost use Rattle.pdb_type_texts.specs.Functions.{unless_left_out, returned, further_types};
ghost use Rattle.pdb_type_texts.specs.Functions.{types_between, function_arguments};
ghost use Rattle.pdb_type_texts.specs.Methods.{arguments_behind};
ghost use Rattle.pdb_type_texts.specs.Progress.{open_in};
ghost use Rattle.pdb_type_texts.specs.PrintInputs.{PrintInputs};
ghost use Rattle.pdb_type_printer.specs.PendingPlans.{Stands};

use pdb_records::TypeIndex;
use pdb_type_texts::flag_tests::{without_arguments, without_return_type};
use pdb_type_texts::progress::Progress;
use pdb_type_texts::tasks::Task;
use pdb_type_texts::wording::Wording;
use pdb_types::TypeFormatterFlags;
use std::alloc::AllocError;

// Whether the return type of a function is omitted, if the function is printed by itself.
pub(crate) fn is_left_out(flags: TypeFormatterFlags, constructor: bool) -> bool
    ensures { result ≡ (constructor || without_return_type flags) }
{
    constructor || without_return_type(flags)
}

// The return type of a function, unless it is omitted.
pub(crate) fn unless_left_out(left_out: bool, index: Option<TypeIndex>) -> Option<TypeIndex>
    ensures { result ≡ unless_left_out left_out index }
{
    if left_out { None } else { index }
}

// Prints the return type of a function and a space, if there is one to print.
pub(crate) fn returned(
    progress: &mut Progress<'_>,
    index: Option<TypeIndex>,
) -> Result<(), AllocError>
    ensures { OnOk result ((w : PrintInputs) → Stands w 1 (returned (open_in progress.old.steps) index)
        progress.old progress.new) }
{
    let Some(index) = index else {
        return Ok(());
    };
    progress.push2(Task::Index(index), Task::Written(Wording::Text(" ")))
}

// Prints further types, each after a separator.
pub(crate) fn further_types<'s>(
    progress: &mut Progress<'s>,
    separator: &'static str,
    list: &'s [TypeIndex],
) -> Result<(), AllocError>
    ensures { OnOk result ((w : PrintInputs)
        → Stands w 1 (further_types separator.now (open_in progress.old.steps) list.now) progress.old progress.new) }
{
    let Some((next, rest)) = list.split_first() else {
        return Ok(());
    };
    progress.push3(
        Task::Written(Wording::Text(separator)),
        Task::Index(*next),
        Task::FurtherTypes(separator, rest),
    )
}

// Prints types with a separator between them; `this` comes first if it is one of them.
pub(crate) fn types_between<'s>(
    progress: &mut Progress<'s>,
    separator: &'static str,
    this: Option<TypeIndex>,
    list: &'s [TypeIndex],
) -> Result<(), AllocError>
    ensures { OnOk result ((w : PrintInputs)
        → Stands w 1 (types_between separator.now (open_in progress.old.steps) (arguments_behind this list.now))
        progress.old progress.new) }
{
    if let Some(this) = this {
        return progress.push2(Task::Index(this), Task::FurtherTypes(separator, list));
    }
    let Some((next, rest)) = list.split_first() else {
        return Ok(());
    };
    progress.push2(Task::Index(*next), Task::FurtherTypes(separator, rest))
}

// Prints a function's arguments in parentheses, unless the flags omit them.
pub(crate) fn function_arguments(
    progress: &mut Progress<'_>,
    flags: TypeFormatterFlags,
    list: TypeIndex,
) -> Result<(), AllocError>
    ensures { OnOk result ((w : PrintInputs) → w.flags ≡ flags
        → Stands w 1 (function_arguments w (open_in progress.old.steps) list) progress.old progress.new) }
{
    if without_arguments(flags) {
        return Ok(());
    }
    progress.push3(
        Task::Written(Wording::Text("(")),
        Task::Index(list),
        Task::Written(Wording::Text(")")),
    )
}
