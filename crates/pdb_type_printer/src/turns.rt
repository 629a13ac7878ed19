//! The loop of printing. Each turn prints a task, or replaces it by the tasks of which it consists.

ghost use Rattle.std.specs.Prelude.{◌≡◌, None, Ok, OnOk, reverse};
ghost use Rattle.pdb_types.specs.FailedParts.{Parts};
ghost use Rattle.pdb_type_texts.specs.Plans.{Index, OfType, Chain, BehindModifier, Modified, Later};
ghost use Rattle.pdb_type_texts.specs.Progress.{open_in, task_plan, stage_run};
ghost use Rattle.pdb_type_texts.specs.PrintInputs.{PrintInputs, formatter_inputs};
ghost use Rattle.pdb_type_printer.specs.Formatters.{IsLater};
ghost use Rattle.pdb_type_printer.specs.PendingPlans.{Advances, Ends, plans};

use crate::function_parts::{function_arguments, further_types, returned, types_between};
use crate::id_names::scope;
use crate::pointers::{behind_modifier, behind_pointer};
use crate::type_formatter::TypeFormatter;
use crate::type_rules::{by_kind, modified};
use pdb_records::{ModifierType, ModuleProvider, TypeData, TypeIndex};
use pdb_type_texts::attributes::Attribute;
use pdb_type_texts::progress::{Next, Progress};
use pdb_type_texts::tasks::Task;
use pdb_types::TypeFormatterFlags;
use std::alloc::AllocError;

// Prints the type of an index. The index is open while it is printed.
fn index_read<'s>(
    progress: &mut Progress<'s>,
    index: TypeIndex,
    type_data: &'s TypeData,
) -> Result<(), AllocError>
    requires no_failure { progress.old.failure ≡ None }
    ensures { OnOk result ((w : PrintInputs) → w.read index.0 ≡ Ok type_data.now → (failed : Parts)
        → Advances w (Later (open_in progress.old.steps) (Index index.0)) 1
        progress.old failed progress.new failed) }
{
    if !progress.open(index.0)? {
        return Ok(());
    }
    progress.push(Task::OfType(type_data))
}

// Prints a type by its kind, and a note if a type in it is missing.
pub(crate) fn of_type<'s>(
    progress: &mut Progress<'s>,
    flags: TypeFormatterFlags,
    type_data: &'s TypeData,
) -> Result<(), AllocError>
    requires no_failure { progress.old.failure ≡ None }
    ensures { OnOk result ((w : PrintInputs) → w.flags ≡ flags → (failed : Parts)
        → Advances w (Later (open_in progress.old.steps) (OfType type_data.now)) 1
        progress.old failed progress.new failed) }
{
    progress.catch()?;
    by_kind(progress, flags, type_data)
}

impl<'a, P: ModuleProvider> TypeFormatter<'a, P> {
    // Reads and prints the type of an index.
    pub(crate) fn index<'s>(
        &mut self,
        module_index: usize,
        progress: &mut Progress<'s>,
        index: TypeIndex,
    ) -> Result<(), AllocError>
    where
        'a: 's,
        requires no_failure { progress.old.failure ≡ None }
        ensures monotone { IsLater P.info module_index self.old self.new }
        ensures advances { OnOk result
            (Advances (formatter_inputs P.info self.old.type_inputs module_index)
            (Later (open_in progress.old.steps) (Index index.0)) 1
            progress.old self.old.failed progress.new self.new.failed) }
    {
        match self.printed_type(module_index, index) {
            Ok(type_data) => index_read(progress, index, type_data),
            Err(read_error) => self.note(progress, read_error),
        }
    }

    // Continues a chain of pointers with the type of an index.
    pub(crate) fn chain<'s>(
        &mut self,
        module_index: usize,
        progress: &mut Progress<'s>,
        attributes: Vec<Attribute>,
        target: TypeIndex,
    ) -> Result<(), AllocError>
    where
        'a: 's,
        requires no_failure { progress.old.failure ≡ None }
        ensures monotone { IsLater P.info module_index self.old self.new }
        ensures advances { OnOk result
            (Advances (formatter_inputs P.info self.old.type_inputs module_index)
            (Later (open_in progress.old.steps) (Chain (reverse attributes.items) target.0)) 1
            progress.old self.old.failed progress.new self.new.failed) }
    {
        match self.enter(module_index, progress, target)? {
            None => Ok(()),
            Some(type_data) => behind_pointer(progress, attributes, type_data),
        }
    }

    // Continues a chain of pointers, after a modifier, with the type of an index.
    pub(crate) fn chain_behind_modifier<'s>(
        &mut self,
        module_index: usize,
        progress: &mut Progress<'s>,
        attributes: Vec<Attribute>,
        target: TypeIndex,
    ) -> Result<(), AllocError>
    where
        'a: 's,
        requires no_failure { progress.old.failure ≡ None }
        ensures monotone { IsLater P.info module_index self.old self.new }
        ensures advances { OnOk result
            (Advances (formatter_inputs P.info self.old.type_inputs module_index)
            (Later (open_in progress.old.steps) (BehindModifier (reverse attributes.items) target.0)) 1
            progress.old self.old.failed progress.new self.new.failed) }
    {
        match self.enter(module_index, progress, target)? {
            None => Ok(()),
            Some(type_data) => behind_modifier(progress, attributes, type_data),
        }
    }

    // Prints the target of a modifier.
    pub(crate) fn modifier<'s>(
        &mut self,
        module_index: usize,
        progress: &mut Progress<'s>,
        m: &ModifierType,
    ) -> Result<(), AllocError>
    where
        'a: 's,
        requires no_failure { progress.old.failure ≡ None }
        ensures monotone { IsLater P.info module_index self.old self.new }
        ensures advances { OnOk result
            (Advances (formatter_inputs P.info self.old.type_inputs module_index)
            (Later (open_in progress.old.steps) (Modified m.now.constant m.now.underlying_type.0)) 1
            progress.old self.old.failed progress.new self.new.failed) }
    {
        match self.enter(module_index, progress, m.underlying_type)? {
            None => Ok(()),
            Some(type_data) => modified(progress, m.constant, type_data),
        }
    }

    // One turn of the loop: prints a task, or replaces it by the tasks of which it consists.
    fn turn<'s>(
        &mut self,
        module_index: usize,
        progress: &mut Progress<'s>,
        task: Task<'s>,
    ) -> Result<(), AllocError>
    where
        'a: 's,
        requires no_failure { progress.old.failure ≡ None }
        ensures monotone { IsLater P.info module_index self.old self.new }
        ensures advances { OnOk result
            (let w = formatter_inputs P.info self.old.type_inputs module_index in
            Advances w (task_plan w (open_in progress.old.steps) task.entry) 1
            progress.old self.old.failed progress.new self.new.failed) }
    {
        match task {
            Task::Written(wording) => progress.write(self.flags(), &wording),
            Task::Index(index) => self.index(module_index, progress, index),
            Task::OfType(type_data) => of_type(progress, self.flags(), type_data),
            Task::Returned(index) => returned(progress, index),
            Task::Types(separator, this, list) => types_between(progress, separator, this, list),
            Task::FurtherTypes(separator, list) => further_types(progress, separator, list),
            Task::FunctionArguments(list) => function_arguments(progress, self.flags(), list),
            Task::MethodArguments(m, form) => self.method_arguments(
                module_index,
                progress,
                m,
                form,
            ),
            Task::Chain(attributes, target) => self.chain(
                module_index,
                progress,
                attributes,
                target,
            ),
            Task::BehindModifier(attributes, target) => self.chain_behind_modifier(
                module_index,
                progress,
                attributes,
                target,
            ),
            Task::Modified(m) => self.modifier(module_index, progress, m),
            Task::Elements(elements, levels, next) => self.elements(
                module_index,
                progress,
                elements,
                levels,
                next,
            ),
            Task::Id(met, index) => self.id(module_index, progress, met, index),
            Task::Scope(met, index) => scope(progress, met, index),
        }
    }

    // Prints until no task is left.
    pub(crate) fn print<'s>(
        &mut self,
        module_index: usize,
        progress: &mut Progress<'s>,
    ) -> Result<(), AllocError>
    where
        'a: 's,
        ensures monotone { IsLater P.info module_index self.old self.new }
        ensures ends { OnOk result
            (let w = formatter_inputs P.info self.old.type_inputs module_index in
            Ends w (plans w progress.old.steps) (stage_run progress.old self.old.failed)
            (stage_run progress.new self.new.failed)) }
    {
        'turns: loop {
            match progress.next(self.flags())? {
                Next::Finished => return Ok(()),
                Next::Ended => {}
                Next::Print(task) => self.turn(module_index, progress, task)?,
            }
        }
    }
}
