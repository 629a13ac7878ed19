//! Prints ids: member functions, other functions with their scopes, namespaces, and strings in pieces.

ghost use Rattle.std.specs.Prelude.{◌≡◌, [], None, OnOk, IfOk, string_bytes};
ghost use Rattle.pdb_records.specs.declared.ids.IdData.TheVariants as kind;
ghost use Rattle.pdb_records.specs.declared.types.TypeData.TheVariants.{MemberFunction, Procedure};
ghost use Rattle.pdb_types.specs.FailedParts.{Parts};
ghost use Rattle.pdb_type_texts.specs.Ids.{scope, method_id, function_id, id_by_kind};
ghost use Rattle.pdb_type_texts.specs.Plans.{Id, Later};
ghost use Rattle.pdb_type_texts.specs.Printed.{id_run};
ghost use Rattle.pdb_type_texts.specs.Progress.{failure_in, open_in};
ghost use Rattle.pdb_type_texts.specs.PrintInputs.{PrintInputs, formatter_inputs};
ghost use Rattle.pdb_type_printer.specs.Formatters.{IsLater};
ghost use Rattle.pdb_type_printer.specs.PendingPlans.{Advances, AdvancesClosing, Stands};

use crate::function_parts::{is_left_out, unless_left_out};
use crate::type_formatter::TypeFormatter;
use pdb_errors::Error;
use pdb_records::{
    FunctionId, IdData, IdIndex, MemberFunctionId, MemberFunctionType, ModuleProvider,
    ProcedureType, TypeData, TypeIndex,
};
use pdb_type_texts::print_error::PrintError;
use pdb_type_texts::printed_texts::Printed;
use pdb_type_texts::progress::Progress;
use pdb_type_texts::tasks::{MethodForm, Task};
use pdb_type_texts::wording::{Wording, static_word};
use pdb_types::TypeFormatterFlags;
use std::alloc::AllocError;
use std::collections::BTreeSet;

// Prints the scope of an id and `::`, if it has a scope.
pub(crate) fn scope(
    progress: &mut Progress<'_>,
    met: BTreeSet<u32>,
    index: Option<IdIndex>,
) -> Result<(), AllocError>
    ensures { OnOk result ((w : PrintInputs) → Stands w 1 (scope met.keys (open_in progress.old.steps) index)
        progress.old progress.new) }
{
    let Some(index) = index else {
        return Ok(());
    };
    progress.push2(Task::Id(met, index), Task::Written(Wording::Text("::")))
}

// Prints a member function: its return type, the class, its name and its arguments.
fn method<'s>(
    progress: &mut Progress<'s>,
    flags: TypeFormatterFlags,
    method: &'s MemberFunctionId,
    m: &'s MemberFunctionType,
) -> Result<(), AllocError>
    ensures { OnOk result ((w : PrintInputs) → w.flags ≡ flags
        → Stands w 0 (method_id w method.now (open_in progress.old.steps) (MemberFunction m.now))
        progress.old progress.new) }
{
    let return_type = unless_left_out(is_left_out(flags, m.is_constructor), Some(m.return_type));
    progress.push6(
        Task::Written(Wording::Text(static_word(flags, m.this_pointer_type))),
        Task::Returned(return_type),
        Task::Index(method.parent),
        Task::Written(Wording::Text("::")),
        Task::Written(Wording::FunctionName(&method.name)),
        Task::MethodArguments(m, MethodForm::Signature),
    )
}

// Prints a function that isn't a member: its return type, its scope, its name and its arguments.
fn function<'s>(
    progress: &mut Progress<'s>,
    flags: TypeFormatterFlags,
    met: BTreeSet<u32>,
    function: &'s FunctionId,
    p: &'s ProcedureType,
) -> Result<(), AllocError>
    ensures { OnOk result ((w : PrintInputs) → w.flags ≡ flags
        → Stands w 0 (function_id w met.keys function.now (open_in progress.old.steps) (Procedure p.now))
        progress.old progress.new) }
{
    let return_type = unless_left_out(is_left_out(flags, p.is_constructor), p.return_type);
    progress.push4(
        Task::Returned(return_type),
        Task::Scope(met, function.scope),
        Task::Written(Wording::FunctionName(&function.name)),
        Task::FunctionArguments(p.argument_list),
    )
}

// A function of a class, whose type was read: it has to be a method's.
fn method_by_type<'s>(
    progress: &mut Progress<'s>,
    flags: TypeFormatterFlags,
    id: &'s MemberFunctionId,
    type_data: &'s TypeData,
) -> Result<(), AllocError>
    requires no_failure { progress.old.failure ≡ None }
    ensures { OnOk result ((w : PrintInputs) → w.flags ≡ flags → (failed : Parts)
        → Advances w (method_id w id.now (open_in progress.old.steps) type_data.now) 0
        progress.old failed progress.new failed) }
{
    match type_data {
        TypeData::MemberFunction(m) => method(progress, flags, id, m),
        _ => {
            progress.fail(PrintError::OfError(Error::MemberFunctionIdIsNotMemberFunctionType));
            Ok(())
        }
    }
}

// A function that isn't a member, after its type was read: this must be a procedure type.
fn function_by_type<'s>(
    progress: &mut Progress<'s>,
    flags: TypeFormatterFlags,
    met: BTreeSet<u32>,
    id: &'s FunctionId,
    type_data: &'s TypeData,
) -> Result<(), AllocError>
    requires no_failure { progress.old.failure ≡ None }
    ensures { OnOk result ((w : PrintInputs) → w.flags ≡ flags → (failed : Parts)
        → Advances w (function_id w met.keys id.now (open_in progress.old.steps) type_data.now) 0
        progress.old failed progress.new failed) }
{
    match type_data {
        TypeData::Procedure(p) => function(progress, flags, met, id, p),
        _ => {
            progress.fail(PrintError::OfError(Error::FunctionIdIsNotProcedureType));
            Ok(())
        }
    }
}

// Prints a string in pieces, each in quotation marks.
fn string_list<'s>(
    progress: &mut Progress<'s>,
    substrings: &'s [TypeIndex],
) -> Result<(), AllocError>
    ensures { OnOk result ((w : PrintInputs) → (failed : Parts)
        → AdvancesClosing w (id_by_kind w [] (kind.StringList substrings.now))
        progress.old failed progress.new failed) }
{
    progress.open_alone(None)?;
    progress.push3(
        Task::Written(Wording::Text("\"")),
        Task::Types("\" \"", None, substrings),
        Task::Written(Wording::Text("\"")),
    )
}

impl<'a, P: ModuleProvider> TypeFormatter<'a, P> {
    // Prints a member function. Its type is read, and only that type is open inside it.
    fn method_id<'s>(
        &mut self,
        module_index: usize,
        progress: &mut Progress<'s>,
        id: &'s MemberFunctionId,
    ) -> Result<(), AllocError>
    where
        'a: 's,
        requires no_failure { progress.old.failure ≡ None }
        ensures monotone { IsLater P.info module_index self.old self.new }
        ensures advances { OnOk result
            (let w = formatter_inputs P.info self.old.type_inputs module_index in
            AdvancesClosing w (id_by_kind w [] (kind.MemberFunction id.now))
            progress.old self.old.failed progress.new self.new.failed) }
    {
        match self.enter_alone(module_index, progress, id.function_type)? {
            None => Ok(()),
            Some(type_data) => method_by_type(progress, self.flags(), id, type_data),
        }
    }

    // Prints a function that isn't a member. Its type is read, and only that type is open inside it.
    fn function_id<'s>(
        &mut self,
        module_index: usize,
        progress: &mut Progress<'s>,
        met: BTreeSet<u32>,
        id: &'s FunctionId,
    ) -> Result<(), AllocError>
    where
        'a: 's,
        requires no_failure { progress.old.failure ≡ None }
        ensures monotone { IsLater P.info module_index self.old self.new }
        ensures advances { OnOk result
            (let w = formatter_inputs P.info self.old.type_inputs module_index in
            AdvancesClosing w (id_by_kind w met.keys (kind.Function id.now))
            progress.old self.old.failed progress.new self.new.failed) }
    {
        match self.enter_alone(module_index, progress, id.function_type)? {
            None => Ok(()),
            Some(type_data) => function_by_type(progress, self.flags(), met, id, type_data),
        }
    }

    // Prints an id by its kind.
    fn id_by_kind<'s>(
        &mut self,
        module_index: usize,
        progress: &mut Progress<'s>,
        met: BTreeSet<u32>,
        id_data: &'s IdData,
    ) -> Result<(), AllocError>
    where
        'a: 's,
        requires no_failure { progress.old.failure ≡ None }
        ensures monotone { IsLater P.info module_index self.old self.new }
        ensures advances { OnOk result
            (let w = formatter_inputs P.info self.old.type_inputs module_index in
            AdvancesClosing w (id_by_kind w met.keys id_data.now)
            progress.old self.old.failed progress.new self.new.failed) }
    {
        match id_data {
            IdData::MemberFunction(id) => self.method_id(module_index, progress, id),
            IdData::Function(id) => self.function_id(module_index, progress, met, id),
            IdData::String(string) => progress.push(Task::Written(Wording::Namespace(
                &string.name,
            ))),
            IdData::StringList(list) => string_list(progress, &list.substrings),
            IdData::Other(kind) => progress.push(Task::Written(Wording::UnhandledScope(
                kind.kind_name.as_str(),
            ))),
        }
    }

    // Reads the id of an index, and prints it. Fails if it is one of the ids of which it is a scope, which is circular.
    pub(crate) fn id<'s>(
        &mut self,
        module_index: usize,
        progress: &mut Progress<'s>,
        mut met: BTreeSet<u32>,
        index: IdIndex,
    ) -> Result<(), AllocError>
    where
        'a: 's,
        requires no_failure { progress.old.failure ≡ None }
        ensures monotone { IsLater P.info module_index self.old self.new }
        ensures advances { OnOk result
            (Advances (formatter_inputs P.info self.old.type_inputs module_index)
            (Later (open_in progress.old.steps) (Id met.keys index.0)) 1
            progress.old self.old.failed progress.new self.new.failed) }
    {
        if met.contains(&index.0) {
            progress.fail(PrintError::OfError(Error::CircularTypeDefinition(index.0)));
            return Ok(());
        }
        match self.printed_id(module_index, index) {
            Ok(id_data) => {
                met.insert(index.0)?;
                self.id_by_kind(module_index, progress, met, id_data)
            }
            Err(read_error) => self.note(progress, read_error),
        }
    }

    // Prints an id, by an index that the module at a module index uses.
    pub(crate) fn print_id(
        &mut self,
        module_index: usize,
        index: IdIndex,
    ) -> Result<Printed, AllocError>
        ensures monotone { IsLater P.info module_index self.old self.new }
        ensures answer { IfOk result (λ p.
            id_run P.info self.old.type_inputs module_index index.0 self.old.failed ≡ record {
              text = string_bytes p.text;
              fault = failure_in p.failure;
              failed = self.new.failed;
            }) }
    {
        let alloc = self.allocator();
        let mut progress = Progress::new(alloc)?;
        progress.push(Task::Id(BTreeSet::new(alloc), index))?;
        self.print(module_index, &mut progress)?;
        Ok(progress.into_printed())
    }
}
