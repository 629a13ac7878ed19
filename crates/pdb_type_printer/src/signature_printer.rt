//! Prints the signatures of functions from their names and types.

ghost use Rattle.std.specs.Prelude.{◌≡◌, OnOk, IfOk, string_bytes};
ghost use Rattle.pdb_records.specs.declared.types.TypeData.TheVariants.{MemberFunction, Procedure};
ghost use Rattle.pdb_type_texts.specs.Printed.{signature_run};
ghost use Rattle.pdb_type_texts.specs.Progress.{beginning, failure_in, open_in};
ghost use Rattle.pdb_type_texts.specs.Signatures.{signature_by_type, signature};
ghost use Rattle.pdb_type_texts.specs.PrintInputs.{PrintInputs, formatter_inputs};
ghost use Rattle.pdb_type_printer.specs.Formatters.{IsLater};
ghost use Rattle.pdb_type_printer.specs.PendingPlans.{Begins, Stands};

use crate::function_parts::{is_left_out, unless_left_out};
use crate::type_formatter::TypeFormatter;
use pdb_records::{MemberFunctionType, ModuleProvider, ProcedureType, TypeData, TypeIndex};
use pdb_type_texts::printed_texts::Printed;
use pdb_type_texts::progress::Progress;
use pdb_type_texts::tasks::{MethodForm, Task};
use pdb_type_texts::wording::{Wording, function_name, static_word};
use pdb_types::TypeFormatterFlags;
use std::alloc::AllocError;

// Prints the signature of a method with this name.
fn method<'s>(
    progress: &mut Progress<'s>,
    flags: TypeFormatterFlags,
    name: &'s str,
    m: &'s MemberFunctionType,
) -> Result<(), AllocError>
    ensures { OnOk result ((w : PrintInputs) → w.flags ≡ flags
        → Stands w 0 (signature_by_type w name.now (open_in progress.old.steps) (MemberFunction m.now))
        progress.old progress.new) }
{
    let return_type = unless_left_out(is_left_out(flags, m.is_constructor), Some(m.return_type));
    progress.push4(
        Task::Written(Wording::Text(static_word(flags, m.this_pointer_type))),
        Task::Returned(return_type),
        Task::Written(Wording::Text(function_name(name))),
        Task::MethodArguments(m, MethodForm::Signature),
    )
}

// Prints the signature of a procedure with this name.
fn procedure<'s>(
    progress: &mut Progress<'s>,
    flags: TypeFormatterFlags,
    name: &'s str,
    p: &'s ProcedureType,
) -> Result<(), AllocError>
    ensures { OnOk result ((w : PrintInputs) → w.flags ≡ flags
        → Stands w 0 (signature_by_type w name.now (open_in progress.old.steps) (Procedure p.now))
        progress.old progress.new) }
{
    let return_type = unless_left_out(is_left_out(flags, p.is_constructor), p.return_type);
    progress.push3(
        Task::Returned(return_type),
        Task::Written(Wording::Text(function_name(name))),
        Task::FunctionArguments(p.argument_list),
    )
}

// Prints the signature of a function with this name and type. If the type isn't a function type, prints only the name.
fn by_type<'s>(
    progress: &mut Progress<'s>,
    flags: TypeFormatterFlags,
    name: &'s str,
    type_data: &'s TypeData,
) -> Result<(), AllocError>
    ensures { OnOk result ((w : PrintInputs) → w.flags ≡ flags
        → Stands w 0 (signature_by_type w name.now (open_in progress.old.steps) type_data.now)
        progress.old progress.new) }
{
    match type_data {
        TypeData::MemberFunction(m) => method(progress, flags, name, m),
        TypeData::Procedure(p) => procedure(progress, flags, name, p),
        _ => progress.push(Task::Written(Wording::Text(name))),
    }
}

impl<'a, P: ModuleProvider> TypeFormatter<'a, P> {
    // Makes the signature of a function, with this name and the type of this index, the first task. Index 0 means no
    // type; then only the name is printed.
    fn signature<'s>(
        &mut self,
        module_index: usize,
        progress: &mut Progress<'s>,
        name: &'s str,
        index: TypeIndex,
    ) -> Result<(), AllocError>
    where
        'a: 's,
        requires beginning { progress.old ≡ beginning }
        ensures monotone { IsLater P.info module_index self.old self.new }
        ensures begins { OnOk result
            (let w = formatter_inputs P.info self.old.type_inputs module_index in
            Begins w (signature w name.now index.0) self.old.failed progress.new self.new.failed) }
    {
        if index.0 == 0 {
            progress.push(Task::Written(Wording::Text(function_name(name))))?;
            return Ok(());
        }
        match self.printed_type(module_index, index) {
            Ok(type_data) => {
                progress.open(index.0)?;
                by_type(progress, self.flags(), name, type_data)
            }
            Err(read_error) => self.refuse(progress, read_error),
        }
    }

    // Prints the signature of a function with this name. The index of its type is one that the module at a module index
    // uses.
    pub(crate) fn print_function(
        &mut self,
        name: &str,
        module_index: usize,
        index: TypeIndex,
    ) -> Result<Printed, AllocError>
        ensures monotone { IsLater P.info module_index self.old self.new }
        ensures answer { IfOk result (λ p.
            signature_run P.info self.old.type_inputs module_index name.now index.0 self.old.failed ≡ record {
              text = string_bytes p.text;
              fault = failure_in p.failure;
              failed = self.new.failed;
            }) }
    {
        let mut progress = Progress::new(self.allocator())?;
        self.signature(module_index, &mut progress, name, index)?;
        self.print(module_index, &mut progress)?;
        Ok(progress.into_printed())
    }
}
