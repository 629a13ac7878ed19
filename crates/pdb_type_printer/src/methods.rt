//! Prints the arguments of methods, depending on the type of `this`.

ghost use Rattle.std.specs.Prelude.{◌≡◌, None, OnOk};
ghost use Rattle.pdb_types.specs.ReadError.{Matches};
ghost use Rattle.pdb_type_texts.specs.Plans.{MethodArguments, Later, on_read};
ghost use Rattle.pdb_type_texts.specs.Progress.{open_in};
ghost use Rattle.pdb_type_texts.specs.Methods.{this_of, closing, method_list, on_list};
ghost use Rattle.pdb_type_texts.specs.PrintInputs.{PrintInputs, formatter_inputs};
ghost use Rattle.pdb_type_printer.specs.Formatters.{IsLater};
ghost use Rattle.pdb_type_printer.specs.PendingPlans.{Advances, Stands};

use crate::type_formatter::TypeFormatter;
use pdb_errors::Error;
use pdb_records::{MemberFunctionType, ModuleProvider, TypeData, TypeIndex};
use pdb_type_texts::flag_tests::without_arguments;
use pdb_type_texts::print_error::PrintError;
use pdb_type_texts::progress::Progress;
use pdb_type_texts::tasks::{MethodForm, Task};
use pdb_type_texts::this::{PLAIN_THIS, ThisParameter, this_by_target};
use pdb_type_texts::wording::{Wording, comma};
use pdb_types::{ReadError, TypeFormatterFlags};
use std::alloc::AllocError;

// The text after a method's arguments. In the signature of a constant method this includes `const`.
fn closing(form: MethodForm, constant: bool) -> &'static str
    ensures { result.now ≡ closing form constant }
{
    match form {
        MethodForm::Signature if constant => ") const",
        _ => ")",
    }
}

// Prints a method's arguments in parentheses, and `const` after them in the signature of a constant method.
pub(crate) fn method_list<'s>(
    progress: &mut Progress<'s>,
    flags: TypeFormatterFlags,
    form: MethodForm,
    list: &'s [TypeIndex],
    this: ThisParameter,
) -> Result<(), AllocError>
    ensures { OnOk result ((w : PrintInputs) → w.flags ≡ flags
        → Stands w 0 (method_list w (open_in progress.old.steps) form list.now this)
        progress.old progress.new) }
{
    progress.push3(
        Task::Written(Wording::Text("(")),
        Task::Types(comma(flags), this.argument, list),
        Task::Written(Wording::Text(closing(form, this.constant))),
    )
}

impl<'a, P: ModuleProvider> TypeFormatter<'a, P> {
    // Reads what a method's `this` shows: whether the method is constant, and whether `this` is printed as an argument.
    fn read_this(
        &mut self,
        module_index: usize,
        class: TypeIndex,
        this: Option<TypeIndex>,
    ) -> Result<ThisParameter, ReadError>
        ensures answer { Matches (λ this. this) result
            (this_of (formatter_inputs P.info self.old.type_inputs module_index) class this) }
        ensures unchanged { self.new ≡ self.old }
    {
        let Some(this) = this else {
            return Ok(PLAIN_THIS);
        };
        let type_data = self.printed_type(module_index, this)?;
        let TypeData::Pointer(p) = type_data else {
            return Ok(ThisParameter {
                constant: false,
                argument: Some(this),
            });
        };
        if p.underlying_type == class {
            return Ok(PLAIN_THIS);
        }
        let target = self.printed_type(module_index, p.underlying_type)?;
        Ok(this_by_target(class, this, target))
    }

    // Prints the arguments of a method in this list.
    fn list_with_this<'s>(
        &mut self,
        module_index: usize,
        progress: &mut Progress<'s>,
        m: &MemberFunctionType,
        form: MethodForm,
        list: &'s [TypeIndex],
    ) -> Result<(), AllocError>
    where
        'a: 's,
        requires no_failure { progress.old.failure ≡ None }
        ensures monotone { IsLater P.info module_index self.old self.new }
        ensures advances { OnOk result
            (let w = formatter_inputs P.info self.old.type_inputs module_index in
            Advances w (on_read (this_of w m.now.class_type m.now.this_pointer_type)
            (method_list w (open_in progress.old.steps) form list.now)) 0
            progress.old self.old.failed progress.new self.new.failed) }
    {
        match self.read_this(module_index, m.class_type, m.this_pointer_type) {
            Ok(this) => method_list(progress, self.flags(), form, list, this),
            Err(read_error) => self.refuse(progress, read_error),
        }
    }

    // Prints the arguments of a method after their list was read.
    fn on_list<'s>(
        &mut self,
        module_index: usize,
        progress: &mut Progress<'s>,
        m: &MemberFunctionType,
        form: MethodForm,
        type_data: &'s TypeData,
    ) -> Result<(), AllocError>
    where
        'a: 's,
        requires no_failure { progress.old.failure ≡ None }
        ensures monotone { IsLater P.info module_index self.old self.new }
        ensures advances { OnOk result
            (let w = formatter_inputs P.info self.old.type_inputs module_index in
            Advances w (on_list w m.now form (open_in progress.old.steps) type_data.now) 0
            progress.old self.old.failed progress.new self.new.failed) }
    {
        match type_data {
            TypeData::ArgumentList(list) => self.list_with_this(
                module_index,
                progress,
                m,
                form,
                &list.arguments,
            ),
            _ => {
                progress.fail(PrintError::OfError(Error::ArgumentTypeNotArgumentList));
                Ok(())
            }
        }
    }

    // Prints the arguments of a method, unless the flags omit them.
    pub(crate) fn method_arguments<'s>(
        &mut self,
        module_index: usize,
        progress: &mut Progress<'s>,
        m: &MemberFunctionType,
        form: MethodForm,
    ) -> Result<(), AllocError>
    where
        'a: 's,
        requires no_failure { progress.old.failure ≡ None }
        ensures monotone { IsLater P.info module_index self.old self.new }
        ensures advances { OnOk result
            (Advances (formatter_inputs P.info self.old.type_inputs module_index)
            (Later (open_in progress.old.steps) (MethodArguments m.now form)) 1
            progress.old self.old.failed progress.new self.new.failed) }
    {
        if without_arguments(self.flags()) {
            return Ok(());
        }
        match self.enter(module_index, progress, m.argument_list)? {
            None => Ok(()),
            Some(type_data) => self.on_list(module_index, progress, m, form, type_data),
        }
    }
}
