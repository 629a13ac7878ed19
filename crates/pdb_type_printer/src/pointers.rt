//! Prints chains of pointers, with the type to which they point before or around them.

ghost use Rattle.std.specs.Prelude.{◌≡◌, ◌∷◌, false, OnOk, reverse};
ghost use Rattle.pdb_type_texts.specs.Attributes.{attribute_of};
ghost use Rattle.pdb_type_texts.specs.Plans.{Chain, Later};
ghost use Rattle.pdb_type_texts.specs.Progress.{open_in};
ghost use Rattle.pdb_type_texts.specs.Rules.{pointers_to_method, pointers_to_function};
ghost use Rattle.pdb_type_texts.specs.Rules.{chain_end, behind_modifier, behind_pointer};
ghost use Rattle.pdb_type_texts.specs.PrintInputs.{PrintInputs};
ghost use Rattle.pdb_type_printer.specs.PendingPlans.{Stands, StandsHere};

use crate::function_parts::unless_left_out;
use pdb_records::{MemberFunctionType, PointerType, ProcedureType, TypeData};
use pdb_type_texts::attributes::{Attribute, attribute_of, point_to};
use pdb_type_texts::progress::Progress;
use pdb_type_texts::tasks::{MethodForm, Task};
use pdb_type_texts::wording::Wording;
use std::alloc::AllocError;

// Prints a pointer to a method: its return type, the class and the pointers in parentheses, and its arguments.
fn pointers_to_method<'s>(
    progress: &mut Progress<'s>,
    attributes: Vec<Attribute>,
    m: &'s MemberFunctionType,
) -> Result<(), AllocError>
    ensures { OnOk result ((w : PrintInputs)
        → Stands w 0 (pointers_to_method w (reverse attributes.items) (open_in progress.old.steps) m.now)
        progress.old progress.new) }
{
    let return_type = unless_left_out(m.is_constructor, Some(m.return_type));
    progress.push6(
        Task::Returned(return_type),
        Task::Written(Wording::Text("(")),
        Task::Index(m.class_type),
        Task::Written(Wording::Pointers(attributes)),
        Task::Written(Wording::Text(")")),
        Task::MethodArguments(m, MethodForm::TypeName),
    )
}

// Prints a pointer to a function: its return type, the pointers in parentheses, and its arguments in parentheses.
fn pointers_to_function<'s>(
    progress: &mut Progress<'s>,
    attributes: Vec<Attribute>,
    p: &'s ProcedureType,
) -> Result<(), AllocError>
    ensures { OnOk result ((w : PrintInputs)
        → Stands w 0 (pointers_to_function w (reverse attributes.items) (open_in progress.old.steps) p.now)
        progress.old progress.new) }
{
    let return_type = unless_left_out(p.is_constructor, p.return_type);
    progress.push6(
        Task::Returned(return_type),
        Task::Written(Wording::Text("(")),
        Task::Written(Wording::Pointers(attributes)),
        Task::Written(Wording::Text(")(")),
        Task::Index(p.argument_list),
        Task::Written(Wording::Text(")")),
    )
}

// Prints the end of a chain of pointers: functions around the pointers, any other type before them.
fn chain_end<'s>(
    progress: &mut Progress<'s>,
    attributes: Vec<Attribute>,
    type_data: &'s TypeData,
) -> Result<(), AllocError>
    ensures { OnOk result ((w : PrintInputs)
        → StandsHere w (chain_end w (reverse attributes.items) (open_in progress.old.steps) type_data.now)
        progress.old progress.new) }
{
    match type_data {
        TypeData::MemberFunction(m) => pointers_to_method(progress, attributes, m),
        TypeData::Procedure(p) => pointers_to_function(progress, attributes, p),
        _ => {
            progress.hold_back(attributes)?;
            progress.push(Task::OfType(type_data))
        }
    }
}

// Adds a pointer to the chain.
fn further_pointer(
    progress: &mut Progress<'_>,
    mut attributes: Vec<Attribute>,
    p: &PointerType,
) -> Result<(), AllocError>
    ensures { OnOk result ((w : PrintInputs)
        → Stands w 0 (Later (open_in progress.old.steps)
        (Chain (attribute_of p.now false ∷ reverse attributes.items) p.now.underlying_type.0))
        progress.old progress.new) }
{
    attributes.push(attribute_of(p, false))?;
    progress.push(Task::Chain(attributes, p.underlying_type))
}

// Continues a chain of pointers after a modifier: a pointer continues the chain, any other type ends it.
pub(crate) fn behind_modifier<'s>(
    progress: &mut Progress<'s>,
    attributes: Vec<Attribute>,
    type_data: &'s TypeData,
) -> Result<(), AllocError>
    ensures { OnOk result ((w : PrintInputs)
        → StandsHere w (behind_modifier w (reverse attributes.items) (open_in progress.old.steps) type_data.now)
        progress.old progress.new) }
{
    match type_data {
        TypeData::Pointer(p) => further_pointer(progress, attributes, p),
        _ => chain_end(progress, attributes, type_data),
    }
}

// Continues a chain of pointers after a pointer: a pointer or a modifier continues the chain, any other type ends it.
pub(crate) fn behind_pointer<'s>(
    progress: &mut Progress<'s>,
    mut attributes: Vec<Attribute>,
    type_data: &'s TypeData,
) -> Result<(), AllocError>
    ensures { OnOk result ((w : PrintInputs)
        → StandsHere w (behind_pointer w (reverse attributes.items) (open_in progress.old.steps) type_data.now)
        progress.old progress.new) }
{
    match type_data {
        TypeData::Pointer(p) => further_pointer(progress, attributes, p),
        TypeData::Modifier(m) => {
            point_to(&mut attributes, m.constant);
            progress.push(Task::BehindModifier(attributes, m.underlying_type))
        }
        _ => chain_end(progress, attributes, type_data),
    }
}
