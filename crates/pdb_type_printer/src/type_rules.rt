//! Prints types by their kinds, one level deep.

ghost use Rattle.std.specs.Prelude.{◌≡◌, ◌∷◌, [], codes, if◌then◌else◌, OnOk};
ghost use Rattle.pdb_records.specs.declared.types.TypeData.TheVariants.{MemberFunction, Procedure, Array};
ghost use Rattle.pdb_type_texts.specs.Progress.{open_in};
ghost use Rattle.pdb_type_texts.specs.Rules.{modified, by_kind};
ghost use Rattle.pdb_type_texts.specs.Attributes.{attribute_of};
ghost use Rattle.pdb_type_texts.specs.Plans.{Chain, Later, written};
ghost use Rattle.pdb_type_texts.specs.Wording.{declared_text};
ghost use Rattle.pdb_type_texts.specs.PrintInputs.{PrintInputs};
ghost use Rattle.pdb_type_printer.specs.PendingPlans.{Stands};

use crate::function_parts::{is_left_out, types_between, unless_left_out};
use pdb_records::{
    ArrayType, MemberFunctionType, PointerType, ProcedureType, RawString, TypeData, TypeIndex,
};
use pdb_type_texts::attributes::attribute_of;
use pdb_type_texts::progress::Progress;
use pdb_type_texts::tasks::{MethodForm, Task};
use pdb_type_texts::wording::{Wording, class_word, comma};
use pdb_types::TypeFormatterFlags;
use std::alloc::AllocError;
use std::collections::BTreeSet;

// Prints a name, after `class`, `union` or a similar word unless the flags omit that.
fn declared<'s>(
    progress: &mut Progress<'s>,
    word: &'static str,
    name: &'s RawString,
) -> Result<(), AllocError>
    ensures { OnOk result ((w : PrintInputs)
        → Stands w 0 (written (declared_text w.flags word.now name.now)) progress.old progress.new) }
{
    progress.push(Task::Written(Wording::Declared(word, name)))
}

// Prints a method: its return type if that is wanted, and its arguments.
fn method<'s>(
    progress: &mut Progress<'s>,
    flags: TypeFormatterFlags,
    m: &'s MemberFunctionType,
) -> Result<(), AllocError>
    ensures { OnOk result ((w : PrintInputs) → w.flags ≡ flags
        → Stands w 0 (by_kind w (open_in progress.old.steps) (MemberFunction m.now)) progress.old progress.new) }
{
    let return_type = unless_left_out(is_left_out(flags, m.is_constructor), Some(m.return_type));
    progress.push3(
        Task::Returned(return_type),
        Task::Written(Wording::Text("()")),
        Task::MethodArguments(m, MethodForm::TypeName),
    )
}

// Prints a procedure: its return type if that is wanted, and its arguments, without a parenthesis after them.
fn procedure<'s>(
    progress: &mut Progress<'s>,
    flags: TypeFormatterFlags,
    p: &'s ProcedureType,
) -> Result<(), AllocError>
    ensures { OnOk result ((w : PrintInputs) → w.flags ≡ flags
        → Stands w 0 (by_kind w (open_in progress.old.steps) (Procedure p.now)) progress.old progress.new) }
{
    let return_type = unless_left_out(is_left_out(flags, p.is_constructor), p.return_type);
    progress.push3(
        Task::Returned(return_type),
        Task::Written(Wording::Text("()(")),
        Task::Index(p.argument_list),
    )
}

// Begins a chain of pointers. The pointer is constant if its record or `constant` says so.
pub(crate) fn pointer(
    progress: &mut Progress<'_>,
    p: &PointerType,
    constant: bool,
) -> Result<(), AllocError>
    ensures { OnOk result ((w : PrintInputs)
        → Stands w 0 (Later (open_in progress.old.steps)
        (Chain (attribute_of p.now constant ∷ []) p.now.underlying_type.0)) progress.old progress.new) }
{
    let mut attributes = Vec::new(progress.allocator());
    attributes.push(attribute_of(p, constant))?;
    progress.push(Task::Chain(attributes, p.underlying_type))
}

// Begins the levels of an array.
fn array(progress: &mut Progress<'_>, a: &ArrayType) -> Result<(), AllocError>
    ensures { OnOk result ((w : PrintInputs)
        → Stands w 0 (by_kind w (open_in progress.old.steps) (Array a.now)) progress.old progress.new) }
{
    let elements = BTreeSet::new(progress.allocator());
    let mut levels = Vec::new(progress.allocator());
    levels.push(a.first)?;
    progress.push(Task::Elements(elements, levels, a.element_type))
}

// The word before a constant type.
fn const_word(constant: bool) -> &'static str
    ensures { result.now ≡ (if constant then codes "const " else []) }
{
    if constant { "const " } else { "" }
}

// Prints the target of a modifier, which may be constant.
pub(crate) fn modified<'s>(
    progress: &mut Progress<'s>,
    constant: bool,
    type_data: &'s TypeData,
) -> Result<(), AllocError>
    ensures { OnOk result ((w : PrintInputs)
        → Stands w 0 (modified w constant (open_in progress.old.steps) type_data.now) progress.old progress.new) }
{
    match type_data {
        TypeData::Pointer(p) => pointer(progress, p, constant),
        TypeData::Primitive(p) => progress.push(Task::Written(Wording::Primitive(*p, constant))),
        _ => {
            progress.push2(
                Task::Written(Wording::Text(const_word(constant))),
                Task::OfType(type_data),
            )
        }
    }
}

// Prints a type by its kind.
pub(crate) fn by_kind<'s>(
    progress: &mut Progress<'s>,
    flags: TypeFormatterFlags,
    type_data: &'s TypeData,
) -> Result<(), AllocError>
    ensures { OnOk result ((w : PrintInputs) → w.flags ≡ flags
        → Stands w 0 (by_kind w (open_in progress.old.steps) type_data.now) progress.old progress.new) }
{
    match type_data {
        TypeData::Primitive(p) => progress.push(Task::Written(Wording::Primitive(*p, false))),
        TypeData::Class(c) => declared(progress, class_word(c.class_kind), &c.name),
        TypeData::Union(u) => declared(progress, "union ", &u.name),
        TypeData::Enumeration(e) => declared(progress, "enum ", &e.name),
        TypeData::Enumerate(e) => declared(progress, "enum class ", &e.name),
        TypeData::MemberFunction(m) => method(progress, flags, m),
        TypeData::Procedure(p) => procedure(progress, flags, p),
        TypeData::ArgumentList(list) => types_between(
            progress,
            comma(flags),
            None,
            &list.arguments,
        ),
        TypeData::Pointer(p) => pointer(progress, p, false),
        TypeData::Array(a) => array(progress, a),
        TypeData::Modifier(m) => progress.push(Task::Modified(m)),
        TypeData::Other(kind) => progress.push(Task::Written(Wording::UnhandledKind(
            kind.kind_name.as_str(),
        ))),
    }
}
