//! `Task` and `Pending`: the steps of printing.

use crate::attributes::Attribute;
use crate::wording::Wording;
use pdb_records::{IdIndex, MemberFunctionType, ModifierType, TypeData, TypeIndex};
use std::collections::BTreeSet;

/// The form in which a method is printed.
#[derive(Clone, Copy)]
pub enum MethodForm {
    /// A signature, in which `const` follows the arguments of a constant method.
    Signature,
    /// The name of a type, without this `const`.
    TypeName,
}

/// A task: something to be printed.
#[derive(Drop)]
pub enum Task<'s> {
    /// This piece of text.
    Written(Wording<'s>),
    /// The type of an index.
    Index(TypeIndex),
    /// This type.
    OfType(&'s TypeData),
    /// The return type of a function, if there is one to print.
    Returned(Option<TypeIndex>),
    /// Types with a separator between them; `this` comes first if it is one of them.
    Types(&'static str, Option<TypeIndex>, &'s [TypeIndex]),
    /// Further types, each after a separator.
    FurtherTypes(&'static str, &'s [TypeIndex]),
    /// The arguments of a function in parentheses, by the index of their list.
    FunctionArguments(TypeIndex),
    /// The arguments of a method in this form, in parentheses.
    MethodArguments(&'s MemberFunctionType, MethodForm),
    /// A chain of pointers, in order, to the type of an index.
    Chain(Vec<Attribute>, TypeIndex),
    /// A chain of pointers, with a modifier between the last pointer and the type of the index.
    BehindModifier(Vec<Attribute>, TypeIndex),
    /// The target of a modifier.
    Modified(&'s ModifierType),
    /// An array: the indices of its elements so far, the sizes of its levels so far, and the index of its
    /// next element.
    Elements(BTreeSet<u32>, Vec<u32>, TypeIndex),
    /// The id of an index. It is a scope of these ids.
    Id(BTreeSet<u32>, IdIndex),
    /// The scope of an id, if it has one, and `::` after it; it is a scope of these ids.
    Scope(BTreeSet<u32>, Option<IdIndex>),
}

/// A step that is still to be done.
#[derive(Drop)]
pub enum Pending<'s> {
    /// Print this task.
    Print(Task<'s>),
    /// Close an index.
    Close(u32),
    /// End an id, in which only this index was open, or none. The indices that were open around it are restored.
    EndId(BTreeSet<u32>, Option<u32>),
    /// End a type. If a type in it was missing, a note is printed after its text so far.
    EndCatch,
    /// End the target of pointers, which begins at this byte of the text. The pointers are printed after it; or, if it
    /// failed, its text is removed.
    EndBuffer(usize, Vec<Attribute>),
}
