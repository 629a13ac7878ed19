//! `Wording`: the pieces of text in signatures: words, names, and notes on missing types.

ghost use Rattle.std.specs.Prelude.{◌≡◌, ◌++◌, OnOk, string_bytes};
ghost use Rattle.pdb_records.specs.Names.{lossy};
ghost use Rattle.pdb_type_texts.specs.Namespaces.{namespace_text};
ghost use Rattle.pdb_type_texts.specs.Wording.{missing_text, unimplemented_text, unhandled_text};
ghost use Rattle.pdb_type_texts.specs.Wording.{unhandled_scope_text, class_word, declared_text};
ghost use Rattle.pdb_type_texts.specs.Wording.{function_name, static_text, comma, wording_text};

use crate::attributes::{Attribute, Predecessor, write_attributes};
use crate::dimensions::write_dimensions;
use crate::flag_tests::{with_names_alone, with_space_after_comma, without_static};
use crate::namespaces::namespace_name;
use crate::primitive_names::write_primitive;
use pdb_records::{ClassKind, PrimitiveType, RawString, TypeIndex};
use pdb_types::TypeFormatterFlags;
use std::alloc::AllocError;

/// A piece of a signature that needs no further reading.
#[derive(Drop)]
pub enum Wording<'s> {
    /// This text.
    Text(&'s str),
    /// A note on a missing type or id.
    MissingType(u32),
    /// A note on a type or id of a kind that the reader of the records doesn't know.
    UnimplementedKind(u16),
    /// A note on a type of a known kind that isn't printed.
    UnhandledKind(&'s str),
    /// A note in place of a scope of a known kind that isn't printed.
    UnhandledScope(&'s str),
    /// A name, after `class`, `union` or a similar word unless the flags omit that.
    Declared(&'static str, &'s RawString),
    /// The name of a function, or a note if it is empty.
    FunctionName(&'s RawString),
    /// The name of a namespace.
    Namespace(&'s RawString),
    /// A primitive type, and whether it is constant.
    Primitive(PrimitiveType, bool),
    /// The pointers to a function, which are in parentheses; the last collected comes last.
    Pointers(Vec<Attribute>),
    /// The dimensions of an array, by the sizes of its levels and of its base.
    Dimensions(Vec<u32>, u64),
}

/// Appends a piece of a signature. `AllocError` if memory runs out.
pub fn write(
    text: &mut String,
    flags: TypeFormatterFlags,
    wording: &Wording<'_>,
) -> Result<(), AllocError>
    ensures { OnOk result (string_bytes text.new ≡ string_bytes text.old ++ wording_text flags wording.now) }
{
    match wording {
        Wording::Text(known) => text.push_str(known),
        Wording::MissingType(index) => write_missing(text, *index),
        Wording::UnimplementedKind(kind) => write_unimplemented(text, *kind),
        Wording::UnhandledKind(kind) => write_unhandled(text, kind),
        Wording::UnhandledScope(kind) => write_unhandled_scope(text, kind),
        Wording::Declared(word, name) => write_declared(text, flags, word, name),
        Wording::FunctionName(name) => write_function_name(text, name),
        Wording::Namespace(name) => write_namespace(text, name),
        Wording::Primitive(primitive, constant) => {
            write_primitive(text, flags, primitive, *constant)
        }
        Wording::Pointers(attributes) => {
            write_attributes(text, flags, Predecessor::Opening, attributes.as_slice())
        }
        Wording::Dimensions(levels, base) => write_dimensions(text, levels.as_slice(), *base),
    }
}

/// Appends the note on a missing type or id.
pub fn write_missing(text: &mut String, index: u32) -> Result<(), AllocError>
    ensures { OnOk result (string_bytes text.new ≡ string_bytes text.old ++ missing_text index) }
{
    write!(text, "<missing type 0x{index:x}>")
}

// Appends the note on a type or id of a kind that the reader of the records doesn't know.
fn write_unimplemented(text: &mut String, kind: u16) -> Result<(), AllocError>
    ensures { OnOk result (string_bytes text.new ≡ string_bytes text.old ++ unimplemented_text kind) }
{
    write!(text, "<unimplemented type kind 0x{kind:x}>")
}

// Appends the note on a type of a known kind that isn't printed.
fn write_unhandled(text: &mut String, kind: &str) -> Result<(), AllocError>
    ensures { OnOk result (string_bytes text.new ≡ string_bytes text.old ++ unhandled_text kind.now) }
{
    write!(text, "unhandled type /* {kind} */")
}

// Appends the note in place of a scope of a known kind that isn't printed.
fn write_unhandled_scope(text: &mut String, kind: &str) -> Result<(), AllocError>
    ensures { OnOk result (string_bytes text.new ≡ string_bytes text.old ++ unhandled_scope_text kind.now) }
{
    write!(text, "<unhandled id scope {kind}>::")
}

// Appends the name of a function, or a note if it is empty.
fn write_function_name(text: &mut String, name: &RawString) -> Result<(), AllocError>
    ensures { OnOk result (string_bytes text.new ≡ string_bytes text.old ++ function_name (lossy name.now)) }
{
    let name = name.to_string_lossy(*text.allocator())?;
    text.push_str(function_name(name.as_str()))
}

// Appends the printed name of a namespace.
fn write_namespace(text: &mut String, name: &RawString) -> Result<(), AllocError>
    ensures { OnOk result (string_bytes text.new ≡ string_bytes text.old ++ namespace_text (lossy name.now)) }
{
    let name = name.to_string_lossy(*text.allocator())?;
    text.push_str(namespace_name(name.as_str()))
}

// Appends a name as text, after its word (such as `class`) unless the flags omit that.
fn write_declared(
    text: &mut String,
    flags: TypeFormatterFlags,
    word: &str,
    name: &RawString,
) -> Result<(), AllocError>
    ensures { OnOk result (string_bytes text.new ≡ string_bytes text.old ++ declared_text flags word.now name.now) }
{
    if !with_names_alone(flags) {
        text.push_str(word)?;
    }
    let name = name.to_string_lossy(*text.allocator())?;
    text.push_str(name.as_str())
}

/// The word for a kind of class, with a space after it.
pub fn class_word(kind: ClassKind) -> &'static str
    ensures { result.now ≡ class_word kind }
{
    match kind {
        ClassKind::Class => "class ",
        ClassKind::Interface => "interface ",
        ClassKind::Struct => "struct ",
    }
}

/// The name of a function, or a note if it is empty.
pub fn function_name(name: &str) -> &str
    ensures { result.now ≡ function_name name.now }
{
    if name.is_empty() {
        "<name omitted>"
    } else {
        name
    }
}

/// The text before a method: `static` if it has no `this`, unless the flags omit that word.
pub fn static_word(flags: TypeFormatterFlags, this: Option<TypeIndex>) -> &'static str
    ensures { result.now ≡ static_text flags this }
{
    if this.is_some() || without_static(flags) {
        ""
    } else {
        "static "
    }
}

/// The text between two arguments.
pub fn comma(flags: TypeFormatterFlags) -> &'static str
    ensures { result.now ≡ comma flags }
{
    if with_space_after_comma(flags) {
        ", "
    } else {
        ","
    }
}
