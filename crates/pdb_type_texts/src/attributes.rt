//! Prints the stars, ampersands and `const` of a chain of pointers.

ghost use Rattle.std.specs.Prelude.{◌≡◌, ◌++◌, OnOk, reverse, string_bytes};
ghost use Rattle.pdb_type_texts.specs.Attributes.{attribute_of, with_target, sigil, space_before_sigil};
ghost use Rattle.pdb_type_texts.specs.Attributes.{end_of, before_sigil, attribute_text, attributes_text};

use crate::flag_tests::with_space_before_pointer;
use pdb_records::{PointerMode, PointerType};
use pdb_types::TypeFormatterFlags;
use std::alloc::AllocError;

/// One pointer of a chain of pointers.
#[derive(Clone, Copy)]
pub struct Attribute {
    /// Whether it is a pointer or a kind of reference.
    pub points: PointerMode,
    /// Whether the pointer itself is constant.
    pub constant_pointer: bool,
    /// Whether its target is constant.
    pub constant_target: bool,
}

/// The text just before a pointer of a chain.
#[derive(Clone, Copy)]
pub enum Predecessor {
    /// The beginning of pointers to functions: a parenthesis, and after it the class of a method.
    Opening,
    /// The sign of a pointer or a reference.
    Sigil,
    /// Any other text.
    Text,
}

/// A pointer whose target isn't known yet. It is constant if its record says so, or if `const` is before it.
pub fn attribute_of(pointer: &PointerType, constant: bool) -> Attribute
    ensures { result ≡ attribute_of pointer.now constant }
{
    Attribute {
        points: pointer.mode,
        constant_pointer: pointer.is_const || constant,
        constant_target: false,
    }
}

/// Sets whether the target of the last collected pointer is constant.
pub fn point_to(attributes: &mut Vec<Attribute>, constant: bool)
    ensures { reverse attributes.new.items ≡ with_target constant (reverse attributes.old.items) }
{
    if let Some(last) = attributes.last_mut() {
        last.constant_target = constant;
    }
}

/// Appends the pointers of a chain, the last collected first. `predecessor` is the text just before them.
pub fn write_attributes(
    text: &mut String,
    flags: TypeFormatterFlags,
    mut predecessor: Predecessor,
    attributes: &[Attribute],
) -> Result<(), AllocError>
    ensures { OnOk result (string_bytes text.new
        ≡ string_bytes text.old ++ attributes_text flags predecessor (reverse attributes.now)) }
{
    let mut rest = attributes;
    while let Some((last, earlier)) = rest.split_last() {
        write_attribute(text, flags, predecessor, last)?;
        predecessor = end_of(last);
        rest = earlier;
    }
    Ok(())
}

// The end of a pointer: its sign, or `const`.
fn end_of(attribute: &Attribute) -> Predecessor
    ensures { result ≡ end_of attribute.now }
{
    if attribute.constant_pointer {
        Predecessor::Text
    } else {
        Predecessor::Sigil
    }
}

// Appends one pointer: the text before its sign, the sign, and `const` if it is constant.
fn write_attribute(
    text: &mut String,
    flags: TypeFormatterFlags,
    predecessor: Predecessor,
    attribute: &Attribute,
) -> Result<(), AllocError>
    ensures { OnOk result (string_bytes text.new
        ≡ string_bytes text.old ++ attribute_text flags predecessor attribute.now) }
{
    write_before_sigil(text, flags, predecessor, attribute.constant_target)?;
    text.push_str(sigil(attribute.points))?;
    if attribute.constant_pointer {
        text.push_str(" const")?;
    }
    Ok(())
}

// Appends the text before a sign: `const` if the target is constant, and the space that the flags want, unless the
// opening or another sign is just before it.
fn write_before_sigil(
    text: &mut String,
    flags: TypeFormatterFlags,
    predecessor: Predecessor,
    constant_target: bool,
) -> Result<(), AllocError>
    ensures { OnOk result (string_bytes text.new
        ≡ string_bytes text.old ++ before_sigil flags predecessor constant_target) }
{
    match predecessor {
        Predecessor::Opening if constant_target => text.push_str("const")?,
        _ if constant_target => text.push_str(" const")?,
        Predecessor::Text => {}
        _ => return Ok(()),
    }
    text.push_str(space_before_sigil(flags))
}

// The space before a sign, if the flags want one.
fn space_before_sigil(flags: TypeFormatterFlags) -> &'static str
    ensures { result.now ≡ space_before_sigil flags }
{
    if with_space_before_pointer(flags) {
        " "
    } else {
        ""
    }
}

// The sign of a pointer or a reference.
fn sigil(mode: PointerMode) -> &'static str
    ensures { result.now ≡ sigil mode }
{
    match mode {
        PointerMode::Pointer => "*",
        PointerMode::LValueReference => "&",
        PointerMode::Member | PointerMode::MemberFunction => "::*",
        PointerMode::RValueReference => "&&",
    }
}
