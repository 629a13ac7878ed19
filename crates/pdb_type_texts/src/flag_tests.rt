//! Tests of the formatter's flags, one for each flag.

ghost use Rattle.std.specs.Prelude.{◌≡◌};
ghost use Rattle.pdb_type_texts.specs.FlagTests.{without_return_type, without_static, with_space_after_comma};
ghost use Rattle.pdb_type_texts.specs.FlagTests.{with_space_before_pointer, with_names_alone, without_arguments};

use bitflags::Flags;
use pdb_types::TypeFormatterFlags;

/// Whether functions are printed without their return type.
pub fn without_return_type(flags: TypeFormatterFlags) -> bool
    ensures { result ≡ without_return_type flags }
{
    flags.intersects(TypeFormatterFlags::NO_FUNCTION_RETURN)
}

/// Whether methods are printed without the word `static`.
pub fn without_static(flags: TypeFormatterFlags) -> bool
    ensures { result ≡ without_static flags }
{
    flags.intersects(TypeFormatterFlags::NO_MEMBER_FUNCTION_STATIC)
}

/// Whether a space is printed after each comma of an argument list.
pub fn with_space_after_comma(flags: TypeFormatterFlags) -> bool
    ensures { result ≡ with_space_after_comma flags }
{
    flags.intersects(TypeFormatterFlags::SPACE_AFTER_COMMA)
}

/// Whether a space is printed before each `*` and `&`.
pub fn with_space_before_pointer(flags: TypeFormatterFlags) -> bool
    ensures { result ≡ with_space_before_pointer flags }
{
    flags.intersects(TypeFormatterFlags::SPACE_BEFORE_POINTER)
}

/// Whether classes, unions and enumerations are printed without `class`, `union` or `enum`.
pub fn with_names_alone(flags: TypeFormatterFlags) -> bool
    ensures { result ≡ with_names_alone flags }
{
    flags.intersects(TypeFormatterFlags::NAME_ONLY)
}

/// Whether functions are printed without their arguments.
pub fn without_arguments(flags: TypeFormatterFlags) -> bool
    ensures { result ≡ without_arguments flags }
{
    flags.intersects(TypeFormatterFlags::NO_ARGUMENTS)
}
