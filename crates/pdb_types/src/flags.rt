//! `TypeFormatterFlags`: what is printed of a signature, and how.

ghost use Rattle.std.specs.Prelude.{⊤, ◌≡◌, [], ◌∷◌, codes};

use bitflags::{Flag, Flags, bitflag_items};

/// What is printed of a signature, and how. Bits other than the six named ones mean nothing.
#[derive(Clone, Copy)]
pub struct TypeFormatterFlags(u32);

bitflag_items! {
    impl TypeFormatterFlags: u32 {
        /// Functions are printed without their return type.
        const NO_FUNCTION_RETURN = 1;
        /// Methods are printed without the word `static`.
        const NO_MEMBER_FUNCTION_STATIC = 2;
        /// A space is printed after each comma of an argument list.
        const SPACE_AFTER_COMMA = 4;
        /// A space is printed before each `*` and `&`.
        const SPACE_BEFORE_POINTER = 8;
        /// Classes, unions and enumerations are printed without `class`, `union` or `enum`.
        const NAME_ONLY = 16;
        /// Functions are printed without their arguments.
        const NO_ARGUMENTS = 32;
    }
}

impl Flags for TypeFormatterFlags {
    type Bits = u32;

    ghost exact = { ⊤ };

    ghost table = { (codes "NO_FUNCTION_RETURN", 1)
        ∷ (codes "NO_MEMBER_FUNCTION_STATIC", 2)
        ∷ (codes "SPACE_AFTER_COMMA", 4)
        ∷ (codes "SPACE_BEFORE_POINTER", 8)
        ∷ (codes "NAME_ONLY", 16)
        ∷ (codes "NO_ARGUMENTS", 32)
        ∷ [] };

    ghost set_of = { λ flags. flags.0 };

    fn flags<'a>() -> &'a [Flag<TypeFormatterFlags>] {
        TypeFormatterFlags::FLAGS
    }

    fn bits(&self) -> u32 {
        self.0
    }

    fn from_bits_retain(bits: u32) -> TypeFormatterFlags {
        TypeFormatterFlags(bits)
    }
}

impl Default for TypeFormatterFlags {
    /// No return types, no `static`, a space after commas, and only names of classes, unions and enumerations.
    fn default() -> Self
        ensures { result.0 ≡ 23 }
    {
        TypeFormatterFlags::NO_FUNCTION_RETURN
            .union(TypeFormatterFlags::NO_MEMBER_FUNCTION_STATIC)
            .union(TypeFormatterFlags::SPACE_AFTER_COMMA)
            .union(TypeFormatterFlags::NAME_ONLY)
    }
}
