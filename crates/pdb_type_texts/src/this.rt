//! `ThisParameter`: whether a method is constant or has `this` as an argument, by the type of `this`.

ghost use Rattle.std.specs.Prelude.{◌≡◌};
ghost use Rattle.pdb_type_texts.specs.Methods.{this_by_target};

use pdb_records::{TypeData, TypeIndex};

/// The properties of a method that the type of its `this` shows.
#[derive(Clone, Copy)]
pub struct ThisParameter {
    /// Whether the method is constant.
    pub constant: bool,
    /// The type of `this`, if it is printed as the first argument.
    pub argument: Option<TypeIndex>,
}

/// A method that isn't constant, and doesn't have `this` as an argument.
pub const PLAIN_THIS: ThisParameter = ThisParameter {
    constant: false,
    argument: None,
};

/// The properties of a method by the target of `this`. If that is a modifier of the class, it says whether the method
/// is constant. Otherwise `this` is an argument.
pub fn this_by_target(class: TypeIndex, this: TypeIndex, target: &TypeData) -> ThisParameter
    ensures { result ≡ this_by_target class this target.now }
{
    match target {
        TypeData::Modifier(m) if m.underlying_type == class => ThisParameter {
            constant: m.constant,
            argument: None,
        },
        _ => ThisParameter {
            constant: false,
            argument: Some(this),
        },
    }
}
