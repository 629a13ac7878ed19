//! The records of ids: functions that may be inlined, their scopes, and strings.

use crate::raw_string::RawString;
use crate::types::{ItemInformation, TypeIndex};
use std::marker::Model;

/// The index of an id. If bit 31 is set, it is a cross-module index: an import of the module that uses it.
#[derive(Clone, Copy, PartialEq, Eq, PartialOrd, Ord, Hash)]
pub struct IdIndex(pub u32);

/// The ids of a program: functions that may be inlined, their scopes, and strings.
pub type IdInformation = ItemInformation<IdIndex, IdData>;

/// The content of an id.
pub enum IdData {
    MemberFunction(MemberFunctionId),
    Function(FunctionId),
    String(StringId),
    StringList(StringListId),
    /// A known kind that isn't printed.
    Other(UnhandledId),
}

impl Drop for IdData {
    fn drop(self) {
        match self {
            IdData::MemberFunction(_) => {}
            IdData::Function(_) => {}
            IdData::String(_) => {}
            IdData::StringList(_) => {}
            IdData::Other(_) => {}
        }
    }
}

/// A member function of a class.
pub struct MemberFunctionId {
    pub parent: TypeIndex,
    pub function_type: TypeIndex,
    pub name: RawString,
}

impl Drop for MemberFunctionId {
    fn drop(self) {
        let MemberFunctionId {
            parent: _,
            function_type: _,
            name: _,
        } = self;
    }
}

/// A function that isn't a member of a class.
pub struct FunctionId {
    /// The namespace that contains it, if there is one.
    pub scope: Option<IdIndex>,
    pub function_type: TypeIndex,
    pub name: RawString,
}

impl Drop for FunctionId {
    fn drop(self) {
        let FunctionId {
            scope: _,
            function_type: _,
            name: _,
        } = self;
    }
}

/// A string, such as the name of a namespace.
pub struct StringId {
    pub name: RawString,
}

impl Drop for StringId {
    fn drop(self) {
        let StringId { name: _ } = self;
    }
}

/// A string that is the concatenation of other strings.
pub struct StringListId {
    pub substrings: Vec<TypeIndex>,
}

impl Drop for StringListId {
    fn drop(self) {
        let StringListId { substrings: _ } = self;
    }
}

impl Model for StringListId {
    ghost use Rattle.std.specs.Prelude.{List};
    ghost use Rattle.pdb_records.specs.declared.types.TypeIndex.{TypeIndex};

    ghost Value = { List TypeIndex };

    ghost view = { λ l. l.substrings.items };
}

/// An id of a known kind that isn't printed.
pub struct UnhandledId {
    /// The name of the kind.
    pub kind_name: String,
}

impl Drop for UnhandledId {
    fn drop(self) {
        let UnhandledId { kind_name: _ } = self;
    }
}

impl Model for UnhandledId {
    ghost use Rattle.std.specs.Prelude.{List, ℕ, string_bytes};

    ghost Value = { List ℕ };

    ghost view = { λ i. string_bytes i.kind_name };
}
