//! The records of types: classes, pointers, arrays, functions and others, in a list by their index.

use crate::error::Error;
use crate::raw_string::RawString;
use crate::reading::Reading;
use std::marker::Model;

/// The index of a type. If bit 31 is set, it is a cross-module index: an import of the module that uses it.
#[derive(Clone, Copy, PartialEq, Eq, PartialOrd, Ord, Hash)]
pub struct TypeIndex(pub u32);

/// An entry of a list of types or ids.
pub struct Item<I, D> {
    pub index: I,
    /// The content of the entry, or why it can't be read.
    pub content: Result<D, Error>,
}

impl<I: Drop, D: Drop> Drop for Item<I, D> {
    fn drop(self) {
        let Item {
            index: _,
            content: _,
        } = self;
    }
}

/// A list of types or ids. If several entries have the same index, the first one counts.
pub struct ItemInformation<I, D> {
    pub items: Reading<Item<I, D>>,
}

impl<I: Drop, D: Drop> Drop for ItemInformation<I, D> {
    fn drop(self) {
        let ItemInformation { items: _ } = self;
    }
}

/// The types of a program.
pub type TypeInformation = ItemInformation<TypeIndex, TypeData>;

/// The content of a type.
pub enum TypeData {
    Primitive(PrimitiveType),
    Class(ClassType),
    MemberFunction(MemberFunctionType),
    Procedure(ProcedureType),
    Pointer(PointerType),
    Array(ArrayType),
    Union(UnionType),
    Enumeration(EnumerationType),
    Enumerate(EnumerateType),
    Modifier(ModifierType),
    ArgumentList(ArgumentList),
    /// A known kind that isn't printed.
    Other(UnhandledType),
}

impl Drop for TypeData {
    fn drop(self) {
        match self {
            TypeData::Primitive(_) => {}
            TypeData::Class(_) => {}
            TypeData::MemberFunction(_) => {}
            TypeData::Procedure(_) => {}
            TypeData::Pointer(_) => {}
            TypeData::Array(_) => {}
            TypeData::Union(_) => {}
            TypeData::Enumeration(_) => {}
            TypeData::Enumerate(_) => {}
            TypeData::Modifier(_) => {}
            TypeData::ArgumentList(_) => {}
            TypeData::Other(_) => {}
        }
    }
}

/// A primitive type, or a pointer to one.
#[derive(Clone, Copy)]
pub struct PrimitiveType {
    pub kind: PrimitiveKind,
    /// Whether it is a pointer to a value of the kind.
    pub indirection: bool,
}

/// The primitive types.
#[derive(Clone, Copy, PartialEq, Eq)]
pub enum PrimitiveKind {
    NoType,
    Void,
    Char,
    UChar,
    RChar,
    WChar,
    RChar16,
    RChar32,
    Char8,
    I8,
    U8,
    Short,
    UShort,
    I16,
    U16,
    Long,
    ULong,
    I32,
    U32,
    Quad,
    UQuad,
    I64,
    U64,
    Octa,
    UOcta,
    I128,
    U128,
    F16,
    F32,
    F32PP,
    F48,
    F64,
    F80,
    F128,
    Complex32,
    Complex64,
    Complex80,
    Complex128,
    Bool8,
    Bool16,
    Bool32,
    Bool64,
    HRESULT,
}

/// Whether a class was declared as a class, an interface or a struct.
#[derive(Clone, Copy, PartialEq, Eq)]
pub enum ClassKind {
    Class,
    Interface,
    Struct,
}

/// A class, a struct or an interface.
pub struct ClassType {
    pub class_kind: ClassKind,
    pub name: RawString,
    /// The unique name, if there is one, by which forward references are matched to their definition.
    pub unique_name: Option<RawString>,
    /// Its size in bytes.
    pub size: u64,
    /// Whether it is only a forward reference, without members.
    pub forward_reference: bool,
}

impl Drop for ClassType {
    fn drop(self) {
        let ClassType {
            class_kind: _,
            name: _,
            unique_name: _,
            size: _,
            forward_reference: _,
        } = self;
    }
}

/// The type of a member function of a class.
#[derive(Clone, Copy)]
pub struct MemberFunctionType {
    pub return_type: TypeIndex,
    pub class_type: TypeIndex,
    /// The type of `this`. A static function has none.
    pub this_pointer_type: Option<TypeIndex>,
    pub is_constructor: bool,
    pub argument_list: TypeIndex,
}

/// The type of a function that isn't a member of a class.
#[derive(Clone, Copy)]
pub struct ProcedureType {
    pub return_type: Option<TypeIndex>,
    pub is_constructor: bool,
    pub argument_list: TypeIndex,
}

/// Whether a pointer is an ordinary one, a reference, or a pointer to a member.
#[derive(Clone, Copy, PartialEq, Eq)]
pub enum PointerMode {
    Pointer,
    LValueReference,
    Member,
    MemberFunction,
    RValueReference,
}

/// A pointer or a reference.
#[derive(Clone, Copy)]
pub struct PointerType {
    pub underlying_type: TypeIndex,
    pub mode: PointerMode,
    /// Whether the pointer itself is constant.
    pub is_const: bool,
    /// Its size in bytes.
    pub size: u8,
}

/// An array. Its dimensions are sizes in bytes, and it has at least one.
pub struct ArrayType {
    pub element_type: TypeIndex,
    pub first: u32,
    pub rest: Vec<u32>,
}

impl Drop for ArrayType {
    fn drop(self) {
        let ArrayType {
            element_type: _,
            first: _,
            rest: _,
        } = self;
    }
}

impl Model for ArrayType {
    ghost use Rattle.pdb_records.specs.Arrays.{Dimensions};

    ghost Value = { Dimensions };

    ghost view = { λ a. record { element_type = a.element_type; first = a.first; rest = a.rest.items } };
}

/// A union.
pub struct UnionType {
    pub name: RawString,
    /// The unique name, if there is one, by which forward references are matched to their definition.
    pub unique_name: Option<RawString>,
    /// Its size in bytes.
    pub size: u64,
    /// Whether it is only a forward reference, without members.
    pub forward_reference: bool,
}

impl Drop for UnionType {
    fn drop(self) {
        let UnionType {
            name: _,
            unique_name: _,
            size: _,
            forward_reference: _,
        } = self;
    }
}

/// An enumeration of named values.
pub struct EnumerationType {
    pub name: RawString,
    pub underlying_type: TypeIndex,
}

impl Drop for EnumerationType {
    fn drop(self) {
        let EnumerationType {
            name: _,
            underlying_type: _,
        } = self;
    }
}

/// One named value of an enumeration.
pub struct EnumerateType {
    pub name: RawString,
    pub value: Variant,
}

impl Drop for EnumerateType {
    fn drop(self) {
        let EnumerateType { name: _, value: _ } = self;
    }
}

/// A number with its declared width and sign.
#[derive(Clone, Copy)]
pub enum Variant {
    U8(u8),
    U16(u16),
    U32(u32),
    U64(u64),
    I8(i8),
    I16(i16),
    I32(i32),
    I64(i64),
}

/// A modifier of a type, such as `const`.
#[derive(Clone, Copy)]
pub struct ModifierType {
    pub underlying_type: TypeIndex,
    pub constant: bool,
}

/// The types of a function's arguments, in order.
pub struct ArgumentList {
    pub arguments: Vec<TypeIndex>,
}

impl Drop for ArgumentList {
    fn drop(self) {
        let ArgumentList { arguments: _ } = self;
    }
}

impl Model for ArgumentList {
    ghost use Rattle.std.specs.Prelude.{List};
    ghost use Rattle.pdb_records.specs.declared.types.TypeIndex.{TypeIndex};

    ghost Value = { List TypeIndex };

    ghost view = { λ l. l.arguments.items };
}

/// A type of a known kind that isn't printed.
pub struct UnhandledType {
    /// The name of the kind.
    pub kind_name: String,
}

impl Drop for UnhandledType {
    fn drop(self) {
        let UnhandledType { kind_name: _ } = self;
    }
}

impl Model for UnhandledType {
    ghost use Rattle.std.specs.Prelude.{List, ℕ, string_bytes};

    ghost Value = { List ℕ };

    ghost view = { λ t. string_bytes t.kind_name };
}
