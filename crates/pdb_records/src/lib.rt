//! The records of a program database: symbols, line rows, types and modules, as plain values.
//!
//! This crate doesn't read files. A reader of PDB files or of records files fills in these records. For any records,
//! the crates above return an answer or a named error.
//!
//! Each record that isn't `Copy` implements `Drop` by hand. A derived one would be proved again in each crate that
//! drops such a record.
#![tactic(auto)]

mod addresses;
mod debug_information;
mod error;
mod ids;
mod lines;
mod module_provider;
mod modules;
pub mod order_laws;
mod pdb;
mod raw_string;
mod reading;
mod strings;
mod symbol_kinds;
mod symbols;
mod types;

pub use addresses::{AddressMap, AddressRange, ImageSectionHeader, PdbInternalSectionOffset, Rva};
pub use debug_information::{DebugInformation, MachineType, Module, SectionContribution};
pub use error::{Error, StreamError};
pub use ids::{
    FunctionId, IdData, IdIndex, IdInformation, MemberFunctionId, StringId, StringListId,
    UnhandledId,
};
pub use lines::{FileIndex, FileInfo, LineInfo, LineProgram, SymbolLines};
pub use module_provider::ModuleProvider;
pub use modules::{CrossModuleExports, CrossModuleImports, ImportedModule, Inlinee, ModuleInfo};
pub use pdb::PDB;
pub use raw_string::RawString;
pub use reading::Reading;
pub use strings::{StringRef, StringTable};
pub use symbol_kinds::{
    S_GPROC32, S_GPROC32_ID, S_GPROC32_ST, S_INLINESITE, S_INLINESITE2, S_LPROC32, S_LPROC32_DPC,
    S_LPROC32_DPC_ID, S_LPROC32_ID, S_LPROC32_ST, S_PUB32, S_PUB32_ST, S_SEPCODE, S_THUNK32,
    S_THUNK32_ST, is_code_kind, is_procedure_kind, is_public_kind, is_site_kind,
};
pub use symbols::{
    InlineRow, InlineSiteSymbol, ProcedureSymbol, PublicSymbol, SeparatedCodeSymbol, Symbol,
    SymbolData, SymbolIndex, SymbolTable, ThunkSymbol,
};
pub use types::{
    ArgumentList, ArrayType, ClassKind, ClassType, EnumerateType, EnumerationType, Item,
    ItemInformation, MemberFunctionType, ModifierType, PointerMode, PointerType, PrimitiveKind,
    PrimitiveType, ProcedureType, TypeData, TypeIndex, TypeInformation, UnhandledType, UnionType,
    Variant,
};
