//! Offsets of the fields of symbols, in bytes after the kind, with the fields' names in the published format.

/// The offset of the symbol that closes a block (`pEnd`), in a procedure, a thunk, separated code or an inline site.
pub(crate) const END: usize = 4;

/// A public symbol (`PUBSYM32`): `off`, `seg`, and `name`.
pub(crate) const PUBLIC_OFFSET: usize = 4;

pub(crate) const PUBLIC_SECTION: usize = 8;

pub(crate) const PUBLIC_NAME: usize = 10;

/// A procedure (`PROCSYM32`): `len`, `typind`, `off`, `seg`, and `name`.
pub(crate) const PROCEDURE_LENGTH: usize = 12;

pub(crate) const PROCEDURE_TYPE: usize = 24;

pub(crate) const PROCEDURE_OFFSET: usize = 28;

pub(crate) const PROCEDURE_SECTION: usize = 32;

pub(crate) const PROCEDURE_NAME: usize = 35;

/// The name of a procedure whose symbol also has `retReg` (`PROCSYMIA64`, `MANPROCSYM`). All other fields are at the
/// same offsets.
pub(crate) const PROCEDURE_NAME_BEHIND_REGISTER: usize = 37;

/// A thunk (`THUNKSYM32`): `off`, `seg`, `len`, and `name`.
pub(crate) const THUNK_OFFSET: usize = 12;

pub(crate) const THUNK_SECTION: usize = 16;

pub(crate) const THUNK_LENGTH: usize = 18;

pub(crate) const THUNK_NAME: usize = 21;

/// Separated code (`SEPCODESYM`): `length`, `off`, `offParent`, `sect`, `sectParent`, and the size of all fields.
pub(crate) const SEPARATED_LENGTH: usize = 8;

pub(crate) const SEPARATED_OFFSET: usize = 16;

pub(crate) const SEPARATED_PARENT_OFFSET: usize = 20;

pub(crate) const SEPARATED_SECTION: usize = 24;

pub(crate) const SEPARATED_PARENT_SECTION: usize = 26;

pub(crate) const SEPARATED_SIZE: usize = 28;

/// A trampoline (`TRAMPOLINESYM`): `cbThunk`, `offThunk`, `offTarget`, `sectThunk`, `sectTarget`, and the size of all
/// fields.
pub(crate) const JUMP_LENGTH: usize = 2;

pub(crate) const JUMP_OFFSET: usize = 4;

pub(crate) const JUMP_TARGET_OFFSET: usize = 8;

pub(crate) const JUMP_SECTION: usize = 12;

pub(crate) const JUMP_TARGET_SECTION: usize = 14;

pub(crate) const JUMP_SIZE: usize = 16;

/// An inline site (`INLINESITESYM`): `inlinee`, and `binaryAnnotations`, which follow `invocations` in the second form
/// (`INLINESITESYM2`).
pub(crate) const INLINEE: usize = 8;

pub(crate) const ANNOTATIONS: usize = 12;

pub(crate) const COUNTED_ANNOTATIONS: usize = 16;
