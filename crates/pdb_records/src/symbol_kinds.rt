//! The kinds of symbols that are used, by their numbers in the records.
//!
//! A name that ends in `_ST` is the older form of the same symbol.

ghost use Rattle.std.specs.Prelude.{◌≡◌};
ghost use Rattle.pdb_records.specs.SymbolKinds.{is_public_kind, is_procedure_kind, is_code_kind, is_site_kind};

/// A public symbol, which is visible outside its module.
pub const S_PUB32: u16 = 0x110e;
/// A public symbol, in the older form.
pub const S_PUB32_ST: u16 = 0x1009;
/// A local procedure, in the older form.
pub const S_LPROC32_ST: u16 = 0x100a;
/// A global procedure, in the older form.
pub const S_GPROC32_ST: u16 = 0x100b;
/// A local procedure, visible only in its module.
pub const S_LPROC32: u16 = 0x110f;
/// A global procedure, visible in every module.
pub const S_GPROC32: u16 = 0x1110;
/// A local procedure, with an id in place of its type.
pub const S_LPROC32_ID: u16 = 0x1146;
/// A global procedure, with an id in place of its type.
pub const S_GPROC32_ID: u16 = 0x1147;
/// A local procedure for a DPC target.
pub const S_LPROC32_DPC: u16 = 0x1155;
/// A local procedure for a DPC target, with an id in place of its type.
pub const S_LPROC32_DPC_ID: u16 = 0x1156;
/// A thunk, in the older form.
pub const S_THUNK32_ST: u16 = 0x0206;
/// A thunk: a few instructions that jump to a procedure.
pub const S_THUNK32: u16 = 0x1102;
/// Separated code: code of a procedure that is apart from its body.
pub const S_SEPCODE: u16 = 0x1132;
/// An inline site: a place where a call was replaced by the callee's body.
pub const S_INLINESITE: u16 = 0x114d;
/// An inline site, with the number of its invocations.
pub const S_INLINESITE2: u16 = 0x115d;

/// Whether this is the kind of a public symbol.
pub fn is_public_kind(raw_kind: u16) -> bool
    ensures { result ≡ is_public_kind raw_kind }
{
    matches!(raw_kind, S_PUB32 | S_PUB32_ST)
}

/// Whether this is the kind of a procedure.
pub fn is_procedure_kind(raw_kind: u16) -> bool
    ensures { result ≡ is_procedure_kind raw_kind }
{
    matches!(
        raw_kind,
        S_LPROC32
            | S_LPROC32_ST
            | S_GPROC32
            | S_GPROC32_ST
            | S_LPROC32_ID
            | S_GPROC32_ID
            | S_LPROC32_DPC
            | S_LPROC32_DPC_ID
    )
}

/// Whether symbols of this kind have a range of code: procedures, thunks, and separated code.
pub fn is_code_kind(raw_kind: u16) -> bool
    ensures { result ≡ is_code_kind raw_kind }
{
    is_procedure_kind(raw_kind) || matches!(raw_kind, S_THUNK32 | S_THUNK32_ST | S_SEPCODE)
}

/// Whether symbols of this kind matter inside a procedure: procedures and inline sites.
pub fn is_site_kind(raw_kind: u16) -> bool
    ensures { result ≡ is_site_kind raw_kind }
{
    is_procedure_kind(raw_kind) || matches!(raw_kind, S_INLINESITE | S_INLINESITE2)
}
