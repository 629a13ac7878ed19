//! `RawString`: a name in the records, as bytes, and its conversion to text.

ghost use Rattle.std.specs.Prelude.{◌≡◌, true, IfOk, IsOk};
ghost use Rattle.std.specs.Cow.{cow_str_bytes};
ghost use Rattle.std.specs.Str.{is_utf8};
ghost use Rattle.pdb_records.specs.Names.{lossy, is_borrowed};

use bstr::ByteSlice;
use std::alloc::{AllocError, Global};
use std::borrow::CowStr;
use std::marker::Model;

/// A name in the records: bytes that are UTF-8 only by convention.
#[derive(Clone)]
pub struct RawString(pub Vec<u8>);

impl Drop for RawString {
    fn drop(self) {
        let RawString(_) = self;
    }
}

impl Model for RawString {
    ghost use Rattle.std.specs.Prelude.{ℕ, List};

    ghost Value = { List ℕ };

    ghost view = { λ s. s.0.items };
}

impl RawString {
    /// The name as text. Each ill-formed sequence of bytes in it becomes one U+FFFD.
    ///
    /// A name in UTF-8 is borrowed, without an allocation. Any other one is copied; `AllocError` if memory runs out.
    #[tactic(auto, using(crate::proofs::NameLemmas::by_utf8))]
    pub fn to_string_lossy(&self, alloc: Global) -> Result<CowStr<'_>, AllocError>
        ensures answer { IfOk result (λ text. cow_str_bytes text ≡ lossy self.now) }
        ensures borrowed { IfOk result (λ text. is_borrowed text ≡ is_utf8 self.now) }
        ensures memory { is_utf8 self.now ≡ true → IsOk result }
    {
        match str::from_utf8(self.0.as_slice()) {
            Ok(text) => Ok(CowStr::Borrowed(text)),
            Err(_) => {
                let text = self.0.as_slice().to_str_lossy(alloc)?;
                Ok(CowStr::Owned(text.into_owned(alloc)?))
            }
        }
    }
}
