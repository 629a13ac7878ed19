//! `ImageBase`: turns given addresses into addresses relative to where the program is loaded.

ghost use Rattle.std.specs.Prelude.{◌≡◌};
ghost use Rattle.pdb_symbolizer_input.specs.ImageBases.{loaded_at, relative};

use crate::options::Base;

/// The base and the adjustment that are subtracted from given addresses.
#[derive(Clone, Copy)]
pub struct ImageBase {
    /// Where the program is loaded, if that is known.
    base: Option<u64>,
    adjust: u64,
}

impl ImageBase {
    /// The base for a file. `preferred` is the image base of a program, or `None`.
    pub fn new(base: Base, preferred: Option<u64>, adjust: u64) -> ImageBase
        ensures base { result.base ≡ loaded_at base preferred }
        ensures adjust { result.adjust ≡ adjust }
    {
        let base = match base {
            Base::Preferred => preferred,
            Base::Relative => Some(0),
            Base::At(address) => Some(address),
        };
        ImageBase { base, adjust }
    }

    /// Whether it is known where the program is loaded.
    pub fn is_known(self) -> bool {
        self.base.is_some()
    }

    /// The address relative to where the program is loaded; `None` if it doesn't fit 32 bits.
    pub fn relative(self, given: u64) -> Option<u32>
        ensures { result ≡ relative self given }
    {
        let base = self.base.unwrap_or(0);
        let address = given.wrapping_sub(base).wrapping_sub(self.adjust);
        match u32::try_from(address) {
            Ok(address) => Some(address),
            Err(_) => None,
        }
    }
}
