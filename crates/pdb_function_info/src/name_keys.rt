//! The keys of cached names: a procedure's symbol and type, or an id, each with its module.

ghost use Rattle.std.specs.Prelude.{◌≡◌};

use crate::cached_texts::TextKey;
use pdb_functions::ProcedureSymbolFunction;
use pdb_records::IdIndex;

// The key of a hint: a module index, and the number of a symbol or an id in that module.
#[derive(Clone, Copy)]
pub(crate) struct HintKey {
    pub(crate) module_index: usize,
    pub(crate) number: usize,
}

// The key of a procedure's name: its module index, its symbol, and the index of its type.
#[derive(Clone, Copy, PartialEq, Eq, PartialOrd, Ord)]
pub(crate) struct SignatureKey {
    pub(crate) module_index: usize,
    pub(crate) symbol: usize,
    pub(crate) type_index: u32,
}

// The key of an id's text: the index of the module that uses it, and the id's index.
#[derive(Clone, Copy, PartialEq, Eq, PartialOrd, Ord)]
pub(crate) struct IdKey {
    pub(crate) module_index: usize,
    pub(crate) index: u32,
}

impl TextKey for SignatureKey {
    fn equals(self, other: Self) -> bool {
        self == other
    }

    fn hint_key(self) -> HintKey {
        HintKey {
            module_index: self.module_index,
            number: self.symbol,
        }
    }
}

impl TextKey for IdKey {
    fn equals(self, other: Self) -> bool {
        self == other
    }

    fn hint_key(self) -> HintKey {
        HintKey {
            module_index: self.module_index,
            number: self.index as usize,
        }
    }
}

// The key of a procedure of the module at a module index.
pub(crate) fn signature_key(
    module_index: usize,
    procedure: ProcedureSymbolFunction<'_>,
) -> SignatureKey
    ensures { result ≡ record {
      module_index = module_index;
      symbol = procedure.entry.symbol_index.0;
      type_index = procedure.entry.type_index.0;
    } }
{
    SignatureKey {
        module_index,
        symbol: procedure.symbol_index.0,
        type_index: procedure.type_index.0,
    }
}

// The key of an id that the module at a module index uses.
pub(crate) fn id_key(module_index: usize, id: IdIndex) -> IdKey
    ensures { result ≡ record { module_index = module_index; index = id.0 } }
{
    IdKey {
        module_index,
        index: id.0,
    }
}
