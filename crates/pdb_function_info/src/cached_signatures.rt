//! `CachedSignatures`: cached signatures of procedures, with the provider of the procedures' records.

ghost use Rattle.std.specs.Prelude.{◌≡◌, []};

use crate::cached_texts::CachedTexts;
use crate::name_keys::SignatureKey;
use pdb_records::ModuleProvider;
use std::alloc::Global;

// Cached signatures of procedures. The provider has the records of the procedures' modules. In these, each symbol
// belongs to at most one procedure.
#[derive(Drop)]
pub(crate) struct CachedSignatures<'a, P: ModuleProvider> {
    pub(crate) provider: &'a P,
    pub(crate) texts: CachedTexts<SignatureKey>,
}

impl<'a, P: ModuleProvider> CachedSignatures<'a, P> {
    // An empty cache. It takes no memory.
    pub(crate) fn new(alloc: Global, provider: &'a P) -> Self
        ensures texts { result.texts.entries.items ≡ [] }
        ensures provider { result.provider ≡ provider.entry }
    {
        CachedSignatures {
            provider,
            texts: CachedTexts::new(alloc),
        }
    }
}
