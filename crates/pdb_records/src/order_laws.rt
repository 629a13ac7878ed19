//! Laws: the order, the equality and the hash of index types agree. The functions do nothing.
//!
//! Each function's contract is a law, which the checker proves for all values.

ghost use Rattle.pdb_records.specs.OrderLaws.{OrderAgrees, HashAgrees};

use crate::ids::IdIndex;
use crate::lines::FileIndex;
use crate::strings::StringRef;
use crate::symbols::SymbolIndex;
use crate::types::TypeIndex;
use std::hash::Hash;

/// Two indices are equal exactly if neither is ordered before the other.
pub fn order_of_indices_agrees_with_equality()
    ensures types { OrderAgrees ⟦<TypeIndex as Ord>⟧.cmp ⟦<TypeIndex as PartialEq>⟧.eq }
    ensures ids { OrderAgrees ⟦<IdIndex as Ord>⟧.cmp ⟦<IdIndex as PartialEq>⟧.eq }
    ensures symbols { OrderAgrees ⟦<SymbolIndex as Ord>⟧.cmp ⟦<SymbolIndex as PartialEq>⟧.eq }
    ensures files { OrderAgrees ⟦<FileIndex as Ord>⟧.cmp ⟦<FileIndex as PartialEq>⟧.eq }
    ensures strings { OrderAgrees ⟦<StringRef as Ord>⟧.cmp ⟦<StringRef as PartialEq>⟧.eq }
{}

/// Equal indices have equal hashes.
pub fn hash_of_indices_agrees_with_equality()
    ensures types { HashAgrees ⟦<TypeIndex as PartialEq>⟧.eq ⟦<TypeIndex as Hash>⟧.hash_input }
    ensures ids { HashAgrees ⟦<IdIndex as PartialEq>⟧.eq ⟦<IdIndex as Hash>⟧.hash_input }
    ensures symbols { HashAgrees ⟦<SymbolIndex as PartialEq>⟧.eq ⟦<SymbolIndex as Hash>⟧.hash_input }
    ensures files { HashAgrees ⟦<FileIndex as PartialEq>⟧.eq ⟦<FileIndex as Hash>⟧.hash_input }
    ensures strings { HashAgrees ⟦<StringRef as PartialEq>⟧.eq ⟦<StringRef as Hash>⟧.hash_input }
{}
