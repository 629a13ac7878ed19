//! `is_closed`: whether the records that were read refer to no record that wasn't.

ghost use Rattle.std.specs.Prelude.{◌≡◌, true};
ghost use Rattle.std.specs.List.{list_all};
ghost use Rattle.pdb_known.specs.Known.{is_closed, all_items, is_type_item_closed, is_id_item_closed};
ghost use Rattle.pdb_known.specs.Known.{are_sites_closed};
ghost use Rattle.pdb_known.specs.StrictlyClosed.{is_strictly_closed, are_modules_strictly_closed};
ghost use Rattle.pdb_known.specs.StrictlyClosed.{is_module_strictly_closed, is_info_strictly_closed};
ghost use Rattle.pdb_known.specs.StrictlyClosed.{is_procedure_type_read, is_inlinee_read};

use crate::entries_behind::{
    is_id_closed, is_inlinee_read, is_procedure_type_read, is_type_closed,
};
use crate::known_records::KnownRecords;
use pdb_records::{
    IdData, IdIndex, IdInformation, Item, ModuleInfo, StreamError, Symbol, TypeData, TypeIndex,
    TypeInformation,
};

/// Whether the records that were read are enough to answer from: all were read, or each type and id to which a module,
/// a type or an id refers was read, too.
///
/// Each procedure of a module counts, also one that starts where an earlier one does, although answers need only the
/// first. So the result may be `false` although only types of such procedures are missing.
///
/// Takes time in proportion to the number of symbols, types and ids in memory, and of the indices in them.
#[tactic(auto, using(crate::proofs::StrictlyClosedLemmas::closed_from_strictly))]
pub fn is_closed(known: &KnownRecords) -> bool
    ensures answer { result ≡ is_strictly_closed known.now }
    ensures closed { result ≡ true → is_closed known.now ≡ true }
{
    if known.all {
        return true;
    }
    let records = &known.records;
    are_modules_closed(known, &records.module_infos)
        && are_types_closed(known, &records.type_information)
        && are_ids_closed(known, &records.id_information)
}

// Whether each module that was read is closed.
fn are_modules_closed(
    known: &KnownRecords,
    answers: &[Result<Option<ModuleInfo>, StreamError>],
) -> bool
    ensures { result ≡ are_modules_strictly_closed known.now 0 answers.now }
{
    for (module_index, answer) in answers.iter().enumerate() {
        if known.is_read(module_index) && !is_module_closed(known, answer) {
            return false;
        }
    }
    true
}

// Whether the types of a module's procedures were read, and the ids of its inline sites.
fn is_module_closed(known: &KnownRecords, answer: &Result<Option<ModuleInfo>, StreamError>) -> bool
    ensures { result ≡ is_module_strictly_closed known.now answer.now }
{
    match answer {
        Ok(Some(info)) => is_info_closed(known, info),
        _ => true,
    }
}

fn is_info_closed(known: &KnownRecords, info: &ModuleInfo) -> bool
    ensures { result ≡ is_info_strictly_closed known.now info.now }
{
    let symbols = &info.symbols;
    (symbols.fault.is_some() || are_procedure_types_read(known, &symbols.items))
        && are_sites_closed(known, info)
}

// Whether the types of the procedures among the symbols were read.
fn are_procedure_types_read(known: &KnownRecords, symbols: &[Symbol]) -> bool
    ensures { result ≡ list_all (is_procedure_type_read known.now) symbols.now }
{
    for symbol in symbols {
        if !is_procedure_type_read(known, symbol) {
            return false;
        }
    }
    true
}

// Whether the ids of the inline sites of a module were read.
fn are_sites_closed(known: &KnownRecords, info: &ModuleInfo) -> bool
    ensures { result ≡ are_sites_closed known.now info.now }
{
    are_inlinees_read(known, &info.symbols.items)
}

// Whether the ids of the inline sites that symbols open were read.
fn are_inlinees_read(known: &KnownRecords, symbols: &[Symbol]) -> bool
    ensures { result ≡ list_all (is_inlinee_read known.now) symbols.now }
{
    for symbol in symbols {
        if !is_inlinee_read(known, symbol) {
            return false;
        }
    }
    true
}

// Whether each type is closed; also if the types can't be read.
fn are_types_closed(known: &KnownRecords, types: &Result<TypeInformation, StreamError>) -> bool
    ensures { result ≡ all_items (is_type_item_closed known.now) types.now }
{
    match types {
        Ok(types) => are_type_items_closed(known, &types.items.items),
        Err(_) => true,
    }
}

fn are_type_items_closed(known: &KnownRecords, items: &[Item<TypeIndex, TypeData>]) -> bool
    ensures { result ≡ list_all (is_type_item_closed known.now) items.now }
{
    for item in items {
        if !is_type_item_closed(known, item) {
            return false;
        }
    }
    true
}

// Whether a type is closed; also if it can't be read, because then it refers to nothing.
fn is_type_item_closed(known: &KnownRecords, item: &Item<TypeIndex, TypeData>) -> bool
    ensures { result ≡ is_type_item_closed known.now item.now }
{
    match &item.content {
        Ok(content) => is_type_closed(known, item.index, content),
        Err(_) => true,
    }
}

// Whether each id is closed; also if the ids can't be read.
fn are_ids_closed(known: &KnownRecords, ids: &Result<IdInformation, StreamError>) -> bool
    ensures { result ≡ all_items (is_id_item_closed known.now) ids.now }
{
    match ids {
        Ok(ids) => are_id_items_closed(known, &ids.items.items),
        Err(_) => true,
    }
}

fn are_id_items_closed(known: &KnownRecords, items: &[Item<IdIndex, IdData>]) -> bool
    ensures { result ≡ list_all (is_id_item_closed known.now) items.now }
{
    for item in items {
        if !is_id_item_closed(known, item) {
            return false;
        }
    }
    true
}

// Whether an id is closed; also if it can't be read, because then it refers to nothing.
fn is_id_item_closed(known: &KnownRecords, item: &Item<IdIndex, IdData>) -> bool
    ensures { result ≡ is_id_item_closed known.now item.now }
{
    match &item.content {
        Ok(content) => is_id_closed(known, content),
        Err(_) => true,
    }
}
