//! Prints each signature of a procedure and each name of an id once, and then takes it from a cache.

ghost use Rattle.std.specs.Prelude.{◌≡◌, Some, List, ℕ, option_map, string_bytes, OnOk, MatchResult};
ghost use Rattle.pdb_records.specs.Names.{lossy};
ghost use Rattle.pdb_errors.specs.declared.error.Error.TheVariants.{OutOfMemory};
ghost use Rattle.pdb_functions.specs.FunctionMatches.{procedures_of_module};
ghost use Rattle.pdb_functions.specs.SymbolNames.{name_by_symbol};
ghost use Rattle.pdb_type_texts.specs.BrokenParts.{AddsBroken};
ghost use Rattle.pdb_type_printer.specs.Formatters.{Formatter};
ghost use Rattle.pdb_type_texts.specs.Printed.{signature_run, id_run};
ghost use Rattle.pdb_type_texts.specs.PrintInputs.{formatter_inputs};
ghost use Rattle.pdb_function_info.specs.CachedNames.{IsPrinted, signature_printing, IsSignatureCache, IsIdCache};
ghost use Rattle.pdb_function_info.specs.NameTexts.{signature_text, id_name, failed_by_id};

use crate::cached_signatures::CachedSignatures;
use crate::cached_texts::CachedTexts;
use crate::name_keys::{IdKey, SignatureKey, id_key, signature_key};
use crate::printed_names::{name_of_id, signature_of};
use pdb_errors::Result;
use pdb_frames::copy_of_name;
use pdb_functions::ProcedureSymbolFunction;
use pdb_records::{IdIndex, ModuleProvider};
use pdb_type_printer::TypeFormatter;
use std::alloc::{AllocError, Global};

// Caches the signature of a procedure.
fn cache_signature<P: ModuleProvider>(
    cached: &mut CachedSignatures<'_, P>,
    key: SignatureKey,
    text: &Option<String>,
) -> Result<(), AllocError>
    ensures is_cache { (f : Formatter P)
        → IsSignatureCache P.info (P.info cached.old.provider.now) f cached.old.texts.entries.items
        → ((name : List ℕ) → name_by_symbol key.symbol
        (procedures_of_module (P.info cached.old.provider.now) f.type_inputs.modules key.module_index) ≡ Some name
        → IsPrinted (signature_printing P.info f key name) f.failed (option_map string_bytes text.now))
        → IsSignatureCache P.info (P.info cached.old.provider.now) f cached.new.texts.entries.items }
    ensures provider { cached.new.provider ≡ cached.old.provider }
{
    let text = copy_of_name(text)?;
    cached.texts.put(key, text)
}

// The signature of a procedure of the module at a module index, if it can be printed. It is printed once, and then
// cached.
pub(crate) fn signature_once<P: ModuleProvider>(
    alloc: Global,
    formatter: &mut TypeFormatter<'_, P>,
    cached: &mut CachedSignatures<'_, P>,
    module_index: usize,
    procedure: ProcedureSymbolFunction<'_>,
) -> Result<Option<String>>
    requires is_cache { IsSignatureCache P.info
        (P.info cached.old.provider.now) formatter.old cached.old.texts.entries.items }
    requires named { name_by_symbol procedure.symbol_index.0
        (procedures_of_module (P.info cached.old.provider.now) formatter.old.type_inputs.modules module_index)
        ≡ Some procedure.name.now }
    ensures answer { MatchResult result
        (λ text. option_map string_bytes text ≡ signature_text P.info formatter.old.type_inputs module_index
        (lossy procedure.entry.name.now) procedure.entry.type_index.0)
        (λ e. e ≡ OutOfMemory) }
    ensures type_inputs { formatter.new.type_inputs ≡ formatter.old.type_inputs }
    ensures failed { OnOk result (let run = signature_run P.info formatter.old.type_inputs module_index
        (lossy procedure.entry.name.now) procedure.entry.type_index.0 formatter.old.failed in
        formatter.new.failed ≡ run.failed) }
    ensures broken { AddsBroken (formatter_inputs P.info formatter.old.type_inputs module_index)
        formatter.old.failed formatter.new.failed }
    ensures is_cache { IsSignatureCache P.info
        (P.info cached.old.provider.now) formatter.new cached.new.texts.entries.items }
    ensures provider { cached.new.provider ≡ cached.old.provider }
{
    let key = signature_key(module_index, procedure);
    if let Some(text) = cached.texts.text(key)? {
        return Ok(text);
    }
    let name = procedure.name.to_string_lossy(alloc)?;
    let text = signature_of(formatter, name.as_str(), module_index, procedure.type_index)?;
    cache_signature(cached, key, &text)?;
    Ok(text)
}

// Caches the text of an id.
fn cache_id<P: ModuleProvider>(
    cached: &mut CachedTexts<IdKey>,
    key: IdKey,
    text: &Option<String>,
) -> Result<(), AllocError>
    ensures { (f : Formatter P) → IsIdCache P.info f cached.old.entries.items
        → IsPrinted (id_run P.info f.type_inputs key.module_index key.index) f.failed (option_map string_bytes text.now)
        → IsIdCache P.info f cached.new.entries.items }
{
    let text = copy_of_name(text)?;
    cached.put(key, text)
}

// The text of an id that the module at a module index uses, if it can be printed. It is printed once, and then cached.
pub(crate) fn id_once<P: ModuleProvider>(
    formatter: &mut TypeFormatter<'_, P>,
    cached: &mut CachedTexts<IdKey>,
    module_index: usize,
    id: IdIndex,
) -> Result<Option<String>>
    requires is_cache { IsIdCache P.info formatter.old cached.old.entries.items }
    ensures answer { MatchResult result
        (λ name. option_map string_bytes name ≡ id_name P.info formatter.old.type_inputs module_index id)
        (λ e. e ≡ OutOfMemory) }
    ensures type_inputs { formatter.new.type_inputs ≡ formatter.old.type_inputs }
    ensures failed { OnOk result (formatter.new.failed
        ≡ failed_by_id P.info formatter.old.type_inputs module_index id formatter.old.failed) }
    ensures broken { AddsBroken (formatter_inputs P.info formatter.old.type_inputs module_index)
        formatter.old.failed formatter.new.failed }
    ensures is_cache { IsIdCache P.info formatter.new cached.new.entries.items }
{
    let key = id_key(module_index, id);
    if let Some(text) = cached.text(key)? {
        return Ok(text);
    }
    let text = name_of_id(formatter, module_index, id)?;
    cache_id::<P>(cached, key, &text)?;
    Ok(text)
}
