//! Prints names with a formatter. A name that can't be printed is `None`.

ghost use Rattle.std.specs.Prelude.{◌≡◌, ◌≢◌, None, option_map, string_bytes, OnOk, MatchResult};
ghost use Rattle.pdb_errors.specs.declared.error.Error.TheVariants.{OutOfMemory};
ghost use Rattle.pdb_type_texts.specs.BrokenParts.{AddsBroken};
ghost use Rattle.pdb_type_texts.specs.Printed.{signature_run};
ghost use Rattle.pdb_type_texts.specs.PrintInputs.{formatter_inputs};
ghost use Rattle.pdb_function_info.specs.NameTexts.{signature_text, id_name, failed_by_id};

use pdb_errors::{Error, Result};
use pdb_records::{IdIndex, ModuleProvider, TypeIndex};
use pdb_type_printer::TypeFormatter;

// `None` in place of an error. `OutOfMemory` is passed on.
fn no_text_for(error: Error) -> Result<Option<String>>
    ensures { MatchResult result
        (λ text. (text ≡ None) × (error ≢ OutOfMemory))
        (λ e. e ≡ OutOfMemory) }
{
    error.unless_out_of_memory()?;
    Ok(None)
}

// The signature of a function, if it can be printed. `OutOfMemory` if memory runs out.
pub(crate) fn signature_of<P: ModuleProvider>(
    formatter: &mut TypeFormatter<'_, P>,
    name: &str,
    module_index: usize,
    index: TypeIndex,
) -> Result<Option<String>>
    ensures answer { MatchResult result
        (λ text. option_map string_bytes text
        ≡ signature_text P.info formatter.old.type_inputs module_index name.now index.0)
        (λ e. e ≡ OutOfMemory) }
    ensures type_inputs { formatter.new.type_inputs ≡ formatter.old.type_inputs }
    ensures failed { OnOk result
        (let run = signature_run P.info formatter.old.type_inputs module_index name.now index.0 formatter.old.failed in
        formatter.new.failed ≡ run.failed) }
    ensures broken { AddsBroken (formatter_inputs P.info formatter.old.type_inputs module_index)
        formatter.old.failed formatter.new.failed }
{
    match formatter.format_function(name, module_index, index) {
        Ok(text) => Ok(Some(text)),
        Err(error) => no_text_for(error),
    }
}

// The name of an inlined function, if it can be printed. Its id is one that the module at this module index uses.
// `OutOfMemory` if memory runs out.
pub(crate) fn name_of_id<P: ModuleProvider>(
    formatter: &mut TypeFormatter<'_, P>,
    module_index: usize,
    id: IdIndex,
) -> Result<Option<String>>
    ensures answer { MatchResult result
        (λ name. option_map string_bytes name ≡ id_name P.info formatter.old.type_inputs module_index id)
        (λ e. e ≡ OutOfMemory) }
    ensures type_inputs { formatter.new.type_inputs ≡ formatter.old.type_inputs }
    ensures failed { OnOk result (formatter.new.failed
        ≡ failed_by_id P.info formatter.old.type_inputs module_index id formatter.old.failed) }
    ensures broken { AddsBroken (formatter_inputs P.info formatter.old.type_inputs module_index)
        formatter.old.failed formatter.new.failed }
{
    match formatter.format_id(module_index, id) {
        Ok(text) => Ok(Some(text)),
        Err(error) => no_text_for(error),
    }
}
