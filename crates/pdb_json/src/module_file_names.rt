//! Reads the names of the module files in a records file.

ghost use Rattle.std.specs.Prelude.{◌≡◌};
ghost use Rattle.serde_json.specs.View.{view};
ghost use Rattle.pdb_json_values.specs.RecordFault.{Agrees};
ghost use Rattle.pdb_json.specs.ModuleFiles.{stands_for_file, module_file_name_of};
ghost use Rattle.pdb_json.specs.ModuleFiles.{module_file_names_of, module_file_names_in_version};

use pdb_json_records::{FromJson, Text, element, member};
use pdb_json_values::{Reader, RecordFault, array};
use serde_json::Value;
use std::marker::Model;

// Whether an element of `module_infos` names a module file.
pub(crate) fn stands_for_file(reader: Reader, value: &Value) -> bool
    ensures { result ≡ stands_for_file reader.version (view value.now) }
{
    value.get("file").is_some() && value.get("error").is_none() && reader.has_module_files()
}

// The name of a module file, if an element names one.
#[derive(Drop)]
struct ModuleFileName {
    name: Option<String>,
}

impl Model for ModuleFileName {
    ghost use Rattle.std.specs.Prelude.{List, ℕ, Option, option_map, string_bytes};

    ghost Value = { Option (List ℕ) };

    ghost view = { λ f. option_map string_bytes f.name };
}

impl FromJson for ModuleFileName {
    ghost read = { module_file_name_of };

    #[tactic(auto, unfolding(crate::specs::ModuleFiles::module_file_name_of))]
    fn from_json(reader: Reader, value: Option<&Value>) -> Result<ModuleFileName, RecordFault> {
        match value {
            Some(value) if stands_for_file(reader, value) => {
                let name: Text = member(reader, value, "file")?;
                Ok(ModuleFileName {
                    name: Some(name.text),
                })
            }
            _ => Ok(ModuleFileName { name: None }),
        }
    }
}

// The names of module files.
#[derive(Drop)]
pub(crate) struct ModuleFileNames {
    pub names: Vec<String>,
}

impl Model for ModuleFileNames {
    ghost use Rattle.std.specs.Prelude.{List, ℕ, map, string_bytes};

    ghost Value = { List (List ℕ) };

    ghost view = { λ f. map string_bytes f.names.items };
}

impl FromJson for ModuleFileNames {
    ghost read = { module_file_names_of };

    #[tactic(auto, unfolding(crate::specs::ModuleFiles::module_file_names_of))]
    fn from_json(reader: Reader, value: Option<&Value>) -> Result<ModuleFileNames, RecordFault> {
        let values = array(reader, value)?;
        let mut names = Vec::new(reader.alloc);
        for (number, value) in values.iter().enumerate() {
            let file: ModuleFileName = element(reader, number, value)?;
            if let Some(name) = file.name {
                names.push(name)?;
            }
        }
        Ok(ModuleFileNames { names })
    }
}

// Reads the names of the module files in a records file of the reader's version.
#[tactic(auto, unfolding(crate::specs::ModuleFiles::module_file_names_in_version))]
pub(crate) fn module_file_names(
    reader: Reader,
    file: &Value,
) -> Result<ModuleFileNames, RecordFault>
    ensures { Agrees result (module_file_names_in_version reader.version (view file.now)) }
{
    if reader.has_module_files() {
        member(reader, file, "module_infos")
    } else {
        Ok(ModuleFileNames {
            names: Vec::new(reader.alloc),
        })
    }
}
