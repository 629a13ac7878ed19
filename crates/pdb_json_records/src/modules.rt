//! Reads the records of a module: symbols, line program, inlinees, imports and exports.

ghost use Rattle.pdb_json_records.specs.Members.{list_of};
ghost use Rattle.pdb_json_records.specs.Modules.{inlinee_of, import_of, export_of, info_of};

use crate::members::{Elements, FromJson, member};
use pdb_json_values::{Reader, RecordFault, object};
use pdb_records::{CrossModuleExports, CrossModuleImports, ImportedModule, Inlinee, ModuleInfo};
use serde_json::Value;

impl FromJson for Inlinee {
    ghost read = { λ _. inlinee_of };

    #[tactic(auto, unfolding(crate::specs::Modules::inlinee_of))]
    fn from_json(reader: Reader, value: Option<&Value>) -> Result<Inlinee, RecordFault> {
        Ok(Inlinee {
            index: FromJson::from_json(reader, value)?,
        })
    }
}

impl FromJson for ImportedModule {
    ghost read = { λ _. import_of };

    #[tactic(auto, unfolding(crate::specs::Modules::import_of))]
    fn from_json(reader: Reader, value: Option<&Value>) -> Result<ImportedModule, RecordFault> {
        let imported = object(reader, value)?;
        let module = member(reader, imported, "module")?;
        let locals: Elements<u32> = member(reader, imported, "locals")?;
        Ok(ImportedModule {
            module,
            locals: locals.elements,
        })
    }
}

// An export: a number, and the index of the type or id.
impl FromJson for (u32, u32) {
    ghost read = { λ _. export_of };

    #[tactic(auto, unfolding(crate::specs::Modules::export_of))]
    fn from_json(reader: Reader, value: Option<&Value>) -> Result<(u32, u32), RecordFault> {
        let exported = object(reader, value)?;
        Ok((
            member(reader, exported, "local")?,
            member(reader, exported, "global")?,
        ))
    }
}

impl FromJson for CrossModuleImports {
    ghost read = { λ _. list_of import_of };

    fn from_json(reader: Reader, value: Option<&Value>) -> Result<CrossModuleImports, RecordFault> {
        let imports = Elements::<ImportedModule>::from_json(reader, value)?;
        Ok(CrossModuleImports {
            modules: imports.elements,
        })
    }
}

impl FromJson for CrossModuleExports {
    ghost read = { λ _. list_of export_of };

    fn from_json(reader: Reader, value: Option<&Value>) -> Result<CrossModuleExports, RecordFault> {
        let exports = Elements::<(u32, u32)>::from_json(reader, value)?;
        Ok(CrossModuleExports {
            exports: exports.elements,
        })
    }
}

impl FromJson for ModuleInfo {
    ghost read = { info_of };

    #[tactic(auto, unfolding(crate::specs::Modules::info_of))]
    fn from_json(reader: Reader, value: Option<&Value>) -> Result<ModuleInfo, RecordFault> {
        let info = object(reader, value)?;
        let symbols = member(reader, info, "symbols")?;
        let line_program = member(reader, info, "line_program")?;
        let inlinees = member(reader, info, "inlinees")?;
        let imports = member(reader, info, "imports")?;
        let exports = member(reader, info, "exports")?;
        Ok(ModuleInfo {
            symbols,
            line_program,
            inlinees,
            imports,
            exports,
        })
    }
}
