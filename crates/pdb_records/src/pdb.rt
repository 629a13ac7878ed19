//! `PDB`: all records of a program. Each stream is either read or has its own error.

use crate::addresses::{AddressMap, ImageSectionHeader};
use crate::debug_information::DebugInformation;
use crate::error::StreamError;
use crate::ids::IdInformation;
use crate::modules::ModuleInfo;
use crate::strings::StringTable;
use crate::symbols::SymbolTable;
use crate::types::TypeInformation;
use std::marker::Model;

/// All records of a program. Each stream is either read or has its own error.
pub struct PDB {
    /// The section headers, or `None` if the records have none.
    pub sections: Result<Option<Vec<ImageSectionHeader>>, StreamError>,
    pub address_map: Result<AddressMap, StreamError>,
    pub global_symbols: Result<SymbolTable, StreamError>,
    pub debug_information: Result<DebugInformation, StreamError>,
    pub type_information: Result<TypeInformation, StreamError>,
    pub id_information: Result<IdInformation, StreamError>,
    pub string_table: Result<StringTable, StreamError>,
    /// The records of each module, in the order of the list of modules.
    pub module_infos: Vec<Result<Option<ModuleInfo>, StreamError>>,
}

impl Drop for PDB {
    fn drop(self) {
        let PDB {
            sections: _,
            address_map: _,
            global_symbols: _,
            debug_information: _,
            type_information: _,
            id_information: _,
            string_table: _,
            module_infos: _,
        } = self;
    }
}

impl Model for PDB {
    ghost use Rattle.pdb_records.specs.Records.{Records};

    ghost Value = { Records };

    ghost use Rattle.pdb_records.specs.Sections.{listed};

    ghost view = { λ p. record {
      sections = listed p.sections;
      address_map = p.address_map;
      global_symbols = p.global_symbols;
      debug_information = p.debug_information;
      type_information = p.type_information;
      id_information = p.id_information;
      string_table = p.string_table;
      module_infos = p.module_infos.items;
    } };
}
