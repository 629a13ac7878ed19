//! Reads the debug information: the machine type, the modules, and the contributions to sections.

ghost use Rattle.pdb_json_records.specs.DebugInformation.{machine_of, module_of, contribution_of, debug_information_of};

use crate::members::{FromJson, member};
use crate::name_values::named;
use crate::sections::section_offset;
use pdb_json_values::{Reader, RecordFault, object, text};
use pdb_records::{DebugInformation, MachineType, Module, SectionContribution};
use serde_json::Value;

/// The names of the machines that the format knows.
pub const MACHINES: [(&str, MachineType); 5] = [
    ("Amd64", MachineType::Amd64),
    ("Arm64", MachineType::Arm64),
    ("Ia64", MachineType::Ia64),
    ("RiscV64", MachineType::RiscV64),
    ("RiscV128", MachineType::RiscV128),
];

impl FromJson for MachineType {
    ghost read = { λ _. machine_of };

    #[tactic(auto, unfolding(crate::specs::DebugInformation::machine_of))]
    fn from_json(reader: Reader, value: Option<&Value>) -> Result<MachineType, RecordFault> {
        let name = text(reader, value)?;
        Ok(named(name, &MACHINES).unwrap_or(MachineType::Other))
    }
}

impl FromJson for Module {
    ghost read = { module_of };

    #[tactic(auto, unfolding(crate::specs::DebugInformation::module_of))]
    fn from_json(reader: Reader, value: Option<&Value>) -> Result<Module, RecordFault> {
        let module = object(reader, value)?;
        Ok(Module {
            name: member(reader, module, "name")?,
        })
    }
}

impl FromJson for SectionContribution {
    ghost read = { λ _. contribution_of };

    #[tactic(auto, unfolding(crate::specs::DebugInformation::contribution_of))]
    fn from_json(
        reader: Reader,
        value: Option<&Value>,
    ) -> Result<SectionContribution, RecordFault> {
        let contribution = object(reader, value)?;
        Ok(SectionContribution {
            offset: section_offset(reader, contribution, "section", "offset")?,
            size: member(reader, contribution, "size")?,
            module: member(reader, contribution, "module")?,
        })
    }
}

impl FromJson for DebugInformation {
    ghost read = { debug_information_of };

    #[tactic(auto, unfolding(crate::specs::DebugInformation::debug_information_of))]
    fn from_json(reader: Reader, value: Option<&Value>) -> Result<DebugInformation, RecordFault> {
        let debug = object(reader, value)?;
        let machine_type = member(reader, debug, "machine_type")?;
        let modules = member(reader, debug, "modules")?;
        let section_contributions = member(reader, debug, "section_contributions")?;
        Ok(DebugInformation {
            machine_type,
            modules,
            section_contributions,
        })
    }
}
