//! Reads line programs: the line rows of functions, and the source files that they name.

ghost use Rattle.pdb_json_records.specs.Lines.{line_info_of, symbol_lines_of, file_info_of, line_program_of};

use crate::members::{Elements, FromJson, member};
use crate::sections::section_offset;
use pdb_json_values::{Reader, RecordFault, object};
use pdb_records::{FileInfo, LineInfo, LineProgram, SymbolLines};
use serde_json::Value;

impl FromJson for LineInfo {
    ghost read = { λ _. line_info_of };

    #[tactic(auto, unfolding(crate::specs::Lines::line_info_of))]
    fn from_json(reader: Reader, value: Option<&Value>) -> Result<LineInfo, RecordFault> {
        let line = object(reader, value)?;
        Ok(LineInfo {
            offset: member(reader, line, "offset")?,
            file_index: member(reader, line, "file_index")?,
            line_start: member(reader, line, "line_start")?,
        })
    }
}

impl FromJson for SymbolLines {
    ghost read = { λ _. symbol_lines_of };

    #[tactic(auto, unfolding(crate::specs::Lines::symbol_lines_of))]
    fn from_json(reader: Reader, value: Option<&Value>) -> Result<SymbolLines, RecordFault> {
        let entry = object(reader, value)?;
        Ok(SymbolLines {
            offset: section_offset(reader, entry, "section", "offset")?,
            lines: member(reader, entry, "lines")?,
        })
    }
}

impl FromJson for FileInfo {
    ghost read = { λ _. file_info_of };

    #[tactic(auto, unfolding(crate::specs::Lines::file_info_of))]
    fn from_json(reader: Reader, value: Option<&Value>) -> Result<FileInfo, RecordFault> {
        Ok(FileInfo {
            name: FromJson::from_json(reader, value)?,
        })
    }
}

impl FromJson for LineProgram {
    ghost read = { λ _. line_program_of };

    #[tactic(auto, unfolding(crate::specs::Lines::line_program_of))]
    fn from_json(reader: Reader, value: Option<&Value>) -> Result<LineProgram, RecordFault> {
        let program = object(reader, value)?;
        let entries: Elements<SymbolLines> = member(reader, program, "entries")?;
        let files: Elements<FileInfo> = member(reader, program, "files")?;
        Ok(LineProgram {
            entries: entries.elements,
            files: files.elements,
        })
    }
}
