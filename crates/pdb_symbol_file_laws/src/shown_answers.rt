//! Laws on what a reader of a symbol file's text finds at an address.

ghost use Rattle.std.specs.Prelude.{◌≡◌, ◌<◌, ◌+◌, ◌++◌, ◌^◌, ℕ, List, All, Option, Some, None, map};
ghost use Rattle.std.specs.List.{flat_map};
ghost use Rattle.pdb_breakpad.specs.declared.module_record.ModuleIdentity.{ModuleIdentity};
ghost use Rattle.pdb_tables.specs.declared.segment.Segment.{Segment};
ghost use Rattle.pdb_breakpad.specs.RecordTypes.{FunctionRecords, Numbers};
ghost use Rattle.pdb_breakpad.specs.FunctionRecords.{Reads};
ghost use Rattle.pdb_breakpad.specs.FunctionWalk.{AreFunctions, StandBetween, function_over};
ghost use Rattle.pdb_breakpad.specs.ModuleRecord.{IsModuleLine, with_breaks};
ghost use Rattle.pdb_breakpad.specs.ShownFrames.{ShownFrame};
ghost use Rattle.pdb_breakpad.specs.SymbolFile.{WritesSymbolFile, symbol_file_text};
ghost use Rattle.pdb_breakpad.specs.WrittenRecords.{FitNumbers, FitTypes, InlinesAscend};
ghost use Rattle.pdb_symbol_file_laws.specs.RecordReader.{shown_by_records};
ghost use Rattle.pdb_symbol_file_laws.specs.SymbolFileRecords.{function_read, names_read};
ghost use Rattle.pdb_symbol_file_laws.specs.SymbolTextReader.{OtherLine};
ghost use Rattle.pdb_symbol_file_laws.specs.TextAnswers.{AppendsAnswers, NoneOpen, TextShows, frame_on_one_line};

use pdb_breakpad::FrameSource;

/// Take the records of a symbol file in which the inlined calls of each level follow one another. At an address, a
/// reader finds what the records of its function say, with names on one line. Without a function at the address it
/// finds nothing, except if the last function before the address has an unknown end: the text has only the start of
/// such a function.
#[tactic(auto, using(crate::proofs::AnswerLemmas::shown))]
pub fn records_show_functions()
    ensures over { (front : List (List ℕ)) (numbers : Numbers) (functions : List FunctionRecords) (from to address : ℕ)
        (records : FunctionRecords) (shown : List ShownFrame) → StandBetween from to functions
        → All InlinesAscend functions → function_over address functions ≡ Some records
        → Reads numbers records address shown → shown_by_records (map (λ line. OtherLine) front
        ++ (names_read numbers ++ flat_map function_read functions)) address ≡ Some (map frame_on_one_line shown) }
    ensures none { (front : List (List ℕ)) (numbers : Numbers) (functions : List FunctionRecords) (from to address : ℕ)
        → StandBetween from to functions → NoneOpen address functions → function_over address functions ≡ None
        → shown_by_records (map (λ line. OtherLine) front
        ++ (names_read numbers ++ flat_map function_read functions)) address ≡ None }
{}

/// At each 32-bit address, a reader of a symbol file's text finds what the source answers there, with names on one
/// line. It finds nothing if the source answers nothing, except if the last function before the address has an unknown
/// end.
pub fn text_shows_answers<'a, S: FrameSource<'a>>()
    ensures { (source : S) (front : List (List ℕ)) (numbers : Numbers) (parameters : List (Segment ℕ))
        (functions : List FunctionRecords) (address : ℕ) → AreFunctions S.answers source numbers functions
        → All IsModuleLine front → FitNumbers numbers → All (FitTypes parameters) functions
        → All InlinesAscend functions → address < 2 ^ 32 → TextShows S.answers source functions
        (symbol_file_text (with_breaks front) numbers parameters functions) address }
{}

/// If `write_symbol_file` succeeds, a reader of its text finds at each 32-bit address what the source answers there,
/// with names on one line. It finds nothing if the source answers nothing, except if the last function before the
/// address has an unknown end.
pub fn a_written_file_shows_answers<'a, S: FrameSource<'a>>()
    ensures { (source : S) (identity : ModuleIdentity) (parameters : List (Segment ℕ)) (old new : Option (List ℕ))
        → WritesSymbolFile S.answers source identity parameters old new → AppendsAnswers S.answers source old new }
{}
