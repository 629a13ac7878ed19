//! Laws on what a reader finds in a symbol file's text, line by line.

ghost use Rattle.std.specs.Prelude.{◌≡◌, ◌≢◌, ◌++◌, ℕ, List, All, codes, map};
ghost use Rattle.std.specs.List.{flat_map};
ghost use Rattle.std.specs.Str.{IsUtf8};
ghost use Rattle.pdb_tables.specs.declared.segment.Segment.{Segment};
ghost use Rattle.pdb_breakpad.specs.RecordTypes.{FunctionRecords, Numbers};
ghost use Rattle.pdb_breakpad.specs.FunctionTexts.{function_text};
ghost use Rattle.pdb_breakpad.specs.ModuleRecord.{IsModuleLine, with_breaks};
ghost use Rattle.pdb_breakpad.specs.SymbolFile.{names_text, symbol_file_text};
ghost use Rattle.pdb_breakpad.specs.WrittenRecords.{FitNumbers, FitTypes};
ghost use Rattle.pdb_symbol_file_laws.specs.SymbolFileRecords.{function_read, names_read, on_one_line};
ghost use Rattle.pdb_symbol_file_laws.specs.SymbolTextReader.{OtherLine, read_text};

/// In the text of names and functions, a reader finds the records of the names by their numbers. Then, for each
/// function, it finds the function's own record, the records of its inlined calls in the order in which they are
/// written, and those of its lines. In a whole symbol file, it finds the same after the lines about the module.
#[tactic(auto, using(crate::proofs::FileLemmas::read))]
pub fn text_says_records()
    ensures records { (numbers : Numbers) (parameters : List (Segment ℕ)) (functions : List FunctionRecords)
        → FitNumbers numbers → All (FitTypes parameters) functions
        → read_text (names_text numbers ++ flat_map (function_text parameters) functions)
        ≡ names_read numbers ++ flat_map function_read functions }
    ensures file { (front : List (List ℕ)) (numbers : Numbers) (parameters : List (Segment ℕ))
        (functions : List FunctionRecords) → All IsModuleLine front → FitNumbers numbers
        → All (FitTypes parameters) functions
        → read_text (symbol_file_text (with_breaks front) numbers parameters functions)
        ≡ map (λ line. OtherLine) front ++ (names_read numbers ++ flat_map function_read functions) }
{}

/// Two texts that are joined at a line break have the records of both.
#[tactic(auto, using(crate::proofs::FrontLemmas::apart))]
pub fn parts_say_the_same()
    ensures { (front text : List ℕ) → read_text ((front ++ codes "\n") ++ text)
        ≡ read_text (front ++ codes "\n") ++ read_text text }
{}

/// A name without line breaks is read unchanged.
#[tactic(auto, using(crate::proofs::NameLemmas::named))]
pub fn names_say_themselves()
    ensures { (name : List ℕ) → IsUtf8 name → All (λ byte. byte ≢ 10) name → All (λ byte. byte ≢ 13) name
        → on_one_line name ≡ name }
{}
