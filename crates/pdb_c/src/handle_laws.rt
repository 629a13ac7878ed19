//! A law: calls over a handle return the same as calls over the bytes that were opened.
ghost use Rattle.std.specs.Prelude.{◌≡◌, ℕ, List, [], ◌∷◌, Some, Ok, Err};
ghost use Rattle.pdb_records.specs.Records.{Records};
ghost use Rattle.pdb_addr2line.specs.ContextInputs.{ContextState};
ghost use Rattle.pdb_report_lib.specs.declared.reports.Command.{Command};
ghost use Rattle.pdb_c.specs.declared.call_error.CallError.{CallError};
ghost use Rattle.pdb_c.specs.ReportTexts.{asked_text};
ghost use Rattle.pdb_c.specs.Openings.{context_to_open};
ghost use Rattle.pdb_c.specs.Questions.{text_of_handle};

/// If bytes can be opened, calls over a handle with their records return the same as calls over the bytes. If opening
/// is refused, the calls over the bytes are refused in the same way, for all addresses.
pub fn a_handle_is_answered_as_its_bytes_are()
    ensures opened { (command : Command) (bytes addresses : List ℕ) (context : ContextState Records)
        → context_to_open bytes [] ≡ Ok context
        → text_of_handle command (Some context) addresses ≡ asked_text command bytes addresses }
    ensures refused { (command : Command) (bytes : List ℕ) (address : ℕ) (addresses : List ℕ) (refusal : CallError)
        → context_to_open bytes [] ≡ Err refusal
        → asked_text command bytes (address ∷ addresses) ≡ Err refusal }
{}
