//! A law on the text of a report.

ghost use Rattle.std.specs.Prelude.{◌≡◌, ℕ, List};
ghost use Rattle.pdb_addr2line.specs.Calls.{answers_to};
ghost use Rattle.pdb_addr2line.specs.ContextInputs.{ContextState};
ghost use Rattle.pdb_report_lib.specs.AnswerTexts.{answer_addresses, texts_of_answers};
ghost use Rattle.pdb_report_lib.specs.Reports.{report_calls, report_text};
ghost use Rattle.pdb_report_lib.specs.declared.reports.Command.{Command};

use pdb_addr2line::ModuleProvider;

/// The text of a report is that of the answers to the calls which it makes, in order, up to the first error, as
/// [`Context::run_calls`](pdb_addr2line::Context::run_calls) returns them.
#[tactic(auto, using(crate::proofs::AnswerTextLemmas::text_of_answers))]
pub fn report_text_is_that_of_the_answers<P: ModuleProvider>()
    ensures { (c : ContextState P) (command : Command) (addresses : List ℕ)
        → report_text P.info c.inputs c.code_failed command addresses
        ≡ texts_of_answers (answer_addresses command addresses)
        (answers_to P.info c (report_calls command addresses)) }
{}
