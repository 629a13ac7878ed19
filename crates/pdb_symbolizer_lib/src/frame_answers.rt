//! The answer to one request: the frames at a code address, or that nothing is known.

ghost use Rattle.std.specs.Prelude.{◌≡◌, List, IfErr, IfOk, option_map, string_bytes};
ghost use Rattle.pdb_answer_printer.specs.AnswerText.{answer_text, unknown_text};
ghost use Rattle.pdb_answer_printer.specs.FrameNames.{shown_frames};
ghost use Rattle.pdb_answer_printer.specs.InputLine.{question_of};
ghost use Rattle.pdb_answer_printer.specs.SourceTexts.{FrameSource};
ghost use Rattle.pdb_symbolizer_lib.specs.AnsweredRequests.{AnswersQuestion, AnswersText, AreFramesAt, AreNamedFrames};
ghost use Rattle.pdb_symbolizer_lib.specs.AnsweredRequests.{HaveUrls, frame_url};
ghost use Rattle.pdb_symbolizer_input.specs.EndReasons.{out_of_memory};
ghost use Rattle.pdb_symbolizer_input.specs.ImageBases.{relative};
ghost use Rattle.pdb_symbolizer_lib.specs.PublicNames.{public_named};

use crate::public_names::PublicNames;
use crate::questions::Questions;
use crate::run_state::RunState;
use pdb_addr2line::{Error, Frame, FunctionFrames};
use pdb_answer_printer::{
    InputLine, InputTarget, Sort, SourceText, file_of, shown_frames, write_answer, write_unknown,
};
use pdb_session::{QuestionError, SessionContext};
use pdb_source_urls::SourceUrls;
use pdb_symbolizer_input::options::Options;
use pdb_symbolizer_input::run_errors::RunError;
use std::alloc::{AllocError, Global};
use std::rt::Files;

/// Answers a request, which is a word of the command line or a line of the input.
pub fn request_text<R: Files + Eprint + AllocGlobal>(
    rt: &R,
    questions: &Questions<'_, '_>,
    context: &mut SessionContext<'_, '_>,
    state: &mut RunState,
    given: &str,
) -> Result<String, RunError>
    ensures text { IfOk result (λ text. AnswersText questions.now
        (AreFramesAt context.old.known context.old.flags) given.now (string_bytes text)) }
    ensures memory { IfErr result (λ error. error ≡ out_of_memory) }
    ensures known { context.new.known ≡ context.old.known }
    ensures flags { context.new.flags ≡ context.old.flags }
{
    let request = questions.request(given);
    answer_request(rt, questions, context, state, &request, given)
}

/// Answers a parsed request. `given` is its text.
fn answer_request<R: Files + Eprint + AllocGlobal>(
    rt: &R,
    questions: &Questions<'_, '_>,
    context: &mut SessionContext<'_, '_>,
    state: &mut RunState,
    request: &InputLine<'_>,
    given: &str,
) -> Result<String, RunError>
    ensures text { IfOk result (λ text. AnswersQuestion questions.now
        (AreFramesAt context.old.known context.old.flags) (question_of request.now) (string_bytes text)) }
    ensures memory { IfErr result (λ error. error ≡ out_of_memory) }
    ensures known { context.new.known ≡ context.old.known }
    ensures flags { context.new.flags ≡ context.old.flags }
{
    match (request.sort, request.place) {
        (Sort::Code, InputTarget::Address(address)) => {
            let found = frames_at(rt, questions, context, state, address)?;
            Ok(text_of_found(rt, questions, state, request, &found)?)
        }
        _ => {
            print_lack(rt, request, given);
            Ok(text_of_unknown(rt.alloc(), questions.options, request)?)
        }
    }
}

// The text of an answer that says that nothing is known.
fn text_of_unknown(
    alloc: Global,
    options: &Options<'_>,
    request: &InputLine<'_>,
) -> Result<String, AllocError>
    ensures { IfOk result (λ text. string_bytes text ≡ unknown_text options.now.printer (question_of request.now)) }
{
    let mut text = String::new(alloc);
    write_unknown(&mut text, &options.printer, request)?;
    Ok(text)
}

/// Says on standard error why a text isn't a request, unless it is empty.
pub fn print_lack<R: Eprint>(rt: &R, request: &InputLine<'_>, given: &str) {
    if let InputTarget::Nowhere(lack) = request.place
        && let Some(why) = lack.words()
    {
        let _ = eprintln!(rt; "pdb_symbolizer: {given}: {why}");
    }
}

// The text of the answer for a code address, with the URLs and lines of source files that the options ask for.
fn text_of_found<R: Files + AllocGlobal>(
    rt: &R,
    questions: &Questions<'_, '_>,
    state: &mut RunState,
    request: &InputLine<'_>,
    found: &Option<FunctionFrames<'_>>,
) -> Result<String, AllocError>
    ensures { IfOk result (λ text. let printer = questions.now.options.now.printer in
        let frames = shown_frames printer found.now in
        (sources : List FrameSource) × (HaveUrls questions.now.source_urls.now frames sources
        × (string_bytes text ≡ answer_text printer (question_of request.now) frames sources))) }
{
    let mut text = String::new(rt.alloc());
    let options = questions.options;
    let frames = shown_frames(&options.printer, found);
    let sources = sources_of(rt, questions, state, frames)?;
    write_answer(&mut text, &options.printer, request, frames, &sources)?;
    Ok(text)
}

// The URL of each frame's source file, and the source lines around the frame's line. Either is empty if the options
// don't ask for it.
fn sources_of<R: Files + AllocGlobal>(
    rt: &R,
    questions: &Questions<'_, '_>,
    state: &mut RunState,
    frames: &[Frame<'_>],
) -> Result<Vec<SourceText>, AllocError>
    ensures { IfOk result (λ sources. HaveUrls questions.now.source_urls.now frames.now sources.items) }
{
    let mut sources = Vec::new(rt.alloc());
    for frame in frames {
        sources.push(SourceText {
            url: frame_url(rt.alloc(), questions.source_urls, frame)?,
            lines: lines_around(rt, questions.options, state, frame)?,
        })?;
    }
    Ok(sources)
}

// The URL of a frame's source file. It is empty if nothing says it.
fn frame_url(alloc: Global, urls: &SourceUrls, frame: &Frame<'_>) -> Result<String, AllocError>
    ensures { IfOk result (λ url. string_bytes url ≡ frame_url urls.now frame.now) }
{
    let Some(file) = &frame.file else {
        return Ok(String::new(alloc));
    };
    match urls.url_of(alloc, file.as_str())? {
        Some(url) => Ok(url),
        None => Ok(String::new(alloc)),
    }
}

// The lines of a frame's source file around its line. It is empty if the options ask for none.
fn lines_around<R: Files + AllocGlobal>(
    rt: &R,
    options: &Options<'_>,
    state: &mut RunState,
    frame: &Frame<'_>,
) -> Result<String, AllocError> {
    let count = options.shown_source_lines();
    if count == 0 {
        return Ok(String::new(rt.alloc()));
    }
    let file = file_of(&options.printer, frame, "");
    state
        .sources
        .around(rt, file, frame.line.unwrap_or(0), count)
}

/// The frames at an address. The last one, the containing function, is named as the options want.
fn frames_at<'a, R: Eprint + AllocGlobal>(
    rt: &R,
    questions: &Questions<'_, '_>,
    context: &mut SessionContext<'a, '_>,
    state: &mut RunState,
    given: u64,
) -> Result<Option<FunctionFrames<'a>>, Error>
    ensures found { IfOk result (λ named. AreNamedFrames questions.now
        (AreFramesAt context.old.known context.old.flags) (relative questions.now.image_base given) named) }
    ensures memory { IfErr result (λ error. error ≡ Error.OutOfMemory) }
    ensures known { context.new.known ≡ context.old.known }
    ensures flags { context.new.flags ≡ context.old.flags }
{
    if !questions.image_base.is_known() {
        state.hint.print(rt, questions.file, questions.names, given);
    }
    let Some(address) = questions.image_base.relative(given) else {
        return Ok(None);
    };
    let found = readable_frames(rt, context, given, address)?;
    Ok(public_named(rt.alloc(), questions.names, found)?)
}

// Gives the containing function its public symbol's name, if the options want that name and it is known.
fn public_named<'a>(
    alloc: Global,
    names: &PublicNames,
    found: Option<FunctionFrames<'a>>,
) -> Result<Option<FunctionFrames<'a>>, AllocError>
    ensures { IfOk result (λ named. named ≡ option_map (public_named names.now) found.entry) }
{
    match found {
        Some(found) => Ok(Some(names.decorate(alloc, found)?)),
        None => Ok(None),
    }
}

// The frames at an address. If its module's records can't be read, an error on standard error shows the address as it
// was given.
fn readable_frames<'a, R: Eprint>(
    rt: &R,
    context: &mut SessionContext<'a, '_>,
    given: u64,
    address: u32,
) -> Result<Option<FunctionFrames<'a>>, Error>
    ensures found { IfOk result (λ found. AreFramesAt context.old.known context.old.flags address found) }
    ensures memory { IfErr result (λ error. error ≡ Error.OutOfMemory) }
    ensures known { context.new.known ≡ context.old.known }
    ensures flags { context.new.flags ≡ context.old.flags }
{
    match context.find_frames(address) {
        Ok(found) => Ok(found),
        Err(QuestionError::Records(error)) => {
            let error = error.unless_out_of_memory()?;
            let _ = eprintln!(rt; "pdb_symbolizer: 0x{given:x}: {error}");
            Ok(None)
        }
        Err(QuestionError::NotRead) => {
            let _ = eprintln!(rt; "pdb_symbolizer: 0x{given:x}: its module was not read");
            Ok(None)
        }
    }
}
