//! Writes the answer to a request: for each job its stacks with their frames, and which of its modules were found.

ghost use Rattle.std.specs.Prelude.{◌≡◌, ◌==◌, ◌++◌, map, slice_get, string_bytes, OnOk, IfOk};
ghost use Rattle.pdb_symbolication.specs.Findings.{search_of};
ghost use Rattle.pdb_symbolication.specs.FrameTexts.{texts_of};
ghost use Rattle.pdb_symbolication.specs.JsonObjects.{comma_before, separated};
ghost use Rattle.pdb_symbolication.specs.RequestAnswers.{answer_text, error_text, frame_object, frame_objects};
ghost use Rattle.pdb_symbolication.specs.RequestAnswers.{job_answer, job_answers, job_searches, known_text};
ghost use Rattle.pdb_symbolication.specs.RequestAnswers.{module_name, module_text, searched_by, searched_job};
ghost use Rattle.pdb_symbolication.specs.RequestAnswers.{searched_text, stack_array, stacks_end, text_at};
ghost use Rattle.pdb_symbolication.specs.Writes.{Writes};

use crate::findings::push_found_modules;
use crate::frame_texts::FrameTexts;
use crate::json_text::{self, write_hexadecimal, write_quoted};
use crate::requests::{FrameModule, Job, Stack, StackFrame, SymbolicationRequest};
use crate::wanted_modules::{Search, WantedModule, WantedModules};
use crate::whole_writes::{write_comma, write_whole};
use std::alloc::{AllocError, Global};
use std::io;

/// The name of a module that isn't known.
const UNKNOWN: &str = "<unknown>";

/// Writes the answer to a request as one line of JSON, and flushes the writer.
///
/// `found` has for each wanted module the texts at its offsets, in their order, or `None` if the module was not found.
///
/// # Errors
///
/// Memory ran out, or the writer refused a part of the text. A beginning of the text may have been written.
pub fn write_answer<W: io::Write>(
    alloc: Global,
    out: &mut W,
    request: &SymbolicationRequest,
    wanted: &WantedModules,
    found: &[Option<FrameTexts>],
) -> io::Result<()>
    ensures answer { Writes (W.contents out.old) (W.contents out.new) result
        (answer_text request.now wanted.now found.now) }
{
    write_whole(out, b"{\"results\":[")?;
    write_jobs(alloc, out, request, wanted, found)?;
    write_whole(out, b"]}\n")?;
    out.flush()
}

// Writes the answers to the jobs, with commas between them.
fn write_jobs<W: io::Write>(
    alloc: Global,
    out: &mut W,
    request: &SymbolicationRequest,
    wanted: &WantedModules,
    found: &[Option<FrameTexts>],
) -> io::Result<()>
    ensures { Writes (W.contents out.old) (W.contents out.new) result
        (separated (job_answers wanted.now found.now 0 request.now.jobs.items)) }
{
    for (number, job) in request.jobs.iter().enumerate() {
        write_comma(out, number == 0)?;
        JobAnswer::of(job, number, wanted, found).write(alloc, out)?;
    }
    Ok(())
}

fn searches_of(wanted: &WantedModules, job: usize) -> &[Search]
    ensures { result.now ≡ job_searches wanted.now job }
{
    match wanted.searches.get(job) {
        Some(searches) => searches,
        None => &[],
    }
}

/// The answer to an invalid request: a line with an object that has the error.
pub fn error_line(alloc: Global, why: &str) -> Result<String, AllocError>
    ensures answer { IfOk result (λ line. string_bytes line ≡ error_text why.now) }
{
    let mut line = String::from_str(alloc, "{\"error\":")?;
    write_quoted(&mut line, why)?;
    line.push_str("}\n")?;
    Ok(line)
}

/// The data for the answer to a job.
#[derive(Clone, Copy)]
struct JobAnswer<'a> {
    job: &'a Job,
    /// The search for each entry of the memory map.
    searches: &'a [Search],
    modules: &'a [WantedModule],
    /// The texts of each of these modules.
    found: &'a [Option<FrameTexts>],
}

impl<'a> JobAnswer<'a> {
    // The data for the job with this number in its request.
    fn of(
        job: &'a Job,
        number: usize,
        wanted: &'a WantedModules,
        found: &'a [Option<FrameTexts>],
    ) -> JobAnswer<'a>
        ensures searched { searched_by result ≡ searched_job wanted.now found.now number job.now }
        ensures job { result.job.now ≡ job.now }
    {
        JobAnswer {
            job,
            searches: searches_of(wanted, number),
            modules: &wanted.modules,
            found,
        }
    }

    fn write<W: io::Write>(self, alloc: Global, out: &mut W) -> io::Result<()>
        ensures { Writes (W.contents out.old) (W.contents out.new) result
            (job_answer (searched_by self.entry) self.entry.job.now.stacks.items) }
    {
        write_whole(out, b"{\"stacks\":[")?;
        self.write_stacks(alloc, out)?;
        let end = self.end(alloc)?;
        write_whole(out, end.as_bytes())
    }

    // The text after the stacks.
    fn end(self, alloc: Global) -> Result<String, AllocError>
        ensures { IfOk result (λ end. string_bytes end ≡ stacks_end (searched_by self.entry)) }
    {
        let mut end = String::from_str(alloc, "],\"found_modules\":")?;
        push_found_modules(&mut end, &self.job.memory_map, self.searches, self.found)?;
        end.push('}')?;
        Ok(end)
    }

    // Writes the stacks, with commas between them.
    fn write_stacks<W: io::Write>(self, alloc: Global, out: &mut W) -> io::Result<()>
        ensures { Writes (W.contents out.old) (W.contents out.new) result
            (separated (map (stack_array (searched_by self.entry)) self.entry.job.now.stacks.items)) }
    {
        let mut text = String::new(alloc);
        for (number, stack) in self.job.stacks.iter().enumerate() {
            write_comma(out, number == 0)?;
            self.write_stack(out, &mut text, stack)?;
        }
        Ok(())
    }

    // Writes a stack, frame by frame. `text` is a buffer for the text of one frame.
    fn write_stack<W: io::Write>(
        self,
        out: &mut W,
        text: &mut String,
        stack: &Stack,
    ) -> io::Result<()>
        ensures { Writes (W.contents out.old) (W.contents out.new) result
            (stack_array (searched_by self.entry) stack.now) }
    {
        write_whole(out, b"[")?;
        self.write_frames(out, text, stack)?;
        write_whole(out, b"]")
    }

    fn write_frames<W: io::Write>(
        self,
        out: &mut W,
        text: &mut String,
        stack: &Stack,
    ) -> io::Result<()>
        ensures { Writes (W.contents out.old) (W.contents out.new) result
            (separated (frame_objects (searched_by self.entry) 0 stack.now.frames.items)) }
    {
        for (number, &frame) in stack.frames.iter().enumerate() {
            self.write_frame(out, text, number, frame)?;
        }
        Ok(())
    }

    // Writes a frame, with a comma before it unless it is the first.
    fn write_frame<W: io::Write>(
        self,
        out: &mut W,
        text: &mut String,
        number: usize,
        frame: StackFrame,
    ) -> io::Result<()>
        ensures { Writes (W.contents out.old) (W.contents out.new) result
            (comma_before (number == 0) ++ frame_object (searched_by self.entry) number frame) }
    {
        text.clear();
        json_text::write_comma(text, number == 0)?;
        self.push_frame(text, number, frame)?;
        write_whole(out, text.as_bytes())
    }

    // Appends a frame.
    fn push_frame(
        self,
        text: &mut String,
        number: usize,
        frame: StackFrame,
    ) -> Result<(), AllocError>
        ensures { OnOk result (string_bytes text.new
            ≡ string_bytes text.old ++ frame_object (searched_by self.entry) number frame) }
    {
        write!(text, "{{\"frame\":{number},\"module\":")?;
        write_quoted(text, self.module_name(frame))?;
        text.push_str(",\"module_offset\":")?;
        write_hexadecimal(text, frame.offset)?;
        text.push_str(self.frame_text(frame))?;
        text.push('}')
    }

    fn module_name(self, frame: StackFrame) -> &'a str
        ensures { result.now ≡ module_name self.entry.job.now.memory_map.items frame.module }
    {
        if let FrameModule::At(index) = frame.module
            && let Some(entry) = self.job.memory_map.get(index)
        {
            return entry.name.as_str();
        }
        UNKNOWN
    }

    // The text for a frame; empty if nothing was found.
    fn frame_text(self, frame: StackFrame) -> &'a str
        ensures { result.now ≡ known_text (searched_by self.entry) frame.module frame.offset }
    {
        match frame.module {
            FrameModule::At(index) => self.searched_text(index, frame.offset),
            FrameModule::Unknown => "",
        }
    }

    fn searched_text(self, index: usize, offset: u64) -> &'a str
        ensures { result.now ≡ searched_text (searched_by self.entry) (search_of self.entry.searches.now index) offset }
    {
        match self.searches.get(index) {
            Some(&Search::Module(position)) => self.module_text(position, offset),
            _ => "",
        }
    }

    // The text at an offset of the module at this position; empty if nothing was found.
    fn module_text(self, position: usize, offset: u64) -> &'a str
        ensures { result.now ≡ module_text (slice_get self.entry.modules.now position)
            (slice_get self.entry.found.now position) offset }
    {
        if let Some(module) = self.modules.get(position)
            && let Some(Some(texts)) = self.found.get(position)
        {
            return text_at(module, texts, offset);
        }
        ""
    }
}

fn text_at<'a>(wanted: &WantedModule, texts: &'a FrameTexts, offset: u64) -> &'a str
    ensures { result.now ≡ text_at wanted.now.offsets.items (texts_of texts.now) offset }
{
    match wanted.number_of(offset) {
        Some(number) => texts.get(number),
        None => "",
    }
}
