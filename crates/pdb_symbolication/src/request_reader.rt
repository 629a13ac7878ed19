//! Parses a request from JSON. An error names the path of the first wrong value.

ghost use Rattle.std.specs.Prelude.{◌≡◌, All, IfOk, codes, decimal, map, string_bytes, unwrap_or};
ghost use Rattle.serde_json.specs.Data.{null};
ghost use Rattle.serde_json.specs.Find.{get};
ghost use Rattle.serde_json.specs.View.{view};
ghost use Rattle.pdb_json_values.specs.RecordFault.{Agrees, AgreesBy, read_inside};
ghost use Rattle.pdb_json_values.specs.Values.{found, text_of};
ghost use Rattle.pdb_symbolication.specs.RequestValues.{entry_of, entry_seen, frame_of, is_job, job_of, job_seen};
ghost use Rattle.pdb_symbolication.specs.RequestValues.{jobs_of};
ghost use Rattle.pdb_symbolication.specs.RequestValues.{has, member_of, memory_map_of, module_at, module_of, one_job};
ghost use Rattle.pdb_symbolication.specs.RequestValues.{pair_of, request_of};
ghost use Rattle.pdb_symbolication.specs.RequestValues.{request_of_text, request_seen, stack_of, stack_seen, stacks_of};
ghost use Rattle.pdb_symbolication.specs.Requests.{NamesItsModules};

use crate::requests::{FrameModule, Job, MemoryMapEntry, Stack, StackFrame, SymbolicationRequest};
use pdb_json_values::{
    FIRST_VERSION, Reader, RecordFault, array, inside, inside_element, object, signed, text,
    unsigned, wanted,
};
use serde_json::Value;
use std::alloc::Global;

/// The index that means an unknown module.
const UNKNOWN: i64 = -1;

impl SymbolicationRequest {
    /// Parses a request of version 5 of the API: an object with `jobs`, or a single job. Unknown members are ignored.
    ///
    /// # Errors
    ///
    /// The path of the first value that is missing, of the wrong kind or out of range, such as `/jobs/0/stacks/1/2/0`;
    /// that the text isn't JSON; or that memory ran out.
    pub fn from_slice(alloc: Global, bytes: &[u8]) -> Result<SymbolicationRequest, RecordFault>
        ensures answer { AgreesBy request_seen result (request_of_text bytes.now) }
        ensures in_map { IfOk result (λ request. All NamesItsModules request.jobs.items) }
    {
        match Value::from_slice(alloc, bytes) {
            Ok(value) => request_of(first_reader(alloc), &value),
            Err(error) if error.is_memory() => Err(RecordFault::OutOfMemory),
            Err(_) => Err(RecordFault::NotJson),
        }
    }
}

fn first_reader(alloc: Global) -> Reader {
    Reader {
        alloc,
        version: FIRST_VERSION,
    }
}

// Reads a request, which has jobs or is a single job.
#[tactic(auto, unfolding(crate::specs::RequestValues::request_of))]
fn request_of(reader: Reader, value: &Value) -> Result<SymbolicationRequest, RecordFault>
    ensures { AgreesBy request_seen result (request_of (view value.now)) }
{
    let request = object(reader, Some(value))?;
    if is_job(request) {
        return one_job(reader, request);
    }
    let jobs = jobs_in(reader, request)?;
    Ok(SymbolicationRequest { jobs })
}

// Reads the jobs of a request.
fn jobs_in(reader: Reader, request: &Value) -> Result<Vec<Job>, RecordFault>
    ensures { AgreesBy (λ jobs. map job_seen jobs.items) result
        (member_of (codes "jobs") jobs_of (view request.now)) }
{
    let jobs = jobs_of(reader, member(request, "jobs"));
    inside(reader.alloc, "jobs", jobs)
}

// The value of an object's member with this name, if there is one.
fn member<'v>(object: &'v Value, name: &str) -> Option<&'v Value>
    ensures { found result ≡ unwrap_or (get name.now (view object.now)) null }
{
    object.get(name)
}

// Whether an object is a single job: it has a member of a job, and no member `jobs`.
fn is_job(object: &Value) -> bool
    ensures { result ≡ is_job (view object.now) }
{
    !has(object, "jobs") && (has(object, "memoryMap") || has(object, "stacks"))
}

// Whether an object has a member of this name.
fn has(object: &Value, name: &str) -> bool
    ensures { result ≡ has name.now (view object.now) }
{
    object.get(name).is_some()
}

// Reads a request that is a single job.
#[tactic(auto, unfolding(crate::specs::RequestValues::one_job))]
fn one_job(reader: Reader, value: &Value) -> Result<SymbolicationRequest, RecordFault>
    ensures { AgreesBy request_seen result (one_job (view value.now)) }
{
    let mut jobs = Vec::new(reader.alloc);
    let job = job_of(reader, value)?;
    jobs.push(job)?;
    Ok(SymbolicationRequest { jobs })
}

#[tactic(auto, unfolding(crate::specs::RequestValues::jobs_of))]
fn jobs_of(reader: Reader, value: Option<&Value>) -> Result<Vec<Job>, RecordFault>
    ensures { AgreesBy (λ jobs. map job_seen jobs.items) result (jobs_of (found value.entry)) }
{
    let values = array(reader, value)?;
    let mut jobs = Vec::new(reader.alloc);
    for (number, value) in values.iter().enumerate() {
        let job = job_at(reader, number, value)?;
        jobs.push(job)?;
    }
    Ok(jobs)
}

// Reads the job with this number.
fn job_at(reader: Reader, number: usize, value: &Value) -> Result<Job, RecordFault>
    ensures { AgreesBy job_seen result (read_inside (decimal number) (job_of (view value.now))) }
{
    inside_element(reader.alloc, number, job_of(reader, value))
}

#[tactic(auto, unfolding(crate::specs::RequestValues::job_of))]
fn job_of(reader: Reader, value: &Value) -> Result<Job, RecordFault>
    ensures { AgreesBy job_seen result (job_of (view value.now)) }
{
    let job = object(reader, Some(value))?;
    let memory_map = memory_map_in(reader, job)?;
    let stacks = stacks_in(reader, memory_map.len(), job)?;
    Ok(Job { memory_map, stacks })
}

// Reads the memory map of a job.
fn memory_map_in(reader: Reader, job: &Value) -> Result<Vec<MemoryMapEntry>, RecordFault>
    ensures { AgreesBy (λ entries. map entry_seen entries.items) result
        (member_of (codes "memoryMap") memory_map_of (view job.now)) }
{
    let memory_map = memory_map_of(reader, member(job, "memoryMap"));
    inside(reader.alloc, "memoryMap", memory_map)
}

#[tactic(auto, unfolding(crate::specs::RequestValues::memory_map_of))]
fn memory_map_of(reader: Reader, value: Option<&Value>) -> Result<Vec<MemoryMapEntry>, RecordFault>
    ensures { AgreesBy (λ entries. map entry_seen entries.items) result (memory_map_of (found value.entry)) }
{
    let values = array(reader, value)?;
    let mut entries = Vec::new(reader.alloc);
    for (number, value) in values.iter().enumerate() {
        let entry = entry_at(reader, number, value)?;
        entries.push(entry)?;
    }
    Ok(entries)
}

// Reads the entry with this number.
fn entry_at(reader: Reader, number: usize, value: &Value) -> Result<MemoryMapEntry, RecordFault>
    ensures { AgreesBy entry_seen result (read_inside (decimal number) (entry_of (view value.now))) }
{
    inside_element(reader.alloc, number, entry_of(reader, value))
}

// Reads an entry: its name, and its debug id.
#[tactic(auto, unfolding(crate::specs::RequestValues::entry_of))]
fn entry_of(reader: Reader, value: &Value) -> Result<MemoryMapEntry, RecordFault>
    ensures { AgreesBy entry_seen result (entry_of (view value.now)) }
{
    let (name, debug_id) = pair_of(reader, value, "name and debug id")?;
    let name = text_at(reader, 0, name)?;
    let debug_id = text_at(reader, 1, debug_id)?;
    Ok(MemoryMapEntry { name, debug_id })
}

// Reads the two elements of an array. `sort` says in an error what they should be.
#[tactic(auto, unfolding(crate::specs::RequestValues::pair_of))]
fn pair_of<'v>(
    reader: Reader,
    value: &'v Value,
    sort: &str,
) -> Result<(&'v Value, &'v Value), RecordFault>
    ensures { AgreesBy (λ pair. (view pair.0.now, view pair.1.now)) result (pair_of sort.now (view value.now)) }
{
    let elements = array(reader, Some(value))?;
    if elements.len() != 2 {
        return wanted(reader.alloc, sort);
    }
    Ok((&elements[0], &elements[1]))
}

// Reads a text, which is the element with this number.
fn text_at(reader: Reader, number: usize, value: &Value) -> Result<String, RecordFault>
    ensures { AgreesBy string_bytes result (read_inside (decimal number) (text_of (view value.now))) }
{
    inside_element(reader.alloc, number, text_of(reader, value))
}

fn text_of(reader: Reader, value: &Value) -> Result<String, RecordFault>
    ensures { AgreesBy string_bytes result (text_of (view value.now)) }
{
    let text = text(reader, Some(value))?;
    Ok(String::from_str(reader.alloc, text)?)
}

// Reads the stacks of a job, whose memory map has `modules` entries.
fn stacks_in(reader: Reader, modules: usize, job: &Value) -> Result<Vec<Stack>, RecordFault>
    ensures { AgreesBy (λ stacks. map stack_seen stacks.items) result
        (member_of (codes "stacks") (stacks_of modules) (view job.now)) }
{
    let stacks = stacks_of(reader, modules, member(job, "stacks"));
    inside(reader.alloc, "stacks", stacks)
}

// Reads stacks of addresses in `modules` modules.
#[tactic(auto, unfolding(crate::specs::RequestValues::stacks_of))]
fn stacks_of(
    reader: Reader,
    modules: usize,
    value: Option<&Value>,
) -> Result<Vec<Stack>, RecordFault>
    ensures { AgreesBy (λ stacks. map stack_seen stacks.items) result (stacks_of modules (found value.entry)) }
{
    let values = array(reader, value)?;
    let mut stacks = Vec::new(reader.alloc);
    for (number, value) in values.iter().enumerate() {
        let stack = stack_at(reader, modules, number, value)?;
        stacks.push(stack)?;
    }
    Ok(stacks)
}

// Reads the stack with this number.
fn stack_at(
    reader: Reader,
    modules: usize,
    number: usize,
    value: &Value,
) -> Result<Stack, RecordFault>
    ensures { AgreesBy stack_seen result (read_inside (decimal number) (stack_of modules (view value.now))) }
{
    inside_element(reader.alloc, number, stack_of(reader, modules, value))
}

#[tactic(auto, unfolding(crate::specs::RequestValues::stack_of))]
fn stack_of(reader: Reader, modules: usize, value: &Value) -> Result<Stack, RecordFault>
    ensures { AgreesBy stack_seen result (stack_of modules (view value.now)) }
{
    let values = array(reader, Some(value))?;
    let mut frames = Vec::new(reader.alloc);
    for (number, value) in values.iter().enumerate() {
        let frame = inside_element(reader.alloc, number, frame_of(reader, modules, value))?;
        frames.push(frame)?;
    }
    Ok(Stack { frames })
}

// Reads an address: the index of its module, and its offset there.
#[tactic(auto, unfolding(crate::specs::RequestValues::frame_of))]
fn frame_of(reader: Reader, modules: usize, value: &Value) -> Result<StackFrame, RecordFault>
    ensures { Agrees result (frame_of modules (view value.now)) }
{
    let (module, offset) = pair_of(reader, value, "index of a module and offset")?;
    let module = inside_element(reader.alloc, 0, module_of(reader, modules, module))?;
    let offset = inside_element(reader.alloc, 1, unsigned(reader, Some(offset)))?;
    Ok(StackFrame { module, offset })
}

// Reads the module of an address, out of `modules` modules.
#[tactic(auto, unfolding(crate::specs::RequestValues::module_of))]
fn module_of(reader: Reader, modules: usize, value: &Value) -> Result<FrameModule, RecordFault>
    ensures { Agrees result (module_of modules (view value.now)) }
{
    let index = signed(reader, Some(value))?;
    match module_at(modules, index) {
        Some(module) => Ok(module),
        None => wanted(reader.alloc, "index of memoryMap, or -1"),
    }
}

// The module with an index, if the memory map has `modules` entries; `None` if the index is invalid.
fn module_at(modules: usize, index: i64) -> Option<FrameModule>
    ensures { result ≡ module_at modules index }
{
    if index == UNKNOWN {
        return Some(FrameModule::Unknown);
    }
    let Ok(index) = usize::try_from(index) else {
        return None;
    };
    if index < modules {
        return Some(FrameModule::At(index));
    }
    None
}
