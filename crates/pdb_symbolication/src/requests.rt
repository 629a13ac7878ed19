//! The types of a request: jobs, each with the modules of a process and stacks of addresses in them.

/// A request of the symbolication API, version 5.
#[derive(Drop)]
pub struct SymbolicationRequest {
    pub jobs: Vec<Job>,
}

/// Stacks of one process, and the modules that it had loaded.
#[derive(Drop)]
pub struct Job {
    pub memory_map: Vec<MemoryMapEntry>,
    pub stacks: Vec<Stack>,
}

/// A module: the name of its PDB file, and its debug id in the form of symbol servers. Both are as the request has
/// them, and may be any text.
#[derive(Drop)]
pub struct MemoryMapEntry {
    pub name: String,
    pub debug_id: String,
}

/// The frames of a stack, in the order of the request.
#[derive(Drop)]
pub struct Stack {
    pub frames: Vec<StackFrame>,
}

/// An address, as an offset from where its module is loaded.
#[derive(Clone, Copy)]
pub struct StackFrame {
    pub module: FrameModule,
    pub offset: u64,
}

/// The module that contains an address.
#[derive(Clone, Copy)]
pub enum FrameModule {
    /// An unknown module.
    Unknown,
    /// The entry of the memory map at this index.
    At(usize),
}
