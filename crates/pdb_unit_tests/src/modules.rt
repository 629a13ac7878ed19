//! Modules for checks, with nothing but symbols.

use pdb_errors::Error;
use pdb_records::{ModuleInfo, Reading, StreamError, Symbol};
use std::alloc::Global;

/// A module with these symbols, this fault after them, and nothing else.
pub(crate) fn module_of(
    alloc: Global,
    symbols: Vec<Symbol>,
    fault: Option<StreamError>,
) -> ModuleInfo {
    let missing = StreamError(0);
    ModuleInfo {
        symbols: Reading {
            items: symbols,
            fault,
        },
        line_program: Err(missing),
        inlinees: Reading {
            items: Vec::new(alloc),
            fault: None,
        },
        imports: Err(missing),
        exports: Err(missing),
    }
}

/// Whether an error has this fault of a stream.
pub(crate) fn is_fault(error: &Error, fault: StreamError) -> bool {
    matches!(error, Error::PdbError(pdb_records::Error::Stream(found)) if *found == fault)
}
