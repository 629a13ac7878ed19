//! `RecordFault`: why a records file is refused, with the path to the value at fault.

ghost use Rattle.std.specs.Prelude.{◌≡◌, [], Result, IfOk, string_bytes, decimal};
ghost use Rattle.pdb_json_values.specs.declared.record_fault.RecordFault.TheVariants.{OutOfMemory};
ghost use Rattle.pdb_json_values.specs.RecordFault.{Fault, Agrees, shape, out_of_range, through, read_inside};

use std::alloc::{AllocError, AllocFailed, Global};
use thiserror::Error;

/// Why a records file is refused.
///
/// A path has the names of members and the numbers of elements from the whole file to the value, each after a `/`, such
/// as `/sections/0/execute`. The path of the file itself is empty.
#[derive(Debug, Drop, Error)]
pub enum RecordFault {
    /// The bytes aren't a JSON text or aren't UTF-8, or values are nested deeper than 127.
    #[error("not a JSON text")]
    NotJson,
    /// The records file names more or fewer module files than were given.
    #[error("{wanted} module files wanted, {given} given")]
    ModuleFiles { wanted: usize, given: usize },
    /// A value is missing, or of the wrong kind.
    #[error("{path}: wanted {wanted}")]
    Shape { path: String, wanted: String },
    /// A number is not whole, or doesn't fit.
    #[error("{path}: number out of range")]
    NumberOutOfRange { path: String },
    /// The bytes of the module file that a member names aren't a JSON text or aren't UTF-8, or are nested too deep.
    #[error("{path}: not a JSON text")]
    ModuleNotJson { path: String },
    /// Memory ran out.
    #[error("out of memory")]
    OutOfMemory,
}

impl From<AllocError> for RecordFault {
    ghost from_gives = { λ _ fault. fault ≡ OutOfMemory };

    fn from(_error: AllocError) -> RecordFault {
        RecordFault::OutOfMemory
    }
}

impl<T: Drop> From<AllocFailed<T>> for RecordFault {
    ghost from_gives = { λ _ fault. fault ≡ OutOfMemory };

    fn from(_error: AllocFailed<T>) -> RecordFault {
        RecordFault::OutOfMemory
    }
}

/// The fault for a value of the wrong kind. `sort` says which kind is expected.
pub fn wanted<T>(alloc: Global, sort: &str) -> Result<T, RecordFault>
    ensures { Agrees result (Err (shape [] sort.now)) }
{
    Err(RecordFault::Shape {
        path: String::new(alloc),
        wanted: String::from_str(alloc, sort)?,
    })
}

/// The fault for a number that doesn't fit.
pub fn out_of_range<T>(alloc: Global) -> Result<T, RecordFault>
    ensures { Agrees result (Err (out_of_range [])) }
{
    Err(RecordFault::NumberOutOfRange {
        path: String::new(alloc),
    })
}

// The path with this name before the rest.
fn through(alloc: Global, name: &str, path: &str) -> Result<String, AllocError>
    ensures { IfOk result (λ whole. string_bytes whole ≡ through name.now path.now) }
{
    format!(in alloc; "/{name}{path}")
}

/// The result of reading a member or element. The path of a fault gets its name in front.
pub fn inside<T>(
    alloc: Global,
    name: &str,
    answer: Result<T, RecordFault>,
) -> Result<T, RecordFault>
    ensures { (read : Result T Fault) → Agrees answer read → Agrees result (read_inside name.now read) }
{
    match answer {
        Err(RecordFault::Shape { path, wanted }) => Err(RecordFault::Shape {
            path: through(alloc, name, &path)?,
            wanted,
        }),
        Err(RecordFault::NumberOutOfRange { path }) => Err(RecordFault::NumberOutOfRange {
            path: through(alloc, name, &path)?,
        }),
        Err(RecordFault::ModuleNotJson { path }) => Err(RecordFault::ModuleNotJson {
            path: through(alloc, name, &path)?,
        }),
        answer => answer,
    }
}

/// The result of reading an element. The path of a fault gets its number in front.
pub fn inside_element<T: Drop>(
    alloc: Global,
    number: usize,
    answer: Result<T, RecordFault>,
) -> Result<T, RecordFault>
    ensures { (read : Result T Fault) → Agrees answer read → Agrees result (read_inside (decimal number) read) }
{
    if answer.is_ok() {
        return answer;
    }
    let number = format!(in alloc; "{number}")?;
    inside(alloc, &number, answer)
}
