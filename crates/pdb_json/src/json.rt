//! Parses bytes as JSON.

ghost use Rattle.std.specs.Prelude.{◌≡◌, option_map, IfOk};
ghost use Rattle.serde_json.specs.View.{view};
ghost use Rattle.pdb_json.specs.Json.{json_of};

use serde_json::Value;
use std::alloc::{AllocError, Global};

// Parses bytes as JSON; `None` if they aren't UTF-8 or not a JSON text.
pub(crate) fn json(alloc: Global, bytes: &[u8]) -> Result<Option<Value>, AllocError>
    ensures { IfOk result (λ value. option_map view value ≡ json_of bytes.now) }
{
    match Value::from_slice(alloc, bytes) {
        Ok(value) => Ok(Some(value)),
        Err(error) if error.is_memory() => Err(AllocError),
        Err(_) => Ok(None),
    }
}
