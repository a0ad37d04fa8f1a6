ghost use Rattle.std.specs.Prelude.{◌≡◌, IfOk, option_map};
ghost use Rattle.serde_json.specs.View.{view};
ghost use Rattle.frame_json.specs.Parsing.{json_of};

use cell_core::Memory;
use serde_json::Value;
use std::alloc::Global;

/// The value that the bytes are, if they are one JSON text in UTF-8.
pub(crate) fn parsed(alloc: Global, bytes: &[u8]) -> Result<Option<Value>, Memory>
    ensures { IfOk result (λ found. option_map view found ≡ json_of bytes.now) }
{
    match Value::from_slice(alloc, bytes) {
        Ok(value) => Ok(Some(value)),
        Err(refused) => if refused.is_memory() {
            Err(Memory)
        } else {
            Ok(None)
        },
    }
}
