//! JSON texts.
ghost use Rattle.std.specs.Prelude.{◌≡◌, Some, None, IfOk, IsErrOf};
ghost use Rattle.serde_json.specs.View.{view};
ghost use Rattle.kn_config.specs.Json.{json_of};

use serde_json::Value;
use std::alloc::Global;

/// Why a text gave no value.
#[derive(Clone, Copy)]
pub enum JsonError {
    NotJson,
    Memory,
}

/// The value of a JSON text.
pub fn read_json(alloc: Global, text: &[u8]) -> Result<Value, JsonError>
    ensures ok { IfOk result (λ value. json_of text.now ≡ Some (view value)) }
    ensures not_json { IsErrOf result JsonError.NotJson → json_of text.now ≡ None }
{
    match Value::from_slice(alloc, text) {
        Ok(value) => Ok(value),
        Err(fault) => if fault.is_memory() {
            Err(JsonError::Memory)
        } else {
            Err(JsonError::NotJson)
        },
    }
}
