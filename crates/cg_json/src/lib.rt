//! JSON texts: the values that bytes represent, and access to these values for readers of formats; and that
//! the text of a value without floats reads back as the value.
#![tactic(auto)]

ghost use Rattle.std.specs.Prelude.{◌≡◌, Some, None, IfOk, IsErrOf};
ghost use Rattle.serde_json.specs.View.{view};
ghost use Rattle.cg_json.specs.Bytes.{value_of};

mod laws;
mod members;
mod size;

pub use laws::plain_reads_back;
pub use members::{
    WordReader, has_other_keys, items_at, items_or_none, optional_word_at, text_at, word_in,
    word_or,
};
use serde_json::Value;
pub use size::MOST_MEMORY;
use size::memory_for;
use std::alloc::Global;

/// Why bytes gave no value.
#[derive(Clone, Copy, Debug, PartialEq, Eq)]
pub enum JsonFault {
    Memory,
    NotJson,
}

/// Returns the JSON value that `bytes` represent.
///
/// For a text whose values may take more than [`MOST_MEMORY`] bytes it returns `Memory` without parsing the text.
pub fn json_value(alloc: Global, bytes: &[u8]) -> Result<Value, JsonFault>
    ensures ok { IfOk result (λ value. value_of bytes.now ≡ Some (view value)) }
    ensures not_json { IsErrOf result JsonFault.NotJson → value_of bytes.now ≡ None }
{
    if memory_for(bytes) > MOST_MEMORY {
        return Err(JsonFault::Memory);
    }
    match Value::from_slice(alloc, bytes) {
        Ok(value) => Ok(value),
        Err(error) => if error.is_memory() {
            Err(JsonFault::Memory)
        } else {
            Err(JsonFault::NotJson)
        },
    }
}
