//! TOML texts: the tables that bytes represent, and access to their values for readers of formats.
#![tactic(auto)]

ghost use Rattle.std.specs.Prelude.{◌≡◌, Some, None, IfOk, IsErrOf};
ghost use Rattle.toml.specs.View.{view};
ghost use Rattle.cg_toml.specs.Bytes.{table_of};

mod members;
mod size;

pub use members::{
    flag_or, has_other_keys, items_at, items_in, items_or_none, members_at, text_at, word_at,
    word_or,
};
pub use size::MOST_MEMORY;
use size::memory_for;
use std::alloc::Global;
use toml::Value;

/// Why bytes gave no table.
#[derive(Clone, Copy, Debug, PartialEq, Eq)]
pub enum TomlFault {
    Memory,
    NotToml,
}

/// Returns the TOML table that `bytes` represent.
///
/// For a text whose values may take more than [`MOST_MEMORY`] bytes it returns `Memory` without parsing the text.
pub fn toml_table(alloc: Global, bytes: &[u8]) -> Result<Value, TomlFault>
    ensures ok { IfOk result (λ value. table_of bytes.now ≡ Some (view value)) }
    ensures not_toml { IsErrOf result TomlFault.NotToml → table_of bytes.now ≡ None }
{
    if memory_for(bytes) > MOST_MEMORY {
        return Err(TomlFault::Memory);
    }
    match toml::table_from_slice(alloc, bytes) {
        Ok(table) => Ok(Value::Table(table)),
        Err(error) => if error.is_memory() {
            Err(TomlFault::Memory)
        } else {
            Err(TomlFault::NotToml)
        },
    }
}
