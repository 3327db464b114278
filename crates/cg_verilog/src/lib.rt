//! The text of a structural Verilog module, read exactly.
#![tactic(auto)]

ghost use Rattle.std.specs.Prelude.{◌≡◌, IfOk, IfErr};
ghost use Rattle.cg_tokens.specs.Tokens.{tokens_of, texts};
ghost use Rattle.cg_verilog.specs.Module.{ModuleText, IsModule, module_tokens};
ghost use Rattle.cg_verilog.specs.Printed.{module_text};
ghost use Rattle.cg_verilog.specs.Read.{module_of, IsFault, Gives};

mod fault;
pub mod laws;
mod module;
mod reader;

use fault::Misfit;
pub use fault::ModuleFault;
pub use module::{Cell, Module, Pin, Wire};
use reader::Reader;
use std::alloc::Global;

/// Returns the module that `bytes` encode.
pub fn read_module(alloc: Global, bytes: &[u8]) -> Result<Module<'_>, ModuleFault>
    // The bytes encode the module that is read.
    ensures found { IfOk result (λ m. IsModule (module_of m) × (texts (tokens_of None bytes.now) ≡ module_tokens (module_of m))) }
    // A module that the bytes encode is read, unless memory runs out.
    ensures only { (m : ModuleText) → IsModule m → texts (tokens_of None bytes.now) ≡ module_tokens m → Gives m result }
    // A printed module is read likewise.
    ensures printed { (m : ModuleText) → IsModule m → bytes.now ≡ module_text m → Gives m result }
    // The fault is the one that the bytes have.
    ensures fault { IfErr result (λ e. IsFault e bytes.now) }
{
    read(alloc, bytes)
}

/// Returns the module that `bytes` encode, without the laws that follow from its two clauses.
fn read(alloc: Global, bytes: &[u8]) -> Result<Module<'_>, ModuleFault>
    // The bytes encode the module that is read.
    ensures found { IfOk result (λ m. IsModule (module_of m) × (texts (tokens_of None bytes.now) ≡ module_tokens (module_of m))) }
    // The fault is the one that the bytes have.
    ensures fault { IfErr result (λ e. IsFault e bytes.now) }
{
    let mut reader = Reader::new(bytes);
    match reader.module(alloc) {
        Ok(module) => Ok(module),
        Err(Misfit::Memory) => Err(ModuleFault::Memory),
        Err(Misfit::Text) => Err(ModuleFault::Text(reader.place(bytes.len()))),
    }
}
