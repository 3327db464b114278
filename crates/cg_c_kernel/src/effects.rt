//! The nodes of what a turn does beside computing.
ghost use Rattle.std.specs.Prelude.{◌≡◌, ◌<◌, length, IfOk};
ghost use Rattle.cg_c_values.specs.Listed.{listed};
ghost use Rattle.cg_c_kernel.specs.Made.{AddsNode, HasLoadsBelow, IsGuardMade, IsLoaded, IsSend, IsStore, MayBeMade, Stands, made_of};

use crate::emission::{Emission, Pair, Triple};
use crate::marked::Live;
use cg_c_values::Value;
use cg_word::Op;
use std::alloc::AllocError;

/// Makes the node of the value `v` after those of its operands, if `v` is a live load without a node.
pub fn load(emission: &mut Emission, live: &Live, v: usize) -> Result<Option<u32>, AllocError>
    requires within { v < length (listed live.now.values.now) }
    requires stands { Stands (listed live.now.values.now) live.now.marks.items (made_of emission.now) }
    requires loads { HasLoadsBelow (listed live.now.values.now) live.now.marks.items (made_of emission.now) v }
    ensures { IfOk result (λ o. IsLoaded (listed live.now.values.now) live.now.marks.items (made_of emission.old) (made_of emission.new) v o) }
{
    if !live.marks[v] || emission.has_node(v) {
        return Ok(None);
    }
    match live.values.value(v) {
        Value::Loaded {
            guard: None,
            address,
            ..
        } => {
            emission.emit(live, address)?;
            let m = emission.one(live, Op::Load, 0, address)?;
            emission.place(v, m);
            Ok(Some(m))
        }
        Value::Loaded {
            guard: Some(guard),
            address,
            ..
        } => {
            emission.emit(live, guard)?;
            emission.emit(live, address)?;
            let parts = Pair {
                first: guard,
                second: address,
            };
            let m = emission.two(live, Op::LoadIf, 0, parts)?;
            emission.place(v, m);
            Ok(Some(m))
        }
        _ => Ok(None),
    }
}

/// Makes the node of a store of `parts`, an address and a word, after those of its operands.
pub fn store(
    emission: &mut Emission,
    live: &Live,
    guard: Option<usize>,
    parts: Pair,
) -> Result<u32, AllocError>
    requires stands { Stands (listed live.now.values.now) live.now.marks.items (made_of emission.now) }
    requires guard { IsGuardMade (listed live.now.values.now) live.now.marks.items (made_of emission.now) guard }
    requires first { MayBeMade (listed live.now.values.now) live.now.marks.items (made_of emission.now) parts.first }
    requires second { MayBeMade (listed live.now.values.now) live.now.marks.items (made_of emission.now) parts.second }
    ensures adds { IfOk result (λ m. AddsNode (listed live.now.values.now) live.now.marks.items (made_of emission.old) (made_of emission.new) m) }
    ensures is { IfOk result (λ m. IsStore (listed live.now.values.now) (made_of emission.new) m guard parts.first parts.second) }
{
    match guard {
        None => {
            emission.emit(live, parts.first)?;
            emission.emit(live, parts.second)?;
            emission.two(live, Op::Store, 0, parts)
        }
        Some(guard) => {
            emission.emit(live, guard)?;
            emission.emit(live, parts.first)?;
            emission.emit(live, parts.second)?;
            let parts = Triple {
                first: guard,
                second: parts.first,
                third: parts.second,
            };
            emission.three(live, Op::StoreIf, parts)
        }
    }
}

/// Makes the node of an output, after those of its operands.
pub fn send(
    emission: &mut Emission,
    live: &Live,
    guard: Option<usize>,
    port: u32,
    word: usize,
) -> Result<u32, AllocError>
    requires stands { Stands (listed live.now.values.now) live.now.marks.items (made_of emission.now) }
    requires guard { IsGuardMade (listed live.now.values.now) live.now.marks.items (made_of emission.now) guard }
    requires word { MayBeMade (listed live.now.values.now) live.now.marks.items (made_of emission.now) word }
    ensures adds { IfOk result (λ m. AddsNode (listed live.now.values.now) live.now.marks.items (made_of emission.old) (made_of emission.new) m) }
    ensures is { IfOk result (λ m. IsSend (listed live.now.values.now) (made_of emission.new) m guard port word) }
{
    match guard {
        None => {
            emission.emit(live, word)?;
            emission.one(live, Op::Output, port, word)
        }
        Some(guard) => {
            emission.emit(live, guard)?;
            emission.emit(live, word)?;
            let parts = Pair {
                first: guard,
                second: word,
            };
            emission.two(live, Op::OutputIf, port, parts)
        }
    }
}
