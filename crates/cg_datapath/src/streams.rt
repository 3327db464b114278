//! The output streams of a run, with room for all that is sent.
ghost use Rattle.std.specs.Prelude.{◌≡◌, ◌<◌, ◌≤◌, ◌⊎◌, ℕ, [], true, false, IfOk, length, slice_index_or, vec_capacity};
ghost use Rattle.cg_model.specs.Config as configs;
ghost use Rattle.cg_model.specs.Canonical.{IsCanonical, gives_output};
ghost use Rattle.cg_model.specs.Limits.{most_units};
ghost use Rattle.cg_config.specs.Known.{HasUnit};
ghost use Rattle.cg_datapath.specs.Reserved.{stream, all_words, IsSentToIn, AreMarked, IsReserved};

use crate::effects::Stream;
use cg_arch::Arch;
use cg_config::{Contexts, Op};
use cg_model::Words;
use cg_pad::PORTS;
use std::alloc::{AllocError, Global};

/// Returns sixteen streams, with room for `n` words in each to which units of `arch` output under `contexts`, and none in
/// the others.
pub(crate) fn reserve_streams<C: Contexts>(
    alloc: Global,
    arch: &Arch,
    contexts: &C,
    n: u32,
) -> Result<Vec<Stream>, AllocError>
    requires { IsCanonical arch.now (C.config contexts.now) }
    ensures long { IfOk result (λ v. length v.items ≡ 16) }
    ensures empty { IfOk result (λ v. (port : ℕ) → (stream v.items port).words ≡ []) }
    ensures room { IfOk result (λ v. IsReserved (C.config contexts.now) (length arch.now.units) n v.items) }
{
    let used = used_ports(arch, contexts);
    let mut streams = Vec::with_capacity(alloc, PORTS)?;
    for port in 0..PORTS {
        let room = if used[port] { n as usize } else { 0 };
        let words = Vec::with_capacity(alloc, room)?;
        streams.push(Stream { words })?;
    }
    Ok(streams)
}

/// Returns which ports the units of `arch` output to under `contexts`.
fn used_ports<C: Contexts>(arch: &Arch, contexts: &C) -> [bool; 16]
    requires { IsCanonical arch.now (C.config contexts.now) }
    ensures { AreMarked (C.config contexts.now) (length arch.now.units) (C.config contexts.now).ii result }
{
    let units = arch.units().len();
    let mut used = [false; 16];
    for slot in 0..contexts.ii() {
        mark_used(units, contexts, slot, &mut used);
    }
    used
}

/// Marks in `used` the ports to which the first `units` units output in `slot` under `contexts`.
fn mark_used<C: Contexts>(units: usize, contexts: &C, slot: u32, used: &mut [bool])
    requires few { units ≤ most_units }
    requires known { (x : ℕ) → x < units → HasUnit (C.config contexts.now) x slot }
    requires ports { (x : ℕ) → x < units → (configs.fields (C.config contexts.now) x slot).port < length used.old }
    ensures kept { (port : ℕ) → slice_index_or used.old port false ≡ true → slice_index_or used.new port false ≡ true }
    ensures marked { (port : ℕ) → IsSentToIn (C.config contexts.now) units slot port → slice_index_or used.new port false ≡ true }
    ensures only { (port : ℕ) → slice_index_or used.new port false ≡ true →
        (slice_index_or used.old port false ≡ true) ⊎ IsSentToIn (C.config contexts.now) units slot port }
{
    for x in 0..units {
        let head = contexts.head(x as u32, slot);
        if gives_output(head.op) {
            used[head.port as usize] = true;
        }
    }
}

/// Returns whether `op` is `output` or `outputif`.
fn gives_output(op: Option<Op>) -> bool
    ensures { result ≡ gives_output op }
{
    match op {
        Some(op) => op.is_output(),
        None => false,
    }
}

/// Moves the words of all `streams` into `room`, an empty list that has room for them.
pub fn all_words(streams: Vec<Stream>, room: Vec<Words>) -> Vec<Words>
    requires empty { room.items ≡ [] }
    requires enough { length streams.items ≤ vec_capacity room }
    ensures { result.items ≡ all_words streams.items }
{
    let mut finished = room;
    for stream in streams {
        let _done = finished.push(stream.into_words());
    }
    finished
}
