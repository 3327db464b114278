//! The words of a cycle after those of the outs, kind by kind: first the registers, then the wires and ports.
ghost use Rattle.std.specs.Prelude.{◌≡◌, ℕ, length};
ghost use Rattle.cg_datapath.specs.Course.{Keeps};
ghost use Rattle.cg_sim.specs.Settle.{AreReadable, AreRight, GiveRegisters, GiveNets, CanSettle, Settles, IsSettled};

use crate::plan::{Links, Plan};
use cg_config::Contexts;

/// Sets the words of `registers` in `words`: each has the word that its driver, selected in `slot` of `contexts`, had
/// in `before`.
pub(crate) fn settle_registers<C: Contexts>(
    registers: &Links,
    contexts: &C,
    slot: u32,
    before: &[u32],
    words: &mut [u32],
)
    requires readable { AreReadable (C.config contexts.now) slot registers.now (length words.old) }
    requires before { length before.now ≡ length words.old }
    ensures kept { (f : ℕ → ℕ) → GiveRegisters (C.config contexts.now) slot registers.now before.now f → Keeps f words.old words.new }
    ensures right { (f : ℕ → ℕ) → GiveRegisters (C.config contexts.now) slot registers.now before.now f → AreRight registers.now (length registers.now.entries.items) words.new f }
{
    for j in 0..registers.entries.len() {
        let entry = registers.entries[j];
        let select = contexts.select(entry.resource, slot) as usize;
        let driver = registers.drivers[entry.first + select];
        words[entry.resource as usize] = before[driver as usize];
    }
}

/// Sets the words of the wires and ports `nets` in `words`: each has the word of its driver, selected in `slot` of
/// `contexts`, which is already set.
pub(crate) fn settle_nets<C: Contexts>(nets: &Links, contexts: &C, slot: u32, words: &mut [u32])
    requires readable { AreReadable (C.config contexts.now) slot nets.now (length words.old) }
    ensures kept { (f : ℕ → ℕ) → GiveNets (C.config contexts.now) slot nets.now words.old f → Keeps f words.old words.new }
    ensures right { (f : ℕ → ℕ) → GiveNets (C.config contexts.now) slot nets.now words.old f → AreRight nets.now (length nets.now.entries.items) words.new f }
{
    for j in 0..nets.entries.len() {
        let entry = nets.entries[j];
        let select = contexts.select(entry.resource, slot) as usize;
        let driver = nets.drivers[entry.first + select];
        words[entry.resource as usize] = words[driver as usize];
    }
}

/// Computes the words of the registers, wires and ports of `plan` in a cycle at `slot`: `words` has those of the outs,
/// and `before` those of the cycle before.
pub(crate) fn settle<C: Contexts>(
    plan: &Plan,
    contexts: &C,
    slot: u32,
    before: &[u32],
    words: &mut [u32],
)
    requires before { length before.now ≡ length words.old }
    requires readable { CanSettle (C.config contexts.now) slot plan.now (length words.old) }
    ensures { (f : ℕ → ℕ) → Settles (C.config contexts.now) slot plan.now before.now words.old f → IsSettled plan.now words.old words.new f }
{
    settle_registers(&plan.registers, contexts, slot, before, words);
    settle_nets(&plan.nets, contexts, slot, words);
}
