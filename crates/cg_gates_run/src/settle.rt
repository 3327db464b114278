//! The words of a cycle by net, form by form: first those of contexts and units, then registers, then muxes.
ghost use Rattle.std.specs.Prelude.{◌≡◌, ◌<◌, ◌≤◌, ◌+◌, ℕ, List, length, slice_index};
ghost use Rattle.cg_datapath.specs.Course.{Keeps};
ghost use Rattle.cg_gates.specs.Gates.{GateCycle, nets_in};
ghost use Rattle.cg_gates_run.specs.Settle.{AreSelectable, GiveSelects, AreSelectsRight, AreReadable, GiveRegisters, AreRight, GiveMuxes, chosen_by, AreByNet, IsFitted, Precedes, IsSettled};

use crate::gates::Gates;
use cg_config::Contexts;
use cg_datapath::Course;
use cg_gates::{Choice, Choices, SelectCell};

/// Sets the net of each of `cells` in `words` to the select of its resource at `slot` of `contexts`.
pub(crate) fn give_selects<C: Contexts>(
    cells: &[SelectCell],
    contexts: &C,
    slot: u32,
    words: &mut [u32],
)
    requires { AreSelectable (C.config contexts.now) slot cells.now (length words.old) }
    ensures kept { (f : ℕ → ℕ) → GiveSelects (C.config contexts.now) slot cells.now f → Keeps f words.old words.new }
    ensures right { (f : ℕ → ℕ) → GiveSelects (C.config contexts.now) slot cells.now f → AreSelectsRight cells.now (length cells.now) words.new f }
{
    for j in 0..cells.len() {
        let cell = cells[j];
        words[cell.net as usize] = contexts.select(cell.resource, slot);
    }
}

/// Returns the word in `words` that `entry` chooses among those of its nets in `heard`, 0 for none.
fn chosen_word(entry: Choice, heard: &[u32], words: &[u32]) -> u32
    requires select { entry.select < length words.now }
    requires within { entry.first + entry.count ≤ length heard.now }
    requires each { (k : ℕ) → k < entry.count → slice_index heard.now (entry.first + k) < length words.now }
    ensures { result ≡ chosen_by heard.now words.now entry (slice_index words.now entry.select) }
{
    let select = words[entry.select as usize];
    if select == 0 || select > entry.count {
        return 0;
    }
    let net = heard[entry.first + (select - 1) as usize];
    words[net as usize]
}

/// Sets the net of each of `registers` in `words` to the word that it chose among the words `before`.
pub(crate) fn settle_registers(registers: &Choices, before: &[u32], words: &mut [u32])
    requires readable { AreReadable registers.now (length words.old) }
    requires before { length before.now ≡ length words.old }
    ensures kept { (f : ℕ → ℕ) → GiveRegisters registers.now before.now f → Keeps f words.old words.new }
    ensures right { (f : ℕ → ℕ) → GiveRegisters registers.now before.now f → AreRight registers.now (length registers.now.entries.items) words.new f }
{
    for j in 0..registers.entries.len() {
        let entry = registers.entries[j];
        words[entry.net as usize] = chosen_word(entry, &registers.heard, before);
    }
}

/// Sets the net of each of `muxes` in `words` to the word that it chooses, which is set by then.
pub(crate) fn settle_muxes(muxes: &Choices, words: &mut [u32])
    requires readable { AreReadable muxes.now (length words.old) }
    ensures kept { (f : ℕ → ℕ) → GiveMuxes muxes.now words.old f → Keeps f words.old words.new }
    ensures right { (f : ℕ → ℕ) → GiveMuxes muxes.now words.old f → AreRight muxes.now (length muxes.now.entries.items) words.new f }
{
    for j in 0..muxes.entries.len() {
        let entry = muxes.entries[j];
        let word = chosen_word(entry, &muxes.heard, words);
        words[entry.net as usize] = word;
    }
}

/// Sets the word of each net of `gates` in `words` to that of the next cycle of `course` under `contexts`, from the
/// words `before` it.
pub(crate) fn settle<C: Contexts>(
    gates: &Gates<'_>,
    contexts: &C,
    course: &Course<'_, C>,
    before: &[u32],
    words: &mut [u32],
)
    requires fitted { IsFitted gates.now.arch gates.now.netlist (C.config contexts.now) course.now }
    requires before { AreByNet gates.now.netlist before.now }
    requires words { AreByNet gates.now.netlist words.old }
    ensures { (past : List GateCycle) → Precedes gates.now.arch gates.now.netlist past course.now before.now → IsSettled gates.now.netlist words.new (nets_in gates.now.arch gates.now.netlist (C.config contexts.now) course.now.done past) }
{
    let slot = course.slot();
    let next_slot = course.next_slot();
    give_selects(gates.contexts(), contexts, slot, words);
    give_selects(gates.preselects(), contexts, next_slot, words);
    course.give_outs(words);
    settle_registers(gates.registers(), before, words);
    settle_muxes(gates.muxes(), words);
}
