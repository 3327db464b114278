//! The ports that fields give output to.
ghost use Rattle.std.specs.Prelude.{◌≡◌, ℕ, ◌+◌, ◌*◌, ◌<◌, ◌≤◌, ◌^◌, ◌&&◌, ◌||◌, not, eqb, Bool, false, length, IfNone, slice_index_or};
ghost use Rattle.cg_model.specs.Canonical.{gives_output};
ghost use Rattle.cg_bits.specs.Numbers.{number_at, bits_of_bytes};
ghost use Rattle.cg_bits.specs.Parts.{joined};
ghost use Rattle.cg_bits.specs.Faults.{first};
ghost use Rattle.cg_bits.specs.Checks.{fields_there, port_faults, repeated_faults, uses, used_before};

use crate::all_slots::Slots;
use crate::checking::HEADER_BITS;
use crate::field::number_at;
use crate::reading::op_of;
use cg_config::gives_output;
use cg_word::Op;

/// Marks an output's port as used. Returns whether it was free, or there is no output.
fn take_port(used: &mut [bool; 16], op: Option<Op>, port: u32) -> bool
    requires { port < 16 }
    ensures free { result ≡ not (gives_output op && slice_index_or used.old port false) }
    ensures noted { (q : ℕ) → q < 16 → slice_index_or used.new q false ≡ (slice_index_or used.old q false || (gives_output op && eqb port q)) }
{
    if !gives_output(op) {
        return true;
    }
    let free = !used[port as usize];
    used[port as usize] = true;
    free
}

/// Returns the port field of the first output in `slot` to a port in use; the ports of the others are marked as used.
fn repeated_port_in(slots: &Slots<'_>, slot: usize, used: &mut [bool; 16]) -> Option<usize>
    requires { slot < slots.now.ii }
    ensures first { result ≡ first (port_faults slots.now.format slots.now.arch.now (bits_of_bytes slots.now.body.now) (λ q. slice_index_or used.old q false) slot) }
    ensures noted { IfNone result ((q : ℕ) → q < 16 → slice_index_or used.new q false ≡ (slice_index_or used.old q false || uses (fields_there slots.now.format slots.now.arch.now (bits_of_bytes slots.now.body.now) slot) (length slots.now.arch.now.units) q)) }
{
    for x in 0..slots.arch.units().len() {
        let at = slots.unit_place(x as u32, slot);
        let port_at = at + slots.format.op_bits as usize + 16;
        let op = op_of(
            slots.format,
            number_at(slots.body, at, slots.format.op_bits),
        );
        if !take_port(used, op, number_at(slots.body, port_at, 4)) {
            return Some(HEADER_BITS + port_at);
        }
    }
    None
}

/// Returns the port field of the first output to a port that an earlier field gives output to.
pub(crate) fn repeated_port(slots: &Slots<'_>) -> Option<usize>
    ensures { result ≡ first (repeated_faults slots.now.format slots.now.arch.now (bits_of_bytes slots.now.body.now) slots.now.ii) }
{
    let mut used = [false; 16];
    for slot in 0..slots.ii {
        if let Some(place) = repeated_port_in(slots, slot, &mut used) {
            return Some(place);
        }
    }
    None
}
