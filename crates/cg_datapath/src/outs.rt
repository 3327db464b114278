//! The words of the outs.
ghost use Rattle.std.specs.Prelude.{◌≡◌, ℕ, ◌<◌, ◌≤◌, ◌*◌, length};
ghost use Rattle.cg_datapath.specs.Terminals.{terminals};
ghost use Rattle.cg_datapath.specs.Course.{Keeps, AreOutsRight};
ghost use Rattle.cg_datapath.specs.Outs.{AreGiven};

use crate::terminals::Terminals;

/// Sets the word of each out in `words` to the result that its unit of `units` gave one latency ago. `history` holds
/// the results of the last four cycles, unit by unit; the results of this cycle will be in row `row`.
pub(crate) fn set_outs(units: &[Terminals], row: usize, history: &[u32], words: &mut [u32])
    requires row { row < 4 }
    requires history { length history.now ≡ 4 * length units.now }
    requires latencies { (x : ℕ) → x < length units.now → (terminals units.now x).latency ≤ 4 }
    requires outs { (x : ℕ) → x < length units.now → (terminals units.now x).out < length words.old }
    ensures kept { (f : ℕ → ℕ) → AreGiven units.now row history.now f → Keeps f words.old words.new }
    ensures right { (f : ℕ → ℕ) → AreGiven units.now row history.now f → AreOutsRight units.now words.new f }
{
    for x in 0..units.len() {
        let unit = units[x];
        words[unit.out as usize] = history[4 * x + (row + 4 - unit.latency as usize) % 4];
    }
}
