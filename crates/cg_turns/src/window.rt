//! The values of the last turns.
//!
//! An edge goes back over at most four turns, so five rows of values are kept: that of turn `j` is row `j % 5`.
ghost use Rattle.std.specs.Prelude.{◌≡◌, ◌<◌, ◌≤◌, ◌*◌, ◌%◌, ℕ, Some, length, map, slice_get, slice_index};
ghost use Rattle.cg_model.specs.Limits.{most_nodes};
ghost use Rattle.cg_model.specs.declared.kernel.Operand.{Operand as OperandOf};
ghost use Rattle.cg_turns.specs.Window.{operand_in, IsNear};

use cg_model::Operand;

/// The number of rows.
pub(crate) const ROWS: usize = 5;

/// A turn, and the row of its values.
#[derive(Clone, Copy)]
pub(crate) struct Turn {
    pub(crate) number: u32,
    pub(crate) row: usize,
    ghost here: { row ≡ number % 5 },
    ghost few: { row < 5 },
}

/// The values of the last turns, seen from a turn.
#[derive(Clone, Copy)]
pub(crate) struct Window<'a> {
    pub(crate) values: &'a [u32],
    /// The length of a row.
    pub(crate) size: usize,
    pub(crate) turn: Turn,
    ghost small: { size ≤ most_nodes },
    ghost long: { length values.now ≡ 5 * size },
}

/// Returns an operand in a turn, from the rows.
fn operand_word(operand: &Operand, window: Window) -> u32
    requires { IsNear window.size operand.now }
    ensures { result ≡ operand_in window.entry.values.now window.entry.turn.row window.entry.size window.entry.turn.number operand.now }
{
    match operand {
        Operand::Const(word) => *word,
        Operand::Edge {
            from,
            distance,
            init,
        } => {
            let Turn { number, row } = window.turn;
            let back = *distance as usize;
            if number < *distance {
                word_at(init.as_slice(), number as usize)
            } else if back <= row {
                window.values[(row - back) * window.size + *from as usize]
            } else {
                window.values[(row + ROWS - back) * window.size + *from as usize]
            }
        }
    }
}

/// Returns the operand at `place`, 0 past the last one.
pub(crate) fn argument(operands: &[Operand], place: usize, window: Window) -> u32
    requires { (p : ℕ) (o : OperandOf) → slice_get operands.now p ≡ Some o → IsNear window.size o }
    ensures { result ≡ slice_index (map (operand_in window.entry.values.now window.entry.turn.row window.entry.size window.entry.turn.number) operands.now) place }
{
    if place < operands.len() {
        operand_word(&operands[place], window)
    } else {
        0
    }
}

/// Returns the word at `place`, 0 past the end.
fn word_at(words: &[u32], place: usize) -> u32
    ensures { result ≡ slice_index words.now place }
{
    match words.get(place) {
        Some(word) => *word,
        None => 0,
    }
}
