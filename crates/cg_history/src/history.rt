//! The results of the last cycles.
ghost use Rattle.std.specs.Prelude.{◌≡◌, ◌<◌, ◌≤◌, IfOk, length};

use std::alloc::{AllocError, Global};
use std::marker::Model;

/// The results of the last cycles, a row for each, in a ring. Contracts see the fields, with the words as a list.
#[derive(Drop)]
pub(crate) struct History {
    words: Vec<u32>,
    units: usize,
    rows: usize,
    row: usize,
}

impl Model for History {
    ghost use Rattle.cg_history.specs.Results.{Results, IsRing};

    ghost Value = { Results };

    ghost view = { λ h. record { words = h.words.items; units = h.units; rows = h.rows; row = h.row } };

    ghost invariant = { λ h. IsRing (record { words = h.words.items; units = h.units; rows = h.rows; row = h.row }) };
}

impl History {
    ghost use Rattle.std.specs.Prelude.{◌≡◌, ◌≢◌, ◌<◌, ◌≤◌, ◌+◌, ℕ, IfOk};
    ghost use Rattle.cg_model.specs.Limits.{most_units};
    ghost use Rattle.cg_history.specs.Results.{IsFirst, KeepsRows, result_ago, result_now};

    /// Returns the results of `units` units before the first cycle, which are 0, with room for those of `rows` cycles.
    pub(crate) fn new(alloc: Global, units: usize, rows: usize) -> Result<History, AllocError>
        requires units { units ≤ most_units }
        requires rows { (0 < rows) × (rows ≤ 256) }
        ensures { IfOk result (IsFirst units rows) }
    {
        let words = vec![in alloc; 0_u32; rows * units]?;
        Ok(History {
            words,
            units,
            rows,
            row: 0,
        })
    }

    /// Returns the result that `unit` began `delay` cycles ago.
    pub(crate) fn ago(&self, unit: u32, delay: u32) -> u32
        requires unit { unit < self.now.units }
        requires delay { (0 < delay) × (delay < self.now.rows) }
        ensures { result ≡ result_ago self.now unit delay }
    {
        let delay = delay as usize;
        let row = if delay <= self.row {
            self.row - delay
        } else {
            self.row + self.rows - delay
        };
        self.words[row * self.units + unit as usize]
    }

    /// Sets the result of what `unit` begins in the current cycle to `value`.
    pub(crate) fn set(&mut self, unit: u32, value: u32)
        requires { unit < self.old.units }
        ensures kept { KeepsRows self.old self.new }
        ensures now { result_now self.new unit ≡ value }
        ensures others { (x : ℕ) → x ≢ unit → result_now self.new x ≡ result_now self.old x }
    {
        self.words[self.row * self.units + unit as usize] = value;
    }

    /// Ends the current cycle: its results are those of one cycle ago.
    pub(crate) fn advance(&mut self)
        ensures units { self.new.units ≡ self.old.units }
        ensures rows { self.new.rows ≡ self.old.rows }
        ensures first { (x : ℕ) → result_ago self.new x 1 ≡ result_now self.old x }
        ensures later { (x d : ℕ) → d < self.old.rows → result_ago self.new x (d + 1) ≡ result_ago self.old x d }
    {
        let next = self.row + 1;
        self.row = if next == self.rows { 0 } else { next };
    }
}
