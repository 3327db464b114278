//! Tables of numbers by node and operand.
ghost use Rattle.std.specs.Prelude.{◌≡◌, slice_index_or, unwrap_or};

use cg_model::Items;
use std::alloc::{AllocError, Global};
use std::marker::Model;

/// The least number of registers on a way for each edge of a kernel, which contracts see as a row of numbers for each
/// node.
#[derive(Drop)]
pub struct Ways {
    rows: Vec<Items<Option<u32>>>,
}

impl Model for Ways {
    ghost use Rattle.std.specs.Prelude.{ℕ, List, Option};

    ghost Value = { List (List (Option ℕ)) };

    ghost view = { λ w. w.rows.items };
}

/// Returns entry `arg` of `row`, and 0 if there is none.
fn number_at(row: &[Option<u32>], arg: usize) -> u32
    ensures { result ≡ unwrap_or (slice_index_or row.now arg None) 0 }
{
    if arg < row.len() {
        row[arg].unwrap_or(0)
    } else {
        0
    }
}

impl Ways {
    ghost use Rattle.std.specs.Prelude.{◌≡◌, ◌≤◌, ℕ, IfOk, slice_index};
    ghost use Rattle.cg_bound_routes.specs.Ways.{hops_of, AreSmall};
    ghost use Rattle.cg_bound_routes.specs.Table.{AreThreeANode};

    /// Returns the table of `rows`.
    pub(crate) fn new(rows: Vec<Items<Option<u32>>>) -> Ways
        ensures { result ≡ rows.items }
    {
        Ways { rows }
    }

    /// Returns the least number of registers on a way for operand number `arg` of node `node`; `None` if there is no
    /// way.
    pub fn hops(&self, node: u32, arg: u32) -> Option<u32>
        ensures { result ≡ hops_of self.now node arg }
    {
        if node as usize >= self.rows.len() {
            return None;
        }
        let row = self.rows[node as usize].as_slice();
        if arg as usize >= row.len() {
            return None;
        }
        row[arg as usize]
    }

    /// Returns the numbers, three for each node, with 0 if there is none.
    pub fn three_a_node(&self, alloc: Global) -> Result<Vec<u32>, AllocError>
        ensures numbers { IfOk result (λ list. AreThreeANode self.now list.items) }
        ensures small { IfOk result (λ list. (n : ℕ) → AreSmall n self.now → (i : ℕ) → slice_index list.items i ≤ n) }
    {
        let mut list = Vec::new(alloc);
        for node in 0..self.rows.len() {
            let row = self.rows[node].as_slice();
            list.extend_from_slice(&[number_at(row, 0), number_at(row, 1), number_at(row, 2)])?;
        }
        Ok(list)
    }
}
