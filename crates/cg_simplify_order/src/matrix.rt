//! The least turns of chains from node to node.
ghost use Rattle.std.specs.Prelude.{◌≡◌, length};

use std::alloc::{AllocError, Global};
use std::marker::Model;

/// Stands where no chain is known.
const FAR: u32 = u32::MAX;

/// The least turns of chains from node to node, as far as they are known. Contracts see it as the number of nodes.
#[derive(Drop)]
pub(crate) struct Matrix {
    size: usize,
    /// Row by row.
    cells: Vec<u32>,
}

impl Model for Matrix {
    ghost use Rattle.std.specs.Prelude.{ℕ, ◌≡◌, ◌*◌, ◌≤◌, length};

    ghost Value = { ℕ };

    ghost view = { λ m. m.size };

    ghost invariant = { λ m. (length m.cells.items ≡ m.size * m.size) × (m.size ≤ 1024) };
}

impl Matrix {
    ghost use Rattle.std.specs.Prelude.{◌≡◌, ◌<◌, ◌≤◌, IfOk, length};

    /// Returns a matrix of `size` nodes, without a chain.
    pub(crate) fn new(alloc: Global, size: usize) -> Result<Matrix, AllocError>
        requires { size ≤ 1024 }
        ensures { IfOk result (λ m. m ≡ size) }
    {
        let cells = vec![in alloc; FAR; size * size]?;
        Ok(Matrix { size, cells })
    }

    /// Returns the turns of the chains from node `from`, by target.
    pub(crate) fn row(&self, from: usize) -> &[u32]
        requires { from < self.now }
        ensures { length result.now ≡ self.now }
    {
        let start = from * self.size;
        &self.cells[start..start + self.size]
    }

    /// Notes a chain from node `from` to node `to` over `turns` turns.
    pub(crate) fn note(&mut self, from: u32, to: u32, turns: u32)
        requires from { from < self.old }
        requires to { to < self.old }
        ensures { self.new ≡ self.old }
    {
        let place = from as usize * self.size + to as usize;
        self.cells[place] = self.cells[place].min(turns);
    }

    /// Notes all chains that are joined from the known ones.
    pub(crate) fn close(&mut self, alloc: Global) -> Result<(), AllocError>
        ensures { self.new ≡ self.old }
    {
        for middle in 0..self.size {
            self.join_at(alloc, middle)?;
        }
        Ok(())
    }

    /// Notes the chains that go by way of node `middle`.
    fn join_at(&mut self, alloc: Global, middle: usize) -> Result<(), AllocError>
        requires { middle < self.old }
        ensures { self.new ≡ self.old }
    {
        let onward = Vec::from_slice(alloc, self.row(middle))?;
        for from in 0..self.size {
            self.join(from, middle, &onward);
        }
        Ok(())
    }

    /// Notes the chains from node `from` that go by way of node `middle`, from which `onward` has the turns.
    fn join(&mut self, from: usize, middle: usize, onward: &[u32])
        requires from { from < self.old }
        requires middle { middle < self.old }
        requires onward { length onward.now ≡ self.old }
        ensures { self.new ≡ self.old }
    {
        let start = from * self.size;
        let turns = self.cells[start + middle];
        if turns != FAR {
            lower(&mut self.cells[start..start + self.size], turns, onward);
        }
    }
}

/// Lowers each of `cells` to `turns` more than that of `onward`, if this is less.
fn lower(cells: &mut [u32], turns: u32, onward: &[u32])
    requires { length onward.now ≡ length cells.old }
{
    for place in 0..cells.len() {
        let sum = turns.saturating_add(onward[place]);
        if sum < cells[place] {
            cells[place] = sum;
        }
    }
}
