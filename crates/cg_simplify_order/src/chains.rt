//! The chains of data edges and needs between the accesses of a kernel.
ghost use Rattle.std.specs.Prelude.{◌≡◌, ◌<◌, ◌≤◌, IfOk, length};
ghost use Rattle.cg_model.specs.Kernel.{size};
ghost use Rattle.cg_simplify_order.specs.Found.{JoinBelow};

use crate::matrix::Matrix;
use cg_distance::DistanceTable;
use cg_model::{Kernel, Node, OrderEdge};
use std::alloc::{AllocError, Global};
use std::marker::Model;

/// The least turns between the accesses of a kernel. Contracts see it as the number of nodes.
#[derive(Drop)]
pub(crate) struct Chains {
    /// Those of data edges alone, or of one need.
    near: Matrix,
    /// Those of data edges and needs; a row has the chains to a node.
    into: Matrix,
}

impl Model for Chains {
    ghost use Rattle.std.specs.Prelude.{ℕ, ◌≡◌};

    ghost Value = { ℕ };

    ghost view = { λ c. c.near };

    ghost invariant = { λ c. c.into ≡ c.near };
}

impl Chains {
    ghost use Rattle.std.specs.Prelude.{◌≡◌, ◌<◌, ◌≤◌, IfOk};

    /// Returns chains of a kernel of `size` nodes, without one yet.
    fn new(alloc: Global, size: usize) -> Result<Chains, AllocError>
        requires { size ≤ 1024 }
        ensures { IfOk result (λ c. c ≡ size) }
    {
        let near = Matrix::new(alloc, size)?;
        let into = Matrix::new(alloc, size)?;
        Ok(Chains { near, into })
    }

    /// Notes that data edges alone or one need lead from node `from` to node `to` over `turns` turns.
    fn note(&mut self, from: u32, to: u32, turns: u32)
        requires from { from < self.old }
        requires to { to < self.old }
        ensures { self.new ≡ self.old }
    {
        self.near.note(from, to, turns);
        self.into.note(to, from, turns);
    }

    /// Notes all chains that are joined from those.
    fn close(&mut self, alloc: Global) -> Result<(), AllocError>
        ensures { self.new ≡ self.old }
    {
        self.into.close(alloc)
    }

    /// Returns whether chains lead from node `from` to node `to` by way of a third node, over at most `most` turns.
    pub(crate) fn has_detour(&self, from: u32, to: u32, most: u32) -> bool
        requires from { from < self.now }
        requires to { to < self.now }
    {
        let out = self.near.row(from as usize);
        let onto = self.into.row(to as usize);
        is_joined(out, onto, to as usize, most)
    }
}

/// Returns whether the turns of `out` and of `onto` at one place other than `target` are at most `most` together.
fn is_joined(out: &[u32], onto: &[u32], target: usize, most: u32) -> bool
    requires { length onto.now ≡ length out.now }
{
    for place in 0..out.len() {
        if place != target && out[place].saturating_add(onto[place]) <= most {
            return true;
        }
    }
    false
}

/// Returns the chains of the data edges of `kernel`, of which `data` has the distances, and of `needs`.
pub(crate) fn chains_of(
    alloc: Global,
    kernel: &Kernel,
    data: &DistanceTable,
    needs: &[OrderEdge],
) -> Result<Chains, AllocError>
    requires { JoinBelow (size kernel.now) needs.now }
    ensures { IfOk result (λ c. c ≡ size kernel.now) }
{
    let nodes = kernel.nodes();
    let mut chains = Chains::new(alloc, nodes.len())?;
    note_data(nodes, data, &mut chains);
    note_needs(needs, &mut chains);
    chains.close(alloc)?;
    Ok(chains)
}

/// Notes the chains of data edges between the accesses of `nodes`.
fn note_data(nodes: &[Node], data: &DistanceTable, chains: &mut Chains)
    requires same { length nodes.now ≡ chains.old }
    requires few { length nodes.now ≤ 1024 }
    ensures { chains.new ≡ chains.old }
{
    for from in 0..nodes.len() {
        if nodes[from].op.is_access() {
            note_row(nodes, data, from as u32, chains);
        }
    }
}

/// Notes the chains of data edges from node `from` to other accesses of `nodes`.
fn note_row(nodes: &[Node], data: &DistanceTable, from: u32, chains: &mut Chains)
    requires same { length nodes.now ≡ chains.old }
    requires few { length nodes.now ≤ 1024 }
    requires from { from < length nodes.now }
    ensures { chains.new ≡ chains.old }
{
    for to in 0..nodes.len() {
        if nodes[to].op.is_access() {
            note_pair(data, from, to as u32, chains);
        }
    }
}

/// Notes the chain of data edges from node `from` to node `to`, if there is one and they are two.
fn note_pair(data: &DistanceTable, from: u32, to: u32, chains: &mut Chains)
    requires from { from < chains.old }
    requires to { to < chains.old }
    ensures { chains.new ≡ chains.old }
{
    if from == to {
        return;
    }
    if let Some(turns) = data.get(from, to) {
        chains.note(from, to, turns);
    }
}

/// Notes `needs` as chains.
fn note_needs(needs: &[OrderEdge], chains: &mut Chains)
    requires { JoinBelow chains.old needs.now }
    ensures { chains.new ≡ chains.old }
{
    for number in 0..needs.len() {
        let need = needs[number];
        chains.note(need.from, need.to, need.distance);
    }
}
