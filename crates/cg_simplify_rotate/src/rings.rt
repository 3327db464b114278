//! The rings of a kernel: the strongly connected parts of its nodes by data edges and needs.
ghost use Rattle.std.specs.Prelude.{◌≤◌, length};
ghost use Rattle.cg_model.specs.Limits.{most_nodes};

use cg_model::{Node, Operand, OrderEdge};
use std::alloc::{AllocError, Global};

/// The ring of a node that is on none.
const NO_RING: u32 = u32::MAX;

/// The ring of each node, by number: two nodes are on one ring if these words are equal.
#[derive(Drop)]
pub(crate) struct Rings {
    of: Vec<u32>,
}

impl Rings {
    /// Returns the rings of `nodes` by their data edges and `needs`.
    pub(crate) fn new(
        alloc: Global,
        nodes: &[Node],
        needs: &[OrderEdge],
    ) -> Result<Rings, AllocError>
        requires { length nodes.now ≤ most_nodes }
    {
        let mut forth = Search::new(alloc, joins(alloc, nodes, needs, false)?)?;
        for node in 0..nodes.len() {
            forth.visit(alloc, node as u32)?;
        }
        let mut back = Search::new(alloc, joins(alloc, nodes, needs, true)?)?;
        let mut of = vec![in alloc; NO_RING; nodes.len()]?;
        for root in forth.left.iter().rev() {
            let first = back.left.len();
            back.visit(alloc, *root)?;
            for place in first..back.left.len() {
                set(&mut of, back.left[place], *root);
            }
        }
        Ok(Rings { of })
    }

    /// Returns whether node `u` is on the ring of node `v`.
    pub(crate) fn are_one(&self, u: u32, v: usize) -> bool {
        (u as usize) < self.of.len() && v < self.of.len() && self.of[u as usize] == self.of[v]
    }

    /// Takes node `u` off its ring and moves it to just before node `v`, a later one.
    pub(crate) fn take_off(&mut self, u: usize, v: usize) {
        if v > self.of.len() {
            return;
        }
        for place in u..v {
            if place + 1 < v {
                self.of.swap(place, place + 1);
            } else {
                self.of[place] = NO_RING;
            }
        }
    }
}

/// Sets item `place` of `words` to `word`, if there is one.
fn set(words: &mut [u32], place: u32, word: u32) {
    if (place as usize) < words.len() {
        words[place as usize] = word;
    }
}

/// Returns for each of `nodes` where its data edges and `needs` lead, or with `back` where those come from that lead to it.
fn joins(
    alloc: Global,
    nodes: &[Node],
    needs: &[OrderEdge],
    back: bool,
) -> Result<Vec<Vec<u32>>, AllocError>
    requires { length nodes.now ≤ most_nodes }
{
    let mut targets = Vec::new(alloc);
    for _ in 0..nodes.len() {
        targets.push(Vec::new(alloc))?;
    }
    for number in 0..nodes.len() {
        join_sources(
            &mut targets,
            nodes[number].operands.as_slice(),
            number as u32,
            back,
        )?;
    }
    for need in needs {
        join(&mut targets, need.from, need.to, back)?;
    }
    Ok(targets)
}

/// Adds to `targets` that the sources of `operands` lead to node `to`, or with `back` that it leads to them.
fn join_sources(
    targets: &mut [Vec<u32>],
    operands: &[Operand],
    to: u32,
    back: bool,
) -> Result<(), AllocError> {
    for operand in operands {
        if let Operand::Edge { from, .. } = operand {
            join(targets, *from, to, back)?;
        }
    }
    Ok(())
}

/// Adds to `targets` that node `from` leads to node `to`, or with `back` that it leads to `from`.
fn join(targets: &mut [Vec<u32>], from: u32, to: u32, back: bool) -> Result<(), AllocError> {
    let (from, to) = if back { (to, from) } else { (from, to) };
    if let Some(list) = targets.get_mut(from as usize) {
        list.push(to)?;
    }
    Ok(())
}

/// What is left to do of a search: to enter a node, or to leave it.
#[derive(Drop)]
enum Visit {
    Enter(u32),
    Leave(u32),
}

/// A search in depth: where each node leads, the nodes that were entered, and those that were left, in that order.
#[derive(Drop)]
struct Search {
    targets: Vec<Vec<u32>>,
    entered: Vec<bool>,
    left: Vec<u32>,
}

impl Search {
    /// Returns a search that has entered no node, by where each node leads.
    fn new(alloc: Global, targets: Vec<Vec<u32>>) -> Result<Search, AllocError> {
        let entered = vec![in alloc; false; targets.len()]?;
        Ok(Search {
            targets,
            entered,
            left: Vec::new(alloc),
        })
    }

    /// Enters and leaves all nodes that `root` leads to and that weren't entered.
    fn visit(&mut self, alloc: Global, root: u32) -> Result<(), AllocError> {
        let mut visits = Vec::new(alloc);
        visits.push(Visit::Enter(root))?;
        for _ in 0..u64::MAX {
            match visits.pop() {
                None => break,
                Some(Visit::Enter(node)) => self.enter(node, &mut visits)?,
                Some(Visit::Leave(node)) => self.left.push(node)?,
            }
        }
        Ok(())
    }

    /// Enters `node`, if that wasn't done, and adds to `visits` the nodes that it leads to.
    fn enter(&mut self, node: u32, visits: &mut Vec<Visit>) -> Result<(), AllocError> {
        let place = node as usize;
        if place < self.entered.len() && !self.entered[place] {
            self.entered[place] = true;
            visits.push(Visit::Leave(node))?;
            if let Some(targets) = self.targets.get(place) {
                for target in targets {
                    visits.push(Visit::Enter(*target))?;
                }
            }
        }
        Ok(())
    }
}
