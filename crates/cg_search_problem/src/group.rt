//! Nodes that move along when one of them moves later or sooner.

use crate::lists::count;
use crate::problem::{DataEdge, Problem};
use cg_model::OrderEdge;
use std::alloc::{AllocError, Global};

/// The rule for which edges hold their ends together.
pub trait Tightness {
    /// Checks whether `edge` would become too short if one of its ends moved towards the other.
    fn is_tight(&self, problem: &Problem, edge: DataEdge) -> bool;

    /// Checks whether the order edge `tie` would become too short likewise.
    fn is_tight_tie(&self, problem: &Problem, tie: OrderEdge) -> bool;
}

/// A growing set of nodes.
#[derive(Drop)]
pub struct Group {
    members: Vec<u32>,
    marks: Vec<bool>,
}

impl Group {
    /// Returns an empty set of nodes, of which there are `nodes`.
    pub fn new(alloc: Global, nodes: u32) -> Result<Group, AllocError> {
        Ok(Group {
            members: Vec::new(alloc),
            marks: vec![in alloc; false; nodes as usize]?,
        })
    }

    /// Returns the members, in the order in which they were added.
    pub fn members(&self) -> &[u32] {
        self.members.as_slice()
    }

    /// Returns for each node whether it is a member.
    pub fn into_marks(self) -> Vec<bool> {
        self.marks
    }

    /// Checks whether `node` is a member.
    pub fn has(&self, node: u32) -> bool {
        match self.marks.get(node as usize) {
            Some(mark) => *mark,
            None => false,
        }
    }

    /// Checks whether all nodes are members.
    pub fn is_whole(&self) -> bool {
        count(self.members.as_slice()) >= count(self.marks.as_slice())
    }

    /// Takes all members out.
    pub fn clear(&mut self) {
        for member in &self.members {
            mark(&mut self.marks, *member, false);
        }
        self.members.clear();
    }

    /// Adds `node`, if there is such a node and it isn't a member.
    pub fn add(&mut self, node: u32) -> Result<(), AllocError> {
        if mark(&mut self.marks, node, true) {
            self.members.push(node)?;
        }
        Ok(())
    }

    /// Adds all nodes that must move along where the members move later, or sooner, because of edges that are tight by
    /// `tightness`.
    pub fn grow<T: Tightness>(
        &mut self,
        problem: &Problem,
        tightness: &T,
        is_later: bool,
    ) -> Result<(), AllocError> {
        for place in 0..self.marks.len() {
            match self.members.get(place).copied() {
                Some(node) => self.draw_along(problem, tightness, node, is_later)?,
                None => break,
            }
        }
        Ok(())
    }

    /// Adds the nodes that must move along with `node`.
    fn draw_along<T: Tightness>(
        &mut self,
        problem: &Problem,
        tightness: &T,
        node: u32,
        is_later: bool,
    ) -> Result<(), AllocError> {
        for edge in ways_of(problem, node, is_later) {
            self.draw_by_edge(problem, tightness, *edge, is_later)?;
        }
        for tie in problem.ties.of(node) {
            self.draw_by_tie(problem, tightness, *tie, is_later)?;
        }
        Ok(())
    }

    /// Adds the other end of data edge number `edge`, if the edge is tight.
    fn draw_by_edge<T: Tightness>(
        &mut self,
        problem: &Problem,
        tightness: &T,
        edge: u32,
        is_later: bool,
    ) -> Result<(), AllocError> {
        if let Some(facts) = problem.edge(edge) {
            let other = if is_later { facts.target } else { facts.source };
            if !self.has(other) && tightness.is_tight(problem, facts) {
                self.add(other)?;
            }
        }
        Ok(())
    }

    /// Adds the other end of order edge number `tie`, if the edge is tight.
    fn draw_by_tie<T: Tightness>(
        &mut self,
        problem: &Problem,
        tightness: &T,
        tie: u32,
        is_later: bool,
    ) -> Result<(), AllocError> {
        if let Some(edge) = problem.order.get(tie as usize).copied() {
            let other = if is_later { edge.to } else { edge.from };
            if !self.has(other) && tightness.is_tight_tie(problem, edge) {
                self.add(other)?;
            }
        }
        Ok(())
    }
}

/// Writes whether `node` is marked, and returns whether that is new.
fn mark(marks: &mut [bool], node: u32, is_marked: bool) -> bool {
    match marks.get_mut(node as usize) {
        Some(mark) => {
            let was = *mark;
            *mark = is_marked;
            was != is_marked
        }
        None => false,
    }
}

/// Returns the data edges that may become too short where `node` moves later, or sooner.
fn ways_of<'a>(problem: &'a Problem, node: u32, is_later: bool) -> &'a [u32] {
    if is_later {
        problem.outs.of(node)
    } else {
        problem.ins.of(node)
    }
}
