//! The first access outside the memory in a number of iterations.

use cg_model::{Kernel, Node, Operand};
use cg_pad::{Image, Scratchpad, Work};
use std::alloc::{AllocError, Global};

/// The number of iterations whose values are kept: an operand comes from at most four iterations before.
const ROWS: u32 = 5;

/// The maximum number of node steps that are repeated for a note.
const MOST_STEPS: u32 = 20_000_000;

/// An access outside the memory.
#[derive(Clone, Copy, Drop)]
pub(crate) struct Access {
    /// The number of its node.
    pub(crate) node: usize,
    /// Its iteration.
    pub(crate) turn: u32,
    /// The address of the word that it would reach.
    pub(crate) address: u32,
}

/// The state after the iterations so far.
#[derive(Drop)]
struct Turns<'a> {
    kernel: &'a Kernel,
    image: &'a Image,
    memory: Scratchpad,
    values: Vec<u32>,
}

/// Returns the first access of `kernel` outside the memory of `image` in `turns` iterations; None if there is none, or
/// if it comes too late to be sought.
pub(crate) fn first_outside(
    alloc: Global,
    kernel: &Kernel,
    image: &Image,
    turns: u32,
) -> Result<Option<Access>, AllocError> {
    let size = kernel.nodes().len();
    let mut run = Turns {
        kernel,
        image,
        memory: Scratchpad::new(alloc, image.memory())?,
        values: vec![in alloc; 0; size.saturating_mul(ROWS as usize)]?,
    };
    for turn in 0..turns.min(most_turns(size)) {
        if let Some(access) = run.turn(turn) {
            return Ok(Some(access));
        }
    }
    Ok(None)
}

/// Returns the maximum number of iterations of `size` nodes that are repeated.
fn most_turns(size: usize) -> u32 {
    match u32::try_from(size) {
        Ok(size) => MOST_STEPS.checked_div(size).unwrap_or(0),
        Err(_) => 0,
    }
}

impl Turns<'_> {
    /// Executes iteration `turn` up to its first access outside the memory, and returns that access.
    fn turn(&mut self, turn: u32) -> Option<Access> {
        let kernel = self.kernel;
        for (number, node) in kernel.nodes().iter().enumerate() {
            if let Some(address) = self.step(turn, number, node) {
                return Some(Access {
                    node: number,
                    turn,
                    address,
                });
            }
        }
        None
    }

    /// Executes `node`, node `number`, in iteration `turn`. Returns the address of the word that it would reach, if
    /// that is outside the memory.
    fn step(&mut self, turn: u32, number: usize, node: &Node) -> Option<u32> {
        let operands = node.operands.as_slice();
        let work = Work {
            op: node.op,
            port: node.port,
            turn,
            args: [
                self.argument(operands, 0, turn),
                self.argument(operands, 1, turn),
                self.argument(operands, 2, turn),
            ],
        };
        if work.missed(self.memory.size()) > 0 {
            return Some(work.address());
        }
        let value = work.value(self.image, &self.memory);
        work.store(&mut self.memory);
        let place = self.place(turn, number);
        if let Some(kept) = self.values.get_mut(place) {
            *kept = value;
        }
        None
    }

    /// Returns where the value of node `number` in iteration `turn` is kept.
    fn place(&self, turn: u32, number: usize) -> usize {
        let row = (turn % ROWS) as usize;
        row.saturating_mul(self.kernel.nodes().len())
            .saturating_add(number)
    }

    /// Returns operand `number` of `operands` in iteration `turn`; 0 if there are fewer operands.
    fn argument(&self, operands: &[Operand], number: usize, turn: u32) -> u32 {
        match operands.get(number) {
            Some(Operand::Const(word)) => *word,
            Some(
                Operand::Edge {
                    from,
                    distance,
                    init,
                },
            ) => match turn.checked_sub(*distance) {
                Some(then) => word_at(&self.values, self.place(then, *from as usize)),
                None => word_at(init.as_slice(), turn as usize),
            },
            None => 0,
        }
    }
}

/// Returns word number `place` of `words`; 0 past the end.
fn word_at(words: &[u32], place: usize) -> u32 {
    match words.get(place) {
        Some(word) => *word,
        None => 0,
    }
}
