//! Operands that are exchanged for what they look through.
ghost use Rattle.std.specs.Prelude.{◌≡◌, ◌<◌, IfOk, IfSome, IsTrue, [], false, length};
ghost use Rattle.cg_model.specs.Kernel.{size};
ghost use Rattle.cg_simplify_draft.specs.Rewritten.{IsRewritten};
ghost use Rattle.cg_simplify.specs.Operands.{LooksTo};
ghost use Rattle.cg_simplify.specs.Settling.{IsNext, Keeps, SameIfUnchanged};

use crate::through::{look_through, stands_for};
use crate::zero::tested_as;
use cg_model::{Kernel, Operand};
use cg_simplify_draft::{Draft, Passed, restated};
use cg_simplify_facts::tops_of;
use std::alloc::{AllocError, Global};

/// More steps than it takes to settle a node: each of at most 1,024 nodes is begun once, and each of its at most 3
/// operands is exchanged at most 5 × 1,024 times.
const MOST_STEPS: u64 = 1 << 32;

/// An operand of a node that is being settled.
#[derive(Clone, Copy, Drop)]
struct Frame {
    /// The node.
    node: u32,
    /// The number of the operand, of which the earlier ones are done.
    place: usize,
}

/// What is done next with an operand of a node.
#[derive(Drop)]
enum Next {
    /// There is no such operand, and the node is done.
    Leave,
    /// The operand is done, and this one is next.
    Pass(Frame),
    /// This node is settled first.
    First(u32),
    /// This operand takes its place.
    Exchange(Operand),
}

/// A draft of which some nodes have been settled.
#[derive(Drop)]
struct Walk {
    draft: Draft,
    /// For each node a word that its value never exceeds, in the kernel that was given.
    tops: Vec<u32>,
    /// Whether an operand of `const` nodes that is an edge is left.
    copies: bool,
    /// The nodes that are being settled, each but the first for the one below it.
    stack: Vec<Frame>,
    /// Whether the settling of a node was begun, by node.
    begun: Vec<bool>,
    /// Whether an operand was exchanged.
    changed: bool,
}

/// Returns `kernel` with operands that look through `const` nodes, through nodes whose value is one of their operands, and
/// through a `ne` with 0 where only 0 matters. An edge becomes the `const` node's constant, if this is all its initial
/// words and the only constant operand, or an edge over both, of at most 4 turns, which isn't done for `const` nodes with
/// `copies`.
pub fn operands(alloc: Global, kernel: &Kernel, copies: bool) -> Result<Passed, AllocError>
    ensures rewritten { IfOk result (λ p. IsRewritten kernel.now p.kernel) }
    ensures size { IfOk result (λ p. size p.kernel ≡ size kernel.now) }
    ensures unordered { IfOk result (λ p. p.kernel.order ≡ []) }
    ensures unchanged { IfOk result (λ p. p.changed ≡ false → p.kernel.nodes ≡ kernel.now.nodes) }
{
    restated();
    let count = kernel.nodes().len();
    let mut walk = Walk {
        draft: Draft::of(alloc, kernel)?,
        tops: tops_of(alloc, kernel)?,
        copies,
        stack: Vec::new(alloc),
        begun: vec![in alloc; false; count]?,
        changed: false,
    };
    for number in 0..count {
        walk.settle(alloc, number as u32)?;
    }
    Ok(Passed {
        kernel: walk.draft.into_kernel(),
        changed: walk.changed,
    })
}

impl Walk {
    /// Settles node `number`, unless that was begun before.
    fn settle(&mut self, alloc: Global, number: u32) -> Result<(), AllocError>
        ensures kept { Keeps self.old self.new }
        ensures unchanged { SameIfUnchanged self.old self.new }
    {
        self.begin(number)?;
        for _ in 0..MOST_STEPS {
            if !self.step(alloc)? {
                break;
            }
        }
        Ok(())
    }

    /// Begins to settle node `number`, unless that was begun before.
    fn begin(&mut self, number: u32) -> Result<(), AllocError>
        ensures kept { Keeps self.old self.new }
        ensures draft { self.new.draft ≡ self.old.draft }
        ensures changed { self.new.changed ≡ self.old.changed }
    {
        if self.is_open(number) {
            self.begun[number as usize] = true;
            self.stack.push(Frame {
                node: number,
                place: 0,
            })?;
        }
        Ok(())
    }

    /// Returns whether node `number` was not begun to be settled.
    fn is_open(&self, number: u32) -> bool
        ensures { IsTrue result → number < length self.now.begun.items }
    {
        (number as usize) < self.begun.len() && !self.begun[number as usize]
    }

    /// Does what is next at the last node that is being settled, and returns whether there is one.
    fn step(&mut self, alloc: Global) -> Result<bool, AllocError>
        ensures kept { Keeps self.old self.new }
        ensures unchanged { SameIfUnchanged self.old self.new }
    {
        let Some(frame) = self.stack.pop() else {
            return Ok(false);
        };
        let next = self.next(alloc, frame)?;
        self.take(frame, next)?;
        Ok(true)
    }

    /// Returns what is next at `frame`.
    fn next(&self, alloc: Global, frame: Frame) -> Result<Next, AllocError>
        ensures { IfOk result (λ next. IsNext self.now.tops.items self.now.draft frame.node frame.place next) }
    {
        let Some(node) = self.draft.nodes().get(frame.node as usize) else {
            return Ok(Next::Leave);
        };
        let operands = node.operands.as_slice();
        if operands.len() <= frame.place {
            return Ok(Next::Leave);
        }
        let after = Frame {
            node: frame.node,
            place: frame.place + 1,
        };
        let operand = &operands[frame.place];
        let Operand::Edge { from, .. } = operand else {
            return Ok(Next::Pass(after));
        };
        let Some(source) = self.source_of(*from, frame) else {
            return Ok(Next::Pass(after));
        };
        if self.is_open(*from) {
            return Ok(Next::First(*from));
        }
        match look_through(alloc, operands, operand, source)? {
            Some(exchanged) => Ok(Next::Exchange(exchanged)),
            None => Ok(Next::Pass(after)),
        }
    }

    /// Returns the operand that the operand of `frame`, an edge from node `from`, looks through to: whose words the node
    /// has, or which is 0 where the node is, if that alone is tested.
    fn source_of(&self, from: u32, frame: Frame) -> Option<&Operand>
        ensures { IfSome result (λ x. LooksTo self.now.tops.items self.now.draft frame.node frame.place from x.now) }
    {
        if from == frame.node {
            return None;
        }
        if let Some(operand) = stands_for(&self.draft, &self.tops, from, self.copies) {
            return Some(operand);
        }
        if frame.place == 0 {
            tested_as(&self.draft, &self.tops, from, frame.node)
        } else {
            None
        }
    }

    /// Does what is `next` at `frame`.
    fn take(&mut self, frame: Frame, next: Next) -> Result<(), AllocError>
        requires { IsNext self.old.tops.items self.old.draft frame.node frame.place next }
        ensures kept { Keeps self.old self.new }
        ensures unchanged { SameIfUnchanged self.old self.new }
    {
        match next {
            Next::Leave => {}
            Next::Pass(after) => self.stack.push(after)?,
            Next::First(source) => {
                self.stack.push(frame)?;
                self.begin(source)?;
            }
            Next::Exchange(operand) => {
                self.draft
                    .set_operand(frame.node as usize, frame.place, operand);
                self.changed = true;
                self.stack.push(frame)?;
            }
        }
        Ok(())
    }
}
