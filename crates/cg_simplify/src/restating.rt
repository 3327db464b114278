//! Nodes that get another operation and other operands.
ghost use Rattle.std.specs.Prelude.{◌≡◌, ◌<◌, IfOk, IfSome, [], false};
ghost use Rattle.cg_word.specs.Word.{words};
ghost use Rattle.cg_model.specs.Kernel.{Kernel as KernelValue, size};
ghost use Rattle.cg_simplify_draft.specs.Rewritten.{IsRewritten};
ghost use Rattle.cg_simplify.specs.Restating.{HasWordAt, IsConstantText, KeepsWords, MayBecome};

use crate::guards::{without_eq, without_guard};
use crate::words::word_of;
use cg_depend::{AffineTable, affine};
use cg_model::{Kernel, Node, Operand, Operands};
use cg_simplify_draft::{Draft, Passed, restated};
use cg_simplify_facts::{computes, tops_of};
use cg_word::Op;
use std::alloc::{AllocError, Global};

/// The operation, the port and the operands of a node.
#[derive(Drop)]
pub(crate) struct Text {
    pub op: Op,
    pub port: u32,
    pub operands: Operands,
}

/// A draft of which some nodes have got another text.
#[derive(Drop)]
struct Rewriting<'k> {
    draft: Draft,
    /// The bases and strides of the nodes of the kernel that was given.
    table: AffineTable<'k>,
    /// For each node a word that its value never exceeds, in the kernel that was given.
    tops: Vec<u32>,
    /// Whether a node was rewritten.
    changed: bool,
}

/// Returns `kernel` with each node that is known to have one word in every turn as the `const` of the word, with guarded
/// operations whose guard is known without it or as the `const` of 0, and with what selects by an `eq` with 0 selecting the
/// other way by what that compares. A word is known by the operation and what is known of the operands, by a stride of 0 or
/// by the greatest word that the node can have in `kernel`, or of a `const` of itself by its initial words.
pub fn texts(alloc: Global, kernel: &Kernel) -> Result<Passed, AllocError>
    ensures rewritten { IfOk result (λ p. IsRewritten kernel.now p.kernel) }
    ensures size { IfOk result (λ p. size p.kernel ≡ size kernel.now) }
    ensures unordered { IfOk result (λ p. p.kernel.order ≡ []) }
    ensures unchanged { IfOk result (λ p. p.changed ≡ false → p.kernel.nodes ≡ kernel.now.nodes) }
{
    restated();
    let mut rewriting = Rewriting {
        draft: Draft::of(alloc, kernel)?,
        table: affine(alloc, kernel)?,
        tops: tops_of(alloc, kernel)?,
        changed: false,
    };
    for number in 0..kernel.nodes().len() {
        rewriting.restate(alloc, number)?;
    }
    Ok(Passed {
        kernel: rewriting.draft.into_kernel(),
        changed: rewriting.changed,
    })
}

impl<'k> Rewriting<'k> {
    /// Gives node `number` another text, if a rule has one for it.
    fn restate(&mut self, alloc: Global, number: usize) -> Result<(), AllocError>
        requires { number < size self.old.table }
        ensures kept { KeepsWords self.old self.new }
        ensures table { self.new.table ≡ self.old.table }
        ensures unchanged { self.new.changed ≡ false → (self.old.changed ≡ false) × (self.new.draft ≡ self.old.draft) }
    {
        if let Some(text) = self.text(alloc, number)? {
            self.draft
                .set_text(number, text.op, text.port, text.operands);
            self.changed = true;
        }
        Ok(())
    }

    /// Returns the text that node `number` gets, if a rule has one for it.
    fn text(&self, alloc: Global, number: usize) -> Result<Option<Text>, AllocError>
        requires { number < size self.now.table }
        ensures { IfOk result (λ t. IfSome t (MayBecome self.now.table self.now.tops.items self.now.draft number)) }
    {
        if is_constant(self.draft.nodes(), number) {
            return Ok(None);
        }
        match self.word(number) {
            Some(word) => Ok(Some(constant_text(alloc, word)?)),
            None => self.other_text(alloc, number),
        }
    }

    /// Returns the text that node `number` gets by its guard or by what it selects by, if a rule has one for it.
    fn other_text(&self, alloc: Global, number: usize) -> Result<Option<Text>, AllocError>
        ensures { (K : KernelValue) → IfOk result (λ t. IfSome t (MayBecome K self.now.tops.items self.now.draft number)) }
    {
        match without_guard(alloc, &self.draft, &self.tops, number)? {
            Some(text) => Ok(Some(text)),
            None => without_eq(alloc, &self.draft, &self.tops, number),
        }
    }

    /// Returns the word that node `number` has in every turn, if it computes one that is known.
    fn word(&self, number: usize) -> Option<u32>
        requires { number < size self.now.table }
        ensures { IfSome result (HasWordAt self.now.table self.now.tops.items self.now.draft number) }
    {
        match self.known_word(number) {
            Some(word) => Some(word),
            None => self.base(number),
        }
    }

    /// Returns the word that node `number` has in every turn, if it is known by its text.
    fn known_word(&self, number: usize) -> Option<u32>
        ensures { (K : KernelValue) → IfSome result (HasWordAt K self.now.tops.items self.now.draft number) }
    {
        let nodes = self.draft.nodes();
        let node = nodes.get(number)?;
        word_of(nodes, &self.tops, node, number)
    }

    /// Returns the base of node `number`, if it computes and its stride is 0.
    fn base(&self, number: usize) -> Option<u32>
        requires { number < size self.now.table }
        ensures { IfSome result (HasWordAt self.now.table self.now.tops.items self.now.draft number) }
    {
        let node = self.draft.nodes().get(number)?;
        if !computes(node.op) {
            return None;
        }
        let pair = self.table.get(number as u32)?;
        if pair.stride == 0 {
            Some(pair.base)
        } else {
            None
        }
    }
}

/// Returns whether node `number` of `nodes` is the `const` of a constant.
fn is_constant(nodes: &[Node], number: usize) -> bool {
    match nodes.get(number) {
        Some(node) => node.op == Op::Const
            && matches!(node.operands.as_slice().first(), Some(Operand::Const(_))),
        None => false,
    }
}

/// Returns the text of a `const` of `word`.
pub(crate) fn constant_text(alloc: Global, word: u32) -> Result<Text, AllocError>
    ensures text { IfOk result (IsConstantText word) }
    ensures small { IfOk result (λ text. word < words) }
{
    let mut operands = Vec::new(alloc);
    operands.push(Operand::Const(word))?;
    Ok(Text {
        op: Op::Const,
        port: 0,
        operands: Operands::new(operands),
    })
}
