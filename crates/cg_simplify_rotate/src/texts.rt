//! The texts of two nodes that are turned round.
ghost use Rattle.std.specs.Prelude.{◌≡◌, ◌<◌, IfOk, OnOk, length};
ghost use Rattle.cg_model.specs.Kernel.{IsKernel};
ghost use Rattle.cg_simplify_draft.specs.Settings.{with_text};
ghost use Rattle.cg_simplify_rotate.specs.Turning.{IsTurn, kernel_of, turned};
ghost use Rattle.cg_simplify_rotate.specs.Rows.{joined};
ghost use Rattle.cg_simplify_rotate.specs.Texts.{first_op, first_operands, first_text, operand_at, paired, second_text};

use crate::rows::Row;
use crate::turning::Turn;
use cg_model::{Node, Operand, Operands, copy_operand};
use cg_word::{Op, apply};
use std::alloc::{AllocError, Global};

/// The operation and the operands of a node.
#[derive(Drop)]
struct Text {
    op: Op,
    operands: Operands,
}

/// Gives both nodes of `turn` their new texts.
pub(crate) fn restate(alloc: Global, nodes: &mut [Node], turn: Turn) -> Result<(), AllocError>
    requires valid { IsKernel (kernel_of nodes.old) }
    requires turn { IsTurn (kernel_of nodes.old) turn }
    ensures { OnOk result (kernel_of nodes.new ≡ turned (kernel_of nodes.old) turn) }
{
    let first = first_text(alloc, nodes, turn)?;
    let second = second_text(alloc, nodes, turn)?;
    set_text(&mut nodes[turn.u], first);
    set_text(&mut nodes[turn.v], second);
    Ok(())
}

/// Gives `node` the operation and the operands of `text`.
fn set_text(node: &mut Node, text: Text)
    ensures { node.new ≡ record node.old { op = text.op; port = 0; operands = text.operands } }
{
    node.op = text.op;
    node.port = 0;
    node.operands = text.operands;
}

/// Returns the new text of the earlier node of `turn`: a and b joined.
fn first_text(alloc: Global, nodes: &[Node], turn: Turn) -> Result<Text, AllocError>
    requires valid { IsKernel (kernel_of nodes.now) }
    requires turn { IsTurn (kernel_of nodes.now) turn }
    ensures { IfOk result (λ t. t ≡ first_text (kernel_of nodes.now) turn) }
{
    let a = copy_at(alloc, &nodes[turn.u], 1 - turn.j)?;
    let b = copy_at(alloc, &nodes[turn.v], 1 - turn.i)?;
    joined(alloc, turn.row, a, b)
}

/// Returns the new text of the later node of `turn`: p and the earlier node joined.
fn second_text(alloc: Global, nodes: &[Node], turn: Turn) -> Result<Text, AllocError>
    requires valid { IsKernel (kernel_of nodes.now) }
    requires turn { IsTurn (kernel_of nodes.now) turn }
    ensures { IfOk result (λ t. t ≡ second_text (kernel_of nodes.now) turn) }
{
    let p = copy_at(alloc, &nodes[turn.u], turn.j)?;
    let edge = copy_at(alloc, &nodes[turn.v], turn.i)?;
    Ok(Text {
        op: turn.row.second,
        operands: paired(alloc, turn.row.place_of_p, p, edge)?,
    })
}

/// Returns a copy of operand `place` of `node`.
fn copy_at(alloc: Global, node: &Node, place: usize) -> Result<Operand, AllocError>
    requires { place < length node.now.operands }
    ensures { IfOk result (λ o. o ≡ operand_at node.now place) }
{
    copy_operand(alloc, &node.operands.as_slice()[place])
}

/// Returns the text of a node that joins `a` and `b` as `row` says: a `const` if both are constants.
fn joined(alloc: Global, row: Row, a: Operand, b: Operand) -> Result<Text, AllocError>
    ensures { IfOk result (λ t. t ≡ record { op = first_op row a b; operands = first_operands row a b }) }
{
    match (a, b) {
        (Operand::Const(x), Operand::Const(y)) => {
            let mut operands = Vec::new(alloc);
            operands.push(Operand::Const(word(row, x, y)))?;
            Ok(Text {
                op: Op::Const,
                operands: Operands::new(operands),
            })
        }
        (a, b) => Ok(Text {
            op: row.first,
            operands: paired(alloc, row.place_of_a, a, b)?,
        }),
    }
}

/// Returns the word that joins the words `a` and `b` as `row` says.
fn word(row: Row, a: u32, b: u32) -> u32
    ensures { result ≡ joined row.first row.place_of_a a b }
{
    if row.place_of_a == 0 {
        apply(row.first, a, b, 0)
    } else {
        apply(row.first, b, a, 0)
    }
}

/// Returns two operands, of which `x` is at `place`, 0 or 1, and `y` at the other place.
fn paired(alloc: Global, place: usize, x: Operand, y: Operand) -> Result<Operands, AllocError>
    ensures { IfOk result (λ os. os ≡ paired place x y) }
{
    let mut operands = Vec::new(alloc);
    if place == 0 {
        operands.push(x)?;
        operands.push(y)?;
    } else {
        operands.push(y)?;
        operands.push(x)?;
    }
    Ok(Operands::new(operands))
}
