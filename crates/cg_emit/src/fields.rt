//! The fields that a node requires of its unit.
ghost use Rattle.std.specs.Prelude.{◌≡◌, ◌≤◌, map, length, slice_index, slice_index_or};
ghost use Rattle.cg_model.specs.Config.{no_arg};
ghost use Rattle.cg_model.specs.Configured.{padded, arg_fields, constant, node_fields};
ghost use Rattle.cg_emit.specs.Building.{HasFewWords, HaveFewWords, HasFewOperands};

use cg_bits::{ArgFields, NO_ARG, UnitFields};
use cg_model::{Node, Operand};

/// Returns word `number` of `words`, 0 past its end.
fn word_at(words: &[u32], number: usize) -> u32
    ensures { result ≡ slice_index words.now number }
{
    words.get(number).copied().unwrap_or(0)
}

/// Returns the initial words `words`, padded with zeros.
fn padded_words(words: &[u32]) -> [u32; 4]
    requires { length words.now ≤ 4 }
    ensures { result ≡ padded 4 0 words.now }
{
    [
        word_at(words, 0),
        word_at(words, 1),
        word_at(words, 2),
        word_at(words, 3),
    ]
}

/// Returns the fields that `operand` requires of its argument.
fn arg_fields(operand: &Operand) -> ArgFields
    requires { HasFewWords operand.now }
    ensures { result ≡ arg_fields operand.now }
{
    match operand {
        Operand::Const(_) => ArgFields {
            fixed: true,
            count: 0,
            init: [0; 4],
        },
        Operand::Edge { distance, init, .. } => ArgFields {
            fixed: false,
            count: *distance,
            init: padded_words(init.as_slice()),
        },
    }
}

/// Returns the fields of argument `number` of a node with `operands`, all zero past the last operand.
fn arg_at(operands: &[Operand], number: usize) -> ArgFields
    requires { HaveFewWords operands.now }
    ensures { result ≡ slice_index_or (map arg_fields operands.now) number no_arg }
{
    match operands.get(number) {
        Some(operand) => arg_fields(operand),
        None => NO_ARG,
    }
}

/// Returns the first constant of `operands`, or 0.
fn constant(operands: &[Operand]) -> u32
    ensures { result ≡ constant operands.now }
{
    for operand in operands {
        if let Operand::Const(word) = operand {
            return *word;
        }
    }
    0
}

/// Returns the fields that `node` requires of its unit in the slot in which it begins, in stage `stage`.
pub(crate) fn node_fields(node: &Node, stage: u32) -> UnitFields
    requires { HasFewOperands node.now }
    ensures { result ≡ node_fields node.now stage }
{
    let operands = node.operands.as_slice();
    UnitFields {
        op: Some(node.op),
        stage,
        port: node.port,
        immediate: constant(operands),
        args: [
            arg_at(operands, 0),
            arg_at(operands, 1),
            arg_at(operands, 2),
        ],
    }
}
