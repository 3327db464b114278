//! The operations of a kernel that no unit offers.
ghost use Rattle.std.specs.Prelude.{◌≡◌, MatchOption, find};
ghost use Rattle.std.specs.List.{list_any};
ghost use Rattle.cg_word.specs.Word.{all_ops};
ghost use Rattle.cg_bound.specs.Bound.{AllOffered, IsFirstUnoffered};
ghost use Rattle.cg_bound.specs.Search.{has_op, offers, is_unoffered};

use cg_arch::Arch;
use cg_model::{Kernel, Node, Unit};
use cg_word::Op;

/// Returns the operation of a node that no unit offers, if there is one: the one of least code.
pub(crate) fn first_unoffered(arch: &Arch, kernel: &Kernel) -> Option<Op>
    ensures { MatchOption result (AllOffered arch.now kernel.now) (IsFirstUnoffered arch.now kernel.now) }
{
    find_unoffered(arch.units(), kernel.nodes())
}

/// Returns the first operation that one of `nodes` has and none of `units` offers.
fn find_unoffered(units: &[Unit], nodes: &[Node]) -> Option<Op>
    ensures { result ≡ find (is_unoffered units.now nodes.now) all_ops }
{
    Op::ALL
        .iter()
        .copied()
        .find(|op| is_unoffered(units, nodes, *op))
}

fn is_unoffered(units: &[Unit], nodes: &[Node], op: Op) -> bool
    ensures { result ≡ is_unoffered units.now nodes.now op }
{
    has_op(nodes, op) && !offers(units, op)
}

fn has_op(nodes: &[Node], op: Op) -> bool
    ensures { result ≡ list_any (has_op op) nodes.now }
{
    nodes.iter().any(|node| node.op == op)
}

fn offers(units: &[Unit], op: Op) -> bool
    ensures { result ≡ list_any (offers op) units.now }
{
    units.iter().any(|unit| unit.ops.has(op))
}
