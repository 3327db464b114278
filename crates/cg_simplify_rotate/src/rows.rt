//! Pairs of operations that can be exchanged.
ghost use Rattle.std.specs.Prelude.{◌≡◌, ◌<◌, IfSome};
ghost use Rattle.cg_simplify_rotate.specs.Rows.{AreAlike, is_free};

use cg_word::Op;

/// How p, a and b are joined: the operation that joins a and b, and the place of a there, 0 or 1; and the operation that
/// joins p with the result, and the place of p.
#[derive(Clone, Copy, Drop)]
pub(crate) struct Row {
    pub first: Op,
    pub place_of_a: usize,
    pub second: Op,
    pub place_of_p: usize,
}

/// Returns how to join a and b first, and then p, where `u` joins p, at place `j`, with a, and `v` joins the result, at
/// place `i`, with b; None where that isn't known.
pub(crate) fn row_of(v: Op, i: usize, u: Op, j: usize) -> Option<Row>
    requires i { i < 2 }
    requires j { j < 2 }
    ensures { IfSome result (λ r. AreAlike v i u j r) }
{
    match (v, u) {
        (Op::Sub, Op::Add) if i == 0 => Some(Row {
            first: Op::Sub,
            place_of_a: 0,
            second: Op::Add,
            place_of_p: 0,
        }),
        (Op::Add, Op::Sub) if j == 0 => Some(Row {
            first: Op::Sub,
            place_of_a: 1,
            second: Op::Add,
            place_of_p: 0,
        }),
        (Op::Add, Op::Sub) => Some(Row {
            first: Op::Add,
            place_of_a: 0,
            second: Op::Sub,
            place_of_p: 1,
        }),
        (Op::Sub, Op::Sub) if i == 0 && j == 1 => Some(Row {
            first: Op::Sub,
            place_of_a: 0,
            second: Op::Sub,
            place_of_p: 1,
        }),
        _ if v == u && is_free(v) => Some(Row {
            first: v,
            place_of_a: 0,
            second: v,
            place_of_p: 0,
        }),
        _ => None,
    }
}

/// Returns whether the operation `op` joins words in any order and in either direction.
fn is_free(op: Op) -> bool
    ensures { result ≡ is_free op }
{
    match op {
        Op::Add | Op::Mul | Op::And | Op::Or | Op::Xor | Op::Mins | Op::Maxs => true,
        _ => false,
    }
}
