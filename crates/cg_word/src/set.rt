//! Sets of operations.

use crate::op::Op;
use std::marker::Model;

/// A set of operations, which contracts see as the list of its operations in the order of their codes.
#[derive(Clone, Copy)]
pub struct OpSet {
    marks: [bool; 25],
}

impl Model for OpSet {
    ghost use Rattle.std.specs.Prelude.{◌≡◌, List, length};
    ghost use Rattle.std.proofs.Common.{ap};
    ghost use Rattle.cg_word.specs.declared.op.Op.{Op};
    ghost use Rattle.cg_word.specs.Sets.{ops_with, marks_of, marks_again};

    ghost Value = { List Op };

    ghost view = { λ s. ops_with s.marks };

    ghost invariant = { λ s. length s.marks ≡ 25 };

    ghost inverse = { λ ops. record { marks = marks_of ops } };

    ghost inverse_ok = { λ s h. ap (λ marks. record { marks = marks }) (marks_again s.marks h) };
}

impl OpSet {
    ghost use Rattle.std.specs.Prelude.{◌≡◌, ◌||◌, [], eqb};
    ghost use Rattle.cg_word.specs.Word.{code};
    ghost use Rattle.cg_word.specs.Sets.{among, with_op};
    ghost use Rattle.cg_word.specs.declared.op.Op as ops;

    /// Returns the empty set.
    pub fn empty() -> OpSet
        ensures { result ≡ [] }
    {
        OpSet { marks: [false; 25] }
    }

    /// Returns the set with `op` added.
    pub fn with(self, op: Op) -> OpSet
        ensures value { result ≡ with_op self op }
        ensures has { (o : ops.Op) → among result o ≡ (eqb (code op) (code o) || among self o) }
    {
        let mut marks = self.marks;
        let place = op.code() as usize - 1;
        marks[place] = true;
        OpSet { marks }
    }

    /// Returns whether `op` is in the set.
    pub fn has(self, op: Op) -> bool
        ensures { result ≡ among self op }
    {
        self.marks[op.code() as usize - 1]
    }
}
