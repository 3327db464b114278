//! The plan for an operation, by what is known of its operands.
ghost use Rattle.std.specs.Prelude.{◌≡◌, true};
ghost use Rattle.cg_c_values.specs.Plans.{Commutes};

use crate::plan::{Operand, Plan};
use crate::values::Values;
use cg_word::{Op, apply};

/// Returns whether the operands of `op` may be exchanged.
pub(crate) fn commutes(op: Op) -> bool
    ensures { result ≡ true → Commutes op }
{
    matches!(
        op,
        Op::Add | Op::Mul | Op::And | Op::Or | Op::Xor | Op::Eq | Op::Ne | Op::Mins | Op::Maxs
    )
}

impl Values {
    ghost use Rattle.std.specs.Prelude.{◌≡◌, ◌<◌, true, length};
    ghost use Rattle.cg_word.specs.Word.{apply_of};
    ghost use Rattle.cg_c_values.specs.Listed.{listed};
    ghost use Rattle.cg_c_values.specs.Values.{is_plain};
    ghost use Rattle.cg_c_values.specs.Plans.{Gives};

    /// Returns a plan for the operation `op` of two values.
    pub(crate) fn plan(&self, op: Op, first: usize, second: usize) -> Plan
        requires first { first < length (listed self.now) }
        requires second { second < length (listed self.now) }
        requires plain { is_plain op ≡ true }
        ensures { Gives (listed self.now) result (λ E. apply_of op (E first) (E second) 0) }
    {
        match (self.number(first), self.number(second)) {
            (Some(x), Some(y)) => Plan::Is(Operand::Number(apply(op, x, y, 0))),
            (Some(_), None) if commutes(op) => self.plan_as_given(op, second, first),
            _ => self.plan_as_given(op, first, second),
        }
    }

    /// Returns a plan for the operation `op` of two values. If it commutes, only the second may be a constant.
    fn plan_as_given(&self, op: Op, first: usize, second: usize) -> Plan
        requires first { first < length (listed self.now) }
        requires second { second < length (listed self.now) }
        requires plain { is_plain op ≡ true }
        ensures { Gives (listed self.now) result (λ E. apply_of op (E first) (E second) 0) }
    {
        match op {
            Op::Add => self.plan_sum(first, second),
            Op::Sub => self.plan_difference(first, second),
            Op::Mul => self.plan_product(first, second),
            Op::And => self.plan_and(first, second),
            Op::Or => self.plan_or(first, second),
            Op::Xor => self.plan_xor(first, second),
            Op::Shl | Op::Shr | Op::Sar => self.plan_shift(op, first, second),
            Op::Eq => self.plan_eq(first, second),
            Op::Ne => self.plan_ne(first, second),
            Op::Lts => self.plan_lts(first, second),
            Op::Ltu => self.plan_ltu(first, second),
            Op::Mins | Op::Maxs if first == second => Plan::Is(Operand::Given(first)),
            _ => Plan::Stands {
                op,
                first,
                second: Operand::Given(second),
            },
        }
    }
}
