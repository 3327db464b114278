//! Identities of comparisons.
ghost use Rattle.std.specs.Prelude.{◌≡◌};
ghost use Rattle.cg_word.specs.declared.op.Op.TheVariants as ops;
ghost use Rattle.cg_word.specs.Word.{apply_of};
ghost use Rattle.cg_c_values.specs.Plans.{Again, Given, Number, Stands};

use crate::plan::{Operand, Plan};
use crate::value::Value;
use crate::values::Values;
use cg_word::Op;

/// An order of the words.
#[derive(Clone, Copy, Debug)]
struct Order {
    /// The operation that says whether a word is below another.
    op: Op,
    least: u32,
    greatest: u32,
}

const SIGNED: Order = Order {
    op: Op::Lts,
    least: 0x8000_0000,
    greatest: 0x7FFF_FFFF,
};

const UNSIGNED: Order = Order {
    op: Op::Ltu,
    least: 0,
    greatest: u32::MAX,
};

impl Values {
    ghost use Rattle.std.specs.Prelude.{◌≡◌, ◌<◌, length};
    ghost use Rattle.cg_word.specs.declared.op.Op.TheVariants as ops;
    ghost use Rattle.cg_word.specs.Word.{apply_of};
    ghost use Rattle.cg_c_values.specs.Listed.{listed};
    ghost use Rattle.cg_c_values.specs.Values.{Means};
    ghost use Rattle.cg_c_values.specs.Plans.{Gives, IsOrder};

    /// Returns a plan for whether two values are equal.
    pub(crate) fn plan_eq(&self, first: usize, second: usize) -> Plan
        requires first { first < length (listed self.now) }
        requires second { second < length (listed self.now) }
        ensures { Gives (listed self.now) result (λ E. apply_of ops.Eq (E first) (E second) 0) }
    {
        if first == second {
            return Plan::Is(Operand::Number(1));
        }
        let Some(word) = self.number(second) else {
            return Plan::Stands {
                op: Op::Eq,
                first,
                second: Operand::Given(second),
            };
        };
        if let Some((x, other)) = self.inner(first, Op::Add) {
            return compares_sum(Op::Eq, x, other, word);
        }
        if self.is_truth(first) {
            return if word == 0 {
                self.plan_negated(first)
            } else if word == 1 {
                Plan::Is(Operand::Given(first))
            } else {
                Plan::Is(Operand::Number(0))
            };
        }
        Plan::Stands {
            op: Op::Eq,
            first,
            second: Operand::Given(second),
        }
    }

    /// Returns a plan for whether two values differ.
    pub(crate) fn plan_ne(&self, first: usize, second: usize) -> Plan
        requires first { first < length (listed self.now) }
        requires second { second < length (listed self.now) }
        ensures { Gives (listed self.now) result (λ E. apply_of ops.Ne (E first) (E second) 0) }
    {
        if first == second {
            return Plan::Is(Operand::Number(0));
        }
        let Some(word) = self.number(second) else {
            return Plan::Stands {
                op: Op::Ne,
                first,
                second: Operand::Given(second),
            };
        };
        if let Some((x, other)) = self.inner(first, Op::Add) {
            return compares_sum(Op::Ne, x, other, word);
        }
        if self.is_truth(first) {
            return if word == 0 {
                Plan::Is(Operand::Given(first))
            } else if word == 1 {
                self.plan_negated(first)
            } else {
                Plan::Is(Operand::Number(1))
            };
        }
        Plan::Stands {
            op: Op::Ne,
            first,
            second: Operand::Given(second),
        }
    }

    /// Returns a plan for whether a value, which is 0 or 1, is 0.
    pub(crate) fn plan_negated(&self, v: usize) -> Plan
        requires { v < length (listed self.now) }
        ensures { Gives (listed self.now) result (λ E. apply_of ops.Eq (E v) 0 0) }
    {
        if let Value::Two { op, first, second } = self.value(v) {
            match op {
                Op::Eq => return again(Op::Ne, first, second),
                Op::Ne => return again(Op::Eq, first, second),
                Op::Lts => return self.plan_not_below(v, SIGNED, first, second),
                Op::Ltu => return self.plan_not_below(v, UNSIGNED, first, second),
                _ => (),
            }
        }
        is_zero(v)
    }

    /// Returns a plan for whether `v` is 0, which is whether `first` is below `second` in an order.
    fn plan_not_below(&self, v: usize, order: Order, first: usize, second: usize) -> Plan
        requires order { IsOrder order.op order.least order.greatest }
        requires within { v < length (listed self.now) }
        requires first { first < length (listed self.now) }
        requires second { second < length (listed self.now) }
        requires means { Means (listed self.now) v (λ x E. apply_of order.op (E first) (E second) 0) }
        ensures { Gives (listed self.now) result (λ E. apply_of ops.Eq (E v) 0 0) }
    {
        if let Some(word) = self.number(second) {
            if word != order.least {
                return Plan::Again {
                    op: order.op,
                    first: Operand::Number(word.wrapping_sub(1)),
                    second: Operand::Given(first),
                };
            }
        }
        if let Some(word) = self.number(first) {
            if word != order.greatest {
                return Plan::Again {
                    op: order.op,
                    first: Operand::Given(second),
                    second: Operand::Number(word.wrapping_add(1)),
                };
            }
        }
        is_zero(v)
    }

    /// Returns a plan for whether a value is below another in the signed order.
    pub(crate) fn plan_lts(&self, first: usize, second: usize) -> Plan
        requires first { first < length (listed self.now) }
        requires second { second < length (listed self.now) }
        ensures { Gives (listed self.now) result (λ E. apply_of ops.Lts (E first) (E second) 0) }
    {
        if first == second
            || self.is_number(second, SIGNED.least)
            || self.is_number(first, SIGNED.greatest)
        {
            return Plan::Is(Operand::Number(0));
        }
        Plan::Stands {
            op: Op::Lts,
            first,
            second: Operand::Given(second),
        }
    }

    /// Returns a plan for whether a value is below another in the unsigned order.
    pub(crate) fn plan_ltu(&self, first: usize, second: usize) -> Plan
        requires first { first < length (listed self.now) }
        requires second { second < length (listed self.now) }
        ensures { Gives (listed self.now) result (λ E. apply_of ops.Ltu (E first) (E second) 0) }
    {
        if first == second || self.is_number(second, 0) || self.is_number(first, u32::MAX) {
            return Plan::Is(Operand::Number(0));
        }
        Plan::Stands {
            op: Op::Ltu,
            first,
            second: Operand::Given(second),
        }
    }
}

/// Returns the plan of an operation on two values, simplified.
fn again(op: Op, first: usize, second: usize) -> Plan
    ensures { result ≡ Again op (Given first) (Given second) }
{
    Plan::Again {
        op,
        first: Operand::Given(first),
        second: Operand::Given(second),
    }
}

/// Returns the plan of a comparison of `word` with the sum of `x` and `other`.
#[tactic(auto, unfolding(cg_word::specs::Word::apply_of))]
fn compares_sum(op: Op, x: usize, other: u32, word: u32) -> Plan
    ensures { result ≡ Again op (Given x) (Number (apply_of ops.Sub word other 0)) }
{
    Plan::Again {
        op,
        first: Operand::Given(x),
        second: Operand::Number(word.wrapping_sub(other)),
    }
}

/// Returns the plan for whether a value is 0, as it stands.
fn is_zero(v: usize) -> Plan
    ensures { result ≡ Stands ops.Eq v (Number 0) }
{
    Plan::Stands {
        op: Op::Eq,
        first: v,
        second: Operand::Number(0),
    }
}
