//! Identities of operations on single bits.
use crate::plan::{Operand, Plan};
use crate::values::Values;
use cg_word::Op;

impl Values {
    ghost use Rattle.std.specs.Prelude.{◌≡◌, ◌<◌, length};
    ghost use Rattle.cg_word.specs.declared.op.Op.TheVariants as ops;
    ghost use Rattle.cg_word.specs.Word.{apply_of};
    ghost use Rattle.cg_c_values.specs.Listed.{listed};
    ghost use Rattle.cg_c_values.specs.Values.{Means};
    ghost use Rattle.cg_c_values.specs.Plans.{Gives};

    /// Returns a plan for the bits that both values have.
    pub(crate) fn plan_and(&self, first: usize, second: usize) -> Plan
        requires first { first < length (listed self.now) }
        requires second { second < length (listed self.now) }
        ensures { Gives (listed self.now) result (λ E. apply_of ops.And (E first) (E second) 0) }
    {
        if self.is_number(second, 0) {
            return Plan::Is(Operand::Given(second));
        }
        if first == second {
            return Plan::Is(Operand::Given(first));
        }
        match self.number(second) {
            Some(word) => self.plan_masked(first, second, word),
            None => Plan::Stands {
                op: Op::And,
                first,
                second: Operand::Given(second),
            },
        }
    }

    /// Returns a plan for the bits of a value that a constant has.
    fn plan_masked(&self, first: usize, second: usize, word: u32) -> Plan
        requires first { first < length (listed self.now) }
        requires second { second < length (listed self.now) }
        requires number { Means (listed self.now) second (λ x E. word) }
        ensures { Gives (listed self.now) result (λ E. apply_of ops.And (E first) (E second) 0) }
    {
        if word == u32::MAX || word & 1 == 1 && self.is_truth(first) {
            return Plan::Is(Operand::Given(first));
        }
        match self.inner(first, Op::And) {
            Some((x, other)) => Plan::Again {
                op: Op::And,
                first: Operand::Given(x),
                second: Operand::Number(other & word),
            },
            None => Plan::Stands {
                op: Op::And,
                first,
                second: Operand::Given(second),
            },
        }
    }

    /// Returns a plan for the bits that one of the values has.
    pub(crate) fn plan_or(&self, first: usize, second: usize) -> Plan
        requires first { first < length (listed self.now) }
        requires second { second < length (listed self.now) }
        ensures { Gives (listed self.now) result (λ E. apply_of ops.Or (E first) (E second) 0) }
    {
        if first == second || self.is_number(second, 0) {
            return Plan::Is(Operand::Given(first));
        }
        if self.is_number(second, u32::MAX) {
            return Plan::Is(Operand::Given(second));
        }
        Plan::Stands {
            op: Op::Or,
            first,
            second: Operand::Given(second),
        }
    }

    /// Returns a plan for the bits that exactly one of the values has.
    pub(crate) fn plan_xor(&self, first: usize, second: usize) -> Plan
        requires first { first < length (listed self.now) }
        requires second { second < length (listed self.now) }
        ensures { Gives (listed self.now) result (λ E. apply_of ops.Xor (E first) (E second) 0) }
    {
        if first == second {
            return Plan::Is(Operand::Number(0));
        }
        match self.number(second) {
            Some(word) => self.plan_turned(first, second, word),
            None => Plan::Stands {
                op: Op::Xor,
                first,
                second: Operand::Given(second),
            },
        }
    }

    /// Returns a plan for a value of which the bits that a constant has are turned.
    fn plan_turned(&self, first: usize, second: usize, word: u32) -> Plan
        requires first { first < length (listed self.now) }
        requires second { second < length (listed self.now) }
        requires number { Means (listed self.now) second (λ x E. word) }
        ensures { Gives (listed self.now) result (λ E. apply_of ops.Xor (E first) (E second) 0) }
    {
        if word == 0 {
            return Plan::Is(Operand::Given(first));
        }
        match self.inner(first, Op::Xor) {
            Some((x, other)) => Plan::Again {
                op: Op::Xor,
                first: Operand::Given(x),
                second: Operand::Number(other ^ word),
            },
            None => Plan::Stands {
                op: Op::Xor,
                first,
                second: Operand::Given(second),
            },
        }
    }
}
