//! Identities of sums and differences.
use crate::plan::{Operand, Plan};
use crate::values::Values;
use cg_word::Op;

impl Values {
    ghost use Rattle.std.specs.Prelude.{◌≡◌, ◌<◌, length};
    ghost use Rattle.cg_word.specs.declared.op.Op.TheVariants as ops;
    ghost use Rattle.cg_word.specs.Word.{apply_of};
    ghost use Rattle.cg_c_values.specs.Listed.{listed};
    ghost use Rattle.cg_c_values.specs.Values.{Means};
    ghost use Rattle.cg_c_values.specs.Plans.{Gives};

    /// Returns a plan for the sum of two values.
    pub(crate) fn plan_sum(&self, first: usize, second: usize) -> Plan
        requires first { first < length (listed self.now) }
        requires second { second < length (listed self.now) }
        ensures { Gives (listed self.now) result (λ E. apply_of ops.Add (E first) (E second) 0) }
    {
        match self.number(second) {
            Some(word) => self.plan_sum_with(first, second, word),
            // A carried word comes first.
            None if self.is_carried(second) && !self.is_carried(first) => {
                self.plan_outwards(second, first)
            }
            None => self.plan_outwards(first, second),
        }
    }

    /// Returns a plan for the sum of a value and a constant.
    fn plan_sum_with(&self, first: usize, second: usize, word: u32) -> Plan
        requires first { first < length (listed self.now) }
        requires second { second < length (listed self.now) }
        requires number { Means (listed self.now) second (λ x E. word) }
        ensures { Gives (listed self.now) result (λ E. apply_of ops.Add (E first) (E second) 0) }
    {
        if word == 0 {
            return Plan::Is(Operand::Given(first));
        }
        match self.inner(first, Op::Add) {
            Some((x, other)) => Plan::Again {
                op: Op::Add,
                first: Operand::Given(x),
                second: Operand::Number(other.wrapping_add(word)),
            },
            None => Plan::Stands {
                op: Op::Add,
                first,
                second: Operand::Given(second),
            },
        }
    }

    /// Returns a plan for the sum of two values, in which constants go outwards.
    fn plan_outwards(&self, first: usize, second: usize) -> Plan
        requires first { first < length (listed self.now) }
        requires second { second < length (listed self.now) }
        ensures { Gives (listed self.now) result (λ E. apply_of ops.Add (E first) (E second) 0) }
    {
        if let Some((x, word)) = self.inner(first, Op::Add) {
            return Plan::Outwards {
                first: x,
                second,
                word,
            };
        }
        if let Some((x, word)) = self.inner(second, Op::Add) {
            return Plan::Outwards {
                first,
                second: x,
                word,
            };
        }
        self.plan_sum_of_words(first, second)
    }

    /// Returns a plan for the sum of two values that are no sums with constants. What is added to a sum with a carried
    /// word is added to what was added to that, so that the carried word waits for one sum alone.
    fn plan_sum_of_words(&self, first: usize, second: usize) -> Plan
        requires first { first < length (listed self.now) }
        requires second { second < length (listed self.now) }
        ensures { Gives (listed self.now) result (λ E. apply_of ops.Add (E first) (E second) 0) }
    {
        if let Some((carried, x)) = self.carried_sum(first) {
            if !self.is_carried(second) {
                return Plan::Carried {
                    carried,
                    first: x,
                    second,
                };
            }
        }
        match self.negative(second) {
            Some(x) => Plan::Again {
                op: Op::Sub,
                first: Operand::Given(first),
                second: Operand::Given(x),
            },
            None => Plan::Stands {
                op: Op::Add,
                first,
                second: Operand::Given(second),
            },
        }
    }

    /// Returns a plan for the difference of two values.
    pub(crate) fn plan_difference(&self, first: usize, second: usize) -> Plan
        requires first { first < length (listed self.now) }
        requires second { second < length (listed self.now) }
        ensures { Gives (listed self.now) result (λ E. apply_of ops.Sub (E first) (E second) 0) }
    {
        if let Some(word) = self.number(second) {
            return Plan::Again {
                op: Op::Add,
                first: Operand::Given(first),
                second: Operand::Number(0u32.wrapping_sub(word)),
            };
        }
        if first == second {
            return Plan::Is(Operand::Number(0));
        }
        Plan::Stands {
            op: Op::Sub,
            first,
            second: Operand::Given(second),
        }
    }
}
