//! Identities of choices.
ghost use Rattle.std.specs.Prelude.{◌≡◌, true};
ghost use Rattle.cg_c_values.specs.declared.plan.Choice.TheVariants.{Planned};
ghost use Rattle.cg_c_values.specs.Plans.{Again, Given, Is, IsStep};

use crate::plan::{Choice, Operand, Plan};
use crate::plans::commutes;
use crate::value::Value;
use crate::values::Values;
use cg_word::Op;

impl Values {
    ghost use Rattle.std.specs.Prelude.{◌≡◌, ◌<◌, true, length, IfSome};
    ghost use Rattle.cg_word.specs.Word.{apply_of};
    ghost use Rattle.cg_c_values.specs.Listed.{listed};
    ghost use Rattle.cg_c_values.specs.Values.{Means, is_plain};
    ghost use Rattle.cg_c_values.specs.Plans.{Chooses, IsStep};

    /// Returns what is to be done for a choice.
    pub(crate) fn choice(&self, condition: usize, chosen: usize, other: usize) -> Choice
        requires condition { condition < length (listed self.now) }
        requires chosen { chosen < length (listed self.now) }
        requires other { other < length (listed self.now) }
        ensures { Chooses (listed self.now) result condition chosen other }
    {
        match self.number(condition) {
            Some(0) => is(other),
            Some(_) => is(chosen),
            None if chosen == other => is(chosen),
            None => self.choice_by_test(condition, chosen, other),
        }
    }

    /// Returns what is to be done for a choice whose condition may compare a value with 0.
    fn choice_by_test(&self, condition: usize, chosen: usize, other: usize) -> Choice
        requires condition { condition < length (listed self.now) }
        requires chosen { chosen < length (listed self.now) }
        requires other { other < length (listed self.now) }
        ensures { Chooses (listed self.now) result condition chosen other }
    {
        if let Some((tested, 0)) = self.inner(condition, Op::Eq) {
            return Choice::Again {
                condition: tested,
                chosen: other,
                other: chosen,
            };
        }
        if let Some((tested, 0)) = self.inner(condition, Op::Ne) {
            return Choice::Again {
                condition: tested,
                chosen,
                other,
            };
        }
        if self.is_truth(condition) {
            if self.are_numbers(chosen, 1, other, 0) {
                return is(condition);
            }
            if self.are_numbers(chosen, 0, other, 1) {
                return Choice::Planned(self.plan_negated(condition));
            }
        }
        self.choice_by_order(condition, chosen, other)
    }

    /// Returns what is to be done for a choice whose condition may compare its two values.
    fn choice_by_order(&self, condition: usize, chosen: usize, other: usize) -> Choice
        requires condition { condition < length (listed self.now) }
        requires chosen { chosen < length (listed self.now) }
        requires other { other < length (listed self.now) }
        ensures { Chooses (listed self.now) result condition chosen other }
    {
        if let Value::Two {
            op: Op::Lts,
            first,
            second,
        } = self.value(condition)
        {
            if first == chosen && second == other {
                return extreme(Op::Mins, chosen, other);
            }
            if first == other && second == chosen {
                return extreme(Op::Maxs, chosen, other);
            }
        }
        self.choice_by_step(condition, chosen, other)
    }

    /// Returns what is to be done for a choice of which one value may be a step from the other: then what is added
    /// alone depends on the condition.
    fn choice_by_step(&self, condition: usize, chosen: usize, other: usize) -> Choice
        requires condition { condition < length (listed self.now) }
        requires chosen { chosen < length (listed self.now) }
        requires other { other < length (listed self.now) }
        ensures { Chooses (listed self.now) result condition chosen other }
    {
        let forth = self.step(chosen, other);
        if let Some((op, by)) = forth {
            let one = self.is_number(by, 1) && self.is_truth(condition);
            if one || self.is_step_worthwhile(other, by) {
                return Choice::Step {
                    op,
                    first: other,
                    condition,
                    chosen: Operand::Given(by),
                    other: Operand::Number(0),
                };
            }
        }
        let back = self.step(other, chosen);
        if let Some((op, by)) = back {
            if self.is_step_worthwhile(chosen, by) {
                return Choice::Step {
                    op,
                    first: chosen,
                    condition,
                    chosen: Operand::Number(0),
                    other: Operand::Given(by),
                };
            }
        }
        Choice::Stands {
            tried: forth.is_some() || back.is_some(),
        }
    }

    /// Returns whether a choice of a constant to add takes no more than the choice of a sum: a constant that isn't
    /// added to a carried word would take a node.
    fn is_step_worthwhile(&self, from: usize, by: usize) -> bool
        requires from { from < length (listed self.now) }
        requires by { by < length (listed self.now) }
    {
        self.number(by).is_none() || self.is_carried(from)
    }

    /// Returns the operation and its other operand, if `to` is an operation on `from`, which is no constant, that
    /// leaves it as it is where the other operand is 0.
    fn step(&self, to: usize, from: usize) -> Option<(Op, usize)>
        requires to { to < length (listed self.now) }
        requires from { from < length (listed self.now) }
        ensures plain { IfSome result (λ r. is_plain r.0 ≡ true) }
        ensures step { IfSome result (λ r. IsStep r.0) }
        ensures within { IfSome result (λ r. r.1 < length (listed self.now)) }
        ensures means { IfSome result (λ r. Means (listed self.now) to (λ x E. apply_of r.0 (E from) (E r.1) 0)) }
    {
        let Value::Two { op, first, second } = self.value(to) else {
            return None;
        };
        if !is_step(op) || self.number(from).is_some() {
            return None;
        }
        if first == from {
            return Some((op, second));
        }
        if second == from && commutes(op) {
            return Some((op, first));
        }
        None
    }
}

/// Returns whether 0 as the second operand of `op` changes nothing.
fn is_step(op: Op) -> bool
    ensures { result ≡ true → IsStep op }
{
    matches!(
        op,
        Op::Add | Op::Sub | Op::Xor | Op::Or | Op::Shl | Op::Shr | Op::Sar
    )
}

/// Returns the choice of a value that is there.
fn is(v: usize) -> Choice
    ensures { result ≡ Planned (Is (Given v)) }
{
    Choice::Planned(Plan::Is(Operand::Given(v)))
}

/// Returns the choice of the lesser or the greater of two values.
fn extreme(op: Op, first: usize, second: usize) -> Choice
    ensures { result ≡ Planned (Again op (Given first) (Given second)) }
{
    Choice::Planned(Plan::Again {
        op,
        first: Operand::Given(first),
        second: Operand::Given(second),
    })
}
