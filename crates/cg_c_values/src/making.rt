//! Doing what plans say.
use crate::plan::{Choice, Operand, Plan};
use crate::plans::commutes;
use crate::value::Value;
use crate::values::Values;
use cg_word::Op;
use std::alloc::AllocError;

/// How many identities in a row are tried for an operation.
pub(crate) const DEPTH: u32 = 256;

impl Values {
    ghost use Rattle.std.specs.Prelude.{◌≡◌, ◌<◌, true, length, IfOk};
    ghost use Rattle.cg_word.specs.declared.op.Op.TheVariants as ops;
    ghost use Rattle.cg_word.specs.Word.{apply_of};
    ghost use Rattle.cg_c_values.specs.Listed.{listed};
    ghost use Rattle.cg_c_values.specs.Values.{Extends, Means, is_plain};
    ghost use Rattle.cg_c_values.specs.Plans.{IsOperand, IsPlan, operand_word, plan_word};

    /// Returns a value that is an operand.
    fn operand(&mut self, operand: Operand) -> Result<usize, AllocError>
        requires { IsOperand (length (listed self.now)) operand }
        ensures kept { Extends (listed self.old) (listed self.new) }
        ensures means { IfOk result (λ v. Means (listed self.new) v (λ x E. operand_word E operand)) }
    {
        match operand {
            Operand::Given(v) => Ok(v),
            Operand::Number(word) => self.constant(word),
        }
    }

    /// Returns a value that is an operation on two values, as it stands or, if it commutes and that is there, with its
    /// operands exchanged.
    fn stands(&mut self, op: Op, first: usize, second: usize) -> Result<usize, AllocError>
        requires plain { is_plain op ≡ true }
        requires first { first < length (listed self.now) }
        requires second { second < length (listed self.now) }
        ensures kept { Extends (listed self.old) (listed self.new) }
        ensures means { IfOk result (λ v. Means (listed self.new) v (λ x E. apply_of op (E first) (E second) 0)) }
    {
        let value = Value::Two { op, first, second };
        if commutes(op) && self.find(value).is_none() {
            let exchanged = self.find(Value::Two {
                op,
                first: second,
                second: first,
            });
            if let Some(v) = exchanged {
                return Ok(v);
            }
        }
        self.add(value)
    }

    /// Returns a value that is an operation on two values, by at most `depth` identities.
    #[cycle(making)]
    pub(crate) fn two_within(
        &mut self,
        depth: u32,
        op: Op,
        first: usize,
        second: usize,
    ) -> Result<usize, AllocError>
        requires plain { is_plain op ≡ true }
        requires first { first < length (listed self.now) }
        requires second { second < length (listed self.now) }
        ensures kept { Extends (listed self.old) (listed self.new) }
        ensures means { IfOk result (λ v. Means (listed self.new) v (λ x E. apply_of op (E first) (E second) 0)) }
    {
        if depth == 0 {
            return self.stands(op, first, second);
        }
        let plan = self.plan(op, first, second);
        self.planned(depth - 1, plan)
    }

    /// Returns the value that a plan is for.
    #[cycle(making)]
    fn planned(&mut self, depth: u32, plan: Plan) -> Result<usize, AllocError>
        requires { IsPlan (length (listed self.now)) plan }
        ensures kept { Extends (listed self.old) (listed self.new) }
        ensures means { IfOk result (λ v. Means (listed self.new) v (λ x E. plan_word E plan)) }
    {
        match plan {
            Plan::Is(operand) => self.operand(operand),
            Plan::Stands { op, first, second } => {
                let second = self.operand(second)?;
                self.stands(op, first, second)
            }
            Plan::Again { op, first, second } => {
                let first = self.operand(first)?;
                let second = self.operand(second)?;
                self.two_within(depth, op, first, second)
            }
            Plan::Outwards {
                first,
                second,
                word,
            } => {
                let sum = self.two_within(depth, Op::Add, first, second)?;
                let number = self.constant(word)?;
                self.two_within(depth, Op::Add, sum, number)
            }
            Plan::Carried {
                carried,
                first,
                second,
            } => {
                let sum = self.two_within(depth, Op::Add, first, second)?;
                self.stands(Op::Add, carried, sum)
            }
        }
    }

    /// Returns a value that is a choice between two values, by at most `depth` identities.
    pub(crate) fn select_within(
        &mut self,
        depth: u32,
        condition: usize,
        chosen: usize,
        other: usize,
    ) -> Result<usize, AllocError>
        requires condition { condition < length (listed self.now) }
        requires chosen { chosen < length (listed self.now) }
        requires other { other < length (listed self.now) }
        ensures kept { Extends (listed self.old) (listed self.new) }
        ensures means { IfOk result (λ v. Means (listed self.new) v (λ x E. apply_of ops.Select (E condition) (E chosen) (E other))) }
    {
        if depth == 0 {
            return self.choice_stands(condition, chosen, other);
        }
        match self.choice(condition, chosen, other) {
            Choice::Planned(plan) => self.planned(depth, plan),
            Choice::Again {
                condition,
                chosen,
                other,
            } => self.select_within(depth - 1, condition, chosen, other),
            Choice::Step {
                op,
                first,
                condition,
                chosen,
                other,
            } => {
                let chosen = self.operand(chosen)?;
                let other = self.operand(other)?;
                let by = self.select_within(depth - 1, condition, chosen, other)?;
                self.two_within(depth, op, first, by)
            }
            Choice::Stands { tried } => {
                if tried {
                    self.constant(0)?;
                }
                self.choice_stands(condition, chosen, other)
            }
        }
    }

    /// Returns a value that is a choice between two values, as it stands.
    fn choice_stands(
        &mut self,
        condition: usize,
        chosen: usize,
        other: usize,
    ) -> Result<usize, AllocError>
        requires condition { condition < length (listed self.now) }
        requires chosen { chosen < length (listed self.now) }
        requires other { other < length (listed self.now) }
        ensures kept { Extends (listed self.old) (listed self.new) }
        ensures means { IfOk result (λ v. Means (listed self.new) v (λ x E. apply_of ops.Select (E condition) (E chosen) (E other))) }
    {
        self.add(Value::Select {
            condition,
            chosen,
            other,
        })
    }
}
