//! What is known of a value by what it is computed from.
use crate::value::Value;
use crate::values::Values;
use cg_word::Op;

impl Values {
    ghost use Rattle.std.specs.Prelude.{◌≡◌, ◌<◌, ◌≤◌, ℕ, true, length, IfSome};
    ghost use Rattle.cg_word.specs.declared.op.Op.TheVariants as ops;
    ghost use Rattle.cg_word.specs.Word.{apply_of, words};
    ghost use Rattle.cg_c_values.specs.Listed.{listed};
    ghost use Rattle.cg_c_values.specs.Values.{Fits, MayStand, Means, Moment, Words, is_plain};
    ghost use Rattle.cg_c_values.specs.Standing.{GivesTruth};

    /// Returns whether the value is known to be the constant `word`.
    pub(crate) fn is_number(&self, v: usize, word: u32) -> bool
        requires { v < length (listed self.now) }
        ensures { result ≡ true → Means (listed self.now) v (λ x E. word) }
    {
        match self.number(v) {
            Some(number) => number == word,
            None => false,
        }
    }

    /// Returns whether two values are known to be these constants.
    pub(crate) fn are_numbers(&self, first: usize, x: u32, second: usize, y: u32) -> bool
        requires first { first < length (listed self.now) }
        requires second { second < length (listed self.now) }
        ensures first { result ≡ true → Means (listed self.now) first (λ z E. x) }
        ensures second { result ≡ true → Means (listed self.now) second (λ z E. y) }
    {
        self.is_number(first, x) && self.is_number(second, y)
    }

    /// Returns the first operand and the second, which is a constant, if the value is the operation `op` of these.
    pub(crate) fn inner(&self, v: usize, op: Op) -> Option<(usize, u32)>
        requires { v < length (listed self.now) }
        ensures within { IfSome result (λ r. r.0 < length (listed self.now)) }
        ensures word { IfSome result (λ r. r.1 < words) }
        ensures means { IfSome result (λ r. Means (listed self.now) v (λ x E. apply_of op (E r.0) r.1 0)) }
    {
        let Value::Two {
            op: own,
            first,
            second,
        } = self.value(v)
        else {
            return None;
        };
        if own != op {
            return None;
        }
        let word = self.number(second)?;
        Some((first, word))
    }

    /// Returns whether the value is a word as it was when the turn began.
    pub(crate) fn is_carried(&self, v: usize) -> bool
        requires { v < length (listed self.now) }
    {
        matches!(self.value(v), Value::Carried(_))
    }

    /// Returns the operands if the value is a sum whose first is a word as it was when the turn began.
    pub(crate) fn carried_sum(&self, v: usize) -> Option<(usize, usize)>
        requires { v < length (listed self.now) }
        ensures carried { IfSome result (λ r. r.0 < length (listed self.now)) }
        ensures within { IfSome result (λ r. r.1 < length (listed self.now)) }
        ensures means { IfSome result (λ r. Means (listed self.now) v (λ x E. apply_of ops.Add (E r.0) (E r.1) 0)) }
    {
        match self.value(v) {
            Value::Two {
                op: Op::Add,
                first,
                second,
            } if self.is_carried(first) => Some((first, second)),
            _ => None,
        }
    }

    /// Returns the value that is subtracted from 0, if the value is such a difference.
    pub(crate) fn negative(&self, v: usize) -> Option<usize>
        requires { v < length (listed self.now) }
        ensures within { IfSome result (λ r. r < length (listed self.now)) }
        ensures means { IfSome result (λ r. Means (listed self.now) v (λ x E. apply_of ops.Sub 0 (E r) 0)) }
    {
        match self.value(v) {
            Value::Two {
                op: Op::Sub,
                first,
                second,
            } if self.is_number(first, 0) => Some(second),
            _ => None,
        }
    }

    /// Returns whether the value of these operands is 0 or 1 whatever words fit.
    pub(crate) fn gives_truth(&self, value: Value) -> bool
        requires { MayStand (length (listed self.now)) value }
        ensures { result ≡ true → GivesTruth (listed self.now) value }
    {
        match value {
            Value::Const(word) => word <= 1,
            Value::Two { op, first, second } => self.two_gives_truth(op, first, second),
            Value::Select { chosen, other, .. } => self.is_truth(chosen) && self.is_truth(other),
            _ => false,
        }
    }

    fn two_gives_truth(&self, op: Op, first: usize, second: usize) -> bool
        requires first { first < length (listed self.now) }
        requires second { second < length (listed self.now) }
        ensures { result ≡ true → (x : Moment) (E : Words) → Fits (listed self.now) x E → apply_of op (E first) (E second) 0 ≤ 1 }
    {
        match op {
            Op::Eq | Op::Ne | Op::Lts | Op::Ltu => true,
            Op::And => self.is_truth(first) || self.is_truth(second),
            Op::Or | Op::Xor => self.is_truth(first) && self.is_truth(second),
            Op::Shr => self.is_number(second, 31),
            _ => false,
        }
    }
}
