//! The list of the values.
ghost use Rattle.std.specs.Prelude.{nat_eq};
ghost use Rattle.indexmap.specs.IndexSet.{contains};
ghost use Rattle.cg_c_values.specs.Standing.{AllStand, AreTruths, all_stand_prop};

use crate::making::DEPTH;
use crate::value::Value;
use cg_word::Op;
use indexmap::IndexSet;
use std::alloc::{AllocError, Global};

/// The values so far, numbered from 0 in the order in which they were added. No value stands twice.
#[derive(Drop)]
pub struct Values {
    values: IndexSet<Value>,
    /// The numbers of those that are known to be 0 or 1 in each turn.
    truths: IndexSet<usize>,
    ghost stand: { AllStand values.keys } by { all_stand_prop values.keys },
    ghost are_truths: { AreTruths values.keys (contains nat_eq truths) },
}

impl Values {
    ghost use Rattle.std.specs.Prelude.{◌≡◌, ◌≢◌, ℕ, ◌<◌, ◌≤◌, nat_lt, not, true, List, [], length, Some, None, IfOk, IfSome, MatchOption, ◌&&◌};
    ghost use Rattle.cg_word.specs.declared.op.Op.TheVariants as ops;
    ghost use Rattle.cg_word.specs.Word.{apply_of, one_if};
    ghost use Rattle.cg_c_values.specs.Listed.{listed};
    ghost use Rattle.cg_c_values.specs.Values.{Const, Fits, Extends, Inserts, IsBelow, IsPure, MayStand, Means, Moment, Words, holds, is_plain, value_at};
    ghost use Rattle.cg_c_values.specs.Standing.{IsTruth};

    /// Returns no values.
    pub fn new(alloc: Global) -> Values
        ensures { listed result ≡ [] }
    {
        Values {
            values: IndexSet::new(alloc),
            truths: IndexSet::new(alloc),
        }
    }

    /// Returns the number of values.
    pub fn len(&self) -> usize
        ensures { result ≡ length (listed self.now) }
    {
        self.values.len()
    }

    /// Returns the value of a number.
    pub fn value(&self, v: usize) -> Value
        requires within { v < length (listed self.now) }
        ensures value { result ≡ value_at (listed self.now) v }
        ensures may_stand { MayStand v result }
    {
        self.values.as_slice()[v]
    }

    /// Returns the number of a value, if it is there.
    pub fn find(&self, value: Value) -> Option<usize>
        ensures { MatchOption result ((v : ℕ) → v < length (listed self.now) → value_at (listed self.now) v ≢ value)
            (λ v. (v < length (listed self.now)) × (value_at (listed self.now) v ≡ value)) }
    {
        self.values.get_index_of(&value)
    }

    /// Returns the word of a constant; `None` for other values.
    pub fn number(&self, v: usize) -> Option<u32>
        requires within { v < length (listed self.now) }
        ensures is { IfSome result (λ word. value_at (listed self.now) v ≡ Const word) }
        ensures other { result ≡ None → (word : ℕ) → value_at (listed self.now) v ≢ Const word }
        ensures means { IfSome result (λ word. Means (listed self.now) v (λ x E. word)) }
    {
        match self.value(v) {
            Value::Const(word) => Some(word),
            _ => None,
        }
    }

    /// Returns whether a value is known to be 0 or 1 in each turn.
    pub(crate) fn is_truth(&self, v: usize) -> bool
        ensures { result ≡ true → IsTruth (listed self.now) v }
    {
        self.truths.contains(&v)
    }

    /// Adds a pure value as it is, unless it is there already, and returns its number.
    pub fn add(&mut self, value: Value) -> Result<usize, AllocError>
        requires may_stand { MayStand (length (listed self.now)) value }
        requires pure { IsPure value }
        ensures kept { Extends (listed self.old) (listed self.new) }
        ensures within { IfOk result (λ v. v < length (listed self.new)) }
        ensures added { IfOk result (λ v. value_at (listed self.new) v ≡ value) }
    {
        let truth = self.gives_truth(value);
        let v = self.insert(value)?;
        if truth {
            self.note_truth(v)?;
        }
        Ok(v)
    }

    /// Adds any value as it is, unless it is there already, and returns its number. It isn't noted whether the value is
    /// known to be 0 or 1.
    pub fn insert(&mut self, value: Value) -> Result<usize, AllocError>
        requires may_stand { MayStand (length (listed self.now)) value }
        ensures kept { Inserts (listed self.old) (listed self.new) value }
        ensures within { IfOk result (λ v. v < length (listed self.new)) }
        ensures added { IfOk result (λ v. value_at (listed self.new) v ≡ value) }
        ensures place { IfOk result (λ v. (u : ℕ) → length (listed self.old) ≤ u → u < length (listed self.new) → u ≡ v) }
    {
        let (v, _) = self.values.insert_full(value)?;
        Ok(v)
    }

    /// Notes that a value is known to be 0 or 1 in each turn.
    fn note_truth(&mut self, v: usize) -> Result<(), AllocError>
        requires { IsTruth (listed self.now) v }
        ensures { listed self.new ≡ listed self.old }
    {
        self.truths.insert(v)?;
        Ok(())
    }

    /// Returns a value that is the constant `word`.
    pub fn constant(&mut self, word: u32) -> Result<usize, AllocError>
        ensures kept { Extends (listed self.old) (listed self.new) }
        ensures means { IfOk result (λ v. Means (listed self.new) v (λ x E. word)) }
    {
        self.add(Value::Const(word))
    }

    /// Returns a value that is the operation `op` of two values: the simplest that the identities of words find.
    pub fn two(&mut self, op: Op, first: usize, second: usize) -> Result<usize, AllocError>
        requires plain { is_plain op ≡ true }
        requires first { first < length (listed self.now) }
        requires second { second < length (listed self.now) }
        ensures kept { Extends (listed self.old) (listed self.new) }
        ensures means { IfOk result (λ v. Means (listed self.new) v (λ x E. apply_of op (E first) (E second) 0)) }
    {
        self.two_within(DEPTH, op, first, second)
    }

    /// Returns a value that is `chosen` where `condition` isn't 0, else `other`: the simplest that the identities of
    /// words find.
    pub fn select(
        &mut self,
        condition: usize,
        chosen: usize,
        other: usize,
    ) -> Result<usize, AllocError>
        requires condition { condition < length (listed self.now) }
        requires chosen { chosen < length (listed self.now) }
        requires other { other < length (listed self.now) }
        ensures kept { Extends (listed self.old) (listed self.new) }
        ensures means { IfOk result (λ v. Means (listed self.new) v (λ x E. apply_of ops.Select (E condition) (E chosen) (E other))) }
    {
        self.select_within(DEPTH, condition, chosen, other)
    }

    /// Returns a value that is 0 where `v` isn't 0, else 1.
    pub fn negation(&mut self, v: usize) -> Result<usize, AllocError>
        requires within { v < length (listed self.now) }
        ensures kept { Extends (listed self.old) (listed self.new) }
        ensures means { IfOk result (λ n. Means (listed self.new) n (λ x E. one_if (not (nat_lt 0 (E v))))) }
    {
        let zero = self.constant(0)?;
        self.two(Op::Eq, v, zero)
    }

    /// Returns a value that is 1 where `v` isn't 0, else 0.
    pub fn truth(&mut self, v: usize) -> Result<usize, AllocError>
        requires within { v < length (listed self.now) }
        ensures kept { Extends (listed self.old) (listed self.new) }
        ensures means { IfOk result (λ n. Means (listed self.new) n (λ x E. one_if (nat_lt 0 (E v)))) }
    {
        let zero = self.constant(0)?;
        self.two(Op::Ne, v, zero)
    }

    /// Returns a value that is 0 where `v` is 0 and nowhere else: the operand of a comparison with 0, or `v` itself.
    pub fn tested(&self, v: usize) -> usize
        requires within { v < length (listed self.now) }
        ensures within { result < length (listed self.now) }
        ensures tests { (x : Moment) (E : Words) → Fits (listed self.now) x E → nat_lt 0 (E result) ≡ nat_lt 0 (E v) }
    {
        match self.inner(v, Op::Ne) {
            Some((tested, 0)) => tested,
            _ => v,
        }
    }

    /// Returns a guard that holds where `guard` does and `condition` isn't 0.
    pub fn both(
        &mut self,
        guard: Option<usize>,
        condition: usize,
    ) -> Result<Option<usize>, AllocError>
        requires guard { IsBelow (length (listed self.now)) guard }
        requires condition { condition < length (listed self.now) }
        ensures kept { Extends (listed self.old) (listed self.new) }
        ensures within { IfOk result (λ g. IsBelow (length (listed self.new)) g) }
        ensures both { IfOk result (λ g. (x : Moment) (E : Words) → Fits (listed self.new) x E →
            holds E g ≡ holds E guard && nat_lt 0 (E condition)) }
    {
        let Some(guard) = guard else {
            return Ok(match self.number(condition) {
                Some(0) | None => Some(condition),
                Some(_) => None,
            });
        };
        match self.number(condition) {
            Some(0) => Ok(Some(self.constant(0)?)),
            Some(_) => Ok(Some(guard)),
            None => {
                let first = self.truth(guard)?;
                let second = self.truth(condition)?;
                Ok(Some(self.two(Op::And, first, second)?))
            }
        }
    }
}
