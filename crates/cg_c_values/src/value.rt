//! What a value is.
use cg_word::Op;
use std::hash::{Hash, Hasher};

/// A value of a turn. Other values are given by their numbers.
#[derive(Clone, Copy, Debug, PartialEq, Eq)]
pub enum Value {
    /// A constant.
    Const(u32),
    /// The number of the turn.
    Turn,
    /// The number of the turn divided by a constant.
    Quotient(u32),
    /// A quotient of the turn's number, modulo `radix`.
    Digit {
        divisor: u32,
        radix: u32,
    },
    /// The word that the word of this number has when the turn begins.
    Carried(usize),
    /// The word of this turn in the input stream of a port.
    Input(u32),
    /// The word at `address` in an array to which `version` stores were done in this turn. With a guard it is any word
    /// where the guard is 0.
    Loaded {
        array: usize,
        version: usize,
        guard: Option<usize>,
        address: usize,
    },
    /// An operation on two values.
    Two {
        op: Op,
        first: usize,
        second: usize,
    },
    /// `chosen` where `condition` isn't 0, else `other`.
    Select {
        condition: usize,
        chosen: usize,
        other: usize,
    },
}

impl Value {
    ghost use Rattle.std.specs.Prelude.{◌≡◌};
    ghost use Rattle.cg_c_values.specs.Hashed.{kind_of, first_of, second_of, third_of};

    /// Returns a number for its kind; each operation is a kind.
    fn kind(self) -> u32
        ensures { result ≡ kind_of self }
    {
        match self {
            Value::Two { op, .. } => op.code(),
            Value::Const(_) => 32,
            Value::Turn => 33,
            Value::Quotient(_) => 34,
            Value::Digit { .. } => 35,
            Value::Carried(_) => 36,
            Value::Input(_) => 37,
            Value::Loaded { .. } => 38,
            Value::Select { .. } => 39,
        }
    }

    /// Returns the word or the number that it has first; 0 if it has none.
    fn first_part(self) -> u64
        ensures { result ≡ first_of self }
    {
        match self {
            Value::Const(word) => u64::from(word),
            Value::Turn => 0,
            Value::Quotient(divisor) => u64::from(divisor),
            Value::Digit { divisor, .. } => u64::from(divisor),
            Value::Carried(number) => number as u64,
            Value::Input(port) => u64::from(port),
            Value::Loaded { address, .. } => address as u64,
            Value::Two { first, .. } => first as u64,
            Value::Select { condition, .. } => condition as u64,
        }
    }

    /// Returns the number that it has second; 0 if it has none.
    fn second_part(self) -> u64
        ensures { result ≡ second_of self }
    {
        match self {
            Value::Digit { radix, .. } => u64::from(radix),
            Value::Loaded { version, .. } => version as u64,
            Value::Two { second, .. } => second as u64,
            Value::Select { chosen, .. } => chosen as u64,
            _ => 0,
        }
    }

    /// Returns the number that it has third; 0 if it has none.
    fn third_part(self) -> u64
        ensures { result ≡ third_of self }
    {
        match self {
            Value::Loaded { array, .. } => array as u64,
            Value::Select { other, .. } => other as u64,
            _ => 0,
        }
    }
}

impl Hash for Value {
    ghost use Rattle.std.specs.Prelude.{◌++◌};
    ghost use Rattle.std.specs.Hash as fed;
    ghost use Rattle.cg_c_values.specs.Hashed.{kind_of, first_of, second_of, third_of};
    ghost use Rattle.std.proofs.Common.{rules};
    ghost use Rattle.std.specs.Cmp.Rules.{hashing};

    ghost hash_input = { λ v. fed.u32 (kind_of v) ++ fed.u64 (first_of v) ++ fed.u64 (second_of v) ++ fed.u64 (third_of v) };

    ghost respects_eq = { Prim.search (hashing, rules) };

    fn hash<H: Hasher>(&self, state: &mut H) {
        self.kind().hash(state);
        self.first_part().hash(state);
        self.second_part().hash(state);
        self.third_part().hash(state);
    }
}
