//! Operations whose value is one word.
ghost use Rattle.std.specs.Prelude.{◌≡◌, ◌≢◌, ◌≤◌, ◌<◌, ℕ, IfSome, true};
ghost use Rattle.cg_simplify_facts.specs.Facts.{AreFacts, Fits, IsConstant};

use crate::facts::{Fact, Facts, is_known};
use crate::identities::operand_of;
use cg_word::{Op, apply};

/// Returns the word that is the value of `op` wherever its operands are as `facts` says, if that follows from one of the
/// rules that are tried.
pub fn constant_of(op: Op, facts: Facts) -> Option<u32>
    ensures { IfSome result (IsConstant op facts) }
{
    if let Some(word) = computed(op, facts) {
        return Some(word);
    }
    if let Some(word) = compared(op, facts) {
        return Some(word);
    }
    known_operand(op, facts)
}

/// Returns the value of `op` where all its operands are known.
fn computed(op: Op, facts: Facts) -> Option<u32>
    ensures { IfSome result (IsConstant op facts) }
{
    let first = facts.first.word?;
    if op.arity() == 1 {
        return Some(apply(op, first, 0, 0));
    }
    let second = facts.second.word?;
    if op.arity() == 2 {
        return Some(apply(op, first, second, 0));
    }
    let third = facts.third.word?;
    Some(apply(op, first, second, third))
}

/// Returns the value of `op`, if it compares or subtracts operands of which enough is known.
fn compared(op: Op, facts: Facts) -> Option<u32>
    ensures { IfSome result (IsConstant op facts) }
{
    match op {
        Op::Sub => if facts.first_two_equal { Some(0) } else { None },
        Op::Xor => if facts.first_two_equal { Some(0) } else { None },
        Op::Lts => if facts.first_two_equal { Some(0) } else { None },
        Op::Eq => of_eq(facts),
        Op::Ne => of_ne(facts),
        Op::Ltu => of_ltu(facts),
        _ => None,
    }
}

/// Returns the value of `eq`, if its operands are equal or can't be.
fn of_eq(facts: Facts) -> Option<u32>
    ensures { IfSome result (IsConstant Op.Eq facts) }
{
    if facts.first_two_equal {
        Some(1)
    } else if are_apart(facts) {
        Some(0)
    } else {
        None
    }
}

/// Returns the value of `ne`, if its operands are equal or can't be.
fn of_ne(facts: Facts) -> Option<u32>
    ensures { IfSome result (IsConstant Op.Ne facts) }
{
    if facts.first_two_equal {
        Some(0)
    } else if are_apart(facts) {
        Some(1)
    } else {
        None
    }
}

/// Returns the value of `ltu`, if its operands are equal or one is known and past the other.
fn of_ltu(facts: Facts) -> Option<u32>
    ensures { IfSome result (IsConstant Op.Ltu facts) }
{
    if facts.first_two_equal {
        Some(0)
    } else if is_known(facts.second, 0) {
        Some(0)
    } else if is_above(facts.first, facts.second.top) {
        Some(0)
    } else if is_below(facts.first.top, facts.second) {
        Some(1)
    } else {
        None
    }
}

/// Returns whether one of the first two operands is known and greater than the other ever is.
fn are_apart(facts: Facts) -> bool
    ensures { result ≡ true → (x y z : ℕ) → AreFacts facts x y z → x ≢ y }
{
    is_below(facts.first.top, facts.second) || is_below(facts.second.top, facts.first)
}

/// Returns whether the word of `fact` is known and greater than `top`.
fn is_below(top: u32, fact: Fact) -> bool
    ensures { result ≡ true → (x : ℕ) → Fits fact x → top < x }
{
    match fact.word {
        Some(word) => top < word,
        None => false,
    }
}

/// Returns whether the word of `fact` is known and at least `top`.
fn is_above(fact: Fact, top: u32) -> bool
    ensures { result ≡ true → (x : ℕ) → Fits fact x → top ≤ x }
{
    match fact.word {
        Some(word) => top <= word,
        None => false,
    }
}

/// Returns the word of the operand that is the value of `op`, if it is known.
fn known_operand(op: Op, facts: Facts) -> Option<u32>
    ensures { IfSome result (IsConstant op facts) }
{
    match operand_of(op, facts)? {
        0 => facts.first.word,
        1 => facts.second.word,
        2 => facts.third.word,
        _ => None,
    }
}
