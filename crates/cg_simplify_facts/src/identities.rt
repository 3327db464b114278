//! Operations whose value is one of their operands.
ghost use Rattle.std.specs.Prelude.{◌≡◌, ◌≤◌, ◌%◌, ◌⊎◌, ℕ, IfSome, bit_and, true};
ghost use Rattle.cg_simplify_facts.specs.Facts.{AreFacts, Fits, IsOperand};
ghost use Rattle.cg_simplify_facts.specs.Cases.{IsBeside, IsSelected, IsTruthBeside, IsUnmasked};

use crate::facts::{Fact, Facts, is_known, is_truth};
use crate::tops::cover;
use cg_word::Op;

/// Returns the number of the operand that is the value of `op` wherever its operands are as `facts` says, if that follows
/// from one of the identities that are tried.
pub fn operand_of(op: Op, facts: Facts) -> Option<usize>
    ensures { IfSome result (IsOperand op facts) }
{
    match op {
        Op::Add => beside(facts, 0),
        Op::Sub => less_nothing(facts),
        Op::Mul => beside(facts, 1),
        Op::And => of_and(facts),
        Op::Or => of_or(facts),
        Op::Xor => beside(facts, 0),
        Op::Shl => not_shifted(facts),
        Op::Shr => not_shifted(facts),
        Op::Sar => not_shifted(facts),
        Op::Eq => truth_beside(facts, 1),
        Op::Ne => truth_beside(facts, 0),
        Op::Mins => one_of_equals(facts),
        Op::Maxs => one_of_equals(facts),
        Op::Select => selected(facts),
        _ => None,
    }
}

/// Returns the operand beside one that is known to be `word`.
fn beside(facts: Facts, word: u32) -> Option<usize>
    ensures { IfSome result (λ p. (x y z : ℕ) → AreFacts facts x y z → IsBeside word p x y) }
{
    if is_known(facts.first, word) {
        Some(1)
    } else if is_known(facts.second, word) {
        Some(0)
    } else {
        None
    }
}

/// Returns the first operand, if 0 is subtracted from it.
fn less_nothing(facts: Facts) -> Option<usize>
    ensures { IfSome result (λ p. (x y z : ℕ) → AreFacts facts x y z → (p ≡ 0) × (y ≡ 0)) }
{
    if is_known(facts.second, 0) {
        Some(0)
    } else {
        None
    }
}

/// Returns the first operand, if it is shifted by a multiple of 32.
fn not_shifted(facts: Facts) -> Option<usize>
    ensures { IfSome result (λ p. (x y z : ℕ) → AreFacts facts x y z → (p ≡ 0) × (y % 32 ≡ 0)) }
{
    let Some(bits) = facts.second.word else {
        return None;
    };
    if bits % 32 == 0 { Some(0) } else { None }
}

/// Returns the first operand, if it is the second one too.
fn one_of_equals(facts: Facts) -> Option<usize>
    ensures { IfSome result (λ p. (x y z : ℕ) → AreFacts facts x y z → (p ≡ 0) × (x ≡ y)) }
{
    if facts.first_two_equal { Some(0) } else { None }
}

/// Returns the operand, 0 or 1 in each case, that is compared with `word`.
fn truth_beside(facts: Facts, word: u32) -> Option<usize>
    ensures { IfSome result (λ p. (x y z : ℕ) → AreFacts facts x y z → IsTruthBeside word p x y) }
{
    if is_known(facts.second, word) && is_truth(facts.first) {
        Some(0)
    } else if is_known(facts.first, word) && is_truth(facts.second) {
        Some(1)
    } else {
        None
    }
}

/// Returns the operand of `and` that a mask leaves as it is.
fn unmasked(facts: Facts) -> Option<usize>
    ensures { IfSome result (λ p. (x y z : ℕ) → AreFacts facts x y z → IsUnmasked p x y) }
{
    if masks_all(facts.first, facts.second.top) {
        Some(1)
    } else if masks_all(facts.second, facts.first.top) {
        Some(0)
    } else {
        None
    }
}

/// Returns whether the word of `mask` is known and has each bit that words up to `top` have.
fn masks_all(mask: Fact, top: u32) -> bool
    ensures { result ≡ true → (x y : ℕ) → Fits mask x → y ≤ top → bit_and x y ≡ y }
{
    match mask.word {
        Some(word) => {
            let all = cover(top);
            word & all == all
        }
        None => false,
    }
}

/// Returns the operand that is the value of `and`.
fn of_and(facts: Facts) -> Option<usize>
    ensures { IfSome result (λ p. (x y z : ℕ) → AreFacts facts x y z → IsUnmasked p x y) }
{
    match unmasked(facts) {
        Some(place) => Some(place),
        None => one_of_equals(facts),
    }
}

/// Returns the operand that is the value of `or`.
fn of_or(facts: Facts) -> Option<usize>
    ensures { IfSome result (λ p. (x y z : ℕ) → AreFacts facts x y z → IsBeside 0 p x y ⊎ ((p ≡ 0) × (x ≡ y))) }
{
    match beside(facts, 0) {
        Some(place) => Some(place),
        None => one_of_equals(facts),
    }
}

/// Returns the operand that is the value of `select`.
fn selected(facts: Facts) -> Option<usize>
    ensures { IfSome result (λ p. (x y z : ℕ) → AreFacts facts x y z → IsSelected p x y z) }
{
    if let Some(guard) = facts.first.word {
        return if guard == 0 { Some(2) } else { Some(1) };
    }
    if facts.last_two_equal {
        return Some(1);
    }
    if is_known(facts.second, 1) && is_known(facts.third, 0) && is_truth(facts.first) {
        return Some(0);
    }
    None
}
