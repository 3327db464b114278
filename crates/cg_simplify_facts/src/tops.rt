//! How great the value of an operation can be.
ghost use Rattle.std.specs.Prelude.{◌≡◌, ◌<◌, ◌^◌, max, min};
ghost use Rattle.cg_simplify_facts.specs.Cases.{IsCover};
ghost use Rattle.cg_simplify_facts.specs.Facts.{IsTop};

use crate::facts::Facts;
use cg_word::Op;

/// Returns a word that the value of `op` never exceeds where its operands are as `facts` says.
pub fn top_of(op: Op, facts: Facts) -> u32
    ensures { IsTop op facts result }
{
    let first = facts.first.top;
    let second = facts.second.top;
    let third = facts.third.top;
    match op {
        Op::Const => first,
        Op::Eq => 1,
        Op::Ne => 1,
        Op::Lts => 1,
        Op::Ltu => 1,
        Op::And => less(first, second),
        Op::Or => cover(greater(first, second)),
        Op::Xor => cover(greater(first, second)),
        Op::Add => first.saturating_add(second),
        Op::Mul => first.saturating_mul(second),
        Op::Shr => shifted_down(facts),
        Op::Shl => shifted_up(facts),
        Op::Select => greater(second, third),
        _ => u32::MAX,
    }
}

/// Returns the less of two words.
fn less(first: u32, second: u32) -> u32
    ensures { result ≡ min first second }
{
    if first < second { first } else { second }
}

/// Returns the greater of two words.
fn greater(first: u32, second: u32) -> u32
    ensures { result ≡ max first second }
{
    if first < second { second } else { first }
}

/// Returns a word that the first operand, shifted to the right by the second, never exceeds.
fn shifted_down(facts: Facts) -> u32
    ensures { IsTop Op.Shr facts result }
{
    match facts.second.word {
        Some(bits) => facts.first.top >> (bits % 32),
        None => facts.first.top,
    }
}

/// Returns a word that the first operand, shifted to the left by the second, never exceeds.
fn shifted_up(facts: Facts) -> u32
    ensures { IsTop Op.Shl facts result }
{
    match facts.second.word {
        Some(bits) => facts.first.top.saturating_mul(power(bits % 32)),
        None => u32::MAX,
    }
}

/// Returns 2 to the power `bits`.
fn power(bits: u32) -> u32
    requires { bits < 32 }
    ensures { result ≡ 2 ^ bits }
{
    1 << bits
}

/// Returns the word of all bits up to the highest of `top`.
pub(crate) fn cover(top: u32) -> u32
    ensures { IsCover top result }
{
    let mut word: u32 = 0;
    for _bit in 0..32u32 {
        if top <= word {
            return word;
        }
        word = 2 * word + 1;
    }
    word
}
