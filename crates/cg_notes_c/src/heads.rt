//! Hints on the heads of loops.

use crate::context::Around;
use crate::foreign::{Hint, hint_for};

/// Hints on tokens in the part of a head that declares the counter.
static COUNTER: [Hint; 2] = [
    (
        ",",
        "; a loop has one counter: declare the other word before the loop",
    ),
    (
        ";",
        "; the counter has a first value: for (int i = 0; i < 8; i++)",
    ),
];

/// Hints on tokens in the part that bounds it.
static BOUND: [Hint; 2] = [
    (
        "> >= != ==",
        "; a loop counts up to its bound: i < 8 or i <= 7; to count down, use 7 - i in the loop",
    ),
    (
        "&& || ? & | ^ <",
        "; a bound is a constant, in round brackets if it has an operator that binds less than <",
    ),
];

/// Hints on tokens in the part that changes it.
static STEP: [Hint; 2] = [
    (
        "-- -=",
        "; a loop counts up: i++ or i += 2; to count down, use 7 - i in the loop",
    ),
    (
        "= *= <<=",
        "; a loop counts up by a constant: i++ or i += 2",
    ),
];

/// What is said where another name than the counter's is in the second or the third part.
const SAME: &str = "; the name of the counter is in all three parts: for (int i = 0; i < 8; i++)";

/// Returns a hint on the token at a place after `semicolons` semicolons of the head of a `for`; empty if there is none.
pub(crate) fn head_hint(around: Around<'_>, semicolons: usize) -> &'static str {
    match semicolons {
        0 => counter_hint(around),
        1 => bound_hint(around),
        _ => step_hint(around),
    }
}

/// Returns a hint on the part of a head that declares the counter; empty if there is none.
fn counter_hint(around: Around<'_>) -> &'static str {
    if around.last == "for" {
        return "; a loop is for (int i = 0; i < 8; i++)";
    }
    if around.last != "(" {
        return hint_for(&COUNTER, around.at).unwrap_or("");
    }
    if around.at == "uint32_t" {
        return "; the counter is an int or an int32_t";
    }
    "; the counter is declared in the head: for (int i = 0; i < 8; i++)"
}

/// Returns a hint on the part of a head that bounds the counter; empty if there is none.
fn bound_hint(around: Around<'_>) -> &'static str {
    match hint_for(&BOUND, around.at) {
        Some(hint) => hint,
        None if around.last == ";" => SAME,
        None => "",
    }
}

/// Returns a hint on the part of a head that changes the counter; empty if there is none.
fn step_hint(around: Around<'_>) -> &'static str {
    if around.last == ";" && around.at == "++" {
        return "; write i++ for ++i";
    }
    match hint_for(&STEP, around.at) {
        Some(hint) => hint,
        None if around.last == ";" => SAME,
        None => "",
    }
}
