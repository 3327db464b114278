//! Marks of values.
ghost use Rattle.std.specs.Prelude.{◌≡◌};
ghost use Rattle.cg_c_kernel.specs.Live.{final_in, has_any_mark, has_mark, needs_marked, parts_marked};

use crate::acts::Act;
use cg_c_values::Value;

/// Returns whether the value `v` has a mark.
pub fn is_marked(marks: &[bool], v: usize) -> bool
    ensures { result ≡ has_mark marks.now v }
{
    v < marks.len() && marks[v]
}

/// Returns whether the value `v`, if there is one, has a mark.
pub fn is_none_or_marked(marks: &[bool], v: Option<usize>) -> bool
    ensures { result ≡ has_any_mark marks.now v }
{
    match v {
        Some(v) => is_marked(marks, v),
        None => true,
    }
}

/// Returns the value of word `number` when the turn ends, if it was assigned.
pub fn final_of(finals: &[Option<usize>], number: usize) -> Option<usize>
    ensures { result ≡ final_in finals.now number }
{
    if number < finals.len() {
        finals[number]
    } else {
        None
    }
}

/// Returns whether all that `value` needs has marks: its operands or, for a word that is carried, its final value.
pub fn are_parts_marked(marks: &[bool], finals: &[Option<usize>], value: Value) -> bool
    ensures { result ≡ parts_marked marks.now finals.now value }
{
    match value {
        Value::Carried(number) => is_none_or_marked(marks, final_of(finals, number)),
        Value::Loaded { guard, address, .. } => {
            is_none_or_marked(marks, guard) && is_marked(marks, address)
        }
        Value::Two { first, second, .. } => is_marked(marks, first) && is_marked(marks, second),
        Value::Select {
            condition,
            chosen,
            other,
        } => is_marked(marks, condition) && is_marked(marks, chosen) && is_marked(marks, other),
        _ => true,
    }
}

/// Returns whether all that `act` needs has marks.
pub fn are_needs_marked(marks: &[bool], act: Act) -> bool
    ensures { result ≡ needs_marked marks.now act }
{
    match act {
        Act::Store {
            guard,
            address,
            word,
            ..
        } => is_none_or_marked(marks, guard) && is_marked(marks, address) && is_marked(marks, word),
        Act::Send { guard, word, .. } => is_none_or_marked(marks, guard) && is_marked(marks, word),
        _ => true,
    }
}

/// Marks the value `v`.
fn mark(marks: &mut [bool], v: usize) {
    if v < marks.len() {
        marks[v] = true;
    }
}

/// Marks the value `v`, if there is one.
fn mark_any(marks: &mut [bool], v: Option<usize>) {
    if let Some(v) = v {
        mark(marks, v);
    }
}

/// Marks what `value` needs.
pub fn mark_parts(marks: &mut [bool], finals: &[Option<usize>], value: Value) {
    match value {
        Value::Carried(number) => mark_any(marks, final_of(finals, number)),
        Value::Loaded { guard, address, .. } => {
            mark_any(marks, guard);
            mark(marks, address);
        }
        Value::Two { first, second, .. } => {
            mark(marks, first);
            mark(marks, second);
        }
        Value::Select {
            condition,
            chosen,
            other,
        } => {
            mark(marks, condition);
            mark(marks, chosen);
            mark(marks, other);
        }
        _ => {}
    }
}

/// Marks what `act` needs.
pub fn mark_needs(marks: &mut [bool], act: Act) {
    match act {
        Act::Store {
            guard,
            address,
            word,
            ..
        } => {
            mark_any(marks, guard);
            mark(marks, address);
            mark(marks, word);
        }
        Act::Send { guard, word, .. } => {
            mark_any(marks, guard);
            mark(marks, word);
        }
        _ => {}
    }
}
