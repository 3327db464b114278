//! Values that a store or an output needs, in a turn or in one after it.

ghost use Rattle.std.specs.Prelude.{◌≡◌, true, false, length, IfOk, replicate};
ghost use Rattle.cg_c_values.specs.Listed.{listed};
ghost use Rattle.cg_c_kernel.specs.Live.{AreActsWithin, AreClosed, AreFinalsWithin, AreNeeded};

use crate::acts::Act;
use crate::marked::Live;
use crate::marks::{are_needs_marked, are_parts_marked, is_marked, mark_needs, mark_parts};
use cg_c_values::Values;
use std::alloc::{AllocError, Global};

/// Marks what marked values need, from the last to the first.
fn sweep(values: &Values, finals: &[Option<usize>], marks: &mut [bool]) {
    for v in (0..values.len()).rev() {
        if is_marked(marks, v) {
            mark_parts(marks, finals, values.value(v));
        }
    }
}

/// Returns whether all that marked values need has marks.
fn is_closed(values: &Values, finals: &[Option<usize>], marks: &[bool]) -> bool
    ensures { result ≡ true → AreClosed (listed values.now) finals.now marks.now }
{
    for v in 0..values.len() {
        if is_marked(marks, v) && !are_parts_marked(marks, finals, values.value(v)) {
            return false;
        }
    }
    true
}

/// Returns whether all that the acts need has marks.
fn are_all_marked(acts: &[Act], marks: &[bool]) -> bool
    ensures { result ≡ true → AreNeeded acts.now marks.now }
{
    for act in acts {
        if !are_needs_marked(marks, *act) {
            return false;
        }
    }
    true
}

/// Marks what the acts need.
fn mark_all(acts: &[Act], marks: &mut [bool]) {
    for act in acts {
        mark_needs(marks, *act);
    }
}

/// Returns marks of the values that the acts need. A sweep marks what marked values need in the turn; as many follow as
/// words are carried, or fewer. If something were unmarked still, all values would be marked.
fn live_marks(
    alloc: Global,
    values: &Values,
    finals: &[Option<usize>],
    acts: &[Act],
) -> Result<Vec<bool>, AllocError>
    requires finals { AreFinalsWithin (length (listed values.now)) finals.now }
    requires acts { AreActsWithin (length (listed values.now)) acts.now }
    ensures long { IfOk result (λ marks. length marks.items ≡ length (listed values.now)) }
    ensures closed { IfOk result (λ marks. AreClosed (listed values.now) finals.now marks.items) }
    ensures needed { IfOk result (λ marks. AreNeeded acts.now marks.items) }
{
    let mut marks = vec![in alloc; false; values.len()]?;
    mark_all(acts, &mut marks);
    for _ in 0..finals.len() {
        sweep(values, finals, &mut marks);
        if is_closed(values, finals, &marks) {
            break;
        }
    }
    sweep(values, finals, &mut marks);
    if is_closed(values, finals, &marks) && are_all_marked(acts, &marks) {
        return Ok(marks);
    }
    vec![in alloc; true; values.len()]
}

/// Returns the values with marks of those that the acts need.
pub fn live_of<'a>(
    alloc: Global,
    values: &'a Values,
    finals: &'a [Option<usize>],
    acts: &[Act],
) -> Result<Live<'a>, AllocError>
    requires finals { AreFinalsWithin (length (listed values.now)) finals.now }
    requires acts { AreActsWithin (length (listed values.now)) acts.now }
    ensures values { IfOk result (λ live. listed live.values.now ≡ listed values.now) }
    ensures finals { IfOk result (λ live. live.finals.now ≡ finals.now) }
    ensures needed { IfOk result (λ live. AreNeeded acts.now live.marks.items) }
{
    let marks = live_marks(alloc, values, finals, acts)?;
    Ok(Live {
        values,
        finals,
        marks,
    })
}
