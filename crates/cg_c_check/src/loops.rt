//! The heads of loops.
ghost use Rattle.std.specs.Prelude.{◌≡◌, ◌+◌, ◌*◌, ◌≤◌, ◌<◌, ◌^◌, ◌&&◌, not, if◌then◌else◌, IfOk};
ghost use Rattle.cg_word.specs.Word.{rank as rank_of};
ghost use Rattle.cg_c_syntax.specs.Written.{expr_of, step_of as written_step};
ghost use Rattle.cg_c_syntax.specs.declared.statement.Loop.{out-Loop};
ghost use Rattle.cg_c_check.specs.Loops as spec;

use crate::constants::constant_of;
use crate::fault::CheckFault;
use crate::names::Names;
use crate::program::{Constant, Range};
use crate::rules::{MOST_SIGNED, is_signed, rank};
use cg_c_syntax::{Expr, Loop, Signedness};

/// The greatest number of loops in one another.
pub(crate) const MOST_LOOPS: u32 = 4;

/// The greatest number of turns of the innermost loop.
const MOST_TURNS: u64 = 1_000_000;

/// Returns the number that `constant` stands for, counted from -2^31.
fn height(constant: Constant) -> u64
    ensures value { result ≡ spec.height constant }
    ensures small { result < 2 ^ 33 }
{
    if is_signed(constant.signedness) {
        u64::from(rank(constant.word))
    } else {
        u64::from(constant.word) + 0x8000_0000
    }
}

/// Returns how many of `first`, `first + step` and so on are below `bound`, or if `inclusive` not above it.
fn trips_of(inclusive: bool, first: u64, bound: u64, step: u64) -> u64
    requires positive { 0 < step }
    requires bound { bound < 2 ^ 33 }
    requires step { step < 2 ^ 32 }
    ensures { result ≡ spec.trips_of inclusive first bound step }
{
    if inclusive {
        (bound + step).saturating_sub(first) / step
    } else {
        (bound + step - 1).saturating_sub(first) / step
    }
}

/// Returns whether a counter that begins with `first` is never below `bound`, since they are compared unsigned.
fn is_never_below(first: Constant, bound: Constant) -> bool
    ensures { result ≡ spec.is_never_below first bound }
{
    !is_signed(bound.signedness) && first.word > MOST_SIGNED
}

/// Returns whether `step` is positive.
fn is_positive(step: u32) -> bool
    ensures { result ≡ spec.is_positive step }
{
    step > 0 && step <= MOST_SIGNED
}

/// Returns whether there is an iteration, and a counter that begins with `first` stays below 2^31 after `trips` steps.
fn stays_signed(first: u32, step: u32, trips: u64) -> bool
    ensures { result ≡ spec.stays_signed first step trips }
{
    match u64::from(step).checked_mul(trips) {
        Some(way) => trips > 0 && way < 0x1_0000_0000 - u64::from(rank(first)),
        None => false,
    }
}

/// Returns whether `turns` times `trips` are few.
fn are_few(turns: u32, trips: u64) -> bool
    ensures { result ≡ spec.are_few turns trips }
{
    match u64::from(turns).checked_mul(trips) {
        Some(all) => all <= MOST_TURNS,
        None => false,
    }
}

/// Returns the number of trips of a counter that is below `bound` or, if `inclusive`, not above it.
fn trips_between(inclusive: bool, first: Constant, bound: Constant, step: Constant) -> u64
    requires { 0 < step.word }
    ensures { result ≡ spec.trips_of inclusive (rank_of first.word) (spec.height bound) step.word }
{
    let start = u64::from(rank(first.word));
    trips_of(inclusive, start, height(bound), u64::from(step.word))
}

/// Returns the step that `step` is; 1 where none is written.
fn step_of<'s>(names: &Names<'s>, step: &'s Option<Expr>) -> Result<Constant, CheckFault>
    ensures { result ≡ spec.step_of names.now (written_step step.now) }
{
    match step {
        Some(expr) => constant_of(names, expr),
        None => Ok(Constant {
            word: 1,
            signedness: Signedness::Signed,
        }),
    }
}

/// Returns the range of the counter of `tree`, for `turns` turns of the loops around.
#[tactic(auto, unfolding(crate::specs::Loops::range_of))]
pub(crate) fn range_of<'s>(
    names: &Names<'s>,
    turns: u32,
    tree: &'s Loop,
) -> Result<Range, CheckFault>
    ensures value { let l = out-Loop tree.now in result ≡ spec.range_of names.now turns l.place
        (record { counter = l.counter; start = expr_of l.start; inclusive = l.inclusive; bound = expr_of l.bound; step = written_step l.step }) }
    ensures few { IfOk result (λ range. turns * range.trips ≤ spec.most_turns) }
{
    let first = constant_of(names, &tree.start)?;
    let bound = constant_of(names, &tree.bound)?;
    let step = step_of(names, &tree.step)?;
    if is_never_below(first, bound) || !is_positive(step.word) {
        return Err(CheckFault::BadLoop(tree.place));
    }
    let trips = trips_between(tree.inclusive, first, bound, step);
    if !stays_signed(first.word, step.word, trips) || !are_few(turns, trips) {
        return Err(CheckFault::BadLoop(tree.place));
    }
    Ok(Range {
        first: first.word,
        step: step.word,
        trips: trips as u32,
    })
}
