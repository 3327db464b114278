//! Operations that the same units offer, whose questions therefore have the same answers.
ghost use Rattle.std.specs.Prelude.{◌≡◌, ℕ, Option, true};
ghost use Rattle.cg_bound_routes.specs.Question.{AreAlike, IsAnswer};

use crate::question::Question;
use cg_arch::{Arch, Op};

/// Returns whether the same units offer `a` and `b`.
fn are_alike(arch: &Arch, a: Op, b: Op) -> bool
    ensures { result ≡ true → AreAlike arch.now a b }
{
    let units = arch.units();
    for place in 0..units.len() {
        let ops = units[place].ops;
        if ops.has(a) != ops.has(b) {
            return false;
        }
    }
    true
}

/// Finds the first operation that the same units offer as `op`.
fn first_alike(arch: &Arch, op: Op) -> Op
    ensures { AreAlike arch.now result op }
{
    for other in &Op::ALL {
        if are_alike(arch, *other, op) {
            return *other;
        }
    }
    op
}

/// Returns a question with the same answer as `question`, with each operation replaced by the first one that the same
/// units offer.
pub(crate) fn shared(arch: &Arch, question: Question) -> Question
    ensures { (hops : Option ℕ) → IsAnswer arch.now result hops → IsAnswer arch.now question hops }
{
    Question {
        from: first_alike(arch, question.from),
        to: first_alike(arch, question.to),
        arg: question.arg,
        ends: question.ends,
    }
}
