//! Questions about the ways between units.
ghost use Rattle.std.specs.Prelude.{◌≡◌, ◌↔◌, IsTrue, true};
ghost use Rattle.cg_bound_routes.specs.Question.{AreEnds};

use cg_arch::Op;

/// The pairs of units that the ends of an edge may be.
#[derive(Clone, Copy, PartialEq, Eq)]
pub(crate) enum Ends {
    /// Any two units, equal or different.
    Any,
    /// One unit.
    One,
    /// Two different units.
    Apart,
}

impl Ends {
    /// Returns whether units number `x` and `y` satisfy the condition.
    pub(crate) fn fit(self, x: usize, y: usize) -> bool
        ensures { IsTrue result ↔ AreEnds self x y }
    {
        match self {
            Ends::Any => true,
            Ends::One => x == y,
            Ends::Apart => x != y,
        }
    }
}

/// A question: the least number of registers on a way from the out of a unit that offers `from` to port number `arg` of
/// a unit that offers `to`.
#[derive(Clone, Copy, Drop)]
pub(crate) struct Question {
    pub from: Op,
    pub to: Op,
    pub arg: usize,
    /// Which pairs of units these may be.
    pub ends: Ends,
}

/// Returns whether `a` and `b` are one question.
pub(crate) fn is_same(a: Question, b: Question) -> bool
    ensures { result ≡ true → a ≡ b }
{
    if a.from.code() != b.from.code() {
        return false;
    }
    if a.to.code() != b.to.code() {
        return false;
    }
    if a.arg != b.arg {
        return false;
    }
    a.ends == b.ends
}
