//! What is known of the operands of an operation.
ghost use Rattle.std.specs.Prelude.{◌≡◌, ◌≤◌, ◌<◌, ℕ, Some, true};
ghost use Rattle.cg_simplify_facts.specs.Facts.{Fits};

/// What is known of a word.
#[derive(Clone, Copy, Debug, PartialEq, Eq, Drop)]
pub struct Fact {
    /// The word, if it is known.
    pub word: Option<u32>,
    /// A word that it never exceeds.
    pub top: u32,
}

/// What is known of the operands of an operation. Of an operand past the arity nothing need be true.
#[derive(Clone, Copy, Debug, PartialEq, Eq, Drop)]
pub struct Facts {
    pub first: Fact,
    pub second: Fact,
    pub third: Fact,
    /// Whether the first operand is known to be the second.
    pub first_two_equal: bool,
    /// Whether the second operand is known to be the third.
    pub last_two_equal: bool,
}

/// Returns whether the word of `fact` is known to be `word`.
pub(crate) fn is_known(fact: Fact, word: u32) -> bool
    ensures { result ≡ true → fact.word ≡ Some word }
{
    fact.word == Some(word)
}

/// Returns whether a word with `fact` is 0 or 1.
pub(crate) fn is_truth(fact: Fact) -> bool
    ensures { result ≡ true → (x : ℕ) → Fits fact x → x ≤ 1 }
{
    fact.top <= 1
}
