//! Parts of a turn under conditions.
ghost use Rattle.std.specs.Prelude.{◌≡◌, ℕ, ◌<◌, ◌≤◌, List, length, Option, IfOk, OnOk, slice_index_or, None};
ghost use Rattle.cg_c_values.specs.Values.{Extends, IsBelow};
ghost use Rattle.cg_c_turn.specs.Conditions.{EntersArm, IsMerged, with_point};
ghost use Rattle.cg_c_turn.specs.Branched.{Begins, Ends, Switches};
ghost use Rattle.cg_c_turn.specs.Draft.{assigned_in, draft_of};
ghost use Rattle.cg_c_turn.specs.Words.{Merges, with_values};
ghost use Rattle.cg_c_turn.specs.Stands.{IsFormed};

use crate::draft::Draft;
use std::alloc::AllocError;
use std::mem;

/// The guard and the words of a point, to which the draft comes back after a part under a condition.
#[derive(Drop)]
pub(crate) struct Point {
    pub guard: Option<usize>,
    pub words: Vec<Option<usize>>,
}

/// Returns the value of the word of a number.
fn word_of(words: &[Option<usize>], number: usize) -> Option<usize>
    ensures { result ≡ slice_index_or words.now number None }
{
    if number < words.len() {
        words[number]
    } else {
        None
    }
}

/// Returns the greater of two lengths.
fn longer(a: usize, b: usize) -> usize
    ensures first { a ≤ result }
    ensures second { b ≤ result }
{
    a.max(b)
}

/// The point before two branches, and the value of the negation of their condition.
#[derive(Drop)]
pub(crate) struct Arms {
    pub negation: usize,
    pub point: Point,
}

/// The point before two branches, and the words behind the first of them.
#[derive(Drop)]
pub(crate) struct Switched {
    pub point: Point,
    pub chosen: Vec<Option<usize>>,
}

impl<'p> Draft<'p> {
    /// Enters a part under a condition, and returns the point before it.
    pub(crate) fn enter_arm(&mut self, condition: usize) -> Result<Point, AllocError>
        requires formed { IsFormed (draft_of self.now) }
        requires condition { condition < length (draft_of self.now).values }
        ensures enters { IfOk result (λ p. EntersArm (draft_of self.old) (draft_of self.new) condition) }
        ensures guard { IfOk result (λ p. p.guard ≡ (draft_of self.old).guard) }
        ensures words { IfOk result (λ p. p.words.items ≡ (draft_of self.old).words) }
    {
        let words = self.copy_of_words()?;
        let guard = self.guard;
        self.guard = self.values.both(guard, condition)?;
        Ok(Point { guard, words })
    }

    /// Returns a copy of the words.
    pub(crate) fn copy_of_words(&mut self) -> Result<Vec<Option<usize>>, AllocError>
        ensures same { draft_of self.new ≡ draft_of self.old }
        ensures copy { IfOk result (λ words. words.items ≡ (draft_of self.old).words) }
    {
        let mut words = Vec::new(self.alloc);
        for word in &self.words {
            words.push(*word)?;
        }
        Ok(words)
    }

    /// Goes back to a point, and returns the words of the part that ends here.
    pub(crate) fn leave_arm(&mut self, point: Point) -> Vec<Option<usize>>
        ensures point { draft_of self.new ≡ with_point (draft_of self.old) point.guard point.words.items }
        ensures words { result.items ≡ (draft_of self.old).words }
    {
        self.guard = point.guard;
        mem::replace(&mut self.words, point.words)
    }

    /// Returns the value of each word behind a condition: that of `chosen` where it isn't 0, and else that of `other`.
    fn merged_words(
        &mut self,
        condition: usize,
        chosen: &[Option<usize>],
        other: &[Option<usize>],
    ) -> Result<Vec<Option<usize>>, AllocError>
        requires condition { condition < length (draft_of self.now).values }
        requires chosen { (n : ℕ) → IsBelow (length (draft_of self.now).values) (slice_index_or chosen.now n None) }
        requires other { (n : ℕ) → IsBelow (length (draft_of self.now).values) (slice_index_or other.now n None) }
        ensures same { draft_of self.new ≡ with_values (draft_of self.old) (draft_of self.new) }
        ensures values { Extends (draft_of self.old).values (draft_of self.new).values }
        ensures each { IfOk result (λ words. (n : ℕ) → Merges (draft_of self.new) condition n (slice_index_or chosen.now n None) (slice_index_or other.now n None) (slice_index_or words.items n None)) }
    {
        let count = longer(chosen.len(), other.len());
        let mut words = Vec::new(self.alloc);
        for number in 0..count {
            let a = word_of(chosen, number);
            let b = word_of(other, number);
            let v = self.merged(condition, number, a, b)?;
            words.push(v)?;
        }
        Ok(words)
    }

    /// Gives each word its value behind a condition: that of `chosen` where it isn't 0, and else that of `other`.
    pub(crate) fn merge(
        &mut self,
        condition: usize,
        chosen: &[Option<usize>],
        other: &[Option<usize>],
    ) -> Result<(), AllocError>
        requires condition { condition < length (draft_of self.now).values }
        requires chosen { (n : ℕ) → IsBelow (length (draft_of self.now).values) (slice_index_or chosen.now n None) }
        requires other { (n : ℕ) → IsBelow (length (draft_of self.now).values) (slice_index_or other.now n None) }
        ensures { OnOk result (IsMerged (draft_of self.old) (draft_of self.new) condition chosen.now other.now) }
    {
        self.words = self.merged_words(condition, chosen, other)?;
        Ok(())
    }

    /// Leaves a point for the branch that is done where the value `c` isn't 0.
    pub(crate) fn begin_arms(&mut self, c: usize) -> Result<Arms, AllocError>
        requires formed { IsFormed (draft_of self.now) }
        requires condition { c < length (draft_of self.now).values }
        ensures { IfOk result (λ a. Begins (draft_of self.old) (draft_of self.new) c a.negation a.point.guard a.point.words.items) }
    {
        let negation = self.values.negation(c)?;
        let point = self.enter_arm(c)?;
        Ok(Arms { negation, point })
    }

    /// Goes back to the point and leaves it for the branch that is done where `negation` isn't 0. Returns the point, and
    /// the words of the branch that ends here.
    pub(crate) fn switch_arms(&mut self, arms: Arms) -> Result<Switched, AllocError>
        requires formed { IsFormed (with_point (draft_of self.now) arms.point.guard arms.point.words.items) }
        requires negation { arms.negation < length (draft_of self.now).values }
        ensures switches { IfOk result (λ s. Switches (draft_of self.old) (draft_of self.new) arms.negation arms.point.guard arms.point.words.items s.point.guard s.point.words.items) }
        ensures chosen { IfOk result (λ s. s.chosen.items ≡ (draft_of self.old).words) }
    {
        let chosen = self.leave_arm(arms.point);
        let point = self.enter_arm(arms.negation)?;
        Ok(Switched { point, chosen })
    }

    /// Goes back to the point and gives each word its value behind two branches, where `c` is the condition.
    pub(crate) fn end_arms(&mut self, arms: Switched, c: usize) -> Result<(), AllocError>
        requires condition { c < length (draft_of self.now).values }
        requires chosen { (n : ℕ) → IsBelow (length (draft_of self.now).values) (slice_index_or arms.chosen.items n None) }
        requires other { (n : ℕ) → IsBelow (length (draft_of self.now).values) (assigned_in (draft_of self.now) n) }
        ensures { OnOk result (Ends (draft_of self.old) (draft_of self.new) c arms.point.guard arms.point.words.items arms.chosen.items (draft_of self.old).words) }
    {
        let other = self.leave_arm(arms.point);
        self.merge(c, &arms.chosen, &other)
    }

    /// Goes back to the point and gives each word its value behind one branch, where `c` is the condition.
    pub(crate) fn end_arm(&mut self, arms: Arms, c: usize) -> Result<(), AllocError>
        requires condition { c < length (draft_of self.now).values }
        requires chosen { (n : ℕ) → IsBelow (length (draft_of self.now).values) (assigned_in (draft_of self.now) n) }
        requires other { (n : ℕ) → IsBelow (length (draft_of self.now).values) (slice_index_or arms.point.words.items n None) }
        ensures { OnOk result (Ends (draft_of self.old) (draft_of self.new) c arms.point.guard arms.point.words.items (draft_of self.old).words arms.point.words.items) }
    {
        let chosen = self.leave_arm(arms.point);
        let other = self.copy_of_words()?;
        self.merge(c, &chosen, &other)
    }
}
