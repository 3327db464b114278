//! The words of the program.
ghost use Rattle.std.specs.Prelude.{◌≡◌, ℕ, ◌<◌, ◌==◌, if◌then◌else◌, List, length, Option, Some, None, IfOk, OnOk, slice_index_or};
ghost use Rattle.cg_c_values.specs.Values.{Extends, IsBelow, Moment, Words};
ghost use Rattle.cg_c_turn.specs.Draft.{assigned_in, draft_of};
ghost use Rattle.cg_c_turn.specs.Stands.{Runs, begun, word_or};
ghost use Rattle.cg_c_turn.specs.Words.{Merges, with_values, with_words};

use crate::draft::Draft;
use cg_c_values::Value;
use std::alloc::AllocError;

impl<'p> Draft<'p> {
    /// Assigns the value `v` to the word of a number.
    #[tactic(auto, using(crate::proofs::WordLists::pushed_none))]
    pub(crate) fn set_word(&mut self, number: usize, v: usize) -> Result<(), AllocError>
        ensures same { draft_of self.new ≡ with_words (draft_of self.old) (draft_of self.new).words }
        ensures words { OnOk result ((n : ℕ) → assigned_in (draft_of self.new) n ≡ (if n == number then Some v else assigned_in (draft_of self.old) n)) }
    {
        while self.words.len() <= number {
            self.words.push(None)?;
        }
        self.words[number] = Some(v);
        Ok(())
    }

    /// Returns the value of the word of a number that was assigned as `assigned` says.
    #[tactic(auto, using(crate::proofs::Carrying::unassigned))]
    pub(crate) fn word_or_carried(
        &mut self,
        number: usize,
        assigned: Option<usize>,
    ) -> Result<usize, AllocError>
        requires below { IsBelow (length (draft_of self.now).values) assigned }
        ensures same { draft_of self.new ≡ with_values (draft_of self.old) (draft_of self.new) }
        ensures kept { Extends (draft_of self.old).values (draft_of self.new).values }
        ensures within { IfOk result (λ v. v < length (draft_of self.new).values) }
        ensures word { IfOk result (λ v. (x : Moment) (E : Words) → Runs (draft_of self.new) x E →
            E v ≡ word_or E (begun x (draft_of self.new) number) assigned) }
    {
        match assigned {
            Some(v) => Ok(v),
            None => {
                let v = self.values.add(Value::Carried(number))?;
                Ok(v)
            }
        }
    }

    /// Returns the value of a word that is `chosen` where `condition` isn't 0, and else `other`.
    #[tactic(auto, using(crate::proofs::Carrying::merges))]
    pub(crate) fn merged(
        &mut self,
        condition: usize,
        number: usize,
        chosen: Option<usize>,
        other: Option<usize>,
    ) -> Result<Option<usize>, AllocError>
        requires condition { condition < length (draft_of self.now).values }
        requires chosen { IsBelow (length (draft_of self.now).values) chosen }
        requires other { IsBelow (length (draft_of self.now).values) other }
        ensures same { draft_of self.new ≡ with_values (draft_of self.old) (draft_of self.new) }
        ensures kept { Extends (draft_of self.old).values (draft_of self.new).values }
        ensures merges { IfOk result (λ o. Merges (draft_of self.new) condition number chosen other o) }
    {
        if chosen == other {
            return Ok(chosen);
        }
        let chosen = self.word_or_carried(number, chosen)?;
        let other = self.word_or_carried(number, other)?;
        let v = self.values.select(condition, chosen, other)?;
        Ok(Some(v))
    }
}
