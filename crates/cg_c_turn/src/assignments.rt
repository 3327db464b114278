//! Assignments to words and to elements of arrays.
ghost use Rattle.std.specs.Prelude.{◌≡◌, true, ◌<◌, List, [], ◌++◌, None, length, OnOk, IfOk};
ghost use Rattle.cg_c_check.specs.Written.{expr_of, exprs_of, target_of};
ghost use Rattle.cg_c_check.specs.Program as program;
ghost use Rattle.cg_c_meaning.specs.Meaning as meaning;
ghost use Rattle.cg_c_meaning.specs.Typed.{AreApart, IsArray, IsTypedExpr, IsTypedExprs, IsTypedStmt, inputs, inputs_of, stmt_inputs, table_in};
ghost use Rattle.cg_c_values.specs.Values.{Extends, Moment, Words};
ghost use Rattle.cg_c_turn.specs.Draft.{Effect as Effects, draft_of};
ghost use Rattle.cg_c_turn.specs.Stands.{IsFormed, Runs, word_in};
ghost use Rattle.cg_c_turn.specs.Stores.{Changes, Stores};
ghost use Rattle.cg_c_turn.specs.Translated.{IsTranslated};
ghost use Rattle.cg_c_turn.specs.Words.{with_values};

use crate::draft::{Draft, Wanted};
use crate::effect::{Effect, Latest, Stored};
use crate::expressions::joined;
use cg_c_check::{Element, Expr, Target, reading_of, signedness_of};
use cg_c_syntax::{Binary, Signedness};
use std::alloc::AllocError;

/// What an assignment makes of a word: its operator, and how the word and the value are read.
#[derive(Clone, Copy)]
struct Change {
    op: Option<Binary>,
    target: Signedness,
    value: Signedness,
}

impl<'p> Draft<'p> {
    /// Translates the assignment of `value` to `target`, by the operator `op` if there is one.
    pub fn assign(
        &mut self,
        target: &Target,
        op: Option<Binary>,
        value: &Expr,
    ) -> Result<(), AllocError>
        requires formed { IsFormed (draft_of self.now) }
        requires typed { IsTypedStmt (draft_of self.now).arrays true (program.Assign (target_of target.now) op (expr_of value.now)) }
        requires apart { AreApart (stmt_inputs (program.Assign (target_of target.now) op (expr_of value.now))) }
        ensures { OnOk result (IsTranslated (draft_of self.old) (draft_of self.new) (λ c. meaning.stmt c (program.Assign (target_of target.now) op (expr_of value.now))) (stmt_inputs (program.Assign (target_of target.now) op (expr_of value.now))) []) }
    {
        match target {
            Target::Word { number, signedness } => {
                let change = Change {
                    op,
                    target: *signedness,
                    value: signedness_of(value),
                };
                self.assign_word(*number, change, value)
            }
            Target::Element(element) => {
                let change = Change {
                    op,
                    target: element.signedness,
                    value: signedness_of(value),
                };
                self.assign_element(element, change, value)
            }
        }
    }

    /// Translates the assignment of `value` to the word of a number, of which it makes what `change` says.
    fn assign_word(&mut self, number: usize, change: Change, value: &Expr) -> Result<(), AllocError>
        requires formed { IsFormed (draft_of self.now) }
        requires typed { IsTypedExpr (draft_of self.now).arrays true (expr_of value.now) }
        requires apart { AreApart (inputs (expr_of value.now)) }
        requires read { change.value ≡ program.signedness_of (expr_of value.now) }
        ensures { OnOk result (IsTranslated (draft_of self.old) (draft_of self.new) (λ c. meaning.stmt c (program.Assign (program.TheWord number change.target) change.op (expr_of value.now))) (inputs (expr_of value.now)) []) }
    {
        let new = self.expr(value, Wanted::TheWord)?;
        let word = self.changed_word(number, change, new)?;
        self.set_word(number, word)
    }

    /// Returns the value of what `change` makes of the word of a number, where `new` is the value that is assigned.
    fn changed_word(
        &mut self,
        number: usize,
        change: Change,
        new: usize,
    ) -> Result<usize, AllocError>
        requires formed { IsFormed (draft_of self.now) }
        requires within { new < length (draft_of self.now).values }
        ensures same { draft_of self.new ≡ with_values (draft_of self.old) (draft_of self.new) }
        ensures kept { OnOk result (Extends (draft_of self.old).values (draft_of self.new).values) }
        ensures within { IfOk result (λ v. v < length (draft_of self.new).values) }
        ensures word { IfOk result (λ v. (x : Moment) (E : Words) → Runs (draft_of self.new) x E →
            E v ≡ meaning.changed change.op change.target change.value (word_in x E (draft_of self.new) number) (E new)) }
    {
        let Some(op) = change.op else {
            return Ok(new);
        };
        let assigned = self.assigned(number);
        let old = self.word_or_carried(number, assigned)?;
        let reading = reading_of(op, change.target, change.value);
        joined(&mut self.values, op, reading, old, new, Wanted::TheWord)
    }

    /// Translates the assignment of `value` to an element of an array, of which it makes what `change` says.
    fn assign_element(
        &mut self,
        element: &Element,
        change: Change,
        value: &Expr,
    ) -> Result<(), AllocError>
        requires formed { IsFormed (draft_of self.now) }
        requires there { IsArray (draft_of self.now).arrays element.now.array }
        requires no_table { table_in (draft_of self.now).arrays element.now.array ≡ None }
        requires indices { IsTypedExprs (draft_of self.now).arrays true (exprs_of element.now.indices.items) }
        requires typed { IsTypedExpr (draft_of self.now).arrays true (expr_of value.now) }
        requires apart { AreApart (inputs_of (exprs_of element.now.indices.items) ++ inputs (expr_of value.now)) }
        requires read { change.value ≡ program.signedness_of (expr_of value.now) }
        ensures { OnOk result (IsTranslated (draft_of self.old) (draft_of self.new) (λ c. meaning.stmt c (program.Assign (program.TheElement element.now.array element.now.place change.target (exprs_of element.now.indices.items)) change.op (expr_of value.now))) (inputs_of (exprs_of element.now.indices.items) ++ inputs (expr_of value.now)) []) }
    {
        let indices = self.exprs(&element.indices)?;
        let address = self.address(element.array, &indices)?;
        let new = self.expr(value, Wanted::TheWord)?;
        let word = self.changed_element(element, address, change, new)?;
        self.store(element.array, address, word, element.place)
    }

    /// Returns the value of what `change` makes of the word at the address of an element, where `new` is the value that is
    /// assigned.
    fn changed_element(
        &mut self,
        element: &Element,
        address: usize,
        change: Change,
        new: usize,
    ) -> Result<usize, AllocError>
        requires formed { IsFormed (draft_of self.now) }
        requires there { IsArray (draft_of self.now).arrays element.now.array }
        requires address { address < length (draft_of self.now).values }
        requires within { new < length (draft_of self.now).values }
        ensures { IfOk result (λ v. (added : List Effects) × Changes (draft_of self.old) (draft_of self.new) added element.now.array address (meaning.changed change.op change.target change.value) new v) }
    {
        let Some(op) = change.op else {
            return Ok(new);
        };
        let old = self.load(element.array, address, element.place)?;
        let reading = reading_of(op, change.target, change.value);
        joined(&mut self.values, op, reading, old, new, Wanted::TheWord)
    }

    /// Adds the store of a word at an address in an array; `place` is that of the array's name in the source.
    fn store(
        &mut self,
        array: usize,
        address: usize,
        word: usize,
        place: usize,
    ) -> Result<(), AllocError>
        requires formed { IsFormed (draft_of self.now) }
        requires there { IsArray (draft_of self.now).arrays array }
        requires no_table { table_in (draft_of self.now).arrays array ≡ None }
        requires address { address < length (draft_of self.now).values }
        requires word { word < length (draft_of self.now).values }
        ensures { OnOk result ((added : List Effects) × Stores (draft_of self.old) (draft_of self.new) added array address word) }
    {
        let guard = self.guard;
        self.effects.push(Effect::Store {
            guard,
            array,
            address,
            word,
            place,
        })?;
        let version = self.latest[array].version + 1;
        let stored = Some(Stored {
            guard,
            address,
            word,
        });
        self.latest[array] = Latest { version, stored };
        Ok(())
    }
}
