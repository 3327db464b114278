//! Statements before and after loops.
ghost use Rattle.std.specs.Prelude.{◌≡◌, ℕ, ◌<◌, ◌==◌, if◌then◌else◌, true, [], ◌∷◌, length, map, IfOk, OnOk};
ghost use Rattle.cg_word.specs.Word.{one_if};
ghost use Rattle.cg_c_check.specs.Written.{expr_of, initial_of, stmt_of, stmts_of};
ghost use Rattle.cg_c_meaning.specs.Meaning as meaning;
ghost use Rattle.cg_c_meaning.specs.Typed.{AreTypedInitials, AreTypedStmts, IsTypedExpr, IsTypedStmt, initial_inputs, inputs, stmt_inputs, stmt_outputs, stmts_inputs, stmts_outputs};
ghost use Rattle.cg_c_turn.specs.Draft.{draft_of, initial_in};
ghost use Rattle.cg_c_turn.specs.Nested.{IsAtFirst, IsEdge, IsFirst, IsGuarded, IsOfTurn, IsUnused, with_initial};
ghost use Rattle.cg_c_turn.specs.Stands.{IsFormed};
ghost use Rattle.cg_c_turn.specs.Words.{with_values};
ghost use Rattle.cg_c_values.specs.Values.{Extends, Means};

use crate::draft::{Draft, Wanted};
use cg_c_check::{Expr, Initial, Stmt};
use cg_c_values::Value;
use cg_word::Op;
use std::alloc::AllocError;

impl<'p> Draft<'p> {
    /// Translates statements that are done in the turns in which `index` is `at`.
    pub(crate) fn edge(&mut self, stmts: &[Stmt], index: usize, at: u32) -> Result<(), AllocError>
        requires formed { IsFormed (draft_of self.now) }
        requires index { index < length (draft_of self.now).values }
        requires typed { AreTypedStmts (draft_of self.now).arrays true (stmts_of stmts.now) }
        requires none { stmts_inputs (stmts_of stmts.now) ≡ [] }
        ensures { OnOk result (IsEdge (draft_of self.old) (draft_of self.new) index at (λ c. meaning.stmts c (stmts_of stmts.now)) (stmts_outputs (stmts_of stmts.now))) }
    {
        if stmts.is_empty() {
            return Ok(());
        }
        let condition = self.is_at(index, at)?;
        self.guarded(stmts, condition)
    }

    /// Returns a value that is 1 where the word of `index` is `at`, else 0.
    fn is_at(&mut self, index: usize, at: u32) -> Result<usize, AllocError>
        requires index { index < length (draft_of self.now).values }
        ensures same { draft_of self.new ≡ with_values (draft_of self.old) (draft_of self.new) }
        ensures kept { Extends (draft_of self.old).values (draft_of self.new).values }
        ensures means { IfOk result (λ c. Means (draft_of self.new).values c (λ x E. one_if (E index == at))) }
    {
        let word = self.values.constant(at)?;
        let condition = self.values.two(Op::Eq, index, word)?;
        Ok(condition)
    }

    /// Translates statements that are done where the value `condition` isn't 0.
    fn guarded(&mut self, stmts: &[Stmt], condition: usize) -> Result<(), AllocError>
        requires formed { IsFormed (draft_of self.now) }
        requires condition { condition < length (draft_of self.now).values }
        requires typed { AreTypedStmts (draft_of self.now).arrays true (stmts_of stmts.now) }
        requires none { stmts_inputs (stmts_of stmts.now) ≡ [] }
        ensures { OnOk result (IsGuarded (draft_of self.old) (draft_of self.new) condition (λ c. meaning.stmts c (stmts_of stmts.now)) (stmts_outputs (stmts_of stmts.now))) }
    {
        match self.values.number(condition) {
            Some(0) => Ok(()),
            Some(_) => self.stmts(stmts),
            None => self.in_arm(stmts, condition),
        }
    }

    /// Translates statements in an arm that is done where the value `condition` isn't 0.
    fn in_arm(&mut self, stmts: &[Stmt], condition: usize) -> Result<(), AllocError>
        requires formed { IsFormed (draft_of self.now) }
        requires condition { condition < length (draft_of self.now).values }
        requires typed { AreTypedStmts (draft_of self.now).arrays true (stmts_of stmts.now) }
        requires none { stmts_inputs (stmts_of stmts.now) ≡ [] }
        ensures { OnOk result (IsGuarded (draft_of self.old) (draft_of self.new) condition (λ c. meaning.stmts c (stmts_of stmts.now)) (stmts_outputs (stmts_of stmts.now))) }
    {
        let arms = self.begin_arms(condition)?;
        self.stmts(stmts)?;
        self.end_arm(arms, condition)
    }

    /// Translates statements before the outermost loop, where `index` is the number of the turn. The word of a declaration
    /// with a constant is what the word has when the first turn begins.
    pub(crate) fn first_edge(&mut self, stmts: &[Stmt], index: usize) -> Result<(), AllocError>
        requires formed { IsFormed (draft_of self.now) }
        requires index { IsOfTurn (draft_of self.now).values index (λ t. t) }
        requires typed { AreTypedStmts (draft_of self.now).arrays true (stmts_of stmts.now) }
        requires none { stmts_inputs (stmts_of stmts.now) ≡ [] }
        ensures { OnOk result (IsEdge (draft_of self.old) (draft_of self.new) index 0 (λ c. meaning.stmts c (stmts_of stmts.now)) (stmts_outputs (stmts_of stmts.now))) }
    {
        if stmts.is_empty() {
            return Ok(());
        }
        let condition = self.is_at(index, 0)?;
        self.first_guarded(stmts, condition)
    }

    /// Translates statements that are done where the value `condition` isn't 0, which is so in the first turn only.
    fn first_guarded(&mut self, stmts: &[Stmt], condition: usize) -> Result<(), AllocError>
        requires formed { IsFormed (draft_of self.now) }
        requires condition { Means (draft_of self.now).values condition (λ x E. one_if (x.turn == 0)) }
        requires typed { AreTypedStmts (draft_of self.now).arrays true (stmts_of stmts.now) }
        requires none { stmts_inputs (stmts_of stmts.now) ≡ [] }
        ensures { OnOk result (IsGuarded (draft_of self.old) (draft_of self.new) condition (λ c. meaning.stmts c (stmts_of stmts.now)) (stmts_outputs (stmts_of stmts.now))) }
    {
        match self.values.number(condition) {
            Some(_) => self.guarded(stmts, condition),
            None => self.in_first_arm(stmts, condition),
        }
    }

    /// Translates statements in an arm that is done where the value `condition` isn't 0, which is so in the first turn only.
    fn in_first_arm(&mut self, stmts: &[Stmt], condition: usize) -> Result<(), AllocError>
        requires formed { IsFormed (draft_of self.now) }
        requires condition { Means (draft_of self.now).values condition (λ x E. one_if (x.turn == 0)) }
        requires typed { AreTypedStmts (draft_of self.now).arrays true (stmts_of stmts.now) }
        requires none { stmts_inputs (stmts_of stmts.now) ≡ [] }
        ensures { OnOk result (IsGuarded (draft_of self.old) (draft_of self.new) condition (λ c. meaning.stmts c (stmts_of stmts.now)) (stmts_outputs (stmts_of stmts.now))) }
    {
        let arms = self.begin_arms(condition)?;
        self.first_stmts(stmts)?;
        self.end_arm(arms, condition)
    }

    /// Translates statements of the first turn, one after another.
    fn first_stmts(&mut self, stmts: &[Stmt]) -> Result<(), AllocError>
        requires formed { IsFormed (draft_of self.now) }
        requires first { IsAtFirst (draft_of self.now) }
        requires typed { AreTypedStmts (draft_of self.now).arrays true (stmts_of stmts.now) }
        requires none { stmts_inputs (stmts_of stmts.now) ≡ [] }
        ensures { OnOk result (IsFirst (draft_of self.old) (draft_of self.new) (λ c. meaning.stmts c (stmts_of stmts.now)) (stmts_outputs (stmts_of stmts.now))) }
    {
        for stmt in stmts {
            self.first_stmt(stmt)?;
        }
        Ok(())
    }

    /// Translates a statement of the first turn.
    fn first_stmt(&mut self, stmt: &Stmt) -> Result<(), AllocError>
        requires formed { IsFormed (draft_of self.now) }
        requires first { IsAtFirst (draft_of self.now) }
        requires typed { IsTypedStmt (draft_of self.now).arrays true (stmt_of stmt.now) }
        requires none { stmt_inputs (stmt_of stmt.now) ≡ [] }
        ensures { OnOk result (IsFirst (draft_of self.old) (draft_of self.new) (λ c. meaning.stmt c (stmt_of stmt.now)) (stmt_outputs (stmt_of stmt.now))) }
    {
        match stmt {
            Stmt::Words(initials) => self.first_words(initials.as_slice()),
            _ => self.stmt(stmt),
        }
    }

    /// Translates declarations of words in the first turn.
    fn first_words(&mut self, initials: &[Initial]) -> Result<(), AllocError>
        requires formed { IsFormed (draft_of self.now) }
        requires first { IsAtFirst (draft_of self.now) }
        requires typed { AreTypedInitials (draft_of self.now).arrays true (map initial_of initials.now) }
        requires none { initial_inputs (map initial_of initials.now) ≡ [] }
        ensures { OnOk result (IsFirst (draft_of self.old) (draft_of self.new) (λ c. meaning.declared c (map initial_of initials.now)) []) }
    {
        for initial in initials {
            self.first_word(initial)?;
        }
        Ok(())
    }

    /// Translates the declaration of a word in the first turn. A constant is what the word has when that turn begins, unless
    /// the word was used or assigned before.
    fn first_word(&mut self, initial: &Initial) -> Result<(), AllocError>
        requires formed { IsFormed (draft_of self.now) }
        requires first { IsAtFirst (draft_of self.now) }
        requires typed { IsTypedExpr (draft_of self.now).arrays true (expr_of initial.now.value) }
        requires none { inputs (expr_of initial.now.value) ≡ [] }
        ensures { OnOk result (IsFirst (draft_of self.old) (draft_of self.new) (λ c. meaning.declared c (initial_of initial.now ∷ [])) []) }
    {
        match &initial.value {
            Expr::Literal(constant) if self.is_unused(initial.number) => {
                self.set_initial(initial.number, constant.word)
            }
            value => self.declare_word(initial.number, value),
        }
    }

    /// Translates the declaration of the word of a number as an assignment of `value`.
    fn declare_word(&mut self, number: usize, value: &Expr) -> Result<(), AllocError>
        requires formed { IsFormed (draft_of self.now) }
        requires typed { IsTypedExpr (draft_of self.now).arrays true (expr_of value.now) }
        requires none { inputs (expr_of value.now) ≡ [] }
        ensures { OnOk result (IsFirst (draft_of self.old) (draft_of self.new) (λ c. meaning.declared c (record { number = number; value = expr_of value.now } ∷ [])) []) }
    {
        let v = self.expr(value, Wanted::TheWord)?;
        self.set_word(number, v)
    }

    /// Returns whether the word of a number was neither assigned in this turn nor used as it was when the turn began.
    fn is_unused(&self, number: usize) -> bool
        ensures { result ≡ true → IsUnused (draft_of self.now) number }
    {
        match self.words.get(number) {
            Some(Some(_)) => false,
            _ => self.values.find(Value::Carried(number)).is_none(),
        }
    }

    /// Lets the word of a number be `word` when the first turn begins.
    #[tactic(auto, using(crate::proofs::FirstWords::pushed_zero))]
    fn set_initial(&mut self, number: usize, word: u32) -> Result<(), AllocError>
        ensures same { draft_of self.new ≡ with_initial (draft_of self.old) (draft_of self.new).initial }
        ensures initial { OnOk result ((n : ℕ) → initial_in (draft_of self.new) n ≡ (if n == number then word else initial_in (draft_of self.old) n)) }
    {
        while self.initial.len() <= number {
            self.initial.push(0)?;
        }
        self.initial[number] = word;
        Ok(())
    }

    /// Translates statements before a loop, where `index` is the number of the turn among those of the loop; if `outermost` is
    /// true it is the number of the turn.
    pub(crate) fn before(
        &mut self,
        stmts: &[Stmt],
        index: usize,
        outermost: bool,
    ) -> Result<(), AllocError>
        requires formed { IsFormed (draft_of self.now) }
        requires index { index < length (draft_of self.now).values }
        requires outermost { outermost ≡ true → IsOfTurn (draft_of self.now).values index (λ t. t) }
        requires typed { AreTypedStmts (draft_of self.now).arrays true (stmts_of stmts.now) }
        requires none { stmts_inputs (stmts_of stmts.now) ≡ [] }
        ensures { OnOk result (IsEdge (draft_of self.old) (draft_of self.new) index 0 (λ c. meaning.stmts c (stmts_of stmts.now)) (stmts_outputs (stmts_of stmts.now))) }
    {
        if outermost {
            self.first_edge(stmts, index)
        } else {
            self.edge(stmts, index, 0)
        }
    }
}
