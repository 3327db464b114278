//! Statements.
ghost use Rattle.std.specs.Prelude.{◌≡◌, ℕ, true, false, ◌<◌, List, [], ◌∷◌, Option, Some, None, length, OnOk, IfOk, IfSome, map};
ghost use Rattle.cg_c_check.specs.Written.{expr_of, initial_of, stmt_of, stmts_of, target_of};
ghost use Rattle.cg_c_check.specs.Program as program;
ghost use Rattle.cg_c_meaning.specs.Meaning as meaning;
ghost use Rattle.cg_c_meaning.specs.Typed.{AreApart, AreTypedInitials, AreTypedStmts, IsTypedExpr, IsTypedStmt, IsTypedTarget, initial_inputs, inputs, stmt_inputs, stmt_outputs, stmts_inputs, stmts_outputs};
ghost use Rattle.cg_c_turn.specs.Draft.{draft_of};
ghost use Rattle.cg_c_turn.specs.Stands.{IsFormed};
ghost use Rattle.cg_c_turn.specs.Translated.{IsTranslated};

use crate::draft::{Draft, Wanted};
use crate::effect::Effect;
use cg_c_check::{Expr, Initial, Stmt};
use std::alloc::AllocError;

impl<'p> Draft<'p> {
    /// Translates declarations of words.
    pub fn declare(&mut self, initials: &[Initial]) -> Result<(), AllocError>
        requires formed { IsFormed (draft_of self.now) }
        requires typed { AreTypedInitials (draft_of self.now).arrays true (map initial_of initials.now) }
        requires apart { AreApart (initial_inputs (map initial_of initials.now)) }
        ensures { OnOk result (IsTranslated (draft_of self.old) (draft_of self.new) (λ c. meaning.declared c (map initial_of initials.now)) (initial_inputs (map initial_of initials.now)) []) }
    {
        for initial in initials {
            let v = self.expr(&initial.value, Wanted::TheWord)?;
            self.set_word(initial.number, v)?;
        }
        Ok(())
    }

    /// Translates `out`.
    pub fn send(&mut self, port: u32, value: &Expr) -> Result<(), AllocError>
        requires formed { IsFormed (draft_of self.now) }
        requires typed { IsTypedExpr (draft_of self.now).arrays true (expr_of value.now) }
        requires apart { AreApart (inputs (expr_of value.now)) }
        ensures { OnOk result (IsTranslated (draft_of self.old) (draft_of self.new) (λ c. meaning.stmt c (program.Output port (expr_of value.now))) (inputs (expr_of value.now)) (port ∷ [])) }
    {
        let word = self.expr(value, Wanted::TheWord)?;
        self.effects.push(Effect::Send {
            guard: self.guard,
            port,
            word,
        })?;
        Ok(())
    }

    /// Translates a statement.
    #[cycle(stmts)]
    pub fn stmt(&mut self, stmt: &Stmt) -> Result<(), AllocError>
        requires formed { IsFormed (draft_of self.now) }
        requires typed { IsTypedStmt (draft_of self.now).arrays true (stmt_of stmt.now) }
        requires apart { AreApart (stmt_inputs (stmt_of stmt.now)) }
        ensures { OnOk result (IsTranslated (draft_of self.old) (draft_of self.new) (λ c. meaning.stmt c (stmt_of stmt.now)) (stmt_inputs (stmt_of stmt.now)) (stmt_outputs (stmt_of stmt.now))) }
    {
        match stmt {
            Stmt::Words(initials) => self.declare(initials),
            Stmt::Block { stmts } => self.stmts(stmts),
            Stmt::If {
                condition,
                chosen,
                other,
            } => {
                let c = self.expr(condition, Wanted::ACondition)?;
                match (self.values.number(c), other) {
                    (Some(0), None) => Ok(()),
                    (Some(0), Some(other)) => self.stmt(other),
                    (Some(_), _) => self.stmt(chosen),
                    (None, None) => {
                        let arms = self.begin_arms(c)?;
                        self.stmt(chosen)?;
                        self.end_arm(arms, c)
                    }
                    (None, Some(other)) => {
                        let arms = self.begin_arms(c)?;
                        self.stmt(chosen)?;
                        let switched = self.switch_arms(arms)?;
                        self.stmt(other)?;
                        self.end_arms(switched, c)
                    }
                }
            }
            Stmt::Output { port, value } => self.send(*port, value),
            Stmt::Assign { target, op, value } => self.assign(target, *op, value),
        }
    }

    /// Translates statements, one after another.
    #[cycle(stmts)]
    pub fn stmts(&mut self, stmts: &[Stmt]) -> Result<(), AllocError>
        requires formed { IsFormed (draft_of self.now) }
        requires typed { AreTypedStmts (draft_of self.now).arrays true (stmts_of stmts.now) }
        requires apart { AreApart (stmts_inputs (stmts_of stmts.now)) }
        ensures { OnOk result (IsTranslated (draft_of self.old) (draft_of self.new) (λ c. meaning.stmts c (stmts_of stmts.now)) (stmts_inputs (stmts_of stmts.now)) (stmts_outputs (stmts_of stmts.now))) }
    {
        for s in stmts {
            self.stmt(s)?;
        }
        Ok(())
    }
}
