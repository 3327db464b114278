//! Typed statements.
ghost use Rattle.std.specs.Prelude.{◌≡◌, ◌≢◌, Ok, Err, IfOk, IfErr, map};
ghost use Rattle.cg_c_syntax.specs.Tree.{Words, Output, Assign};
ghost use Rattle.cg_c_syntax.specs.Written as written;
ghost use Rattle.cg_c_check.specs.Program.{If, IfElse};
ghost use Rattle.cg_c_check.specs.Statements as spec;
ghost use Rattle.cg_c_check.specs.Walk.{declares_word};
ghost use Rattle.cg_c_check.specs.Written as made;
ghost use Rattle.cg_c_check.specs.States.{state_of};

use crate::checker::Checker;
use crate::expressions::is_wide_by;
use crate::fault::CheckFault;
use crate::names::{Meaning, writable_named};
use crate::program::{Element, Expr, Initial, Stmt, Target};
use cg_c_syntax::{
    Binary, Element as ElementTree, Expr as ExprTree, Named, Signedness, Stmt as StmtTree,
    Word as WordTree,
};
use std::alloc::{AllocError, Global};

/// Returns the word that is assigned at `place`, by the meaning of its name.
fn word_named(place: usize, meaning: Meaning) -> Result<Target, CheckFault>
    ensures ok { IfOk result (λ x. spec.word_named place meaning ≡ Ok (made.target_of x)) }
    ensures err { IfErr result (λ fault. spec.word_named place meaning ≡ Err fault) }
{
    match meaning {
        Meaning::Word(number, signedness) => Ok(Target::Word { number, signedness }),
        Meaning::Constant(_) => Err(CheckFault::WrongUse(place)),
        Meaning::Array(_) => Err(CheckFault::WrongUse(place)),
        Meaning::Counter(_) => Err(CheckFault::WrongUse(place)),
        Meaning::Function => Err(CheckFault::WrongUse(place)),
    }
}

/// Returns whether an assignment with `op` shifts by the number `value` above 31.
fn is_wide_change(op: Option<Binary>, value: &Expr) -> bool
    ensures { result ≡ spec.is_wide_change op (made.expr_of value.now) }
{
    match op {
        Some(op) => is_wide_by(op, value),
        None => false,
    }
}

/// Returns the `if` of `chosen` without `else`.
fn if_alone(alloc: Global, condition: Expr, chosen: Stmt) -> Result<Stmt, AllocError>
    ensures { IfOk result (λ x. made.stmt_of x ≡ If (made.expr_of condition) (made.stmt_of chosen)) }
{
    Ok(Stmt::If {
        condition,
        chosen: Box::new(alloc, chosen)?,
        other: None,
    })
}

/// Returns the `if` of `chosen`, with `other` under `else`.
fn if_else(alloc: Global, condition: Expr, chosen: Stmt, other: Stmt) -> Result<Stmt, AllocError>
    ensures { IfOk result (λ x. made.stmt_of x ≡ IfElse (made.expr_of condition) (made.stmt_of chosen) (made.stmt_of other)) }
{
    let chosen = Box::new(alloc, chosen)?;
    let other = Box::new(alloc, other)?;
    Ok(Stmt::If {
        condition,
        chosen,
        other: Some(other),
    })
}

impl<'s> Checker<'s> {
    /// Returns the target of an assignment.
    fn target(&mut self, each: bool, tree: &'s ElementTree) -> Result<Target, CheckFault>
        ensures ok { IfOk result (λ x. spec.target each (written.target_of tree.now) (state_of self.old) ≡ Ok (made.target_of x, state_of self.new)) }
        ensures err { IfErr result (λ fault. fault ≢ CheckFault.Memory → spec.target each (written.target_of tree.now) (state_of self.old) ≡ Err fault) }
    {
        let place = tree.name.place;
        let meaning = self.names.known(&tree.name)?;
        if tree.indices.is_empty() {
            return word_named(place, meaning);
        }
        let shape = writable_named(place, tree.indices.len(), meaning)?;
        let indices = self.exprs(each, &tree.indices)?;
        Ok(Target::Element(Element {
            array: shape.number,
            place,
            signedness: shape.signedness,
            indices,
        }))
    }

    /// Gives the next number of a word to `name`, and returns it.
    fn word(&mut self, name: &'s Named, signedness: Signedness) -> Result<usize, CheckFault>
        ensures ok { IfOk result (λ x. declares_word name.now signedness (state_of self.old) ≡ Ok (x, state_of self.new)) }
        ensures err { IfErr result (λ fault. fault ≢ CheckFault.Memory → declares_word name.now signedness (state_of self.old) ≡ Err fault) }
    {
        let number = self.words.len();
        self.words.push(signedness)?;
        self.names.declare(name, Meaning::Word(number, signedness))?;
        Ok(number)
    }

    /// Returns the typed declarations of `trees`.
    fn declarations(
        &mut self,
        each: bool,
        signedness: Signedness,
        trees: &'s [WordTree],
    ) -> Result<Vec<Initial>, CheckFault>
        ensures ok { IfOk result (λ x. spec.declarations each signedness (map written.word_of trees.now) (state_of self.old) ≡ Ok (map made.initial_of x.items, state_of self.new)) }
        ensures err { IfErr result (λ fault. fault ≢ CheckFault.Memory → spec.declarations each signedness (map written.word_of trees.now) (state_of self.old) ≡ Err fault) }
    {
        let mut initials = Vec::new(self.alloc);
        for tree in trees {
            let value = self.expr(each, &tree.value)?;
            let number = self.word(&tree.name, signedness)?;
            initials.push(Initial { number, value })?;
        }
        Ok(initials)
    }

    /// Returns the typed statement of `tree`; `each` says whether each turn passes its place.
    #[cycle(statement)]
    pub fn stmt(&mut self, each: bool, tree: &'s StmtTree) -> Result<Stmt, CheckFault>
        ensures ok { IfOk result (λ x. spec.stmt each (written.stmt_of tree.now) (state_of self.old) ≡ Ok (made.stmt_of x, state_of self.new)) }
        ensures err { IfErr result (λ fault. fault ≢ CheckFault.Memory → spec.stmt each (written.stmt_of tree.now) (state_of self.old) ≡ Err fault) }
    {
        match tree {
            StmtTree::Words { signedness, words } => self.words_declared(each, *signedness, words),
            StmtTree::Block { stmts } => {
                let visible = self.names.count();
                let stmts = self.stmts(each, stmts)?;
                self.names.forget(visible);
                Ok(Stmt::Block { stmts })
            }
            StmtTree::If {
                condition,
                chosen,
                other,
            } => {
                let condition = self.expr(each, condition)?;
                let chosen = self.stmt(false, chosen)?;
                match other {
                    Some(other) => {
                        let other = self.stmt(false, other)?;
                        Ok(if_else(self.alloc, condition, chosen, other)?)
                    }
                    None => Ok(if_alone(self.alloc, condition, chosen)?),
                }
            }
            StmtTree::Output { port, value } => self.output(each, port, value),
            StmtTree::Assign { target, op, value } => self.assign(each, target, *op, value),
        }
    }

    /// Returns the typed declaration of `words`.
    fn words_declared(
        &mut self,
        each: bool,
        signedness: Signedness,
        words: &'s [WordTree],
    ) -> Result<Stmt, CheckFault>
        ensures ok { IfOk result (λ x. spec.stmt each (Words signedness (map written.word_of words.now)) (state_of self.old) ≡ Ok (made.stmt_of x, state_of self.new)) }
        ensures err { IfErr result (λ fault. fault ≢ CheckFault.Memory → spec.stmt each (Words signedness (map written.word_of words.now)) (state_of self.old) ≡ Err fault) }
    {
        let initials = self.declarations(each, signedness, words)?;
        Ok(Stmt::Words(initials))
    }

    /// Returns the typed `out` of `value` at `port`.
    fn output(
        &mut self,
        each: bool,
        port: &'s ExprTree,
        value: &'s ExprTree,
    ) -> Result<Stmt, CheckFault>
        ensures ok { IfOk result (λ x. spec.stmt each (Output (written.expr_of port.now) (written.expr_of value.now)) (state_of self.old) ≡ Ok (made.stmt_of x, state_of self.new)) }
        ensures err { IfErr result (λ fault. fault ≢ CheckFault.Memory → spec.stmt each (Output (written.expr_of port.now) (written.expr_of value.now)) (state_of self.old) ≡ Err fault) }
    {
        let port = self.outputs.take(&self.names, port)?;
        let value = self.expr(each, value)?;
        Ok(Stmt::Output { port, value })
    }

    /// Returns the typed assignment of `value` to `target`, with the operator `op` or without one.
    fn assign(
        &mut self,
        each: bool,
        target: &'s ElementTree,
        op: Option<Binary>,
        value: &'s ExprTree,
    ) -> Result<Stmt, CheckFault>
        ensures ok { IfOk result (λ x. spec.stmt each (Assign (written.target_of target.now) op (written.expr_of value.now)) (state_of self.old) ≡ Ok (made.stmt_of x, state_of self.new)) }
        ensures err { IfErr result (λ fault. fault ≢ CheckFault.Memory → spec.stmt each (Assign (written.target_of target.now) op (written.expr_of value.now)) (state_of self.old) ≡ Err fault) }
    {
        let place = target.name.place;
        let target = self.target(each, target)?;
        let value = self.expr(each, value)?;
        if is_wide_change(op, &value) {
            return Err(CheckFault::BadShift(place));
        }
        Ok(Stmt::Assign { target, op, value })
    }

    /// Returns the typed statements of `trees`.
    #[cycle(statement)]
    pub fn stmts(&mut self, each: bool, trees: &'s [StmtTree]) -> Result<Vec<Stmt>, CheckFault>
        ensures ok { IfOk result (λ x. spec.stmts each (written.stmts_of trees.now) (state_of self.old) ≡ Ok (made.stmts_of x.items, state_of self.new)) }
        ensures err { IfErr result (λ fault. fault ≢ CheckFault.Memory → spec.stmts each (written.stmts_of trees.now) (state_of self.old) ≡ Err fault) }
    {
        let mut stmts = Vec::new(self.alloc);
        for tree in trees {
            let stmt = self.stmt(each, tree)?;
            stmts.push(stmt)?;
        }
        Ok(stmts)
    }
}
