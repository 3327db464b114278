//! Typed expressions.
ghost use Rattle.std.specs.Prelude.{◌≡◌, ◌≢◌, Ok, Err, IfOk, IfErr};
ghost use Rattle.cg_c_check.specs.Program as program;
ghost use Rattle.cg_c_check.specs.Expressions as spec;
ghost use Rattle.cg_c_check.specs.Written as made;
ghost use Rattle.cg_c_syntax.specs.Tree.{Access, Input};
ghost use Rattle.cg_c_syntax.specs.Written as written;
ghost use Rattle.cg_c_check.specs.TypedChains.{joined, chained};
ghost use Rattle.cg_c_check.specs.States.{state_of};

use crate::checker::Checker;
use crate::constants::number_value;
use crate::fault::CheckFault;
use crate::names::{Meaning, array_named};
use crate::program::{Constant, Element, Expr, Link};
use crate::rules::{
    cast_signedness, common, folded_cast, folded_choice, folded_sign, folded_two, is_conditional,
    is_wide, reading_of, sign_signedness, value_signedness,
};
use cg_c_syntax::{
    Binary, Cast, Element as ElementTree, Expr as ExprTree, Link as LinkTree, Sign, Signedness,
};
use std::alloc::{AllocError, Global};

/// Returns how the value of `expr` is read.
pub fn signedness_of(expr: &Expr) -> Signedness
    ensures { result ≡ program.signedness_of (made.expr_of expr.now) }
{
    match expr {
        Expr::Literal(constant) => constant.signedness,
        Expr::Word { signedness, .. } => *signedness,
        Expr::Counter(_) => Signedness::Signed,
        Expr::Element(element) => element.signedness,
        Expr::Sign { signedness, .. } => *signedness,
        Expr::Cast { to, .. } => cast_signedness(*to),
        Expr::Input(_) => Signedness::Signed,
        Expr::Pick { .. } => Signedness::Signed,
        Expr::Chain { first, rest } => match rest.last() {
            Some(link) => value_signedness(link.op, link.reading),
            None => signedness_of(first),
        },
        Expr::Choice { signedness, .. } => *signedness,
    }
}

/// Returns the number that `expr` is, if it is one.
fn literal_of(expr: &Expr) -> Option<Constant>
    ensures { result ≡ spec.literal_of (made.expr_of expr.now) }
{
    match expr {
        Expr::Literal(constant) => Some(*constant),
        Expr::Chain { first, rest } => {
            if rest.is_empty() {
                literal_of(first)
            } else {
                None
            }
        }
        _ => None,
    }
}

/// Returns the number that `op` gives, if its operands are the numbers `left` and `right`.
fn number_of_two(op: Binary, left: Option<Constant>, right: Option<Constant>) -> Option<Constant>
    ensures { result ≡ spec.number_of_two op left right }
{
    match (left, right) {
        (Some(x), Some(y)) => Some(folded_two(op, x, y)),
        _ => None,
    }
}

/// Returns the number that is chosen, if all three are numbers.
fn number_of_choice(
    condition: Option<Constant>,
    chosen: Option<Constant>,
    other: Option<Constant>,
) -> Option<Constant>
    ensures { result ≡ spec.number_of_choice condition chosen other }
{
    match (condition, chosen, other) {
        (Some(c), Some(x), Some(y)) => Some(folded_choice(c, x, y)),
        _ => None,
    }
}

/// Returns `operand` under `sign`.
fn signed(alloc: Global, sign: Sign, operand: Expr) -> Result<Expr, AllocError>
    ensures { IfOk result (λ e. made.expr_of e ≡ spec.signed sign (made.expr_of operand)) }
{
    if let Some(x) = literal_of(&operand) {
        return Ok(Expr::Literal(folded_sign(sign, x)));
    }
    let signedness = sign_signedness(sign, signedness_of(&operand));
    Ok(Expr::Sign {
        sign,
        signedness,
        operand: Box::new(alloc, operand)?,
    })
}

/// Returns `operand` under a cast to `to`.
fn converted(alloc: Global, to: Cast, operand: Expr) -> Result<Expr, AllocError>
    ensures { IfOk result (λ e. made.expr_of e ≡ spec.converted to (made.expr_of operand)) }
{
    if let Some(x) = literal_of(&operand) {
        return Ok(Expr::Literal(folded_cast(to, x)));
    }
    Ok(Expr::Cast {
        to,
        operand: Box::new(alloc, operand)?,
    })
}

/// Returns the choice by `condition` between `chosen` and `other`.
fn choice(alloc: Global, condition: Expr, chosen: Expr, other: Expr) -> Result<Expr, AllocError>
    ensures { IfOk result (λ e. made.expr_of e ≡ spec.choice (made.expr_of condition) (made.expr_of chosen) (made.expr_of other)) }
{
    let literals = (
        literal_of(&condition),
        literal_of(&chosen),
        literal_of(&other),
    );
    if let (Some(c), Some(x), Some(y)) = literals {
        return Ok(Expr::Literal(folded_choice(c, x, y)));
    }
    Ok(Expr::Choice {
        signedness: common(signedness_of(&chosen), signedness_of(&other)),
        condition: Box::new(alloc, condition)?,
        chosen: Box::new(alloc, chosen)?,
        other: Box::new(alloc, other)?,
    })
}

/// Returns whether `op` is a shift by a number above 31, where its right side is `right`.
pub(crate) fn is_wide_by(op: Binary, right: &Expr) -> bool
    ensures { result ≡ spec.is_wide_by op (made.expr_of right.now) }
{
    match literal_of(right) {
        Some(count) => is_wide(op, count),
        None => false,
    }
}

/// Returns what is named at `place` without indices, by the meaning of the name.
fn value_named(place: usize, meaning: Meaning) -> Result<Expr, CheckFault>
    ensures ok { IfOk result (λ e. spec.value_named place meaning ≡ Ok (made.expr_of e)) }
    ensures err { IfErr result (λ fault. spec.value_named place meaning ≡ Err fault) }
{
    match meaning {
        Meaning::Constant(constant) => Ok(Expr::Literal(constant)),
        Meaning::Word(number, signedness) => Ok(Expr::Word { number, signedness }),
        Meaning::Counter(depth) => Ok(Expr::Counter(depth)),
        Meaning::Array(_) => Err(CheckFault::WrongUse(place)),
        Meaning::Function => Err(CheckFault::WrongUse(place)),
    }
}

/// Operands joined from left to right.
#[derive(Drop)]
struct Joined {
    first: Expr,
    rest: Vec<Link>,
}

impl Joined {
    ghost use Rattle.std.specs.Prelude.{◌≡◌, IfOk, OnOk};
    ghost use Rattle.cg_c_check.specs.Program as program;
    ghost use Rattle.cg_c_check.specs.Expressions as spec;
    ghost use Rattle.cg_c_check.specs.Written as made;

    /// Returns the number that they are, if they are one.
    fn literal(&self) -> Option<Constant>
        ensures { result ≡ spec.literal_of (made.linked (made.expr_of self.now.first) self.now.rest.items) }
    {
        if self.rest.is_empty() {
            literal_of(&self.first)
        } else {
            None
        }
    }

    /// Returns how their value is read.
    fn signedness(&self) -> Signedness
        ensures { result ≡ program.signedness_of (made.linked (made.expr_of self.now.first) self.now.rest.items) }
    {
        match self.rest.last() {
            Some(link) => value_signedness(link.op, link.reading),
            None => signedness_of(&self.first),
        }
    }

    /// Joins `right` to them by `op`.
    fn join(&mut self, alloc: Global, op: Binary, right: Expr) -> Result<(), AllocError>
        ensures { OnOk result (made.linked (made.expr_of self.new.first) self.new.rest.items
            ≡ spec.two op (made.linked (made.expr_of self.old.first) self.old.rest.items) (made.expr_of right)) }
    {
        if let Some(constant) = number_of_two(op, self.literal(), literal_of(&right)) {
            self.first = Expr::Literal(constant);
            self.rest = Vec::new(alloc);
            return Ok(());
        }
        let reading = reading_of(op, self.signedness(), signedness_of(&right));
        self.rest.push(Link {
            op,
            reading,
            operand: right,
        })?;
        Ok(())
    }

    /// Returns them as one expression.
    fn into_expr(self, alloc: Global) -> Result<Expr, AllocError>
        ensures { IfOk result (λ e. made.expr_of e ≡ made.linked (made.expr_of self.first) self.rest.items) }
    {
        if self.rest.is_empty() {
            return Ok(self.first);
        }
        Ok(Expr::Chain {
            first: Box::new(alloc, self.first)?,
            rest: self.rest,
        })
    }
}

impl<'s> Checker<'s> {
    /// Returns the typed expression of `tree`; `each` says whether each turn passes its place.
    #[cycle(expression)]
    pub fn expr(&mut self, each: bool, tree: &'s ExprTree) -> Result<Expr, CheckFault>
        ensures ok { IfOk result (λ e. spec.expr each (written.expr_of tree.now) (state_of self.old) ≡ Ok (made.expr_of e, state_of self.new)) }
        ensures err { IfErr result (λ fault. fault ≢ CheckFault.Memory → spec.expr each (written.expr_of tree.now) (state_of self.old) ≡ Err fault) }
    {
        match tree {
            ExprTree::Number(number) => Ok(Expr::Literal(number_value(number)?)),
            ExprTree::Element(element) => self.access(each, element),
            ExprTree::Sign { sign, operand, .. } => {
                let operand = self.expr(each, operand)?;
                Ok(signed(self.alloc, *sign, operand)?)
            }
            ExprTree::Cast { to, operand, .. } => {
                let operand = self.expr(each, operand)?;
                Ok(converted(self.alloc, *to, operand)?)
            }
            ExprTree::Input { place, port } => self.input(each, *place, port),
            ExprTree::Pick {
                pick,
                first,
                second,
                ..
            } => {
                let first = self.expr(each, first)?;
                let second = self.expr(each, second)?;
                Ok(Expr::Pick {
                    pick: *pick,
                    first: Box::new(self.alloc, first)?,
                    second: Box::new(self.alloc, second)?,
                })
            }
            ExprTree::Chain { first, rest } => {
                let first = self.expr(each, first)?;
                self.chain(each, rest, first)
            }
            ExprTree::Choice {
                condition,
                chosen,
                other,
                ..
            } => {
                let condition = self.expr(each, condition)?;
                let chosen = self.expr(false, chosen)?;
                let other = self.expr(false, other)?;
                Ok(choice(self.alloc, condition, chosen, other)?)
            }
        }
    }

    /// Returns the input at `place` from the port that `port` is.
    fn input(&mut self, each: bool, place: usize, port: &'s ExprTree) -> Result<Expr, CheckFault>
        ensures ok { IfOk result (λ e. spec.expr each (Input place (written.expr_of port.now)) (state_of self.old) ≡ Ok (made.expr_of e, state_of self.new)) }
        ensures err { IfErr result (λ fault. fault ≢ CheckFault.Memory → spec.expr each (Input place (written.expr_of port.now)) (state_of self.old) ≡ Err fault) }
    {
        let port = self.inputs.take(&self.names, port)?;
        if each {
            Ok(Expr::Input(port))
        } else {
            Err(CheckFault::BadPort(place))
        }
    }

    /// Returns the typed expression of the operators and operands `rest` after `first`.
    #[cycle(expression)]
    fn chain(&mut self, each: bool, rest: &'s [LinkTree], first: Expr) -> Result<Expr, CheckFault>
        ensures ok { IfOk result (λ e. chained each (Ok (made.expr_of first, state_of self.old)) rest.now ≡ Ok (made.expr_of e, state_of self.new)) }
        ensures err { IfErr result (λ fault. fault ≢ CheckFault.Memory → chained each (Ok (made.expr_of first, state_of self.old)) rest.now ≡ Err fault) }
    {
        let mut joined = Joined {
            first,
            rest: Vec::new(self.alloc),
        };
        for link in rest {
            let right = self.right(each, link)?;
            joined.join(self.alloc, link.op, right)?;
        }
        Ok(joined.into_expr(self.alloc)?)
    }

    /// Returns the typed right side of the operator of `link`.
    #[cycle(expression)]
    fn right(&mut self, each: bool, link: &'s LinkTree) -> Result<Expr, CheckFault>
        ensures ok { IfOk result (λ b. (a : program.Expr) → joined each a link.now (state_of self.old) ≡ Ok (spec.two link.now.op a (made.expr_of b), state_of self.new)) }
        ensures err { IfErr result (λ fault. fault ≢ CheckFault.Memory → (a : program.Expr) → joined each a link.now (state_of self.old) ≡ Err fault) }
    {
        let right = self.expr(each && !is_conditional(link.op), &link.operand)?;
        if is_wide_by(link.op, &right) {
            return Err(CheckFault::BadShift(link.place));
        }
        Ok(right)
    }

    /// Returns what `tree` names: a constant, a word, a counter or an element.
    #[cycle(expression)]
    fn access(&mut self, each: bool, tree: &'s ElementTree) -> Result<Expr, CheckFault>
        ensures ok { IfOk result (λ e. spec.expr each (Access tree.now.name (written.exprs_of tree.now.indices.items)) (state_of self.old) ≡ Ok (made.expr_of e, state_of self.new)) }
        ensures err { IfErr result (λ fault. fault ≢ CheckFault.Memory → spec.expr each (Access tree.now.name (written.exprs_of tree.now.indices.items)) (state_of self.old) ≡ Err fault) }
    {
        let place = tree.name.place;
        let meaning = self.names.known(&tree.name)?;
        if tree.indices.is_empty() {
            return value_named(place, meaning);
        }
        let shape = array_named(place, tree.indices.len(), meaning)?;
        let indices = self.exprs(each, &tree.indices)?;
        Ok(Expr::Element(Element {
            array: shape.number,
            place,
            signedness: shape.signedness,
            indices,
        }))
    }

    /// Returns the typed expressions of `trees`.
    #[cycle(expression)]
    pub fn exprs(&mut self, each: bool, trees: &'s [ExprTree]) -> Result<Vec<Expr>, CheckFault>
        ensures ok { IfOk result (λ es. spec.exprs each (written.exprs_of trees.now) (state_of self.old) ≡ Ok (made.exprs_of es.items, state_of self.new)) }
        ensures err { IfErr result (λ fault. fault ≢ CheckFault.Memory → spec.exprs each (written.exprs_of trees.now) (state_of self.old) ≡ Err fault) }
    {
        let mut exprs = Vec::new(self.alloc);
        for tree in trees {
            let expr = self.expr(each, tree)?;
            exprs.push(expr)?;
        }
        Ok(exprs)
    }
}
