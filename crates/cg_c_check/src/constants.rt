//! Constant expressions.
ghost use Rattle.std.specs.Prelude.{◌≡◌, Ok};
ghost use Rattle.cg_c_syntax.specs.Written.{expr_of, exprs_of};
ghost use Rattle.cg_c_syntax.specs.Tree.{Access};
ghost use Rattle.cg_c_check.specs.Constants as spec;
ghost use Rattle.cg_c_check.specs.Chains.{constant_joined, constant_chained};

use crate::fault::CheckFault;
use crate::names::{Meaning, Names, array_named};
use crate::program::Constant;
use crate::rules::{
    fits, folded_cast, folded_choice, folded_sign, folded_two, is_wide, number_signedness,
};
use cg_c_syntax::{Element, Expr, Link, Number};

/// Returns the place of the expression `expr`: that of its operator, or else of its first token.
pub(crate) fn place_of(expr: &Expr) -> usize
    ensures { result ≡ spec.place_of (expr_of expr.now) }
{
    match expr {
        Expr::Number(number) => number.place,
        Expr::Element(element) => element.name.place,
        Expr::Sign { place, .. }
        | Expr::Cast { place, .. }
        | Expr::Input { place, .. }
        | Expr::Pick { place, .. }
        | Expr::Choice { place, .. } => *place,
        Expr::Chain { first, rest } => match rest.last() {
            Some(link) => link.place,
            None => place_of(first),
        },
    }
}

/// Returns the value of `number`.
pub(crate) fn number_value(number: &Number) -> Result<Constant, CheckFault>
    ensures { result ≡ spec.number number.now }
{
    if fits(number) {
        Ok(Constant {
            word: number.value as u32,
            signedness: number_signedness(number),
        })
    } else {
        Err(CheckFault::BadNumber(number.place))
    }
}

/// Returns the constant that is named at `place`, by the meaning of the name.
fn constant_named(place: usize, meaning: Meaning) -> Result<Constant, CheckFault>
    ensures { result ≡ spec.constant_named place meaning }
{
    match meaning {
        Meaning::Constant(constant) => Ok(constant),
        Meaning::Word(_, _) | Meaning::Counter(_) => Err(CheckFault::NotConstant(place)),
        Meaning::Array(_) | Meaning::Function => Err(CheckFault::WrongUse(place)),
    }
}

/// Returns the constant that is named at `place` with `indices` indices, by the meaning of the name.
fn constant_accessed(place: usize, indices: usize, meaning: Meaning) -> Result<Constant, CheckFault>
    ensures { result ≡ spec.constant_accessed place indices meaning }
{
    if indices == 0 {
        return constant_named(place, meaning);
    }
    array_named(place, indices, meaning)?;
    Err(CheckFault::NotConstant(place))
}

/// Returns the value of `expr`, which has to be constant where `names` are visible.
#[cycle(constant)]
pub(crate) fn constant_of<'s>(names: &Names<'s>, expr: &'s Expr) -> Result<Constant, CheckFault>
    ensures { result ≡ spec.constant_of names.now (expr_of expr.now) }
{
    match expr {
        Expr::Number(number) => number_value(number),
        Expr::Element(element) => element_constant(names, element),
        Expr::Sign { sign, operand, .. } => {
            let x = constant_of(names, operand)?;
            Ok(folded_sign(*sign, x))
        }
        Expr::Cast { to, operand, .. } => {
            let x = constant_of(names, operand)?;
            Ok(folded_cast(*to, x))
        }
        Expr::Input { place, .. } => Err(CheckFault::NotConstant(*place)),
        Expr::Pick { place, .. } => Err(CheckFault::NotConstant(*place)),
        Expr::Chain { first, rest } => {
            let x = constant_of(names, first)?;
            chain_constant(names, x, rest)
        }
        Expr::Choice {
            condition,
            chosen,
            other,
            ..
        } => {
            let condition = constant_of(names, condition)?;
            let x = constant_of(names, chosen)?;
            let y = constant_of(names, other)?;
            Ok(folded_choice(condition, x, y))
        }
    }
}

/// Returns the constant that `element` is.
fn element_constant<'s>(names: &Names<'s>, element: &'s Element) -> Result<Constant, CheckFault>
    ensures { result ≡ spec.constant_of names.now (Access element.now.name (exprs_of element.now.indices.items)) }
{
    let meaning = names.known(&element.name)?;
    constant_accessed(element.name.place, element.indices.len(), meaning)
}

/// Returns the value of the operators and operands `rest` after `first`.
#[cycle(constant)]
fn chain_constant<'s>(
    names: &Names<'s>,
    first: Constant,
    rest: &'s [Link],
) -> Result<Constant, CheckFault>
    ensures { result ≡ constant_chained names.now (Ok first) rest.now }
{
    let mut x = first;
    for link in rest {
        x = joined_constant(names, x, link)?;
    }
    Ok(x)
}

/// Returns the value of the operator and the operand of `link` after `x`.
#[cycle(constant)]
fn joined_constant<'s>(
    names: &Names<'s>,
    x: Constant,
    link: &'s Link,
) -> Result<Constant, CheckFault>
    ensures { result ≡ constant_joined names.now x link.now }
{
    let y = constant_of(names, &link.operand)?;
    if is_wide(link.op, y) {
        return Err(CheckFault::BadShift(link.place));
    }
    Ok(folded_two(link.op, x, y))
}
