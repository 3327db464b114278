//! The numbers of nodes of the parts of a loop.
ghost use Rattle.std.specs.Prelude.{◌≡◌, ◌+◌, IfOk, map};
ghost use Rattle.cg_word.specs.declared.op.Op.{Op};
ghost use Rattle.cg_loop_syntax.specs.Grouped.{expr_of, sum_of, whole_prod, atom_of, applied, guard_of, stmt_of};
ghost use Rattle.cg_loop.specs.Costs.{guard_cost};
ghost use Rattle.cg_loop_laws.specs.Translate.{cost, own_cost, stmt_cost, body_cost};

use cg_loop_syntax::{Atom, Expr, Prod, Stmt, Sum};
use std::alloc::AllocError;

/// Returns the sum of `a` and `b`, or an error if it overflows.
pub(crate) fn plus(a: usize, b: usize) -> Result<usize, AllocError>
    ensures { IfOk result (λ n. n ≡ a + b) }
{
    a.checked_add(b).ok_or(AllocError)
}

/// Returns the number of nodes of an operation whose operands have `a` and `b` nodes.
fn pair_cost(a: usize, b: usize) -> Result<usize, AllocError>
    ensures { IfOk result (λ n. n ≡ a + b + 1) }
{
    plus(plus(a, b)?, 1)
}

/// Returns the number of nodes of `expr`.
#[cycle(cost)]
pub(crate) fn expr_cost(expr: &Expr) -> Result<usize, AllocError>
    ensures { IfOk result (λ n. n ≡ cost (expr_of expr.now)) }
{
    let first = sum_cost(&expr.first)?;
    match &expr.compare {
        None => Ok(first),
        Some(compare) => pair_cost(first, sum_cost(&compare.second)?),
    }
}

/// Returns the number of nodes of `sum`.
#[cycle(cost)]
fn sum_cost(sum: &Sum) -> Result<usize, AllocError>
    ensures { IfOk result (λ n. n ≡ cost (sum_of sum.now)) }
{
    let mut cost = prod_cost(&sum.first)?;
    for term in &sum.rest {
        cost = pair_cost(cost, prod_cost(&term.prod)?)?;
    }
    Ok(cost)
}

/// Returns the number of nodes of `prod`.
#[cycle(cost)]
fn prod_cost(prod: &Prod) -> Result<usize, AllocError>
    ensures { IfOk result (λ n. n ≡ cost (whole_prod prod.now)) }
{
    match prod.atoms.as_slice() {
        [] => Ok(1),
        [first, rest @ ..] => {
            let mut cost = atom_cost(first)?;
            for atom in rest {
                cost = pair_cost(cost, atom_cost(atom)?)?;
            }
            Ok(cost)
        }
    }
}

/// Returns the number of nodes of `atom`.
#[cycle(cost)]
fn atom_cost(atom: &Atom) -> Result<usize, AllocError>
    ensures { IfOk result (λ n. n ≡ cost (atom_of atom.now)) }
{
    match atom {
        Atom::Num(_) | Atom::Turn | Atom::Input(_) => Ok(1),
        Atom::Scalar(_) => Ok(0),
        Atom::Item(_, index) => plus(expr_cost(index)?, 3),
        Atom::Bracket(inner) => expr_cost(inner),
        Atom::Apply(_, operands) => applied_cost(operands),
    }
}

/// Returns the number of nodes of an operation on `operands`.
#[cycle(cost)]
fn applied_cost(operands: &[Expr]) -> Result<usize, AllocError>
    ensures { IfOk result (λ n. (op : Op) → n ≡ cost (applied op (map expr_of operands.now))) }
{
    match operands {
        [a, b] => pair_cost(expr_cost(a)?, expr_cost(b)?),
        [a, b, c] => pair_cost(plus(expr_cost(a)?, expr_cost(b)?)?, expr_cost(c)?),
        _ => Ok(1),
    }
}

/// Returns the number of nodes of the value of `expr`, when the value gets a node of its own.
pub(crate) fn own_cost(expr: &Expr) -> Result<usize, AllocError>
    ensures { IfOk result (λ n. n ≡ own_cost (expr_of expr.now)) }
{
    Ok(expr_cost(expr)?.max(1))
}

/// Returns the number of nodes of `guard`; 0 if it is absent.
fn guard_cost(guard: &Option<Expr>) -> Result<usize, AllocError>
    ensures { IfOk result (λ n. n ≡ guard_cost (guard_of guard.now)) }
{
    match guard {
        None => Ok(0),
        Some(guard) => expr_cost(guard),
    }
}

/// Returns the number of nodes of `stmt`.
pub(crate) fn stmt_cost(stmt: &Stmt) -> Result<usize, AllocError>
    ensures { IfOk result (λ n. n ≡ stmt_cost (stmt_of stmt.now)) }
{
    match stmt {
        Stmt::Bind { value, .. } | Stmt::Assign { value, .. } => own_cost(value),
        Stmt::Put {
            index,
            value,
            guard,
            ..
        } => {
            let operands = plus(expr_cost(index)?, expr_cost(value)?)?;
            let tests = if guard.is_some() { 2 } else { 0 };
            plus(plus(operands, guard_cost(guard)?)?, 3 + tests)
        }
        Stmt::Emit { value, guard, .. } => pair_cost(expr_cost(value)?, guard_cost(guard)?),
    }
}

/// Returns the number of nodes of `stmts`.
pub(crate) fn body_cost(stmts: &[Stmt]) -> Result<usize, AllocError>
    ensures { IfOk result (λ n. n ≡ body_cost (map stmt_of stmts.now)) }
{
    let mut cost = 0;
    for stmt in stmts {
        cost = plus(cost, stmt_cost(stmt)?)?;
    }
    Ok(cost)
}
