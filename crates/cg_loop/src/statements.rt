//! The code of statements.
ghost use Rattle.std.specs.Prelude.{◌≡◌, ◌+◌, ◌≤◌, ◌++◌, ◌∷◌, [], IfOk, ℕ, true, length, map};
ghost use Rattle.std.specs.Option.{option_map};
ghost use Rattle.cg_loop_syntax.specs.Grouped.{expr_of, grouped, guard_of, stmt_of};
ghost use Rattle.cg_loop_syntax.specs.Loop.{extent};
ghost use Rattle.cg_loop_laws.specs.Translate.{accesses, body_cost, loop_kernel_of, own_cost, stmt_cost};
ghost use Rattle.cg_loop.specs.Costs.{guard_cost};
ghost use Rattle.cg_loop.specs.Known.{operand_of};
ghost use Rattle.cg_loop.specs.Made.{Executes, Guards, Owns, allowed_cost, allowed_nodes, allowed_value, store_code, store_cost};

use crate::code::Code;
use crate::exprs::{address_code, expr_code};
use crate::names::{Value, bind, first_known};
use crate::scope::Scope;
use cg_loop_syntax::{Decl, Expr, Name, Op, Stmt};
use std::alloc::{AllocError, Global};

/// A store to a word of an array.
#[derive(Drop)]
struct Store<'b> {
    array: &'b Name,
    index: Value,
    value: Value,
    guard: Option<Value>,
}

/// Adds the code of `stmt` to `code`.
pub(crate) fn stmt_code<'b>(
    scope: &Scope,
    stmt: &'b Stmt,
    code: &mut Code<'b>,
) -> Result<(), AllocError>
    requires { length code.old.nodes + stmt_cost (stmt_of stmt.now) ≤ 1024 }
    ensures { IfOk result (λ u. Executes scope.now code.old code.new (stmt_of stmt.now)) }
{
    match stmt {
        Stmt::Bind { value, .. } | Stmt::Assign { value, .. } => own_code(scope, value, code),
        Stmt::Put {
            name,
            index,
            value,
            guard,
        } => {
            let store = Store {
                array: name,
                index: expr_code(scope, index, code)?,
                value: expr_code(scope, value, code)?,
                guard: guard_code(scope, guard, code)?,
            };
            store_code(scope, &store, code)
        }
        Stmt::Emit { port, value, guard } => {
            let value = expr_code(scope, value, code)?;
            match guard_code(scope, guard, code)? {
                None => code.add_ported(Op::Output, *port, &[value])?,
                Some(guard) => code.add_ported(Op::OutputIf, *port, &[guard, value])?,
            };
            Ok(())
        }
    }
}

/// Adds the code of the value of `expr` to `code`, with a node of its own for the value.
fn own_code<'b>(scope: &Scope, expr: &'b Expr, code: &mut Code<'b>) -> Result<(), AllocError>
    requires { length code.old.nodes + own_cost (expr_of expr.now) ≤ 1024 }
    ensures { IfOk result (λ u. Owns scope.now code.old code.new (expr_of expr.now)) }
{
    let start = code.len();
    let value = expr_code(scope, expr, code)?;
    if code.len() == start {
        code.add(Op::Const, &[value])?;
    }
    Ok(())
}

/// Adds the code of `guard` to `code`, and returns its value; `None` if it is absent.
fn guard_code<'b>(
    scope: &Scope,
    guard: &'b Option<Expr>,
    code: &mut Code<'b>,
) -> Result<Option<Value>, AllocError>
    requires { length code.old.nodes + guard_cost (guard_of guard.now) ≤ 1024 }
    ensures { IfOk result (λ value. Guards scope.now code.old code.new (guard_of guard.now) value) }
{
    match guard {
        None => Ok(None),
        Some(guard) => Ok(Some(expr_code(scope, guard, code)?)),
    }
}

/// Adds the nodes of `store` to `code`.
fn store_code<'b>(scope: &Scope, store: &Store<'b>, code: &mut Code<'b>) -> Result<(), AllocError>
    requires { length code.old.nodes + store_cost store.now.guard ≤ 1024 }
    ensures nodes { IfOk result (λ u. code.new.nodes ≡ code.old.nodes ++ store_code (extent scope.now.decls.now store.now.array.now) (length code.old.nodes) (operand_of store.now.index) (operand_of store.now.value) (option_map operand_of store.now.guard)) }
    ensures accesses { IfOk result (λ u. (at : ℕ) → at + 1 ≡ length code.old.nodes + store_cost store.now.guard → code.new.accesses ≡ code.old.accesses ++ record { node = at; array = store.now.array.now; writes = true } ∷ []) }
{
    let address = address_code(scope.extent_of(store.array), store.index, code)?;
    let allowed = allowed_code(address.inside, store.guard, code)?;
    code.add(Op::StoreIf, &[allowed, address.word, store.value])?;
    code.add_access(store.array, true)
}

/// Adds to `code` the conjunction of `inside` and `guard`, if there is a guard; returns the value that says whether a
/// store takes effect.
fn allowed_code(inside: Value, guard: Option<Value>, code: &mut Code) -> Result<Value, AllocError>
    requires { length code.old.nodes + allowed_cost guard ≤ 1024 }
    ensures nodes { IfOk result (λ value. code.new.nodes ≡ code.old.nodes ++ allowed_nodes (length code.old.nodes) (operand_of inside) (option_map operand_of guard)) }
    ensures accesses { IfOk result (λ value. code.new.accesses ≡ code.old.accesses) }
    ensures size { IfOk result (λ value. length code.new.nodes ≡ length code.old.nodes + allowed_cost guard) }
    ensures value { IfOk result (λ value. operand_of value ≡ allowed_value (length code.old.nodes) (operand_of inside) (option_map operand_of guard)) }
{
    match guard {
        None => Ok(inside),
        Some(guard) => {
            let holds = code.add(Op::Ne, &[guard, Value::Const(0)])?;
            code.add(Op::And, &[inside, holds])
        }
    }
}

/// Returns the code of `stmts`, the statements of a loop with the declarations `decls`.
pub(crate) fn body_code<'b>(
    alloc: Global,
    decls: &'b [Decl],
    stmts: &'b [Stmt],
) -> Result<Code<'b>, AllocError>
    requires { body_cost (map stmt_of stmts.now) ≤ 1024 }
    ensures nodes { IfOk result (λ code. code.nodes ≡ (loop_kernel_of (grouped decls.now stmts.now)).nodes) }
    ensures accesses { IfOk result (λ code. code.accesses ≡ accesses 0 (map stmt_of stmts.now)) }
{
    let mut known = first_known(alloc, decls, stmts)?;
    let mut code = Code::new(alloc);
    for stmt in stmts {
        let scope = Scope {
            decls,
            known: &known,
        };
        stmt_code(&scope, stmt, &mut code)?;
        bind(&mut known, stmt, code.len())?;
    }
    Ok(code)
}
