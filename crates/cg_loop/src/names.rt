//! The values of the names of a loop.
ghost use Rattle.std.specs.Prelude.{◌≡◌, ◌++◌, ◌+◌, ◌≤◌, ℕ, IfOk, map};
ghost use Rattle.cg_loop_syntax.specs.Grouped.{stmt_of};
ghost use Rattle.cg_loop_laws.specs.Translate.{body_cost, stmt_cost, source_of};
ghost use Rattle.cg_loop.specs.Known.{bindings, stmt_bindings, carries, env_of, known_of, operand_of};

use crate::cost::{plus, stmt_cost};
use cg_loop_syntax::{Decl, Name, Stmt};
use std::alloc::{AllocError, Global};

/// The value of an operand.
#[derive(Clone, Copy)]
pub(crate) enum Value {
    /// A word.
    Const(u32),
    /// The value of the node of that number.
    Node(u32),
    /// The value of a node in the iteration before, and `start` in the first iteration.
    Carried { node: u32, start: u32 },
}

/// A name and its value.
#[derive(Drop)]
pub(crate) struct Named<'b> {
    pub name: &'b Name,
    pub value: Value,
}

/// Returns the value of `name` after `known`: the last one of that name, or 0 if there is none.
pub(crate) fn value_of(known: &[Named], name: &Name) -> Value
    ensures { operand_of result ≡ env_of (map known_of known.now) name.now }
{
    let mut value = Value::Const(0);
    for named in known {
        if name.as_str() == named.name.as_str() {
            value = named.value;
        }
    }
    value
}

/// Returns the values of names before the first statement of a loop of the declarations `decls` and the statements
/// `stmts`.
pub(crate) fn first_known<'b>(
    alloc: Global,
    decls: &'b [Decl],
    stmts: &'b [Stmt],
) -> Result<Vec<Named<'b>>, AllocError>
    requires { body_cost (map stmt_of stmts.now) ≤ 1024 }
    ensures { IfOk result (λ known. map known_of known.items ≡ carries (bindings 0 (map stmt_of stmts.now)) decls.now) }
{
    let bindings = bindings_of(alloc, stmts)?;
    carries_of(alloc, decls, &bindings)
}

/// Returns the bindings of `stmts`, in order.
fn bindings_of<'b>(alloc: Global, stmts: &'b [Stmt]) -> Result<Vec<Named<'b>>, AllocError>
    requires { body_cost (map stmt_of stmts.now) ≤ 1024 }
    ensures { IfOk result (λ all. map known_of all.items ≡ bindings 0 (map stmt_of stmts.now)) }
{
    let mut bindings = Vec::new(alloc);
    let mut end = 0;
    for stmt in stmts {
        end = plus(end, stmt_cost(stmt)?)?;
        bind(&mut bindings, stmt, end)?;
    }
    Ok(bindings)
}

/// Adds to `known` the binding of `stmt`, if any. The last node of `stmt` is the one before `end`.
pub(crate) fn bind<'b>(
    known: &mut Vec<Named<'b>>,
    stmt: &'b Stmt,
    end: usize,
) -> Result<(), AllocError>
    requires within { stmt_cost (stmt_of stmt.now) ≤ end }
    requires small { end ≤ 1024 }
    ensures { IfOk result (λ u. (at : ℕ) → end ≡ at + stmt_cost (stmt_of stmt.now) → map known_of known.new.items ≡ map known_of known.old.items ++ stmt_bindings at (stmt_of stmt.now)) }
{
    match stmt {
        Stmt::Bind { name, .. } | Stmt::Assign { name, .. } => {
            known.push(Named {
                name,
                value: Value::Node((end - 1) as u32),
            })?;
            Ok(())
        }
        Stmt::Put { .. } | Stmt::Emit { .. } => Ok(()),
    }
}

/// Returns the values of the carries of `decls` before the first statement, where `bindings` are those of the whole
/// loop.
fn carries_of<'b>(
    alloc: Global,
    decls: &'b [Decl],
    bindings: &[Named],
) -> Result<Vec<Named<'b>>, AllocError>
    ensures { IfOk result (λ all. map known_of all.items ≡ carries (map known_of bindings.now) decls.now) }
{
    let mut carries = Vec::new(alloc);
    for decl in decls {
        if let Decl::Carry { name, start } = decl {
            let node = source_of(value_of(bindings, name));
            carries.push(Named {
                name,
                value: Value::Carried {
                    node,
                    start: *start,
                },
            })?;
        }
    }
    carries.reverse();
    Ok(carries)
}

/// Returns the node whose value `value` is; 0 if it is a word.
fn source_of(value: Value) -> u32
    ensures { result ≡ source_of (operand_of value) }
{
    match value {
        Value::Const(_) => 0,
        Value::Node(node) | Value::Carried { node, .. } => node,
    }
}
