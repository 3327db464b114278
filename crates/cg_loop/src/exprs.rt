//! The code of expressions.
ghost use Rattle.std.specs.Prelude.{◌≡◌, ◌+◌, ◌≤◌, ◌++◌, ◌∷◌, [], IfOk, false, length, map};
ghost use Rattle.cg_word.specs.declared.op.Op.TheVariants.{Ltu, Add};
ghost use Rattle.cg_model.specs.declared.kernel.Operand.TheVariants.{Const as Constant};
ghost use Rattle.cg_loop_syntax.specs.Grouped.{expr_of, sum_of, whole_prod, atom_of, applied};
ghost use Rattle.cg_loop_syntax.specs.Loop.{extent};
ghost use Rattle.cg_loop_laws.specs.Translate.{cost, here, item_code, plain};
ghost use Rattle.cg_loop.specs.Known.{operand_of};
ghost use Rattle.cg_loop.specs.Made.{Computes};

use crate::code::Code;
use crate::names::Value;
use crate::scope::{Extent, Scope};
use cg_loop_syntax::{Atom, Expr, Name, Op, Prod, Sum};
use std::alloc::AllocError;

/// Adds the code of `expr` to `code`, and returns its value.
#[cycle(exprs)]
pub(crate) fn expr_code<'b>(
    scope: &Scope,
    expr: &'b Expr,
    code: &mut Code<'b>,
) -> Result<Value, AllocError>
    requires { length code.old.nodes + cost (expr_of expr.now) ≤ 1024 }
    ensures { IfOk result (λ value. Computes scope.now code.old code.new (expr_of expr.now) value) }
{
    let first = sum_code(scope, &expr.first, code)?;
    match &expr.compare {
        None => Ok(first),
        Some(compare) => {
            let second = sum_code(scope, &compare.second, code)?;
            code.add(compare.op, &[first, second])
        }
    }
}

/// Adds the code of `sum` to `code`, and returns its value.
#[cycle(exprs)]
fn sum_code<'b>(scope: &Scope, sum: &'b Sum, code: &mut Code<'b>) -> Result<Value, AllocError>
    requires { length code.old.nodes + cost (sum_of sum.now) ≤ 1024 }
    ensures { IfOk result (λ value. Computes scope.now code.old code.new (sum_of sum.now) value) }
{
    let mut value = prod_code(scope, &sum.first, code)?;
    for term in &sum.rest {
        let other = prod_code(scope, &term.prod, code)?;
        value = code.add(term.op, &[value, other])?;
    }
    Ok(value)
}

/// Adds the code of `prod` to `code`, and returns its value. The value of a product without atoms is 0.
#[cycle(exprs)]
fn prod_code<'b>(scope: &Scope, prod: &'b Prod, code: &mut Code<'b>) -> Result<Value, AllocError>
    requires { length code.old.nodes + cost (whole_prod prod.now) ≤ 1024 }
    ensures { IfOk result (λ value. Computes scope.now code.old code.new (whole_prod prod.now) value) }
{
    match prod.atoms.as_slice() {
        [] => code.add(Op::Const, &[Value::Const(0)]),
        [first, rest @ ..] => {
            let mut value = atom_code(scope, first, code)?;
            for atom in rest {
                let other = atom_code(scope, atom, code)?;
                value = code.add(Op::Mul, &[value, other])?;
            }
            Ok(value)
        }
    }
}

/// Adds the code of `atom` to `code`, and returns its value.
#[cycle(exprs)]
fn atom_code<'b>(scope: &Scope, atom: &'b Atom, code: &mut Code<'b>) -> Result<Value, AllocError>
    requires { length code.old.nodes + cost (atom_of atom.now) ≤ 1024 }
    ensures { IfOk result (λ value. Computes scope.now code.old code.new (atom_of atom.now) value) }
{
    match atom {
        Atom::Num(word) => code.add(Op::Const, &[Value::Const(*word)]),
        Atom::Turn => code.add(Op::Iter, &[]),
        Atom::Input(port) => code.add_ported(Op::Input, *port, &[]),
        Atom::Scalar(name) => Ok(scope.value_of(name)),
        Atom::Item(array, index) => {
            let index = expr_code(scope, index, code)?;
            load_code(scope, array, index, code)
        }
        Atom::Bracket(inner) => expr_code(scope, inner, code),
        Atom::Apply(op, operands) => applied_code(scope, *op, operands, code),
    }
}

/// Adds the code of the operation `op` on `operands` to `code`, and returns its value. If the operands aren't two or
/// three, the value is 0.
#[cycle(exprs)]
fn applied_code<'b>(
    scope: &Scope,
    op: Op,
    operands: &'b [Expr],
    code: &mut Code<'b>,
) -> Result<Value, AllocError>
    requires { length code.old.nodes + cost (applied op (map expr_of operands.now)) ≤ 1024 }
    ensures { IfOk result (λ value. Computes scope.now code.old code.new (applied op (map expr_of operands.now)) value) }
{
    match operands {
        [a, b] => {
            let first = expr_code(scope, a, code)?;
            let second = expr_code(scope, b, code)?;
            code.add(op, &[first, second])
        }
        [a, b, c] => {
            let first = expr_code(scope, a, code)?;
            let second = expr_code(scope, b, code)?;
            let third = expr_code(scope, c, code)?;
            code.add(op, &[first, second, third])
        }
        _ => code.add(Op::Const, &[Value::Const(0)]),
    }
}

/// Adds the load of the word of `array` at `index` to `code`, and returns its value.
fn load_code<'b>(
    scope: &Scope,
    array: &'b Name,
    index: Value,
    code: &mut Code<'b>,
) -> Result<Value, AllocError>
    requires { length code.old.nodes + 3 ≤ 1024 }
    ensures nodes { IfOk result (λ value. code.new.nodes ≡ code.old.nodes ++ item_code (extent scope.now.decls.now array.now) (length code.old.nodes) (operand_of index)) }
    ensures accesses { IfOk result (λ value. code.new.accesses ≡ code.old.accesses ++ record { node = length code.old.nodes + 2; array = array.now; writes = false } ∷ []) }
    ensures value { IfOk result (λ value. operand_of value ≡ here (length code.old.nodes + 2)) }
{
    let address = address_code(scope.extent_of(array), index, code)?;
    let value = code.add(Op::LoadIf, &[address.inside, address.word])?;
    code.add_access(array, false)?;
    Ok(value)
}

/// The address of a word of an array.
#[derive(Clone, Copy)]
pub(crate) struct Address {
    /// Whether the index is inside the array.
    pub inside: Value,
    pub word: Value,
}

/// Adds the address of the word at `index` of an array at `extent` to `code`.
pub(crate) fn address_code(
    extent: Extent,
    index: Value,
    code: &mut Code,
) -> Result<Address, AllocError>
    requires { length code.old.nodes + 2 ≤ 1024 }
    ensures nodes { IfOk result (λ address. code.new.nodes ≡ code.old.nodes ++ plain (length code.old.nodes) Ltu (operand_of index ∷ Constant extent.len ∷ []) ∷ plain (length code.old.nodes + 1) Add (operand_of index ∷ Constant extent.at ∷ []) ∷ []) }
    ensures accesses { IfOk result (λ address. code.new.accesses ≡ code.old.accesses) }
    ensures inside { IfOk result (λ address. operand_of address.inside ≡ here (length code.old.nodes)) }
    ensures word { IfOk result (λ address. operand_of address.word ≡ here (length code.old.nodes + 1)) }
{
    Ok(Address {
        inside: code.add(Op::Ltu, &[index, Value::Const(extent.len)])?,
        word: code.add(Op::Add, &[index, Value::Const(extent.at)])?,
    })
}
