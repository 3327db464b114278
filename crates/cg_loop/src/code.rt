//! Nodes and accesses to arrays, which are made one by one.
ghost use Rattle.std.specs.Prelude.{◌≡◌, IfOk, map};
ghost use Rattle.cg_loop.specs.Known.{operand_of};

use crate::names::Value;
use cg_loop_syntax::Name;
use cg_model::{Node, Operand, Operands, Words};
use cg_word::Op;
use std::alloc::{AllocError, Global};
use std::marker::Model;

/// An access to an array.
#[derive(Drop)]
pub(crate) struct Access<'b> {
    pub node: u32,
    pub array: &'b Name,
    pub writes: bool,
}

/// The nodes made so far, and the accesses among them.
#[derive(Drop)]
pub(crate) struct Code<'b> {
    alloc: Global,
    nodes: Vec<Node>,
    accesses: Vec<Access<'b>>,
}

impl<'b> Model for Code<'b> {
    ghost use Rattle.std.specs.Prelude.{map};
    ghost use Rattle.cg_loop.specs.Made as making;

    ghost Value = { making.Made };

    ghost view = { λ c. record { nodes = c.nodes.items; accesses = map making.access_of c.accesses.items } };
}

impl<'b> Code<'b> {
    ghost use Rattle.std.specs.Prelude.{◌≡◌, ◌+◌, ◌<◌, ◌≤◌, ◌++◌, ◌∷◌, [], IfOk, length, map, ℕ};
    ghost use Rattle.cg_loop_laws.specs.Translate.{here, plain, ported};
    ghost use Rattle.cg_loop.specs.Known.{operand_of};
    ghost use Rattle.cg_loop.specs.Made.{access_of};

    /// Returns code without nodes.
    pub fn new(alloc: Global) -> Code<'b>
        ensures { result ≡ record { nodes = []; accesses = [] } }
    {
        Code {
            alloc,
            nodes: Vec::new(alloc),
            accesses: Vec::new(alloc),
        }
    }

    /// Returns the number of nodes.
    pub fn len(&self) -> usize
        ensures { result ≡ length self.now.nodes }
    {
        self.nodes.len()
    }

    /// Borrows the accesses, in order.
    pub fn accesses(&self) -> &[Access<'b>]
        ensures { map access_of result.now ≡ self.now.accesses }
    {
        &self.accesses
    }

    /// Returns the nodes, in order.
    pub fn into_nodes(self) -> Vec<Node>
        ensures { result.items ≡ self.entry.nodes }
    {
        self.nodes
    }

    /// Adds a node of the operation `op` on the stream of `port`, and returns its value.
    pub fn add_ported(&mut self, op: Op, port: u32, operands: &[Value]) -> Result<Value, AllocError>
        requires { length self.old.nodes < 1024 }
        ensures value { IfOk result (λ value. operand_of value ≡ here (length self.old.nodes)) }
        ensures nodes { IfOk result (λ value. self.new.nodes ≡ self.old.nodes ++ ported (length self.old.nodes) op port (map operand_of operands.now) ∷ []) }
        ensures accesses { IfOk result (λ value. self.new.accesses ≡ self.old.accesses) }
    {
        let number = self.nodes.len() as u32;
        let node = Node {
            name: Name::new(format!(in self.alloc; "n{number}")?),
            op,
            port,
            operands: operands_of(self.alloc, operands)?,
        };
        self.nodes.push(node)?;
        Ok(Value::Node(number))
    }

    /// Adds a node of the operation `op`, and returns its value.
    pub fn add(&mut self, op: Op, operands: &[Value]) -> Result<Value, AllocError>
        requires { length self.old.nodes < 1024 }
        ensures value { IfOk result (λ value. operand_of value ≡ here (length self.old.nodes)) }
        ensures nodes { IfOk result (λ value. self.new.nodes ≡ self.old.nodes ++ plain (length self.old.nodes) op (map operand_of operands.now) ∷ []) }
        ensures accesses { IfOk result (λ value. self.new.accesses ≡ self.old.accesses) }
    {
        self.add_ported(op, 0, operands)
    }

    /// Records that the last node accesses `array`.
    pub fn add_access(&mut self, array: &'b Name, writes: bool) -> Result<(), AllocError>
        requires some { 1 ≤ length self.old.nodes }
        requires small { length self.old.nodes ≤ 1024 }
        ensures nodes { IfOk result (λ u. self.new.nodes ≡ self.old.nodes) }
        ensures accesses { IfOk result (λ u. (at : ℕ) → length self.old.nodes ≡ at + 1 → self.new.accesses ≡ self.old.accesses ++ record { node = at; array = array.now; writes = writes } ∷ []) }
    {
        self.accesses.push(Access {
            node: (self.nodes.len() - 1) as u32,
            array,
            writes,
        })?;
        Ok(())
    }
}

/// Returns `values` as operands.
fn operands_of(alloc: Global, values: &[Value]) -> Result<Operands, AllocError>
    ensures { IfOk result (λ operands. operands ≡ map operand_of values.now) }
{
    let mut operands = Vec::new(alloc);
    for value in values {
        operands.push(operand_of(alloc, *value)?)?;
    }
    Ok(Operands::new(operands))
}

/// Returns `value` as an operand.
fn operand_of(alloc: Global, value: Value) -> Result<Operand, AllocError>
    ensures { IfOk result (λ operand. operand ≡ operand_of value) }
{
    match value {
        Value::Const(word) => Ok(Operand::Const(word)),
        Value::Node(from) => Ok(Operand::Edge {
            from,
            distance: 0,
            init: Words::new(Vec::new(alloc)),
        }),
        Value::Carried { node, start } => Ok(Operand::Edge {
            from: node,
            distance: 1,
            init: Words::new(vec![in alloc; start]?),
        }),
    }
}
