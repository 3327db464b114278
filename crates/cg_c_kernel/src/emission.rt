//! Nodes that are made one by one, each after those of its operands.

ghost use Rattle.std.specs.Prelude.{◌≡◌, ◌<◌, ◌++◌, ◌∷◌, [], true, length, IfOk, IfSome, Some, slice_get};
ghost use Rattle.cg_word.specs.declared.op.Op.TheVariants as ops;
ghost use Rattle.cg_c_kernel.specs.Made.{One, sketch};

use crate::marked::Live;
use crate::sketch::{Ref, Refs, Sketch};
use cg_c_values::{Value, Values};
use cg_word::{Op, apply};
use std::alloc::{AllocError, Global};

/// The nodes so far, the node of each value that has one, and the words that nodes need as they were when the turn began,
/// in the order in which they were met.
#[derive(Drop)]
pub struct Emission {
    pub nodes: Vec<Sketch>,
    pub at: Vec<Option<u32>>,
    pub met: Vec<usize>,
}

/// Two values, by their numbers.
#[derive(Clone, Copy, Debug, PartialEq, Eq)]
pub struct Pair {
    pub first: usize,
    pub second: usize,
}

/// Three values, by their numbers.
#[derive(Clone, Copy, Debug, PartialEq, Eq)]
pub struct Triple {
    pub first: usize,
    pub second: usize,
    pub third: usize,
}

/// Returns whether a node is that of a constant with this operand, a word or a word that is carried.
fn is_constant_of(node: Sketch, operand: Ref) -> bool
    ensures { result ≡ true → node ≡ sketch ops.Const 0 (One operand) }
{
    if node.op != Op::Const || node.port != 0 {
        return false;
    }
    match (node.operands, operand) {
        (Refs::One(Ref::Word(own)), Ref::Word(word)) => own == word,
        (Refs::One(Ref::Carried(own)), Ref::Carried(number)) => own == number,
        _ => false,
    }
}

/// Returns the number of a node of a constant with this operand, if there is one.
fn found(nodes: &[Sketch], operand: Ref) -> Option<usize>
    ensures { IfSome result (λ m. slice_get nodes.now m ≡ Some (sketch ops.Const 0 (One operand))) }
{
    for m in 0..nodes.len() {
        if is_constant_of(nodes[m], operand) {
            return Some(m);
        }
    }
    None
}

impl Emission {
    ghost use Rattle.std.specs.Prelude.{◌≡◌, ◌⊎◌, ℕ, ◌+◌, ◌<◌, ◌++◌, ◌∷◌, [], true, false, length, IfOk, IfSome, Some, None, Contains, replicate};
    ghost use Rattle.cg_c_values.specs.Listed.{listed};
    ghost use Rattle.cg_c_values.specs.Values.{value_at};
    ghost use Rattle.cg_word.specs.declared.op.Op.TheVariants as ops;
    ghost use Rattle.cg_c_values.specs.declared.value.Value.TheVariants.{Quotient};
    ghost use Rattle.cg_c_kernel.specs.Made.{Adds, AddsQuiet, Carried, Gains, GrowsByConstant, Is, IsGrownBy, IsLeaf, IsLiveWord, IsPushed, IsReady, IsReadyAs, IsRef, MayBeMade, OnOne, OnThree, OnTwo, One, Rotation, Stands, made_of, node_in, sketch, with_place};

    /// Returns an emission without nodes for `count` values.
    pub fn new(alloc: Global, count: usize) -> Result<Emission, AllocError>
        ensures { IfOk result (λ e. made_of e ≡ record { nodes = []; at = replicate count None; met = [] }) }
    {
        Ok(Emission {
            nodes: Vec::new(alloc),
            at: vec![in alloc; None; count]?,
            met: Vec::new(alloc),
        })
    }

    /// Returns whether the value `v` has a node.
    pub fn has_node(&self, v: usize) -> bool
        requires { v < length (made_of self.now).at }
        ensures some { result ≡ true → (m : ℕ) × (node_in (made_of self.now) v ≡ Some m) }
        ensures none { result ≡ false → node_in (made_of self.now) v ≡ None }
    {
        match self.at[v] {
            Some(_) => true,
            None => false,
        }
    }

    /// Returns the node of the value `v`, which has one.
    pub fn node_of(&self, v: usize) -> u32
        requires within { v < length (made_of self.now).at }
        requires there { (m : ℕ) × (node_in (made_of self.now) v ≡ Some m) }
        ensures { node_in (made_of self.now) v ≡ Some result }
    {
        match self.at[v] {
            Some(m) => m,
            None => unreachable!(),
        }
    }

    /// Returns the number of nodes.
    fn count(&self) -> Result<u32, AllocError>
        ensures { IfOk result (λ m. m ≡ length (made_of self.now).nodes) }
    {
        u32::try_from(self.nodes.len()).map_err(|_| AllocError)
    }

    /// Adds a node and returns its number.
    pub fn push(&mut self, op: Op, port: u32, operands: Refs) -> Result<u32, AllocError>
        ensures { IfOk result (λ m. IsPushed (made_of self.old) (made_of self.new) m (sketch op port operands)) }
    {
        let number = self.count()?;
        self.nodes.push(Sketch { op, port, operands })?;
        Ok(number)
    }

    /// Returns the number of the node of a constant with this operand, which is added if there is none.
    pub fn constant(&mut self, operand: Ref) -> Result<u32, AllocError>
        ensures { IfOk result (λ m. IsGrownBy (made_of self.old) (made_of self.new) (sketch ops.Const 0 (One operand)) × Is (made_of self.new) m ops.Const 0 (One operand)) }
    {
        match found(&self.nodes, operand) {
            Some(number) => u32::try_from(number).map_err(|_| AllocError),
            None => self.push(Op::Const, 0, Refs::One(operand)),
        }
    }

    /// Notes that the word of a number is met.
    pub fn meet(&mut self, number: usize) -> Result<(), AllocError>
        ensures same { (made_of self.new).nodes ≡ (made_of self.old).nodes × (made_of self.new).at ≡ (made_of self.old).at }
        ensures met { IfOk result (λ u. (n : ℕ) → Contains (made_of self.new).met n → Contains (made_of self.old).met n ⊎ (n ≡ number)) }
    {
        if !self.met.contains(&number) {
            self.met.push(number)?;
        }
        Ok(())
    }

    /// Returns the number of the node that copies a live word as it was when the turn began, which is added if there is
    /// none; the word is met.
    pub fn copy(&mut self, live: &Live, number: usize) -> Result<u32, AllocError>
        requires stands { Stands (listed live.now.values.now) live.now.marks.items (made_of self.now) }
        requires live { IsLiveWord (listed live.now.values.now) live.now.marks.items number }
        ensures adds { IfOk result (λ m. AddsQuiet (listed live.now.values.now) live.now.marks.items (made_of self.old) (made_of self.new)) }
        ensures is { IfOk result (λ m. Is (made_of self.new) m ops.Const 0 (One (Carried number))) }
    {
        let m = self.constant(Ref::Carried(number))?;
        self.meet(number)?;
        Ok(m)
    }

    /// Returns the word that was met as number `i`, if so many were.
    pub fn met_at(&self, i: usize) -> Option<usize>
        ensures { IfSome result (λ number. Contains (made_of self.now).met number) }
    {
        if i < self.met.len() {
            Some(self.met[i])
        } else {
            None
        }
    }

    /// Returns the operand that has the word of value `a`, which is a constant, carried or has a node. A constant gets a
    /// node if `more` constants follow it in the same node.
    fn operand(&mut self, values: &Values, a: usize, more: bool) -> Result<Ref, AllocError>
        requires within { a < length (listed values.now) }
        requires long { length (made_of self.now).at ≡ length (listed values.now) }
        requires ready { IsReadyAs (made_of self.now) a (value_at (listed values.now) a) }
        ensures grows { IfOk result (λ r. GrowsByConstant (made_of self.old) (made_of self.new)) }
        ensures is { IfOk result (λ r. IsRef (listed values.now) (made_of self.new) a r) }
    {
        match values.value(a) {
            Value::Const(word) if more => Ok(Ref::Now(self.constant(Ref::Word(word))?)),
            Value::Const(word) => Ok(Ref::Word(word)),
            Value::Carried(number) => Ok(Ref::Carried(number)),
            _ => match self.at[a] {
                Some(node) => Ok(Ref::Now(node)),
                None => unreachable!(),
            },
        }
    }

    /// Adds a node with the word of value `a` as its operand, and returns its number.
    pub fn one(&mut self, live: &Live, op: Op, port: u32, a: usize) -> Result<u32, AllocError>
        requires stands { Stands (listed live.now.values.now) live.now.marks.items (made_of self.now) }
        requires ready { IsReady (listed live.now.values.now) live.now.marks.items (made_of self.now) a }
        ensures adds { IfOk result (λ m. Adds (listed live.now.values.now) live.now.marks.items (made_of self.old) (made_of self.new) m) }
        ensures is { IfOk result (λ m. OnOne (listed live.now.values.now) (made_of self.new) m op port a) }
    {
        let first = self.operand(live.values, a, false)?;
        self.push(op, port, Refs::One(first))
    }

    /// Adds a node with the words of the values `parts` as its operands, and returns its number.
    pub fn two(&mut self, live: &Live, op: Op, port: u32, parts: Pair) -> Result<u32, AllocError>
        requires stands { Stands (listed live.now.values.now) live.now.marks.items (made_of self.now) }
        requires first { IsReady (listed live.now.values.now) live.now.marks.items (made_of self.now) parts.first }
        requires second { IsReady (listed live.now.values.now) live.now.marks.items (made_of self.now) parts.second }
        ensures adds { IfOk result (λ m. Adds (listed live.now.values.now) live.now.marks.items (made_of self.old) (made_of self.new) m) }
        ensures is { IfOk result (λ m. OnTwo (listed live.now.values.now) (made_of self.new) m op port parts.first parts.second) }
    {
        let more = live.values.number(parts.second).is_some();
        let first = self.operand(live.values, parts.first, more)?;
        let second = self.operand(live.values, parts.second, false)?;
        self.push(op, port, Refs::Two(first, second))
    }

    /// Adds a node with the words of the values `parts` as its operands, and returns its number.
    pub fn three(&mut self, live: &Live, op: Op, parts: Triple) -> Result<u32, AllocError>
        requires stands { Stands (listed live.now.values.now) live.now.marks.items (made_of self.now) }
        requires first { IsReady (listed live.now.values.now) live.now.marks.items (made_of self.now) parts.first }
        requires second { IsReady (listed live.now.values.now) live.now.marks.items (made_of self.now) parts.second }
        requires third { IsReady (listed live.now.values.now) live.now.marks.items (made_of self.now) parts.third }
        ensures adds { IfOk result (λ m. Adds (listed live.now.values.now) live.now.marks.items (made_of self.old) (made_of self.new) m) }
        ensures is { IfOk result (λ m. OnThree (listed live.now.values.now) (made_of self.new) m op parts.first parts.second parts.third) }
    {
        let last = live.values.number(parts.third).is_some();
        let more = last || live.values.number(parts.second).is_some();
        let first = self.operand(live.values, parts.first, more)?;
        let second = self.operand(live.values, parts.second, last)?;
        let third = self.operand(live.values, parts.third, false)?;
        self.push(op, 0, Refs::Three(first, second, third))
    }

    /// Adds the node of the lowest digit of the turn's number of radix 3, and returns its number.
    fn rotation(&mut self) -> Result<u32, AllocError>
        ensures { IfOk result (λ m. IsPushed (made_of self.old) (made_of self.new) m (sketch ops.Const 0 (One (Rotation m)))) }
    {
        let number = self.count()?;
        self.push(Op::Const, 0, Refs::One(Ref::Rotation(number)))
    }

    /// Adds the nodes of the quotient of the turn's number by `divisor`, a recurrence over two turns, and returns the
    /// number of the last.
    fn recurrence(&mut self, live: &Live, divisor: u32) -> Result<u32, AllocError>
        requires { Stands (listed live.now.values.now) live.now.marks.items (made_of self.now) }
        ensures { IfOk result (λ m. Gains (listed live.now.values.now) live.now.marks.items (made_of self.old) (made_of self.new) m (Quotient divisor)) }
    {
        let first = self.count()?;
        let remainder = Ref::Remainder(first);
        let less = apply(Op::Sub, 2, divisor, 0);
        let wraps = self.push(Op::Lts, 0, Refs::Two(Ref::Word(u32::MAX - 2), remainder))?;
        let again = self.push(Op::Add, 0, Refs::Two(remainder, Ref::Word(less)))?;
        let further = self.push(Op::Add, 0, Refs::Two(remainder, Ref::Word(2)))?;
        let chosen = Refs::Three(Ref::Now(wraps), Ref::Now(again), Ref::Now(further));
        self.push(Op::Select, 0, chosen)?;
        let counted = Refs::Two(Ref::Quotient(first), Ref::Now(wraps));
        self.push(Op::Add, 0, counted)
    }

    /// Adds the node of a value that is computed from no others, and returns its number.
    fn leaf(&mut self, live: &Live, value: Value) -> Result<u32, AllocError>
        requires leaf { IsLeaf value }
        requires stands { Stands (listed live.now.values.now) live.now.marks.items (made_of self.now) }
        ensures { IfOk result (λ m. Gains (listed live.now.values.now) live.now.marks.items (made_of self.old) (made_of self.new) m value) }
    {
        match value {
            Value::Input(port) => self.push(Op::Input, port, Refs::Zero),
            Value::Digit { .. } => self.rotation(),
            Value::Quotient(divisor) => self.recurrence(live, divisor),
            Value::Turn => self.push(Op::Iter, 0, Refs::Zero),
            _ => unreachable!(),
        }
    }

    /// Gives the value `v` the node `m`.
    pub fn place(&mut self, v: usize, m: u32)
        requires { v < length (made_of self.now).at }
        ensures { made_of self.new ≡ with_place (made_of self.old) v m }
    {
        self.at[v] = Some(m);
    }

    /// Adds the node of the live value `v` after those of its operands, unless it has one, or is a constant or carried.
    pub fn emit(&mut self, live: &Live, v: usize) -> Result<(), AllocError>
        requires stands { Stands (listed live.now.values.now) live.now.marks.items (made_of self.now) }
        requires may { MayBeMade (listed live.now.values.now) live.now.marks.items (made_of self.now) v }
        ensures adds { IfOk result (λ u. AddsQuiet (listed live.now.values.now) live.now.marks.items (made_of self.old) (made_of self.new)) }
        ensures ready { IfOk result (λ u. IsReady (listed live.now.values.now) live.now.marks.items (made_of self.new) v) }
        ensures frame { IfOk result (λ u. (w : ℕ) → v < w → node_in (made_of self.new) w ≡ node_in (made_of self.old) w) }
    {
        if self.has_node(v) {
            return Ok(());
        }
        match live.values.value(v) {
            Value::Const(_) => Ok(()),
            Value::Carried(number) => self.meet(number),
            Value::Loaded { .. } => unreachable!(),
            Value::Two { op, first, second } => {
                self.emit(live, first)?;
                self.emit(live, second)?;
                let m = self.two(live, op, 0, Pair { first, second })?;
                self.place(v, m);
                Ok(())
            }
            Value::Select {
                condition,
                chosen,
                other,
            } => {
                self.emit(live, condition)?;
                self.emit(live, chosen)?;
                self.emit(live, other)?;
                let parts = Triple {
                    first: condition,
                    second: chosen,
                    third: other,
                };
                let m = self.three(live, Op::Select, parts)?;
                self.place(v, m);
                Ok(())
            }
            value => {
                let m = self.leaf(live, value)?;
                self.place(v, m);
                Ok(())
            }
        }
    }
}
