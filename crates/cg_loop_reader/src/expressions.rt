//! Reading expressions.
ghost use Rattle.std.specs.Prelude.{◌≡◌};

use crate::fault::Misfit;
use crate::reader::Reader;
use crate::words::{
    Beginning, added_by, beginning_of, compared_by, further_operands, name_of, op_called, same,
};
use cg_loop_syntax::{Atom, Compare, Expr, Name, Op, Prod, Role, Sum, Term};
use cg_tokens::Token;
use std::alloc::Global;

impl<'a> Reader<'a> {
    ghost use Rattle.std.specs.Prelude.{◌≡◌, ◌≤◌, ◌<◌, ◌+◌, None, Some, true, false, codes, length, bytes_eq, IfSome, IfNone, IfOk, IfErr, OnOk};
    ghost use Rattle.cg_word.specs.Word.{arity};
    ghost use Rattle.cg_loop_syntax.specs.Well.{is_loop_name};
    ghost use Rattle.cg_loop_text_spec.specs.Words as words;
    ghost use Rattle.cg_loop_text_spec.specs.Read.{begins_with, begins_adding, begins_comparing};
    ghost use Rattle.cg_loop_reader.specs.Kinds as kinds;
    ghost use Rattle.cg_loop_reader.specs.declared.words.Beginning.TheVariants as begins;
    ghost use Rattle.cg_loop_reader.specs.Left.{left, noted, IsNext, TakesSign};
    ghost use Rattle.cg_loop_reader.specs.Found.{FindsAtom, FindsIndex, FindsProduct, FindsTerms, FindsSum, FindsExpr, FindsOperands, MissesAtom, MissesIndex, MissesExpr, MissesArgs};

    /// Reads the next token, if it is `+` or `-`, and returns its operation.
    fn adding(&mut self) -> Option<Op>
        ensures taken { IfSome result (λ op. TakesSign words.added_by op self.old self.new) }
        ensures none { IfNone result ((self.new ≡ self.old) × (begins_adding (left self.old) ≡ false)) }
        ensures same { self.new.bytes ≡ self.old.bytes }
    {
        match self.next() {
            Some(next) => {
                let op = added_by(next.text)?;
                self.take(next);
                Some(op)
            }
            None => None,
        }
    }

    /// Reads the next token, if it is `==` or `<`, and returns its operation.
    fn comparing(&mut self) -> Option<Op>
        ensures taken { IfSome result (λ op. TakesSign words.compared_by op self.old self.new) }
        ensures none { IfNone result ((self.new ≡ self.old) × (begins_comparing (left self.old) ≡ false)) }
        ensures same { self.new.bytes ≡ self.old.bytes }
    {
        match self.next() {
            Some(next) => {
                let op = compared_by(next.text)?;
                self.take(next);
                Some(op)
            }
            None => None,
        }
    }

    /// Reads `token`, the next token, as the number `value`; `room` more brackets may be opened.
    fn number_atom(&mut self, token: Token<'a>, value: u32, room: u32) -> Result<Atom, Misfit>
        requires next { IsNext self.old token }
        requires is { words.is_number token.text.now ≡ true }
        requires value { words.number_of token.text.now ≡ value }
        ensures ok { IfOk result (λ atom. FindsAtom room atom self.old self.new) }
        ensures misses { IfErr result (λ e. MissesAtom e room self.old self.new) }
        ensures same { self.new.bytes ≡ self.old.bytes }
    {
        self.take(token);
        Ok(Atom::Num(value))
    }

    /// Reads `token`, the next token, which is the keyword for the iteration's number; `room` more brackets may be
    /// opened.
    fn turn_atom(&mut self, token: Token<'a>, room: u32) -> Result<Atom, Misfit>
        requires next { IsNext self.old token }
        requires is { token.text.now ≡ codes "turn" }
        ensures ok { IfOk result (λ atom. FindsAtom room atom self.old self.new) }
        ensures misses { IfErr result (λ e. MissesAtom e room self.old self.new) }
        ensures same { self.new.bytes ≡ self.old.bytes }
    {
        self.take(token);
        Ok(Atom::Turn)
    }

    /// Reads `token`, the next token, which is the keyword for an input, and the port's number; `room` more brackets
    /// may be opened.
    fn input_atom(&mut self, token: Token<'a>, room: u32) -> Result<Atom, Misfit>
        requires next { IsNext self.old token }
        requires is { token.text.now ≡ codes "in" }
        ensures ok { IfOk result (λ atom. FindsAtom room atom self.old self.new) }
        ensures misses { IfErr result (λ e. MissesAtom e room self.old self.new) }
        ensures same { self.new.bytes ≡ self.old.bytes }
    {
        self.take(token);
        let port = self.number()?;
        self.note_port(Role::Input(port.value), port.place)?;
        Ok(Atom::Input(port.value))
    }

    /// Reads an atom, in which `room` more brackets may be opened.
    #[cycle(reading)]
    pub fn atom(&mut self, alloc: Global, room: u32) -> Result<Atom, Misfit>
        requires { room ≤ 32 }
        ensures ok { IfOk result (λ atom. FindsAtom room atom self.old self.new) }
        ensures misses { IfErr result (λ e. MissesAtom e room self.old self.new) }
        ensures same { self.new.bytes ≡ self.old.bytes }
    {
        if !self.has_room() {
            return Err(Misfit::Memory);
        }
        let Some(next) = self.next() else {
            return Err(Misfit::Text);
        };
        match beginning_of(next.text) {
            Beginning::Number(value) => self.number_atom(next, value, room),
            Beginning::Turn => self.turn_atom(next, room),
            Beginning::In => self.input_atom(next, room),
            Beginning::Name => self.named(alloc, room, next),
            Beginning::Other => self.opened(alloc, room, next),
        }
    }

    /// Reads the name `name`, which is the next token, and its index, if there is one; `room` more brackets may be
    /// opened.
    #[cycle(reading)]
    fn named(&mut self, alloc: Global, room: u32, name: Token<'a>) -> Result<Atom, Misfit>
        requires room { room ≤ 32 }
        requires next { IsNext self.old name }
        requires is { is_loop_name name.text.now ≡ true }
        ensures ok { IfOk result (λ atom. FindsAtom room atom self.old self.new) }
        ensures misses { IfErr result (λ e. MissesAtom e room self.old self.new) }
        ensures same { self.new.bytes ≡ self.old.bytes }
    {
        self.take(name);
        let own = name_of(alloc, name.text)?;
        self.index(alloc, room, name, own)
    }

    /// Reads the index after the name `name`, if there is one; `own` is a copy of the name, and `room` more brackets
    /// may be opened.
    #[cycle(reading)]
    fn index(
        &mut self,
        alloc: Global,
        room: u32,
        name: Token<'a>,
        own: Name,
    ) -> Result<Atom, Misfit>
        requires room { room ≤ 32 }
        requires is { is_loop_name name.text.now ≡ true }
        requires own { own ≡ name.text.now }
        ensures ok { IfOk result (λ atom. FindsIndex room name.entry atom self.old self.new) }
        ensures misses { IfErr result (λ e. MissesIndex e room self.old self.new) }
        ensures same { self.new.bytes ≡ self.old.bytes }
    {
        if self.next_is(b"[") {
            self.item(alloc, room, name, own)
        } else {
            self.scalar(room, name, own)
        }
    }

    /// Records the use of the scalar `name`, which no index follows; `own` is a copy of the name, and `room` more
    /// brackets may be opened.
    fn scalar(&mut self, room: u32, name: Token<'a>, own: Name) -> Result<Atom, Misfit>
        requires is { is_loop_name name.text.now ≡ true }
        requires own { own ≡ name.text.now }
        requires alone { begins_with (codes "[") (left self.old) ≡ false }
        ensures ok { IfOk result (λ atom. FindsIndex room name.entry atom self.old self.new) }
        ensures misses { IfErr result (λ e. MissesIndex e room self.old self.new) }
        ensures same { self.new.bytes ≡ self.old.bytes }
    {
        self.note(Role::Scalar, name)?;
        Ok(Atom::Scalar(own))
    }

    /// Reads the index after the name `name` of an array; `own` is a copy of the name, and `room` more brackets may be
    /// opened.
    #[cycle(reading)]
    fn item(&mut self, alloc: Global, room: u32, name: Token<'a>, own: Name) -> Result<Atom, Misfit>
        requires room { room ≤ 32 }
        requires is { is_loop_name name.text.now ≡ true }
        requires own { own ≡ name.text.now }
        requires opens { begins_with (codes "[") (left self.old) ≡ true }
        ensures ok { IfOk result (λ atom. FindsIndex room name.entry atom self.old self.new) }
        ensures misses { IfErr result (λ e. MissesIndex e room self.old self.new) }
        ensures same { self.new.bytes ≡ self.old.bytes }
    {
        if room == 0 {
            return Err(Misfit::Text);
        }
        self.note(Role::Item, name)?;
        self.exactly(b"[")?;
        let index = self.expr(alloc, room - 1)?;
        self.exactly(b"]")?;
        Ok(Atom::Item(own, Box::new(alloc, index)?))
    }

    /// Reads an atom that begins with the next token, `next`, which is not a number, a name or a keyword; `room` more
    /// brackets may be opened.
    #[cycle(reading)]
    fn opened(&mut self, alloc: Global, room: u32, next: Token<'a>) -> Result<Atom, Misfit>
        requires room { room ≤ 32 }
        requires next { IsNext self.old next }
        requires other { kinds.beginning_of next.text.now ≡ begins.Other }
        ensures ok { IfOk result (λ atom. FindsAtom room atom self.old self.new) }
        ensures misses { IfErr result (λ e. MissesAtom e room self.old self.new) }
        ensures same { self.new.bytes ≡ self.old.bytes }
    {
        if room == 0 {
            return Err(Misfit::Text);
        }
        if same(next.text, b"(") {
            return self.bracket(alloc, room, next);
        }
        match op_called(next.text) {
            Some(op) => self.apply(alloc, room, next, op),
            None => Err(Misfit::Text),
        }
    }

    /// Reads an expression in brackets, which `token`, the next token, opens; `room` more brackets may be opened.
    #[cycle(reading)]
    fn bracket(&mut self, alloc: Global, room: u32, token: Token<'a>) -> Result<Atom, Misfit>
        requires some { 0 < room }
        requires room { room ≤ 32 }
        requires next { IsNext self.old token }
        requires is { bytes_eq token.text.now (codes "(") ≡ true }
        ensures ok { IfOk result (λ atom. FindsAtom room atom self.old self.new) }
        ensures misses { IfErr result (λ e. MissesAtom e room self.old self.new) }
        ensures same { self.new.bytes ≡ self.old.bytes }
    {
        self.take(token);
        let inner = self.expr(alloc, room - 1)?;
        self.exactly(b")")?;
        Ok(Atom::Bracket(Box::new(alloc, inner)?))
    }

    /// Reads a call of the operation `op` by `token`, the next token, and its operands; `room` more brackets may be
    /// opened.
    #[cycle(reading)]
    fn apply(&mut self, alloc: Global, room: u32, token: Token<'a>, op: Op) -> Result<Atom, Misfit>
        requires some { 0 < room }
        requires room { room ≤ 32 }
        requires next { IsNext self.old token }
        requires called { words.op_called token.text.now ≡ Some op }
        ensures ok { IfOk result (λ atom. FindsAtom room atom self.old self.new) }
        ensures misses { IfErr result (λ e. MissesAtom e room self.old self.new) }
        ensures same { self.new.bytes ≡ self.old.bytes }
    {
        self.take(token);
        self.exactly(b"(")?;
        let mut operands = Vec::new(alloc);
        self.operands(alloc, room - 1, further_operands(op), &mut operands)?;
        Ok(Atom::Apply(op, operands))
    }

    /// Reads an operand, `count` more, and the bracket after them, and adds the operands to `operands`; `room` more
    /// brackets may be opened.
    #[cycle(reading)]
    fn operands(
        &mut self,
        alloc: Global,
        room: u32,
        count: u32,
        operands: &mut Vec<Expr>,
    ) -> Result<(), Misfit>
        requires room { room ≤ 31 }
        requires count { count ≤ 2 }
        ensures ok { OnOk result (FindsOperands room count operands.old.items operands.new.items self.old self.new) }
        ensures misses { IfErr result (λ e. MissesArgs e room count self.old self.new) }
        ensures same { self.new.bytes ≡ self.old.bytes }
    {
        let operand = self.expr(alloc, room)?;
        operands.push(operand)?;
        if count == 0 {
            self.exactly(b")")?;
        } else {
            self.exactly(b",")?;
            self.operands(alloc, room, count - 1, operands)?;
        }
        Ok(())
    }

    /// Reads a product, in which `room` more brackets may be opened.
    #[cycle(reading)]
    fn prod(&mut self, alloc: Global, room: u32) -> Result<Prod, Misfit>
        requires { room ≤ 32 }
        ensures ok { IfOk result (λ prod. FindsProduct room prod.atoms.items self.old self.new) }
        ensures ends { OnOk result (begins_with (codes "*") (left self.new) ≡ false) }
        ensures misses { IfErr result (λ e. MissesAtom e room self.old self.new) }
        ensures same { self.new.bytes ≡ self.old.bytes }
    {
        let mut atoms = Vec::new(alloc);
        atoms.push(self.atom(alloc, room)?)?;
        while self.skip(b"*") {
            atoms.push(self.atom(alloc, room)?)?;
        }
        Ok(Prod { atoms })
    }

    /// Reads a sum, in which `room` more brackets may be opened.
    #[cycle(reading)]
    fn sum(&mut self, alloc: Global, room: u32) -> Result<Sum, Misfit>
        requires { room ≤ 32 }
        ensures ok { IfOk result (λ sum. FindsSum room sum self.old self.new) }
        ensures ends { OnOk result ((begins_with (codes "*") (left self.new) ≡ false) × (begins_adding (left self.new) ≡ false)) }
        ensures misses { IfErr result (λ e. MissesAtom e room self.old self.new) }
        ensures same { self.new.bytes ≡ self.old.bytes }
    {
        let first = self.prod(alloc, room)?;
        let mut rest = Vec::new(alloc);
        while let Some(op) = self.adding() {
            let prod = self.prod(alloc, room)?;
            rest.push(Term { op, prod })?;
        }
        Ok(Sum { first, rest })
    }

    /// Reads an expression, in which `room` more brackets may be opened.
    #[cycle(reading)]
    pub fn expr(&mut self, alloc: Global, room: u32) -> Result<Expr, Misfit>
        requires { room ≤ 32 }
        ensures ok { IfOk result (λ expr. FindsExpr room expr self.old self.new) }
        ensures misses { IfErr result (λ e. MissesExpr e room self.old self.new) }
        ensures same { self.new.bytes ≡ self.old.bytes }
    {
        let first = self.sum(alloc, room)?;
        match self.comparing() {
            Some(op) => {
                let second = self.sum(alloc, room)?;
                let compare = Some(Compare { op, second });
                Ok(Expr { first, compare })
            }
            None => {
                let compare = None;
                Ok(Expr { first, compare })
            }
        }
    }
}
