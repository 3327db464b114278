//! Reading expressions.
ghost use Rattle.std.specs.Prelude.{◌≡◌, IfOk};
ghost use Rattle.cg_c_syntax.specs.Written.{expr_of, linked};

use crate::fault::Misfit;
use crate::limit::MOST_OPEN;
use crate::reader::Reader;
use crate::words::{cast_by, opening_by, operator_at};
use cg_c_syntax::{Element, Expr, Link, Opening, Pick, Sign};
use std::alloc::{AllocError, Global};

/// Returns `first` with the operators and operands `rest` after it.
fn chain(alloc: Global, first: Expr, rest: Vec<Link>) -> Result<Expr, AllocError>
    ensures { IfOk result (λ e. expr_of e ≡ linked (expr_of first) rest.items) }
{
    if rest.is_empty() {
        Ok(first)
    } else {
        let first = Box::new(alloc, first)?;
        Ok(Expr::Chain { first, rest })
    }
}

impl<'a> Reader<'a> {
    ghost use Rattle.std.specs.Prelude.{◌≡◌, ◌≤◌, IfOk, IfErr};
    ghost use Rattle.cg_c_syntax.specs.Symbols.{Expression, Operators, Further, Chosen, Bracketed, CastOperand, Indices};
    ghost use Rattle.cg_c_syntax.specs.Words.{opening_of};
    ghost use Rattle.cg_c_syntax.specs.declared.opening.Opening.TheVariants as openings;
    ghost use Rattle.cg_c_syntax.specs.Written.{expr_of, exprs_of};
    ghost use Rattle.cg_c_reader.specs.Left.{left, Finds, FindsFurther, FindsChosen, Misses};

    /// Reads an expression, around which `depth` constructs are open.
    #[cycle(expression)]
    pub fn expression(&mut self, alloc: Global, depth: u32) -> Result<Expr, Misfit>
        requires { depth ≤ 60 }
        ensures ok { IfOk result (λ e. Finds (Expression depth) (expr_of e) self.old self.new) }
        ensures misses { IfErr result (λ e. Misses e (Expression depth) self.old self.new) }
        ensures same { self.new.bytes ≡ self.old.bytes }
    {
        if depth >= MOST_OPEN {
            return Err(Misfit::Depth(self.token.place));
        }
        let condition = self.operators(alloc, 10, depth + 1)?;
        self.chosen(alloc, depth + 1, condition)
    }

    /// Reads what is chosen by `condition`, if `?` is next; `depth` constructs are open.
    #[cycle(expression)]
    fn chosen(&mut self, alloc: Global, depth: u32, condition: Expr) -> Result<Expr, Misfit>
        requires { depth ≤ 60 }
        ensures ok { IfOk result (λ e. FindsChosen depth (expr_of condition) (expr_of e) self.old self.new) }
        ensures misses { IfErr result (λ e. Misses e (Chosen depth) self.old self.new) }
        ensures same { self.new.bytes ≡ self.old.bytes }
    {
        if !self.next_is(b"?") {
            return Ok(condition);
        }
        let place = self.token.place;
        self.take();
        let chosen = self.expression(alloc, depth)?;
        self.mark(b":")?;
        let other = self.expression(alloc, depth)?;
        Ok(Expr::Choice {
            place,
            condition: Box::new(alloc, condition)?,
            chosen: Box::new(alloc, chosen)?,
            other: Box::new(alloc, other)?,
        })
    }

    /// Reads operands joined by operators up to the level `level`; `depth` constructs are open.
    #[cycle(expression)]
    pub fn operators(&mut self, alloc: Global, level: u32, depth: u32) -> Result<Expr, Misfit>
        requires level { level ≤ 10 }
        requires depth { depth ≤ 60 }
        ensures ok { IfOk result (λ e. Finds (Operators level depth) (expr_of e) self.old self.new) }
        ensures misses { IfErr result (λ e. Misses e (Operators level depth) self.old self.new) }
        ensures same { self.new.bytes ≡ self.old.bytes }
    {
        if level == 0 {
            return self.operand(alloc, depth);
        }
        let first = self.operators(alloc, level - 1, depth)?;
        self.further(alloc, level, depth, first)
    }

    /// Reads operators of the level `level` and their right operands after `first`; `depth` constructs are open.
    #[cycle(expression)]
    fn further(
        &mut self,
        alloc: Global,
        level: u32,
        depth: u32,
        first: Expr,
    ) -> Result<Expr, Misfit>
        requires some { 1 ≤ level }
        requires level { level ≤ 10 }
        requires depth { depth ≤ 60 }
        ensures ok { IfOk result (λ e. FindsFurther level depth (expr_of first) (expr_of e) self.old self.new) }
        ensures misses { IfErr result (λ e. Misses e (Further level depth) self.old self.new) }
        ensures same { self.new.bytes ≡ self.old.bytes }
    {
        let mut rest = Vec::new(alloc);
        while let Some(op) = operator_at(level, self.token.kind, self.token.text) {
            let place = self.token.place;
            self.take();
            let operand = self.operators(alloc, level - 1, depth)?;
            rest.push(Link { op, place, operand })?;
        }
        Ok(chain(alloc, first, rest)?)
    }

    /// Reads an operand; `depth` constructs are open.
    #[cycle(expression)]
    fn operand(&mut self, alloc: Global, depth: u32) -> Result<Expr, Misfit>
        requires { depth ≤ 60 }
        ensures ok { IfOk result (λ e. Finds (Operators 0 depth) (expr_of e) self.old self.new) }
        ensures misses { IfErr result (λ e. Misses e (Operators 0 depth) self.old self.new) }
        ensures same { self.new.bytes ≡ self.old.bytes }
    {
        if self.is_full() {
            return Err(Misfit::Memory);
        }
        match opening_by(self.token.kind, self.token.text) {
            Opening::Sign(sign) => self.signed(alloc, depth, sign),
            Opening::Bracket => self.opened(alloc, depth),
            Opening::Number => Ok(Expr::Number(self.numeral())),
            Opening::Name => self.accessed(alloc, depth),
            Opening::Input => self.input(alloc, depth),
            Opening::Pick(pick) => self.picked(alloc, depth, pick),
            Opening::Nothing => Err(Misfit::Text),
        }
    }

    /// Reads the sign `sign`, the next token, and its operand; `depth` constructs are open around them.
    #[cycle(expression)]
    fn signed(&mut self, alloc: Global, depth: u32, sign: Sign) -> Result<Expr, Misfit>
        requires depth { depth ≤ 60 }
        requires is { opening_of (left self.old).head ≡ openings.Sign sign }
        ensures ok { IfOk result (λ e. Finds (Operators 0 depth) (expr_of e) self.old self.new) }
        ensures misses { IfErr result (λ e. Misses e (Operators 0 depth) self.old self.new) }
        ensures same { self.new.bytes ≡ self.old.bytes }
    {
        let place = self.token.place;
        if depth >= MOST_OPEN {
            return Err(Misfit::Depth(place));
        }
        self.take();
        let operand = self.operand(alloc, depth + 1)?;
        Ok(Expr::Sign {
            sign,
            place,
            operand: Box::new(alloc, operand)?,
        })
    }

    /// Reads a `(`, the next token, and what is in it: a cast, with its operand, or an expression; `depth` constructs
    /// are open around them.
    #[cycle(expression)]
    fn opened(&mut self, alloc: Global, depth: u32) -> Result<Expr, Misfit>
        requires depth { depth ≤ 60 }
        requires is { opening_of (left self.old).head ≡ openings.Bracket }
        ensures ok { IfOk result (λ e. Finds (Operators 0 depth) (expr_of e) self.old self.new) }
        ensures misses { IfErr result (λ e. Misses e (Operators 0 depth) self.old self.new) }
        ensures same { self.new.bytes ≡ self.old.bytes }
    {
        let place = self.token.place;
        self.take();
        self.bracketed(alloc, depth, place)
    }

    /// Reads what follows a `(` at `place`: the type of a cast, `)` and an operand, or an expression and `)`; `depth`
    /// constructs are open around them.
    #[cycle(expression)]
    fn bracketed(&mut self, alloc: Global, depth: u32, place: usize) -> Result<Expr, Misfit>
        requires { depth ≤ 60 }
        ensures ok { IfOk result (λ e. Finds (Bracketed place depth) (expr_of e) self.old self.new) }
        ensures misses { IfErr result (λ e. Misses e (Bracketed place depth) self.old self.new) }
        ensures same { self.new.bytes ≡ self.old.bytes }
    {
        if let Some(to) = cast_by(self.token.kind, self.token.text) {
            self.take();
            self.mark(b")")?;
            let operand = self.cast_operand(alloc, depth, place)?;
            return Ok(Expr::Cast {
                to,
                place,
                operand: Box::new(alloc, operand)?,
            });
        }
        let inner = self.expression(alloc, depth)?;
        self.mark(b")")?;
        Ok(inner)
    }

    /// Reads the operand of a cast, which begins at `place`; `depth` constructs are open around the cast.
    #[cycle(expression)]
    fn cast_operand(&mut self, alloc: Global, depth: u32, place: usize) -> Result<Expr, Misfit>
        requires { depth ≤ 60 }
        ensures ok { IfOk result (λ e. Finds (CastOperand place depth) (expr_of e) self.old self.new) }
        ensures misses { IfErr result (λ e. Misses e (CastOperand place depth) self.old self.new) }
        ensures same { self.new.bytes ≡ self.old.bytes }
    {
        if depth >= MOST_OPEN {
            return Err(Misfit::Depth(place));
        }
        self.operand(alloc, depth + 1)
    }

    /// Reads a name, the next token, and up to three indices; `depth` constructs are open.
    #[cycle(expression)]
    fn accessed(&mut self, alloc: Global, depth: u32) -> Result<Expr, Misfit>
        requires depth { depth ≤ 60 }
        requires is { opening_of (left self.old).head ≡ openings.Name }
        ensures ok { IfOk result (λ e. Finds (Operators 0 depth) (expr_of e) self.old self.new) }
        ensures misses { IfErr result (λ e. Misses e (Operators 0 depth) self.old self.new) }
        ensures same { self.new.bytes ≡ self.old.bytes }
    {
        let name = self.named(alloc)?;
        self.take();
        let indices = self.indices(alloc, 3, depth)?;
        Ok(Expr::Element(Element { name, indices }))
    }

    /// Reads up to `most` indices; `depth` constructs are open.
    #[cycle(expression)]
    pub fn indices(&mut self, alloc: Global, most: u32, depth: u32) -> Result<Vec<Expr>, Misfit>
        requires { depth ≤ 60 }
        ensures ok { IfOk result (λ es. Finds (Indices most depth) (exprs_of es.items) self.old self.new) }
        ensures misses { IfErr result (λ e. Misses e (Indices most depth) self.old self.new) }
        ensures same { self.new.bytes ≡ self.old.bytes }
    {
        let mut indices = Vec::new(alloc);
        let mut room = most;
        while room > 0 {
            if !self.next_is(b"[") {
                return Ok(indices);
            }
            self.take();
            indices.push(self.expression(alloc, depth)?)?;
            self.mark(b"]")?;
            room -= 1;
        }
        Ok(indices)
    }

    /// Reads an `in`, the next token, and its port; `depth` constructs are open.
    #[cycle(expression)]
    fn input(&mut self, alloc: Global, depth: u32) -> Result<Expr, Misfit>
        requires depth { depth ≤ 60 }
        requires is { opening_of (left self.old).head ≡ openings.Input }
        ensures ok { IfOk result (λ e. Finds (Operators 0 depth) (expr_of e) self.old self.new) }
        ensures misses { IfErr result (λ e. Misses e (Operators 0 depth) self.old self.new) }
        ensures same { self.new.bytes ≡ self.old.bytes }
    {
        let place = self.token.place;
        self.take();
        self.mark(b"(")?;
        let port = self.expression(alloc, depth)?;
        self.mark(b")")?;
        Ok(Expr::Input {
            place,
            port: Box::new(alloc, port)?,
        })
    }

    /// Reads the name of the function `pick`, the next token, and its operands; `depth` constructs are open.
    #[cycle(expression)]
    fn picked(&mut self, alloc: Global, depth: u32, pick: Pick) -> Result<Expr, Misfit>
        requires depth { depth ≤ 60 }
        requires is { opening_of (left self.old).head ≡ openings.Pick pick }
        ensures ok { IfOk result (λ e. Finds (Operators 0 depth) (expr_of e) self.old self.new) }
        ensures misses { IfErr result (λ e. Misses e (Operators 0 depth) self.old self.new) }
        ensures same { self.new.bytes ≡ self.old.bytes }
    {
        let place = self.token.place;
        self.take();
        self.mark(b"(")?;
        let first = self.expression(alloc, depth)?;
        self.mark(b",")?;
        let second = self.expression(alloc, depth)?;
        self.mark(b")")?;
        Ok(Expr::Pick {
            pick,
            place,
            first: Box::new(alloc, first)?,
            second: Box::new(alloc, second)?,
        })
    }
}
