//! Reading loops.
ghost use Rattle.std.specs.Prelude.{◌≡◌, IfOk};
ghost use Rattle.cg_c_syntax.specs.Tree.{For, Bare, Holds, NoStmts, MoreStmts};
ghost use Rattle.cg_c_syntax.specs.Written.{stmt_of, stmts_of, loop_of, nest_of};
ghost use Rattle.cg_c_reader.specs.Parts.{head_of};

use crate::fault::Misfit;
use crate::limit::MOST_OPEN;
use crate::reader::Reader;
use crate::words::is_counter_type;
use cg_c_syntax::{Expr, Loop, Named, Nest, Stmt};
use std::alloc::{AllocError, Global};

/// The counter of a loop, and its first value.
#[derive(Drop)]
struct Start {
    counter: Named,
    start: Expr,
}

/// The bound of a loop and its step.
#[derive(Drop)]
struct Range {
    inclusive: bool,
    bound: Expr,
    step: Option<Expr>,
}

/// Returns the loop of the `for` at `place`, which repeats `body`.
fn whole_loop(place: usize, start: Start, range: Range, body: Nest) -> Loop
    ensures { loop_of result ≡ For place (head_of start range) (nest_of body) }
{
    Loop {
        place,
        counter: start.counter,
        start: start.start,
        inclusive: range.inclusive,
        bound: range.bound,
        step: range.step,
        body,
    }
}

/// Returns the statements `before` alone.
fn bare(alloc: Global, before: Vec<Stmt>) -> Nest
    ensures { nest_of result ≡ Bare (stmts_of before.items) }
{
    Nest {
        before,
        inner: None,
        after: Vec::new(alloc),
    }
}

/// Returns the statement `stmt` alone.
fn single(alloc: Global, stmt: Stmt) -> Result<Nest, AllocError>
    ensures { IfOk result (λ n. nest_of n ≡ Bare (MoreStmts (stmt_of stmt) NoStmts)) }
{
    let mut before = Vec::new(alloc);
    before.push(stmt)?;
    Ok(bare(alloc, before))
}

/// Returns the statements `before`, the loop `inner`, and the statements `after`.
fn holding(
    alloc: Global,
    before: Vec<Stmt>,
    inner: Loop,
    after: Vec<Stmt>,
) -> Result<Nest, AllocError>
    ensures { IfOk result (λ n. nest_of n ≡ Holds (stmts_of before.items) (loop_of inner) (stmts_of after.items)) }
{
    let inner = Box::new(alloc, inner)?;
    Ok(Nest {
        before,
        inner: Some(inner),
        after,
    })
}

/// Returns the loop `inner` alone.
fn alone(alloc: Global, inner: Loop) -> Result<Nest, AllocError>
    ensures { IfOk result (λ n. nest_of n ≡ Holds NoStmts (loop_of inner) NoStmts) }
{
    holding(alloc, Vec::new(alloc), inner, Vec::new(alloc))
}

impl<'a> Reader<'a> {
    ghost use Rattle.std.specs.Prelude.{◌≡◌, ◌≤◌, IfOk, OnOk, IfErr};
    ghost use Rattle.cg_c_syntax.specs.Symbols.{Looped, Counter, CounterType, Relation, Stepped, Inside, Nested};
    ghost use Rattle.cg_c_syntax.specs.Written.{step_of, loop_of, nest_of};
    ghost use Rattle.cg_c_reader.specs.Left.{left, Finds, Leads, Misses};
    ghost use Rattle.cg_c_reader.specs.Parts.{ranging, started, FindsRange, MissesRange, FindsLoop};

    /// Reads a loop; `depth` constructs are open around it.
    #[cycle(nest)]
    pub fn looped(&mut self, alloc: Global, depth: u32) -> Result<Loop, Misfit>
        requires { depth ≤ 60 }
        ensures ok { IfOk result (λ l. Finds (Looped depth) (loop_of l) self.old self.new) }
        ensures misses { IfErr result (λ e. Misses e (Looped depth) self.old self.new) }
        ensures same { self.new.bytes ≡ self.old.bytes }
    {
        let place = self.token.place;
        if self.next_is_word(b"for") {
            if depth >= MOST_OPEN {
                return Err(Misfit::Depth(place));
            }
            self.take();
            self.mark(b"(")?;
            self.counter_type()?;
            self.counted(alloc, depth + 1, place)
        } else {
            Err(Misfit::Text)
        }
    }

    /// Reads the loop of the `for` at `place` from the name of its counter on; `depth` constructs are open.
    #[cycle(nest)]
    fn counted(&mut self, alloc: Global, depth: u32, place: usize) -> Result<Loop, Misfit>
        requires { depth ≤ 60 }
        ensures ok { IfOk result (λ l. FindsLoop depth place (loop_of l) self.old self.new) }
        ensures misses { IfErr result (λ e. Misses e (Counter depth) self.old self.new) }
        ensures same { self.new.bytes ≡ self.old.bytes }
    {
        let text = self.token.text;
        let start = self.start(alloc, depth)?;
        let range = self.range(alloc, depth, text)?;
        let body = self.inside(alloc, depth)?;
        Ok(whole_loop(place, start, range, body))
    }

    /// Reads the name of a counter and its first value, up to the `;`; `depth` constructs are open.
    fn start(&mut self, alloc: Global, depth: u32) -> Result<Start, Misfit>
        requires { depth ≤ 60 }
        ensures ok { IfOk result (λ start. Leads (Counter depth) (ranging depth self.old.token.text.now) (started depth self.old.token.text.now start) (left self.old) (left self.new)) }
        ensures misses { IfErr result (λ e. Misses e (Counter depth) self.old self.new) }
        ensures same { self.new.bytes ≡ self.old.bytes }
    {
        let counter = self.name(alloc)?;
        self.mark(b"=")?;
        let start = self.expression(alloc, depth)?;
        self.mark(b";")?;
        Ok(Start { counter, start })
    }

    /// Reads the bound and the step of a loop, each after the counter's name `text`, up to the `)`; `depth` constructs
    /// are open.
    fn range(&mut self, alloc: Global, depth: u32, text: &[u8]) -> Result<Range, Misfit>
        requires { depth ≤ 60 }
        ensures ok { IfOk result (λ range. FindsRange depth text.now range (left self.old) (left self.new)) }
        ensures misses { IfErr result (λ e. MissesRange depth text.now e (left self.old) (left self.new)) }
        ensures same { self.new.bytes ≡ self.old.bytes }
    {
        self.the_word(text)?;
        let inclusive = self.relation()?;
        let bound = self.operators(alloc, 3, depth)?;
        self.mark(b";")?;
        self.the_word(text)?;
        let step = self.stepped(alloc, depth)?;
        self.mark(b")")?;
        Ok(Range {
            inclusive,
            bound,
            step,
        })
    }

    /// Reads the type of a counter.
    fn counter_type(&mut self) -> Result<(), Misfit>
        ensures ok { OnOk result (Finds CounterType tt self.old self.new) }
        ensures misses { IfErr result (λ e. Misses e CounterType self.old self.new) }
        ensures same { self.new.bytes ≡ self.old.bytes }
    {
        if is_counter_type(self.token.kind, self.token.text) {
            self.take();
            Ok(())
        } else {
            Err(Misfit::Text)
        }
    }

    /// Reads `<` or `<=`, and returns whether it is `<=`.
    fn relation(&mut self) -> Result<bool, Misfit>
        ensures ok { IfOk result (λ inclusive. Finds Relation inclusive self.old self.new) }
        ensures misses { IfErr result (λ e. Misses e Relation self.old self.new) }
        ensures same { self.new.bytes ≡ self.old.bytes }
    {
        if self.next_is(b"<") {
            self.take();
            return Ok(false);
        }
        if self.next_is(b"<=") {
            self.take();
            return Ok(true);
        }
        Err(Misfit::Text)
    }

    /// Reads `++`, or `+=` and a step; `depth` constructs are open.
    fn stepped(&mut self, alloc: Global, depth: u32) -> Result<Option<Expr>, Misfit>
        requires { depth ≤ 60 }
        ensures ok { IfOk result (λ step. Finds (Stepped depth) (step_of step) self.old self.new) }
        ensures misses { IfErr result (λ e. Misses e (Stepped depth) self.old self.new) }
        ensures same { self.new.bytes ≡ self.old.bytes }
    {
        if self.next_is(b"++") {
            self.take();
            return Ok(None);
        }
        if self.next_is(b"+=") {
            self.take();
            let step = self.expression(alloc, depth)?;
            return Ok(Some(step));
        }
        Err(Misfit::Text)
    }

    /// Reads what a loop repeats; `depth` constructs are open.
    #[cycle(nest)]
    fn inside(&mut self, alloc: Global, depth: u32) -> Result<Nest, Misfit>
        requires { depth ≤ 60 }
        ensures ok { IfOk result (λ n. Finds (Inside depth) (nest_of n) self.old self.new) }
        ensures misses { IfErr result (λ e. Misses e (Inside depth) self.old self.new) }
        ensures same { self.new.bytes ≡ self.old.bytes }
    {
        if self.next_is(b"{") {
            self.take();
            return self.nested(alloc, depth);
        }
        if self.next_is_word(b"for") {
            let inner = self.looped(alloc, depth)?;
            return Ok(alone(alloc, inner)?);
        }
        let stmt = self.plain(alloc, depth)?;
        Ok(single(alloc, stmt)?)
    }

    /// Reads statements, with a loop among them or without, and the `}` after them; `depth` constructs are open.
    #[cycle(nest)]
    fn nested(&mut self, alloc: Global, depth: u32) -> Result<Nest, Misfit>
        requires { depth ≤ 60 }
        ensures ok { IfOk result (λ n. Finds (Nested depth) (nest_of n) self.old self.new) }
        ensures misses { IfErr result (λ e. Misses e (Nested depth) self.old self.new) }
        ensures same { self.new.bytes ≡ self.old.bytes }
    {
        let mut before = Vec::new(alloc);
        while !self.next_is(b"}") {
            if self.next_is_word(b"for") {
                let inner = self.looped(alloc, depth)?;
                let after = self.statements(alloc, depth)?;
                return Ok(holding(alloc, before, inner, after)?);
            }
            before.push(self.statement(alloc, depth)?)?;
        }
        self.take();
        Ok(bare(alloc, before))
    }
}
