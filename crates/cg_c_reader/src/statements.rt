//! Reading statements.
ghost use Rattle.std.specs.Prelude.{◌≡◌, IfOk};
ghost use Rattle.cg_c_syntax.specs.Tree.{Block};
ghost use Rattle.cg_c_syntax.specs.Written.{expr_of, stmt_of, stmts_of};
ghost use Rattle.cg_c_reader.specs.Parts.{other_of};
ghost use Rattle.cg_c_syntax.specs.Grammar as grammar;

use crate::fault::Misfit;
use crate::limit::MOST_OPEN;
use crate::reader::Reader;
use crate::words::{beginning_by, cast_by, change_by, whole};
use cg_c_syntax::{Beginning, Binary, Change, Element, Expr, Number, Signedness, Stmt, Word};
use std::alloc::{AllocError, Global};

/// What an assignment does to its target.
#[derive(Drop)]
struct Assignment {
    op: Option<Binary>,
    value: Expr,
}

/// Returns the 1 that `++` adds and `--` subtracts, at `place`.
fn unit(place: usize) -> Expr
    ensures { expr_of result ≡ grammar.unit place }
{
    Expr::Number(Number {
        value: 1,
        hexadecimal: false,
        unsigned: false,
        place,
    })
}

/// Returns the statements `stmts` in braces.
fn braced(stmts: Vec<Stmt>) -> Stmt
    ensures { stmt_of result ≡ Block (stmts_of stmts.items) }
{
    Stmt::Block { stmts }
}

/// Returns the `if` of `condition`, which repeats `chosen`, or else `other`.
fn either(
    alloc: Global,
    condition: Expr,
    chosen: Stmt,
    other: Option<Stmt>,
) -> Result<Stmt, AllocError>
    ensures { IfOk result (λ s. stmt_of s ≡ grammar.if_of (expr_of condition) (stmt_of chosen) (other_of other)) }
{
    let chosen = Box::new(alloc, chosen)?;
    match other {
        Some(stmt) => {
            let other = Box::new(alloc, stmt)?;
            Ok(Stmt::If {
                condition,
                chosen,
                other: Some(other),
            })
        }
        None => Ok(Stmt::If {
            condition,
            chosen,
            other: None,
        }),
    }
}

impl<'a> Reader<'a> {
    ghost use Rattle.std.specs.Prelude.{◌≡◌, ◌<◌, ◌≤◌, Some, length, IfOk, IfErr};
    ghost use Rattle.cg_c_syntax.specs.Symbols.{Statement, Declared, Statements, Plain, Else, Assigned};
    ghost use Rattle.cg_c_syntax.specs.Words.{signedness_of, beginning_of};
    ghost use Rattle.cg_c_syntax.specs.declared.opening.Beginning.TheVariants as beginnings;
    ghost use Rattle.cg_c_syntax.specs.Written.{word_of, stmt_of, stmts_of};
    ghost use Rattle.cg_c_reader.specs.Left.{left, all, Finds, Misses};
    ghost use Rattle.cg_c_reader.specs.Parts.{assignment_of, other_of};

    /// Reads a statement; `depth` constructs are open around it.
    #[cycle(statement)]
    pub fn statement(&mut self, alloc: Global, depth: u32) -> Result<Stmt, Misfit>
        requires { depth ≤ 60 }
        ensures ok { IfOk result (λ s. Finds (Statement depth) (stmt_of s) self.old self.new) }
        ensures less { IfOk result (λ s. length (all (left self.new)) < length (all (left self.old))) }
        ensures misses { IfErr result (λ e. Misses e (Statement depth) self.old self.new) }
        ensures same { self.new.bytes ≡ self.old.bytes }
    {
        match whole(cast_by(self.token.kind, self.token.text)) {
            Some(signedness) => self.declared(alloc, depth, signedness),
            None => self.plain(alloc, depth),
        }
    }

    /// Reads a type, the next token, and words of it, which are read as `signedness` says; `depth` constructs are open.
    fn declared(
        &mut self,
        alloc: Global,
        depth: u32,
        signedness: Signedness,
    ) -> Result<Stmt, Misfit>
        requires depth { depth ≤ 60 }
        requires is { signedness_of (left self.old).head ≡ Some signedness }
        ensures ok { IfOk result (λ s. Finds (Statement depth) (stmt_of s) self.old self.new) }
        ensures misses { IfErr result (λ e. Misses e (Statement depth) self.old self.new) }
        ensures same { self.new.bytes ≡ self.old.bytes }
    {
        self.take();
        let mut words = Vec::new(alloc);
        words.push(self.word(alloc, depth)?)?;
        while self.next_is(b",") {
            self.take();
            words.push(self.word(alloc, depth)?)?;
        }
        self.mark(b";")?;
        Ok(Stmt::Words { signedness, words })
    }

    /// Reads a name and its first value; `depth` constructs are open.
    fn word(&mut self, alloc: Global, depth: u32) -> Result<Word, Misfit>
        requires { depth ≤ 60 }
        ensures ok { IfOk result (λ w. Finds (Declared depth) (word_of w) self.old self.new) }
        ensures misses { IfErr result (λ e. Misses e (Declared depth) self.old self.new) }
        ensures same { self.new.bytes ≡ self.old.bytes }
    {
        let name = self.name(alloc)?;
        self.mark(b"=")?;
        let value = self.expression(alloc, depth)?;
        Ok(Word { name, value })
    }

    /// Reads statements and the `}` after them; `depth` constructs are open.
    #[cycle(statement)]
    pub fn statements(&mut self, alloc: Global, depth: u32) -> Result<Vec<Stmt>, Misfit>
        requires { depth ≤ 60 }
        ensures ok { IfOk result (λ ss. Finds (Statements depth) (stmts_of ss.items) self.old self.new) }
        ensures misses { IfErr result (λ e. Misses e (Statements depth) self.old self.new) }
        ensures same { self.new.bytes ≡ self.old.bytes }
    {
        let mut stmts = Vec::new(alloc);
        while !self.next_is(b"}") {
            stmts.push(self.statement(alloc, depth)?)?;
        }
        self.take();
        Ok(stmts)
    }

    /// Reads a statement that is no declaration; `depth` constructs are open around it.
    #[cycle(statement)]
    pub fn plain(&mut self, alloc: Global, depth: u32) -> Result<Stmt, Misfit>
        requires { depth ≤ 60 }
        ensures ok { IfOk result (λ s. Finds (Plain depth) (stmt_of s) self.old self.new) }
        ensures misses { IfErr result (λ e. Misses e (Plain depth) self.old self.new) }
        ensures same { self.new.bytes ≡ self.old.bytes }
    {
        match beginning_by(self.token.kind, self.token.text) {
            Beginning::Block => self.block(alloc, depth),
            Beginning::If => self.branched(alloc, depth),
            Beginning::Output => self.output(alloc, depth),
            Beginning::Name => self.assignment(alloc, depth),
            Beginning::Nothing => Err(Misfit::Text),
        }
    }

    /// Reads a `{`, the next token, and statements up to the `}`; `depth` constructs are open around them.
    #[cycle(statement)]
    fn block(&mut self, alloc: Global, depth: u32) -> Result<Stmt, Misfit>
        requires depth { depth ≤ 60 }
        requires is { beginning_of (left self.old).head ≡ beginnings.Block }
        ensures ok { IfOk result (λ s. Finds (Plain depth) (stmt_of s) self.old self.new) }
        ensures misses { IfErr result (λ e. Misses e (Plain depth) self.old self.new) }
        ensures same { self.new.bytes ≡ self.old.bytes }
    {
        if depth >= MOST_OPEN {
            return Err(Misfit::Depth(self.token.place));
        }
        if self.is_full() {
            return Err(Misfit::Memory);
        }
        self.take();
        let stmts = self.statements(alloc, depth + 1)?;
        Ok(braced(stmts))
    }

    /// Reads an `if`, the next token, and its statements; `depth` constructs are open around it.
    #[cycle(statement)]
    fn branched(&mut self, alloc: Global, depth: u32) -> Result<Stmt, Misfit>
        requires depth { depth ≤ 60 }
        requires is { beginning_of (left self.old).head ≡ beginnings.If }
        ensures ok { IfOk result (λ s. Finds (Plain depth) (stmt_of s) self.old self.new) }
        ensures misses { IfErr result (λ e. Misses e (Plain depth) self.old self.new) }
        ensures same { self.new.bytes ≡ self.old.bytes }
    {
        if depth >= MOST_OPEN {
            return Err(Misfit::Depth(self.token.place));
        }
        self.take();
        self.mark(b"(")?;
        let condition = self.expression(alloc, depth + 1)?;
        self.mark(b")")?;
        let chosen = self.plain(alloc, depth + 1)?;
        let other = self.otherwise(alloc, depth + 1)?;
        Ok(either(alloc, condition, chosen, other)?)
    }

    /// Reads what `else` repeats, if that is next; `depth` constructs are open.
    #[cycle(statement)]
    fn otherwise(&mut self, alloc: Global, depth: u32) -> Result<Option<Stmt>, Misfit>
        requires { depth ≤ 60 }
        ensures ok { IfOk result (λ o. Finds (Else depth) (other_of o) self.old self.new) }
        ensures misses { IfErr result (λ e. Misses e (Else depth) self.old self.new) }
        ensures same { self.new.bytes ≡ self.old.bytes }
    {
        if self.next_is_word(b"else") {
            self.take();
            let stmt = self.plain(alloc, depth)?;
            Ok(Some(stmt))
        } else {
            Ok(None)
        }
    }

    /// Reads an `out`, the next token, its port and its value; `depth` constructs are open.
    fn output(&mut self, alloc: Global, depth: u32) -> Result<Stmt, Misfit>
        requires depth { depth ≤ 60 }
        requires is { beginning_of (left self.old).head ≡ beginnings.Output }
        ensures ok { IfOk result (λ s. Finds (Plain depth) (stmt_of s) self.old self.new) }
        ensures misses { IfErr result (λ e. Misses e (Plain depth) self.old self.new) }
        ensures same { self.new.bytes ≡ self.old.bytes }
    {
        self.take();
        self.mark(b"(")?;
        let port = self.expression(alloc, depth)?;
        self.mark(b",")?;
        let value = self.expression(alloc, depth)?;
        self.mark(b")")?;
        self.mark(b";")?;
        Ok(Stmt::Output { port, value })
    }

    /// Reads an assignment, whose target's name is the next token; `depth` constructs are open.
    fn assignment(&mut self, alloc: Global, depth: u32) -> Result<Stmt, Misfit>
        requires depth { depth ≤ 60 }
        requires is { beginning_of (left self.old).head ≡ beginnings.Name }
        ensures ok { IfOk result (λ s. Finds (Plain depth) (stmt_of s) self.old self.new) }
        ensures misses { IfErr result (λ e. Misses e (Plain depth) self.old self.new) }
        ensures same { self.new.bytes ≡ self.old.bytes }
    {
        let name = self.named(alloc)?;
        let place = self.token.place;
        self.take();
        let indices = self.indices(alloc, 3, depth)?;
        let Assignment { op, value } = self.assigned(alloc, depth, place)?;
        let target = Element { name, indices };
        Ok(Stmt::Assign { target, op, value })
    }

    /// Reads what an assignment does to its target at `place`, up to the `;`; `depth` constructs are open.
    fn assigned(&mut self, alloc: Global, depth: u32, place: usize) -> Result<Assignment, Misfit>
        requires { depth ≤ 60 }
        ensures ok { IfOk result (λ a. Finds (Assigned place depth) (assignment_of a) self.old self.new) }
        ensures misses { IfErr result (λ e. Misses e (Assigned place depth) self.old self.new) }
        ensures same { self.new.bytes ≡ self.old.bytes }
    {
        let Some(change) = change_by(self.token.kind, self.token.text) else {
            return Err(Misfit::Text);
        };
        self.take();
        match change {
            Change::Step(op) => {
                self.mark(b";")?;
                Ok(Assignment {
                    op: Some(op),
                    value: unit(place),
                })
            }
            Change::Set(op) => {
                let value = self.expression(alloc, depth)?;
                self.mark(b";")?;
                Ok(Assignment { op, value })
            }
        }
    }
}
