//! Reading declarations and statements.
ghost use Rattle.std.specs.Prelude.{◌≡◌};

use crate::fault::Misfit;
use crate::reader::Reader;
use crate::words::{is_name, name_of, same};
use cg_loop_syntax::{Decl, Expr, Role, Stmt};
use cg_tokens::Token;
use std::alloc::Global;

/// The greatest number of brackets that may be open at once.
const MOST_OPEN: u32 = 32;

/// A value, and the guard after it, if there is one.
#[derive(Drop)]
pub(crate) struct Guarded {
    pub value: Expr,
    pub guard: Option<Expr>,
}

impl<'a> Reader<'a> {
    ghost use Rattle.std.specs.Prelude.{◌≡◌, ◌∷◌, [], true, false, codes, IfSome, IfNone, IfOk, IfErr, OnOk};
    ghost use Rattle.cg_loop_syntax.specs.Well.{is_loop_name, most_open};
    ghost use Rattle.cg_loop_text_spec.specs.Rules.{Exactly, Operand, Semicolon, Square, Guarded as GuardedCloser, Target, Lines};
    ghost use Rattle.cg_loop_text_spec.specs.Read.{begins_with};
    ghost use Rattle.cg_tokens.specs.Tokens.{tokens_at};
    ghost use Rattle.cg_loop_reader.specs.Doubled.{double};
    ghost use Rattle.cg_loop_reader.specs.Left.{left, IsNext, Misses};
    ghost use Rattle.cg_loop_reader.specs.Lines.{FindsValue, FindsGuard, FindsGuarded, FindsPlace, FindsStmt, FindsStmts, FindsChange, FindsDecl, FindsDecls, MissesGuard, IsDeclWord};

    /// Reads a `=`, a value, and a `;`, and returns the value.
    fn value(&mut self, alloc: Global) -> Result<Expr, Misfit>
        ensures ok { IfOk result (λ value. FindsValue value self.old self.new) }
        ensures misses { IfErr result (λ e. Misses e (Exactly (codes "=") ∷ Operand Semicolon false most_open ∷ []) self.old self.new) }
        ensures same { self.new.bytes ≡ self.old.bytes }
    {
        self.exactly(b"=")?;
        let value = self.expr(alloc, MOST_OPEN)?;
        self.exactly(b";")?;
        Ok(value)
    }

    /// Reads a guard, if there is one, and returns it.
    fn guard(&mut self, alloc: Global) -> Result<Option<Expr>, Misfit>
        ensures ok { IfOk result (λ guard. FindsGuard guard self.old self.new) }
        ensures misses { IfErr result (λ e. MissesGuard e self.old self.new) }
        ensures same { self.new.bytes ≡ self.old.bytes }
    {
        if self.skip(b"if") {
            let guard = self.expr(alloc, MOST_OPEN)?;
            Ok(Some(guard))
        } else {
            Ok(None)
        }
    }

    /// Reads a `=`, a value, a guard, if there is one, and a `;`, and returns the value and the guard.
    fn guarded(&mut self, alloc: Global) -> Result<Guarded, Misfit>
        ensures ok { IfOk result (λ value. FindsGuarded value self.old self.new) }
        ensures misses { IfErr result (λ e. Misses e (Exactly (codes "=") ∷ Operand GuardedCloser false most_open ∷ []) self.old self.new) }
        ensures same { self.new.bytes ≡ self.old.bytes }
    {
        self.exactly(b"=")?;
        let value = self.expr(alloc, MOST_OPEN)?;
        let guard = self.guard(alloc)?;
        self.exactly(b";")?;
        Ok(Guarded { value, guard })
    }

    /// Reads the declaration of an array that begins with `token`, the next token.
    fn array(&mut self, alloc: Global, token: Token<'a>) -> Result<Decl, Misfit>
        requires next { IsNext self.old token }
        requires is { token.text.now ≡ codes "array" }
        ensures ok { IfOk result (λ decl. FindsDecl decl self.old self.new) }
        ensures misses { IfErr result (λ e. Misses e (Lines true ∷ []) self.old self.new) }
        ensures same { self.new.bytes ≡ self.old.bytes }
    {
        self.take(token);
        let name = self.name()?;
        self.exactly(b"at")?;
        let at = self.number()?.value;
        self.exactly(b"len")?;
        let len = self.number()?.value;
        self.exactly(b";")?;
        self.note(Role::Array { at, len }, name)?;
        let name = name_of(alloc, name.text)?;
        Ok(Decl::Array { name, at, len })
    }

    /// Reads the declaration of a carry that begins with `token`, the next token.
    fn carry(&mut self, alloc: Global, token: Token<'a>) -> Result<Decl, Misfit>
        requires next { IsNext self.old token }
        requires is { token.text.now ≡ codes "carry" }
        ensures ok { IfOk result (λ decl. FindsDecl decl self.old self.new) }
        ensures misses { IfErr result (λ e. Misses e (Lines true ∷ []) self.old self.new) }
        ensures same { self.new.bytes ≡ self.old.bytes }
    {
        self.take(token);
        let name = self.name()?;
        self.exactly(b"=")?;
        let start = self.number()?.value;
        self.exactly(b";")?;
        self.note(Role::Carry, name)?;
        let name = name_of(alloc, name.text)?;
        Ok(Decl::Carry { name, start })
    }

    /// Returns the next token, if it begins a declaration.
    fn decl_word(&self) -> Option<Token<'a>>
        ensures word { IfSome result (λ token. IsNext self.now token × IsDeclWord token) }
        ensures none { IfNone result ((begins_with (codes "array") (left self.now) ≡ false) × (begins_with (codes "carry") (left self.now) ≡ false)) }
    {
        match self.next() {
            Some(next) => {
                if same(next.text, b"array") || same(next.text, b"carry") {
                    Some(next)
                } else {
                    None
                }
            }
            None => None,
        }
    }

    /// Reads the declaration that begins with `token`, the next token.
    fn decl(&mut self, alloc: Global, token: Token<'a>) -> Result<Decl, Misfit>
        requires next { IsNext self.old token }
        requires is { IsDeclWord token }
        ensures ok { IfOk result (λ decl. FindsDecl decl self.old self.new) }
        ensures misses { IfErr result (λ e. Misses e (Lines true ∷ []) self.old self.new) }
        ensures same { self.new.bytes ≡ self.old.bytes }
    {
        if !self.has_room() {
            return Err(Misfit::Memory);
        }
        if same(token.text, b"array") {
            self.array(alloc, token)
        } else {
            self.carry(alloc, token)
        }
    }

    /// Reads the declarations.
    pub fn decls(&mut self, alloc: Global) -> Result<Vec<Decl>, Misfit>
        ensures ok { IfOk result (λ decls. FindsDecls decls.items self.old self.new) }
        ensures ends { OnOk result ((begins_with (codes "array") (left self.new) ≡ false) × (begins_with (codes "carry") (left self.new) ≡ false)) }
        ensures misses { IfErr result (λ e. Misses e (Lines true ∷ []) self.old self.new) }
        ensures same { self.new.bytes ≡ self.old.bytes }
    {
        let mut decls = Vec::new(alloc);
        while let Some(token) = self.decl_word() {
            decls.push(self.decl(alloc, token)?)?;
        }
        Ok(decls)
    }

    /// Reads the `let` that begins with `token`, the next token.
    fn bind(&mut self, alloc: Global, token: Token<'a>) -> Result<Stmt, Misfit>
        requires next { IsNext self.old token }
        requires is { token.text.now ≡ codes "let" }
        ensures ok { IfOk result (λ stmt. FindsStmt stmt self.old self.new) }
        ensures misses { IfErr result (λ e. Misses e (Lines false ∷ []) self.old self.new) }
        ensures same { self.new.bytes ≡ self.old.bytes }
    {
        self.take(token);
        let bound = self.name()?;
        let value = self.value(alloc)?;
        self.note(Role::Bind, bound)?;
        let name = name_of(alloc, bound.text)?;
        Ok(Stmt::Bind { name, value })
    }

    /// Reads the output that begins with `token`, the next token.
    fn emit(&mut self, alloc: Global, token: Token<'a>) -> Result<Stmt, Misfit>
        requires next { IsNext self.old token }
        requires is { token.text.now ≡ codes "out" }
        ensures ok { IfOk result (λ stmt. FindsStmt stmt self.old self.new) }
        ensures misses { IfErr result (λ e. Misses e (Lines false ∷ []) self.old self.new) }
        ensures same { self.new.bytes ≡ self.old.bytes }
    {
        self.take(token);
        let port = self.number()?;
        self.note_port(Role::Output(port.value), port.place)?;
        let Guarded { value, guard } = self.guarded(alloc)?;
        let port = port.value;
        Ok(Stmt::Emit { port, value, guard })
    }

    /// Reads the rest of the assignment that begins with the name `name`. No index follows the name.
    fn assign(&mut self, alloc: Global, name: Token<'a>) -> Result<Stmt, Misfit>
        requires is { is_loop_name name.text.now ≡ true }
        requires alone { begins_with (codes "[") (left self.old) ≡ false }
        ensures ok { IfOk result (λ stmt. FindsChange name.entry stmt self.old self.new) }
        ensures misses { IfErr result (λ e. Misses e (Target ∷ []) self.old self.new) }
        ensures same { self.new.bytes ≡ self.old.bytes }
    {
        self.note(Role::Assign, name)?;
        let value = self.value(alloc)?;
        let name = name_of(alloc, name.text)?;
        Ok(Stmt::Assign { name, value })
    }

    /// Reads a `[`, the index of the word that a statement stores, and a `]`, and returns the index.
    fn place_index(&mut self, alloc: Global) -> Result<Expr, Misfit>
        ensures ok { IfOk result (λ index. FindsPlace index self.old self.new) }
        ensures misses { IfErr result (λ e. Misses e (Exactly (codes "[") ∷ Operand Square false 31 ∷ []) self.old self.new) }
        ensures same { self.new.bytes ≡ self.old.bytes }
    {
        self.exactly(b"[")?;
        let index = self.expr(alloc, MOST_OPEN - 1)?;
        self.exactly(b"]")?;
        Ok(index)
    }

    /// Reads the rest of the store that begins with the name `name` of an array: the index and the value.
    fn store(&mut self, alloc: Global, name: Token<'a>) -> Result<Stmt, Misfit>
        requires is { is_loop_name name.text.now ≡ true }
        requires opens { begins_with (codes "[") (left self.old) ≡ true }
        ensures ok { IfOk result (λ stmt. FindsChange name.entry stmt self.old self.new) }
        ensures misses { IfErr result (λ e. Misses e (Target ∷ []) self.old self.new) }
        ensures same { self.new.bytes ≡ self.old.bytes }
    {
        self.note(Role::Item, name)?;
        let index = self.place_index(alloc)?;
        let name = name_of(alloc, name.text)?;
        let Guarded { value, guard } = self.guarded(alloc)?;
        Ok(Stmt::Put {
            name,
            index,
            value,
            guard,
        })
    }

    /// Reads the rest of the statement that begins with the name `name`.
    fn target(&mut self, alloc: Global, name: Token<'a>) -> Result<Stmt, Misfit>
        requires is { is_loop_name name.text.now ≡ true }
        ensures ok { IfOk result (λ stmt. FindsChange name.entry stmt self.old self.new) }
        ensures misses { IfErr result (λ e. Misses e (Target ∷ []) self.old self.new) }
        ensures same { self.new.bytes ≡ self.old.bytes }
    {
        if self.next_is(b"[") {
            self.store(alloc, name)
        } else {
            self.assign(alloc, name)
        }
    }

    /// Reads the statement that begins with the name `token`, the next token.
    fn change(&mut self, alloc: Global, token: Token<'a>) -> Result<Stmt, Misfit>
        requires next { IsNext self.old token }
        requires is { is_loop_name token.text.now ≡ true }
        ensures ok { IfOk result (λ stmt. FindsStmt stmt self.old self.new) }
        ensures misses { IfErr result (λ e. Misses e (Lines false ∷ []) self.old self.new) }
        ensures same { self.new.bytes ≡ self.old.bytes }
    {
        self.take(token);
        self.target(alloc, token)
    }

    /// Reads the statement that begins with `token`, the next token.
    fn stmt(&mut self, alloc: Global, token: Token<'a>) -> Result<Stmt, Misfit>
        requires { IsNext self.old token }
        ensures ok { IfOk result (λ stmt. FindsStmt stmt self.old self.new) }
        ensures misses { IfErr result (λ e. Misses e (Lines false ∷ []) self.old self.new) }
        ensures same { self.new.bytes ≡ self.old.bytes }
    {
        if same(token.text, b"let") {
            self.bind(alloc, token)
        } else if same(token.text, b"out") {
            self.emit(alloc, token)
        } else if is_name(token.text) {
            self.change(alloc, token)
        } else {
            Err(Misfit::Text)
        }
    }

    /// Reads the statements, up to the end of the text.
    pub fn stmts(&mut self, alloc: Global) -> Result<Vec<Stmt>, Misfit>
        ensures ok { IfOk result (λ stmts. FindsStmts stmts.items self.old self.new) }
        ensures ends { OnOk result (tokens_at double self.new.bytes.now self.new.at ≡ []) }
        ensures misses { IfErr result (λ e. Misses e (Lines false ∷ []) self.old self.new) }
        ensures same { self.new.bytes ≡ self.old.bytes }
    {
        let mut stmts = Vec::new(alloc);
        while let Some(token) = self.next() {
            stmts.push(self.stmt(alloc, token)?)?;
        }
        Ok(stmts)
    }
}
