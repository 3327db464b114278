//! Loop bodies.
ghost use Rattle.cg_loop_syntax.specs.Well.{IsWell};
ghost use Rattle.std.proofs.Props.{props};

use crate::syntax::Expr;
use cg_model::{Items, Name};

/// A declaration.
#[derive(Drop)]
pub enum Decl {
    /// An array: `len` words of the memory from the address `at` on.
    Array { name: Name, at: u32, len: u32 },
    /// A carry: a word that goes from iteration to iteration, `start` in the first.
    Carry { name: Name, start: u32 },
}

/// A statement.
#[derive(Drop)]
pub enum Stmt {
    /// `let`: gives a value a name for the rest of the iteration.
    Bind {
        name: Name,
        value: Expr,
    },
    /// Sets the word of a carry for the next iteration.
    Assign {
        name: Name,
        value: Expr,
    },
    /// Stores a word of an array, if the guard is absent or not 0.
    Put {
        name: Name,
        index: Expr,
        value: Expr,
        guard: Option<Expr>,
    },
    /// `out`: appends to the output stream of a port, if the guard is absent or not 0.
    Emit {
        port: u32,
        value: Expr,
        guard: Option<Expr>,
    },
}

/// A loop body: its declarations, and the statements of an iteration.
///
/// It keeps the rules of the language for names, ports, operations and brackets.
#[derive(Drop)]
pub struct LoopBody {
    pub decls: Items<Decl>,
    pub stmts: Items<Stmt>,
    // The rules.
    ghost well: { IsWell decls stmts } by { Prim.hlevel props },
}
