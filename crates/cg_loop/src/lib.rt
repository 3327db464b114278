//! The kernel of a loop body.
#![tactic(auto)]

mod code;
mod cost;
mod exprs;
mod kernel;
mod names;
mod ordering;
mod scope;
mod statements;

pub use cg_loop_reader::{loop_fault_text, read_loop};
pub use cg_loop_syntax::{
    Atom, Compare, Decl, Excess, Expr, LoopBody, LoopFault, Name, Op, Prod, Stmt, Sum, Term,
};
pub use kernel::loop_kernel;
