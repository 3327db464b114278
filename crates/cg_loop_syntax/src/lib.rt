//! Loop bodies as they are written: declarations, statements, and expressions, which nest by brackets alone.
#![tactic(auto)]

mod body;
mod fault;
mod syntax;
mod uses;

pub use body::{Decl, LoopBody, Stmt};
pub use cg_model::Name;
pub use cg_word::Op;
pub use fault::{Excess, LoopFault};
pub use syntax::{Atom, Compare, Expr, Prod, Sum, Term};
pub use uses::Role;
