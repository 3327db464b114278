//! Checking sources in C: their typed programs, and the faults that no grammar sees.
#![tactic(auto)]

mod arrays;
mod check;
mod checker;
mod constants;
mod expressions;
mod fault;
mod globals;
mod loops;
mod names;
mod nests;
mod ports;
mod program;
mod reserved;
mod rules;
mod statements;

pub use check::check_c;
pub use expressions::signedness_of;
pub use fault::CheckFault;
pub use program::{
    Array, Constant, Element, Expr, Initial, Level, Link, Program, Range, Stmt, Target,
};
pub use rules::reading_of;
