//! Loops in C: the tokens of a text, the tree of a source, and the grammar that relates them.
#![tactic(auto)]

mod expression;
mod laws;
mod opening;
mod source;
mod statement;
mod token;

pub use cg_model::{Items, Name};
pub use expression::{Binary, Cast, Element, Expr, Link, Named, Number, Pick, Sign};
pub use laws::one_reading;
pub use opening::{Beginning, Change, Opening};
pub use source::{Array, Constant, Global, Rows, Source, Table};
pub use statement::{Loop, Nest, Signedness, Stmt, Word};
pub use token::{Kind, Line, Piece};
