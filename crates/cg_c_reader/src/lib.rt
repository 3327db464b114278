//! Reading texts in C: their tokens, and the lines and columns of their places.
#![tactic(auto)]

mod bytes;
mod comments;
mod declarations;
mod directives;
mod expressions;
mod fault;
mod limit;
mod loops;
mod marks;
mod names;
mod numbers;
mod pieces;
mod places;
mod read;
mod reader;
mod statements;
mod tokens;
mod values;
mod words;

pub use places::{Position, position_of};
pub use read::{CFault, read_c};
pub use tokens::{Cursor, Cut, Token, next_token};
