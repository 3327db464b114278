//! One turn of a loop nest in C as values and effects. An operand that is evaluated only under a condition is translated
//! once, and its loads get the condition as a guard; where the branches of a condition assign a word, its value behind them
//! is selected. What stands before and after a loop is done in the first and the last turn of it.
#![tactic(auto)]

mod assignments;
mod branches;
mod draft;
mod edges;
mod effect;
mod expressions;
mod loads;
mod statements;
mod turn;
mod words;

pub use draft::{Draft, Wanted};
pub use effect::{Effect, Latest, Stored};
pub use turn::turn_of;
