//! Values over again, with digits of the turn's number in the form in which a kernel computes them.
//!
//! The values of a turn know digits of the turn's number, which no operation of a kernel gives. Here each value is made
//! again from the first to the last, a digit as quotients, masks and differences, and what is then simpler is simplified:
//! a load whose guard always holds or that is done in each turn anyway loses its guard.
#![tactic(auto)]

mod anew;
mod digits;
mod loads;

pub use anew::{Anew, made_anew};
