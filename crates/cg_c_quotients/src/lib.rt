//! How the number of a turn divided by a constant is computed with operations on 32-bit words.
//!
//! A loop nest of several loops has one number for each of its turns, and the counters of its loops are quotients and
//! remainders of that number. A kernel has no division: a quotient is the number itself, a shift, a shifted product, or
//! a recurrence.
#![tactic(auto)]

mod digits;
mod factors;
mod powers;
mod quotients;

pub use digits::mask_of;
pub use quotients::{Quotient, quotient_of};
