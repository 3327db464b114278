//! The answer of a search by best responses: the intervals that are tried, in which order and with how many moves each,
//! and their result: a mapping, or the best mapping at each interval; or why each interval is excluded.
#![tactic(auto)]

mod answering;
mod begin;
mod descent;
mod misses;
mod plan;
mod probing;
mod retrying;
mod schedule;
mod trying;

pub use answering::{Failure, search_answer};
pub use begin::Exclusion;
pub use misses::Miss;
