//! The state of a run of units and its step by one cycle, over words by number.
#![tactic(auto)]

mod course;
mod effects;
mod fault;
mod moment;
mod outs;
mod run_end;
mod start;
mod streams;
mod terminals;
mod texts;
mod unit_in_slot;
mod units;

pub use course::{Course, check_run};
pub use effects::{Effects, Store, Stream, begin_work};
pub use fault::SimFault;
pub use run_end::RunEnd;
pub use start::{length_in_cycles, no_effects};
pub use streams::all_words;
pub use terminals::Terminals;
pub use texts::sim_fault_text;
