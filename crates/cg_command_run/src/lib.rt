//! The commands that run: a kernel, an array, a netlist in its place, a bench, trials; and `flat`.
#![tactic(auto)]

mod benching;
mod flattening;
mod imaging;
mod reading_netlist;
mod running;
mod running_gates;
mod simulating;
mod streams;
mod trial_runs;
mod trial_summary;
mod turning;

pub use benching::bench;
pub use flattening::flat;
pub use imaging::turns_on_image;
pub use running_gates::run_netlist;
pub use simulating::run;
pub use trial_summary::trial;
pub use turning::turns;
