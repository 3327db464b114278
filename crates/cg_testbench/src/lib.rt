//! Test benches of arrays in Verilog: behavioural cells, the configuration and the image, and the expected result.
#![tactic(auto)]

mod array;
mod bench;
mod cells;
mod frame;
mod lines;
mod pieces;
mod setup;
mod sizes;
mod unit;

pub use bench::bench_of;
