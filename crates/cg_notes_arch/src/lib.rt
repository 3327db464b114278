//! All that is wrong in an architecture file, in sentences: its keys, the parts of its tiles, the elements of its cells
//! and what drives them.
#![tactic(auto)]

mod drivers;
mod elements;
mod files;
mod heads;
mod names;
mod ops;
mod others;
mod parts;
mod reach;
mod references;
mod rows;
mod tiles;

pub use files::arch_findings;
