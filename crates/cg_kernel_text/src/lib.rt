//! Kernels as text.
#![tactic(auto)]

mod laws;
mod print;

pub use laws::text_reads_back;
pub use print::print_kernel;
