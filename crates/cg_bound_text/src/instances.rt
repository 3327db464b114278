//! What the text of a reason is about.

use cg_recur::{Arch, Kernel};

/// A kernel on an architecture at one interval.
#[derive(Clone, Copy)]
pub struct AtInterval<'a> {
    pub arch: &'a Arch,
    pub kernel: &'a Kernel,
    /// Three numbers per node: for each operand the least number of registers that a value crosses on its way there.
    pub hops: &'a [u32],
    /// The interval.
    pub ii: u32,
}
