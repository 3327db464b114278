//! What the reasons are about.

use crate::numbers::{HopTables, Numbers};
use cg_recur::{Arch, Kernel};

/// A kernel on an architecture, with the registers on its ways.
#[derive(Clone, Copy)]
pub struct Instance<'a> {
    pub arch: &'a Arch,
    pub kernel: &'a Kernel,
    /// The numbers for all intervals.
    pub tables: &'a HopTables,
}

/// A kernel on an architecture at one interval.
#[derive(Clone, Copy)]
pub(crate) struct AtInterval<'a> {
    pub arch: &'a Arch,
    pub kernel: &'a Kernel,
    /// The numbers for the interval.
    pub numbers: &'a Numbers,
    /// The interval.
    pub ii: u32,
}
