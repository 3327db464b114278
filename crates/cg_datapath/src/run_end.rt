//! The end of a run.

use cg_pad::Image;

/// What a run of the array, or of its gates, has left.
#[derive(Drop)]
pub struct RunEnd {
    /// The number of cycles of the run.
    pub cycles: u64,
    /// The memory and the output streams.
    pub image: Image,
    /// The number of accesses outside the memory.
    pub outside: u64,
}
