//! The accesses of a kernel.

/// A node that accesses an array, by their numbers, and whether it stores.
#[derive(Clone, Copy, Debug, PartialEq, Eq, Drop)]
pub struct Access {
    pub node: u32,
    pub array: usize,
    pub stores: bool,
}
