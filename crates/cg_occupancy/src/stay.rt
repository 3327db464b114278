//! A value on a resource.

/// The value of a node on a resource of its path.
#[derive(Clone, Copy, Debug, PartialEq, Eq)]
pub struct Stay {
    /// The number of the node that computes the value.
    pub source: u32,
    /// The number of the resource.
    pub resource: u32,
    /// The cycle in which the value is on the resource in iteration 0.
    pub time: u64,
    /// The resource from which it comes; None at the start of its path.
    pub from: Option<u32>,
}
