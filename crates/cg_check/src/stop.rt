//! The position of a value on its path.

/// A resource, and a cycle in iteration 0.
#[derive(Clone, Copy)]
pub(crate) struct At {
    pub resource: u32,
    pub time: u64,
}

/// A value on a resource of its path.
#[derive(Clone, Copy)]
pub struct Stop {
    /// The number of the node whose value it is.
    pub source: u32,
    /// The number of the resource.
    pub resource: u32,
    /// The cycle of iteration 0 in which the value is there.
    pub time: u64,
    /// The resource before it on the path; `None` at the path's start.
    pub from: Option<u32>,
}

/// What the values that meet on a resource in a slot must share.
#[derive(Clone, Copy)]
pub enum Sharing {
    /// Source and time, so that they are one value.
    Value,
    /// The resource from which they come.
    Way,
}

/// The claims of a resource in a slot.
#[derive(Clone, Copy)]
pub enum Cell {
    /// No value is there.
    Free,
    /// A value is there, and all others that are there share with it what they must.
    Held(Stop),
    /// Two values are there that don't share what they must.
    Clash,
}
