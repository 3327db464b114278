//! The position of a value.

/// The resource on which a value is, and when.
#[derive(Clone, Copy, Debug, PartialEq, Eq)]
pub struct Stand {
    /// The resource.
    pub resource: u32,
    /// The cycle, counted from the origin of times.
    pub time: u32,
}
