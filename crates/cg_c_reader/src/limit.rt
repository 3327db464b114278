//! The limit of open constructs.

/// The greatest number of constructs that may be open at once.
pub(crate) const MOST_OPEN: u32 = 60;
