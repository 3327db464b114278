//! The claims of a node.

/// The cost that each claim on a node adds to one more claim.
pub(crate) const CLAIM_TOLL: u64 = 8;

/// A claim on a node, and the number of its uses.
#[derive(Clone, Copy, Debug, PartialEq, Eq, Drop)]
pub struct ClaimUse {
    /// The node of the kernel whose value it is.
    pub source: u32,
    /// The cycle of the first iteration in which the value is there.
    pub time: u32,
    /// The resource from which it comes; none if the path begins there.
    pub before: Option<u32>,
    /// The number of positions that make this claim.
    pub uses: u64,
}
