//! The terminals of a unit: where it reads its operands and gives its result.

/// The ports, the out and the latency of a unit, as numbers of words. A port that doesn't exist has the number past the
/// last word that is written.
#[derive(Clone, Copy)]
pub struct Terminals {
    pub ports: [u32; 3],
    pub out: u32,
    pub latency: u32,
}
