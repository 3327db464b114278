//! The parameters of a search for a mapping.

/// The parameters of a search for a mapping: the intervals that it tries, its random seed and its budget of moves.
#[derive(Clone, Copy, Debug, PartialEq, Eq)]
pub struct Request {
    /// The only interval to try, in cycles; None to try each interval from the least one on.
    pub ii: Option<u32>,
    /// The seed of the random words.
    pub seed: u64,
    /// The greatest number of moves at one interval: of the walk for `map`, best responses for `search`.
    pub moves: u32,
}
