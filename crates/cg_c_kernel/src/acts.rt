//! The effects of a turn over new values.

/// What becomes of an effect. What it uses are new values, by their numbers.
#[derive(Clone, Copy, Debug, PartialEq, Eq)]
pub enum Act {
    /// A store or an output that never acts.
    Idle,
    /// Loads a value, if that is a load still, from an array.
    Load {
        array: usize,
        value: usize,
    },
    /// Stores a word at an address in an array.
    Store {
        guard: Option<usize>,
        array: usize,
        address: usize,
        word: usize,
    },
    /// Appends a word to the stream of a port.
    Send {
        guard: Option<usize>,
        port: u32,
        word: usize,
    },
}
