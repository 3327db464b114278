//! What a turn does beside computing.

/// A load, a store or a word sent, in the order in which a turn does them; what they use are values, by their numbers. It
/// acts where its guard isn't 0, or always if it has none.
#[derive(Clone, Copy, Debug, PartialEq, Eq)]
pub enum Effect {
    /// Loads `value` from an address in an array. `place` is that of the array's name in the source.
    Load {
        guard: Option<usize>,
        array: usize,
        address: usize,
        value: usize,
        place: usize,
    },
    /// Stores a word at an address in an array.
    Store {
        guard: Option<usize>,
        array: usize,
        address: usize,
        word: usize,
        place: usize,
    },
    /// Appends a word to the stream of a port.
    Send {
        guard: Option<usize>,
        port: u32,
        word: usize,
    },
}

/// A word that was stored.
#[derive(Clone, Copy, Debug, PartialEq, Eq)]
pub struct Stored {
    pub guard: Option<usize>,
    pub address: usize,
    pub word: usize,
}

/// The number of stores to an array so far, and the latest of them.
#[derive(Clone, Copy, Debug, PartialEq, Eq)]
pub struct Latest {
    pub version: usize,
    pub stored: Option<Stored>,
}
