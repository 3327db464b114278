//! Where a word comes from.

/// The greatest number of cycles that a result may be kept for a run by sources.
pub const MOST_DELAY: u32 = 255;

/// Where the word on a resource comes from in the cycles of a slot.
#[derive(Clone, Copy)]
pub enum Source {
    /// This word, in every cycle.
    Word(u32),
    /// The result of a unit, given by number, that it began that number of cycles ago; 0 in the cycles before.
    Result(u32, u32),
}
