//! Notes for the user, apart from the report.
#![tactic(auto)]

/// Takes notes and progress for the user. No contract says which ones are given, or when.
pub trait Aside {
    /// Takes the note `text`: one line, without a line feed.
    fn note(&mut self, text: &str);

    /// Reports that a search at the interval `ii`, in cycles, made `moves` moves, and that `least` is the least number
    /// of faults that it met so far; in the walk of `map` the least cost, at most the greatest word.
    fn progress(&mut self, ii: u32, moves: u32, least: u32);

    /// Reports that no more progress follows: its display is removed.
    fn end_progress(&mut self);
}

/// An aside that discards notes and progress.
#[derive(Clone, Copy, Drop)]
pub struct Silent;

impl Aside for Silent {
    fn note(&mut self, _text: &str) {}

    fn progress(&mut self, _ii: u32, _moves: u32, _least: u32) {}

    fn end_progress(&mut self) {}
}
