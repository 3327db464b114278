//! The answers of a search for a mapping.

use cg_bound::Certificate;
use cg_check::LegalMapping;

/// The way in which a mapping was found.
#[derive(Clone, Copy, Debug, PartialEq, Eq, Drop)]
pub enum FoundBy {
    /// By the mapping over the hub.
    Hub,
    /// By the command's own search, after the given number of moves.
    Moves(u32),
}

/// The answer of a search for a mapping. `L` is what the search leaves where it finds none.
#[derive(Drop)]
pub enum Answer<'a, L> {
    /// The last interval that would be tried is impossible, and this is why.
    Impossible(Certificate),
    /// A mapping of an interval that was tried.
    Mapped(LegalMapping<'a>, FoundBy),
    /// No mapping, and what the search leaves.
    Unmapped(L),
}
