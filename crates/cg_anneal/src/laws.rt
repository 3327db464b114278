//! Laws of how the walk ends, and the plain walk, with the clause of `search`.
ghost use Rattle.cg_anneal.specs.Laws.{IsOneTime, IsOneAnswer, IsLegalEnd};

mod plain;

pub use plain::plain_search;

/// States that the walk has one end: a kernel has one list of earliest times at an interval, and these determine how
/// the walk ends. So `search` gives one answer.
pub fn one_answer()
    ensures times { IsOneTime }
    ensures answer { IsOneAnswer }
{}

/// States that what `search` finds is a legal mapping of the kernel on the architecture at that interval.
pub fn legal_end()
    ensures { IsLegalEnd }
{}
