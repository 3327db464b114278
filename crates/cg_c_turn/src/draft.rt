//! A turn as far as it is translated.
use crate::effect::{Effect, Latest};
use cg_c_check::Array;
use cg_c_values::Values;
use std::alloc::Global;

/// The values and effects of a turn up to a point in the source.
#[derive(Drop)]
pub struct Draft<'p> {
    pub(crate) alloc: Global,
    /// The arrays of the program.
    pub arrays: &'p [Array],
    /// The values of the counters of the loops around the point, the outermost first.
    pub counters: Vec<usize>,
    /// The values so far.
    pub values: Values,
    /// The effects so far, in the order in which the turn does them.
    pub effects: Vec<Effect>,
    /// The guard of the point.
    pub guard: Option<usize>,
    /// The value of each word that was assigned in this turn, by its number.
    pub words: Vec<Option<usize>>,
    /// The word that each word has when the first turn begins, by its number; 0 for the numbers behind.
    pub initial: Vec<u32>,
    /// What was last stored to each array.
    pub latest: Vec<Latest>,
}

/// What is wanted of an expression.
#[derive(Clone, Copy, Debug, PartialEq, Eq)]
pub enum Wanted {
    /// Its word.
    TheWord,
    /// A value that is 0 where its word is 0, and nowhere else.
    ACondition,
}
