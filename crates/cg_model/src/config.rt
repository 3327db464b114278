//! The fields of a configuration for a unit in a slot.

use cg_word::Op;

/// The fields of a configuration for one argument of a unit.
///
/// The argument is the immediate where `fixed` is set. Otherwise it is, in each of the first `count` turns, the initial
/// word with the turn's number, and from then on the word on the port.
#[derive(Clone, Copy, Debug, PartialEq, Eq)]
pub struct ArgFields {
    /// The mode bit.
    pub fixed: bool,
    /// The number of initial words, 0 to 4.
    pub count: u32,
    /// The initial words, 0 from `count` on.
    pub init: [u32; 4],
}

/// The fields of a unit in a slot.
#[derive(Clone, Copy, Debug, PartialEq, Eq)]
pub struct UnitFields {
    /// Its operation, `None` where the unit is off.
    pub op: Option<Op>,
    /// The round in which it works on turn 0, where a round is `ii` cycles; at most 65,534.
    pub stage: u32,
    /// The stream of an input, output or outputif, 0 to 15; 0 for all other operations.
    pub port: u32,
    /// The constant argument, 0 where there is none.
    pub immediate: u32,
    /// The arguments, in the order of ports.
    pub args: [ArgFields; 3],
}
