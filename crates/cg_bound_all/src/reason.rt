//! Reasons, and their kinds.

use cg_bound_registers::Pressure;
use cg_bound_routes::Missing;
use cg_recur::EdgeId;
use cg_word::OpSet;

/// A kind of reasons.
#[derive(Clone, Copy, Debug, PartialEq, Eq, Drop)]
pub enum Kind {
    /// A closed chain of edges that is too long.
    Recurrence,
    /// A set of operations for which there are more nodes than the units can begin.
    Class,
    /// A data edge without a way, or a closed chain that is too long with the registers on the ways.
    Ways,
    /// Values that need more registers than there are.
    Registers,
}

/// Why no legal mapping has an interval.
#[derive(Drop)]
pub enum Reason {
    /// The edges of a closed chain whose latencies exceed the interval times its distances.
    Recurrence(Vec<EdgeId>),
    /// The operations of more nodes than the units can begin in the interval.
    Class(OpSet),
    /// A data edge for which there is no way through the architecture.
    NoWay(Missing),
    /// The edges of a closed chain whose latencies, plus the least numbers of registers that their values cross, exceed
    /// the interval times its distances.
    Ways(Vec<EdgeId>),
    /// The edges of a circulation, by which values need more register slots than there are.
    Registers(Pressure),
}
