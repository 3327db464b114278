//! The faults that are checked in the description of a kernel.

/// The faults K3 to K16.
#[derive(Clone, Copy, Debug, PartialEq, Eq)]
pub enum Rule {
    UnknownKey,
    TooLarge,
    BadName,
    RepeatedName,
    UnknownOp,
    WrongOperandCount,
    UnknownNode,
    NoValue,
    BackEdgeWithoutDistance,
    BadDistance,
    InitCount,
    TwoConstants,
    BadPort,
    RepeatedOutputPort,
}
