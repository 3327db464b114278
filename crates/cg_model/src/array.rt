//! Resources and units of architectures.

use crate::lists::{Name, Words};
use cg_word::OpSet;

/// The kind of a resource, which says when the resource has the word of its selected driver.
#[derive(Clone, Copy, Debug, PartialEq, Eq)]
pub enum Kind {
    /// It has the word of its driver in the same cycle.
    Wire,
    /// It has the word that its driver had one cycle ago.
    Register,
    /// An argument of a unit. It has the word of its driver in the same cycle, and drives nothing.
    Port,
    /// The result of a unit. It has no drivers.
    Out,
}

/// A resource of an architecture: a wire, a register, or a port or the out of a unit.
#[derive(Drop)]
pub struct Resource {
    /// Its flat name, for example `r0c1_h`; the name of a port or an out begins with its unit's name.
    pub name: Name,
    /// Its kind.
    pub kind: Kind,
    /// The numbers of the resources that may drive it. A select j > 0 selects driver number j, counted from 1.
    pub drivers: Words,
}

/// A unit of an architecture. It may begin one operation in each cycle.
#[derive(Drop)]
pub struct Unit {
    /// Its flat name.
    pub name: Name,
    /// The operations that it offers.
    pub ops: OpSet,
    /// The cycles from the beginning of an operation to its result on the out, 1 to 4.
    pub latency: u32,
    /// The resource numbers of its ports, in the order of arguments; at most three.
    pub ports: Words,
    /// The resource number of its out.
    pub out: u32,
}
