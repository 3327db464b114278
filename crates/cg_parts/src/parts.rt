//! An architecture as a designer writes it.

use cg_model::{Items, Name};
use cg_word::OpSet;

/// A list of names.
pub type Names = Items<Name>;

/// An element of an architecture. Its drivers are names of resources.
#[derive(Drop)]
pub enum Element {
    /// A wire, which is one resource.
    Wire {
        name: Name,
        drivers: Names,
    },
    /// A register, which is one resource.
    Register {
        name: Name,
        drivers: Names,
    },
    /// A unit, whose ports and out are resources. They are named after it: `U_a`, `U_b` and `U_c` for the ports of a
    /// unit `U`, and `U_o` for its out.
    Unit {
        name: Name,
        ops: OpSet,
        /// Cycles from the beginning of an operation to its result, 1 to 4.
        latency: u32,
        /// The drivers of each port, in the order of arguments.
        ports: Items<Names>,
    },
}

/// The parts of an architecture.
#[derive(Drop)]
pub struct Parts {
    pub name: Name,
    /// The greatest number of slots of a configuration, 1 to 64.
    pub contexts: u32,
    /// The number of words of the scratchpad.
    pub memory: u32,
    /// The wires, registers and units, in the order of their numbers.
    pub elements: Items<Element>,
    /// The registers of the hub; empty where there is no hub.
    pub hub: Names,
}
