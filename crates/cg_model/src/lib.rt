//! The types of kernels, architectures, mappings and configurations, and in `specs/` what they mean: what the turns of
//! a kernel do, when a mapping is legal, what the array does in each cycle, and what the overlap theorem says of them.
//! The repository's `docs/array.md` explains each definition in prose.
#![tactic(auto)]

mod array;
mod config;
mod copy;
mod kernel;
mod limits;
mod lists;
mod mapping;
mod names;
mod request;

pub use array::{Kind, Resource, Unit};
pub use config::{ArgFields, UnitFields};
pub use copy::{copy_node, copy_nodes, copy_operand, copy_operands};
pub use kernel::{Kernel, Node, Operand, OrderEdge};
pub use limits::{
    LAST_PORT, LATEST_TIME, LONGEST_NAME, LONGEST_NODE_NAME, MOST_CONTEXTS, MOST_DISTANCE,
    MOST_LINKS, MOST_MEMORY, MOST_MOVES, MOST_NODES, MOST_ORDER_DISTANCE, MOST_ORDER_EDGES,
    MOST_RESOURCES, MOST_SIDE, MOST_STREAM, MOST_TURNS, MOST_UNITS, PORTS,
};
pub use lists::{Items, Name, Operands, Words};
pub use mapping::{Mapping, Place, Route};
pub use names::{is_identifier, is_name};
pub use request::Request;
