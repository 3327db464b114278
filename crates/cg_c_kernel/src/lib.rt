//! The parts of which the nodes of a kernel are made from the draft of a turn of a loop nest in C.
//!
//! The values of the turn are made again in the forms that nodes compute, and those that no store and no output needs get
//! no node. The others get theirs in the order in which the effects of the turn need them; at last each word that is
//! carried from turn to turn gets the edge that carries it.
#![tactic(auto)]

mod acts;
mod building;
mod carrying;
mod edges;
mod effects;
mod emission;
mod live;
mod marked;
mod marks;
mod sketch;

pub use acts::Act;
pub use building::nodes_from;
pub use carrying::Carrying;
pub use edges::{Edge, Edges};
pub use effects::{load, send, store};
pub use emission::Emission;
pub use live::live_of;
pub use marked::Live;
pub use sketch::{Ref, Refs, Sketch};
