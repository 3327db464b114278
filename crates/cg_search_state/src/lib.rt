//! The state of a search for a mapping by best responses: the places of nodes, the routes of values, and the cost of
//! both.
#![tactic(auto)]

mod ends;
mod joining;
mod pool;
mod routes;
mod routing;
mod standing;
mod state;
mod together;

pub use cg_search_router::{Extent, Stand};
pub use ends::{Connection, Leaving, leaving_of, reading_of};
pub use routes::Routes;
pub use state::{State, is_before};
