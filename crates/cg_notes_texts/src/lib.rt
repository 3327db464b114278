//! Notes on texts: what is wrong in texts that aren't JSON or TOML, in loop bodies and in netlists.
#![tactic(auto)]

mod arrays;
mod cells;
mod conditions;
mod foreign;
mod hints;
mod json;
mod loops;
mod netlists;
mod quotes;
mod scope;
mod statements;
mod syntax;
mod token;

pub use loops::find_in_loop;
pub use netlists::{find_in_gates, find_in_netlist};
pub use syntax::{find_in_json, find_in_toml};
