//! The order in which the resources of an architecture are evaluated within a cycle, or a combinational loop that
//! prevents such an order.
#![tactic(auto)]

mod fault;
mod laws;
mod order;
mod ring;
mod walk;

pub use fault::OrderFault;
pub use laws::orders_give_levels;
pub use order::topological_order;
