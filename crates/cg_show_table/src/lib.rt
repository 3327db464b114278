//! The report on a legal mapping: the nodes that its units begin in each slot, the part of the array that it uses, and
//! the requirements of a lower interval.
#![tactic(auto)]

mod columns;
mod margin;
mod table;

pub use cg_occupancy::Marks;
pub use margin::{FullClass, LongChain, Margin, margin_of};
pub use table::{table_lines, table_text};
