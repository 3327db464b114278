//! Configurations that are read in place, from the bytes of a bitstream.
#![tactic(auto)]

mod config_view;
mod context_view;
mod unit_view;

pub use cg_bits::{ArgFields, BitsFault, Contexts, UnitFields, bits_fault_text};
pub use cg_config::UnitHead;
pub use config_view::ConfigView;
pub use context_view::ContextView;
pub use unit_view::UnitView;
