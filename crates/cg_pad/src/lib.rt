//! Images of memory and streams, the scratchpad of a run, and the effect of an operation on it.
#![tactic(auto)]

mod fault;
mod image;
mod reading;
mod scratchpad;
mod texts;
mod work;
mod writing;

pub use cg_model::{PORTS, Words};
pub use fault::{ImageFault, TooLargePlace};
pub use image::{Image, Streams, empty_streams};
pub use reading::read_image;
pub use scratchpad::Scratchpad;
pub use texts::image_fault_text;
pub use work::Work;
pub use writing::{reads_back, write_image};
