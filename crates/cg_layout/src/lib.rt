//! The parts of pictures of arrays: the places of resources and units in a panel, the ways of lines, and elements of
//! SVG.
#![tactic(auto)]

mod frame;
mod layout;
mod seats;
mod spot;
mod svg;
mod tiled;
mod tiles;
mod ways;

pub use layout::Layout;
pub use spot::{Frame, Spot};
pub use svg::{Area, push_group, push_mark, push_path, push_rect, push_ring, push_words};
