//! Notes on bits, images, texts of words, mappings that aren't legal, and runs: which field of which unit or resource is
//! wrong, which word of a memory or a stream, which rule a mapping violates, and what a run left out.
#![tactic(auto)]

mod array;
mod bits;
mod images;
mod meeting;
mod names;
mod notes;
mod outside;
mod parts;
mod places;
mod placing;
mod routing;
mod signs;
mod streams;
mod texts;
mod timing;
mod turns;
mod unordered;

pub use array::{ArrayRun, array_notes};
pub use bits::{BitsCall, find_in_bits};
pub use images::find_in_image;
pub use notes::{LegalCall, rule_notes};
pub use texts::find_in_text;
pub use turns::{KernelRun, image_notes, turns_notes};
pub use unordered::unordered_notes;
