//! Slips in files of the formats: what is wrong at which place, in a sentence, which shapes objects have, and which keys
//! JSON files.
#![tactic(auto)]

mod heads;
mod names;
mod shape;
mod slip;
mod words;

pub use heads::{find_in_file, find_item, missing};
pub use names::{no_name, shown, unknown_key, unknown_operation};
pub use shape::{Item, Kind, Shape, are_words, items_at, items_of};
pub use slip::{At, Rule, Slips, Spot};
pub use words::operation_meant;
