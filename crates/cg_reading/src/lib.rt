//! Shared parts of readers of files: why a value can't be read, arrays read item by item, unknown keys, and the
//! number of the first item of each name.
#![tactic(auto)]

mod items;
mod keys;
mod misfit;
mod numbers;

pub use items::{ItemReader, all_of, all_or_first};
pub use keys::has_other;
pub use misfit::{Misfit, WRONG_SHAPE};
pub use numbers::{Named, Numbers, add_first, is_before, number_in, numbers_of};
