//! Lists of names in sentences.

use std::alloc::{AllocError, Global};

/// The maximum number of names of a list that are shown.
const MOST_SHOWN: usize = 8;

/// Returns the first of `names`, separated by commas, with two points at the end if there are more.
pub fn short_list(alloc: Global, names: &[&str]) -> Result<String, AllocError> {
    let mut list = String::new(alloc);
    for (number, name) in names.iter().take(MOST_SHOWN).enumerate() {
        if number > 0 {
            list.push_str(", ")?;
        }
        list.push_str(name)?;
    }
    if names.len() > MOST_SHOWN {
        list.push_str(" ..")?;
    }
    Ok(list)
}
