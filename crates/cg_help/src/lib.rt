//! The help: the first fault of words that fit no command, and the words that would fit.
#![tactic(auto)]

mod commands;
mod faults;
mod list;
mod nearest;
mod numbers;
mod reader;
mod shown;
mod usages;
mod words;

pub use commands::COMMANDS;
pub use list::short_list;
pub use nearest::nearest_name;
pub use shown::push_shown;
pub use words::note_words;
