//! Places in texts: where a value begins, by a path of keys and numbers in JSON, by the name of a tile and the number of
//! a part in TOML; and findings at such places.
#![tactic(auto)]

mod finding;
mod headers;
mod json;
mod lines;
mod tiles;
mod words;

pub use finding::{Finding, Findings, MOST_PARSED, Place};
pub use headers::{header_tile, last_tile, table_line};
pub use json::{Step, json_key_at, json_value_at};
pub use lines::{key_line, key_line_in, unknown_key_line};
pub use tiles::tile_part_at;
pub use words::{behind_blanks, blanks_at_end, is_word_byte, last_byte, last_word, words_of};
