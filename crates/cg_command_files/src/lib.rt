//! The commands that translate a file: `loop`, `depend`, `simplify`, `image`, `words`, `verilog`, `migrate`.
#![tactic(auto)]

mod depending;
mod imaging;
mod looping;
mod migrating;
mod netlisting;
mod reading_loop;
mod simplifying;
mod wording;

pub use depending::depend;
pub use imaging::image;
pub use looping::loop_answer;
pub use migrating::migrate;
pub use netlisting::verilog;
pub use simplifying::simplify;
pub use wording::words;
