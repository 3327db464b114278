//! Images of memory and streams as texts of words in sections: read from a text written by hand, and printed as a text
//! that reads back.
#![tactic(auto)]

mod fault;
mod field;
mod number;
mod place;
mod print;
mod reading;
mod run;
mod sections;
mod texts;

pub use fault::{Misread, TextFault};
pub use place::Place;
pub use print::print_text;
pub use reading::read_text;
pub use run::Run;
pub use sections::Section;
pub use texts::text_fault_text;
