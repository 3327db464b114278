//! Notes for the user on a call of a command: where in a file a fault lies, what an answer means, or what a run left
//! out.
#![tactic(auto)]

mod answered;
mod answers;
mod calls;
mod files;
mod given;
mod refused;

pub use calls::note_call;
pub use files::note_files;
