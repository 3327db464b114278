//! A store of files and a sink of bytes, specified by what they reveal and how often they failed.
#![tactic(auto)]

mod disk;
mod fail;
mod memory;
mod sink;
mod store;

pub use disk::{DiskStore, StdSink};
pub use fail::{SinkFail, StoreFail};
pub use memory::{MemSink, MemStore};
pub use sink::Sink;
pub use store::Store;
