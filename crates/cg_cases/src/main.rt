//! Runs the transcripts that its arguments name: worked cases as data, each a call of `run_line` over files in memory
//! and what the call must leave. Prints a line for each transcript, preceded by the differences. At the end it makes
//! some calls on the files of the system, and checks what the system's store keeps.
#![tactic(auto)]

mod bench;
mod content;
mod disk;
mod series;
mod source;
mod transcript;

use std::rt::Files;
use std::{env, fs, io};
use transcript::Transcript;

fn main(rt: HostRuntime) -> io::Result<()> {
    for name in env::args(&rt)?.skip(1) {
        run_file(&rt, name.as_str())?;
    }
    disk::run_calls(&rt)?;
    disk::keep_files(&rt)
}

/// Runs the transcript in the file `name`, and prints its report.
fn run_file(rt: &(impl Files + Print + AllocGlobal), name: &str) -> io::Result<()> {
    let alloc = rt.alloc();
    let text = fs::read_to_string(rt, name)?;
    let title = name.strip_suffix(".cases").unwrap_or(name);
    let mut transcript = Transcript::new(alloc, title)?;
    for line in text.as_str().lines() {
        transcript.follow(alloc, line)?;
    }
    let report = transcript.finish(alloc)?;
    rt.print(report.as_str())
}
