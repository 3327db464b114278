//! `cgra`: passes its arguments to the top call, with the files of the system and the standard output.
#![tactic(auto)]

ghost use Rattle.std.specs.Prelude.{◌≡◌};
ghost use Rattle.std.specs.Process.{exit_status};
ghost use Rattle.cg_effects.specs.Status.{number_of};

mod notes;
mod notices;

use cg_files::{DiskStore, StdSink};
use cg_top::{Status, run_line_with};
use notes::Notes;
use notices::notice;
use std::io::ErrorKind;
use std::process::ExitCode;
use std::rt::Env;
use std::{env, io};

/// The exit status where memory for the arguments runs out.
const WANTS_MEMORY: u8 = 1;

/// The exit status where an argument isn't text.
const NO_TEXT: u8 = 9;

/// The environment variable that is `1` where progress is to be shown.
const PROGRESS: &str = "CGRA_PROGRESS";

/// Returns the arguments after the program's name.
fn arguments<R: Env + AllocGlobal>(rt: &R) -> io::Result<Vec<String>> {
    Ok(env::args(rt)?.skip(1).collect(rt.alloc())?)
}

/// Checks whether the environment asks for progress.
fn shows_progress<R: Env + AllocGlobal>(rt: &R) -> bool {
    match env::var(rt, PROGRESS) {
        Ok(value) => value.as_str() == "1",
        Err(_) => false,
    }
}

/// Returns the exit code of the program for `status`.
fn exit_code(status: Status) -> ExitCode
    ensures { exit_status result ≡ number_of status }
{
    ExitCode::from(status.number())
}

fn main(rt: HostRuntime) -> ExitCode {
    let words = match arguments(&rt) {
        Ok(words) => words,
        Err(error) => return ExitCode::from(match error.kind() {
            ErrorKind::OutOfMemory => WANTS_MEMORY,
            _ => NO_TEXT,
        }),
    };
    let mut store = DiskStore::new(&rt);
    let mut out = StdSink::new(&rt);
    let mut notes = Notes::new(&rt, shows_progress(&rt));
    let status = run_line_with(
        rt.alloc(),
        words.as_slice(),
        &mut store,
        &mut out,
        &mut notes,
    );
    let said = notice(status, store.write_faults(), out.faults());
    if !said.is_empty() {
        // The call ends the same way where this can't be written.
        let _ = rt.eprint(said);
    }
    exit_code(status)
}
