//! The top call: from the words of a command line to what the store holds, what the sink receives, and the status.
#![tactic(auto)]

ghost use Rattle.std.specs.Prelude.{◌≡◌, ◌≤◌, [], None, Some, IfOk, map, string_bytes};
ghost use Rattle.cg_files.specs.Causes.{Rose};
ghost use Rattle.cg_effects.specs.Outcome.{outcome_of};
ghost use Rattle.cg_effects.specs.Ends.{moment};
ghost use Rattle.cg_command.specs.Command.{IsRanged, denoted};
ghost use Rattle.cg_command.specs.Files.{filled};
ghost use Rattle.cg_command.specs.Words.{plan_of};
ghost use Rattle.cg_commands.specs.Commands.{IsAnswer};
ghost use Rattle.cg_top.specs.TopCall.{IsPlannedBytes, Ends, IsCall, Asks, MakesCalls};

mod laws;

use cg_cause::{Stop, conclude};
pub use cg_command::{Command, MapperCall, plan_words};
use cg_command::{fill, inputs};
pub use cg_command_run::trial;
use cg_commands::answer;
use cg_diagnostics::{Aside, Silent};
pub use cg_effects::Status;
use cg_effects::{File, Outcome, Unread, finish, read_all, usage};
use cg_files::{Sink, Store};
use cg_help::note_words;
use cg_notes::{note_call, note_files};
pub use cg_trial::{TrialParts, trial_parts};
pub use laws::always_defined;
use std::alloc::{AllocError, Global};

/// Carries out the command in `words`, the arguments after the program's name: reads the input files from `store`,
/// writes the output files to it, and puts the report into `out` by one call.
///
/// Returns the exit status of the program.
pub fn run_line<S: Store, O: Sink>(
    alloc: Global,
    words: &[String],
    store: &mut S,
    out: &mut O,
) -> Status
    ensures call { IsCall (map string_bytes words.now)
        (moment (S.held store.old) (S.read_faults store.old) (S.write_faults store.old) (O.taken out.old) (O.faults out.old))
        (moment (S.held store.new) (S.read_faults store.new) (S.write_faults store.new) (O.taken out.new) (O.faults out.new))
        result }
    // It reads and writes only the files that the words name, each once and in order, and all of an outcome's files.
    ensures calls { MakesCalls (map string_bytes words.now)
        (moment (S.held store.old) (S.read_faults store.old) (S.write_faults store.old) (O.taken out.old) (O.faults out.old))
        (moment (S.held store.new) (S.read_faults store.new) (S.write_faults store.new) (O.taken out.new) (O.faults out.new))
        result (S.asked store.old) (S.asked store.new) (S.wrote store.old) (S.wrote store.new) }
    // Where the words form no command, the store is not called.
    ensures no_call { plan_of (map string_bytes words.now) ≡ None → store.new ≡ store.old }
{
    run_line_with(alloc, words, store, out, &mut Silent)
}

/// Does what [`run_line`] does, and also gives `aside` notes and progress for the user: what is wrong with words or
/// files, what a run omitted, how far a search is. They change nothing: store, sink and status are as without them.
pub fn run_line_with<S: Store, O: Sink>(
    alloc: Global,
    words: &[String],
    store: &mut S,
    out: &mut O,
    aside: &mut dyn Aside,
) -> Status
    ensures call { IsCall (map string_bytes words.now)
        (moment (S.held store.old) (S.read_faults store.old) (S.write_faults store.old) (O.taken out.old) (O.faults out.old))
        (moment (S.held store.new) (S.read_faults store.new) (S.write_faults store.new) (O.taken out.new) (O.faults out.new))
        result }
    // It reads and writes only the files that the words name, each once and in order, and all of an outcome's files.
    ensures calls { MakesCalls (map string_bytes words.now)
        (moment (S.held store.old) (S.read_faults store.old) (S.write_faults store.old) (O.taken out.old) (O.faults out.old))
        (moment (S.held store.new) (S.read_faults store.new) (S.write_faults store.new) (O.taken out.new) (O.faults out.new))
        result (S.asked store.old) (S.asked store.new) (S.wrote store.old) (S.wrote store.new) }
    // Where the words form no command, the store is not called.
    ensures no_call { plan_of (map string_bytes words.now) ≡ None → store.new ≡ store.old }
{
    carry_out(alloc, words, store, out, aside)
}

fn carry_out<S: Store, O: Sink>(
    alloc: Global,
    words: &[String],
    store: &mut S,
    out: &mut O,
    aside: &mut dyn Aside,
) -> Status
    ensures ends { Ends (map string_bytes words.now)
        (moment (S.held store.old) (S.read_faults store.old) (S.write_faults store.old) (O.taken out.old) (O.faults out.old))
        (moment (S.held store.new) (S.read_faults store.new) (S.write_faults store.new) (O.taken out.new) (O.faults out.new))
        result }
    ensures calls { MakesCalls (map string_bytes words.now)
        (moment (S.held store.old) (S.read_faults store.old) (S.write_faults store.old) (O.taken out.old) (O.faults out.old))
        (moment (S.held store.new) (S.read_faults store.new) (S.write_faults store.new) (O.taken out.new) (O.faults out.new))
        result (S.asked store.old) (S.asked store.new) (S.wrote store.old) (S.wrote store.new) }
    ensures no_call { plan_of (map string_bytes words.now) ≡ None → store.new ≡ store.old }
    ensures reads { S.read_faults store.old ≤ S.read_faults store.new }
    ensures writes { S.write_faults store.old ≤ S.write_faults store.new }
    ensures faults { O.faults out.old ≤ O.faults out.new }
{
    match outcome(alloc, words, store, aside) {
        Ok(outcome) => {
            let status = finish(alloc, &outcome, store, out);
            // Where memory for the notes runs out, the status is the same.
            let _ = note_files(alloc, status, &outcome, aside);
            status
        }
        Err(_) => Status::Memory,
    }
}

/// Returns the outcome that `words` define for the files in `store`, and notes what is wrong with the words.
fn outcome<S: Store>(
    alloc: Global,
    words: &[String],
    store: &mut S,
    aside: &mut dyn Aside,
) -> Result<Outcome, AllocError>
    ensures ok { IfOk result (λ o. IsPlannedBytes (S.held store.old)
        (Rose (S.read_faults store.old) (S.read_faults store.new)) (plan_of (map string_bytes words.now)) (outcome_of o)) }
    ensures asks { Asks (plan_of (map string_bytes words.now)) (S.asked store.old) (S.asked store.new) }
    ensures wrote { S.wrote store.new ≡ S.wrote store.old }
    ensures no_call { plan_of (map string_bytes words.now) ≡ None → store.new ≡ store.old }
    ensures no_write { IfOk result (λ o. plan_of (map string_bytes words.now) ≡ None → o.writes.items ≡ []) }
    ensures held { S.held store.new ≡ S.held store.old }
    ensures reads { S.read_faults store.old ≤ S.read_faults store.new }
    ensures writes { S.write_faults store.new ≡ S.write_faults store.old }
{
    match plan_words(alloc, words)? {
        Some(command) => answered(alloc, &command, store, aside),
        None => {
            // Where memory for the notes runs out, the outcome is the same.
            let _ = note_words(alloc, words, aside);
            usage(alloc)
        }
    }
}

/// Returns the outcome of `command` for the files in `store`, and notes what is wrong with them.
fn answered<'a, S: Store>(
    alloc: Global,
    command: &Command<&'a str, &'a str>,
    store: &mut S,
    aside: &mut dyn Aside,
) -> Result<Outcome, AllocError>
    requires { IsRanged command.now }
    ensures planned { IfOk result (λ o. IsPlannedBytes (S.held store.old) (Rose (S.read_faults store.old) (S.read_faults store.new))
        (Some (denoted command.now)) (outcome_of o)) }
    ensures asks { Asks (Some (denoted command.now)) (S.asked store.old) (S.asked store.new) }
    ensures wrote { S.wrote store.new ≡ S.wrote store.old }
    ensures held { S.held store.new ≡ S.held store.old }
    ensures reads { S.read_faults store.old ≤ S.read_faults store.new }
    ensures writes { S.write_faults store.new ≡ S.write_faults store.old }
{
    let names = inputs(alloc, command)?;
    match read_all(alloc, names.as_slice(), store) {
        Ok(files) => {
            let files = files.as_slice();
            answer_to(alloc, &fill(command, files), aside)
        }
        Err(Unread::Ended(outcome)) => Ok(outcome),
        Err(Unread::Memory) => Err(AllocError),
    }
}

/// Returns the outcome of `command`, and notes what is wrong with its input files, and what the outcome means.
fn answer_to(
    alloc: Global,
    command: &Command<&File, &str>,
    aside: &mut dyn Aside,
) -> Result<Outcome, AllocError>
    requires { IsRanged command.now }
    ensures { IfOk result (λ o. IsAnswer (filled command.now) (outcome_of o)) }
{
    let ended = answer(alloc, command, aside);
    aside.end_progress();
    conclude(alloc, noted(alloc, command, ended, aside))
}

/// Returns `ended`, how `command` ended, and gives notes on it for the user.
fn noted(
    alloc: Global,
    command: &Command<&File, &str>,
    ended: Result<Outcome, Stop>,
    aside: &mut dyn Aside,
) -> Result<Outcome, Stop>
    ensures { result ≡ ended }
{
    // Where memory for the notes runs out, the outcome is the same.
    let _ = note_call(alloc, command, &ended, aside);
    ended
}
