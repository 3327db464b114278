//! Writes the files of an outcome, and then its report.
ghost use Rattle.std.specs.Prelude.{◌≡◌, ◌≢◌, ◌≤◌, [], ℕ, Err, OnOk, IsErrOf, map};
ghost use Rattle.cg_files.specs.Asked.{NotesAll, NotesPart};
ghost use Rattle.cg_files.specs.Causes.{Rose};
ghost use Rattle.cg_effects.specs.Outcome.{file_of, names_of, outcome_of};
ghost use Rattle.cg_effects.specs.Ends.{moment, Finished, Wrote, WrotePart, FailedAt, Reported};

use crate::outcome::{File, Outcome, Status};
use cg_files::{Sink, SinkFail, Store, StoreFail};
use std::alloc::Global;

/// Carries out `outcome`: writes each file into `store`, then puts the report into `out` once. Returns the exit status.
pub fn finish<S: Store, O: Sink>(
    alloc: Global,
    outcome: &Outcome,
    store: &mut S,
    out: &mut O,
) -> Status
    ensures ends { Finished (outcome_of outcome.now)
        (moment (S.held store.old) (S.read_faults store.old) (S.write_faults store.old)
        (O.taken out.old) (O.faults out.old))
        (moment (S.held store.new) (S.read_faults store.new) (S.write_faults store.new)
        (O.taken out.new) (O.faults out.new))
        result }
    // Where the outcome writes no files, the store is not called.
    ensures untouched { outcome.now.writes.items ≡ [] → store.new ≡ store.old }
    // It writes under the names of the outcome's files only, under each once, in order.
    ensures wrote { NotesPart (S.wrote store.old) (names_of (outcome_of outcome.now).writes)
        (S.wrote store.new) }
    // But where memory runs out or a write fails, it writes under all of them.
    ensures wrote_all { result ≢ Status.Memory → result ≢ Status.WriteFault →
        NotesAll (S.wrote store.old) (names_of (outcome_of outcome.now).writes) (S.wrote store.new) }
    ensures asked { S.asked store.new ≡ S.asked store.old }
    ensures reads { S.read_faults store.new ≡ S.read_faults store.old }
    ensures writes { S.write_faults store.old ≤ S.write_faults store.new }
    ensures faults { O.faults out.old ≤ O.faults out.new }
{
    match write_all(alloc, outcome.writes.as_slice(), store) {
        Ok(()) => report(alloc, outcome.status, outcome.report.as_slice(), out),
        Err(StoreFail::Failed) => Status::WriteFault,
        Err(StoreFail::TooLong(_) | StoreFail::Memory) => Status::Memory,
    }
}

/// Writes `files` into `store` in order, up to the first that can't be written.
fn write_all<S: Store>(alloc: Global, files: &[File], store: &mut S) -> Result<(), StoreFail>
    ensures ok { OnOk result (Wrote (S.held store.old) (map file_of files.now) (S.held store.new)) }
    ensures failed { IsErrOf result StoreFail.Failed
        → Rose (S.write_faults store.old) (S.write_faults store.new)
        × FailedAt (S.held store.old) (map file_of files.now) (S.held store.new) }
    ensures memory { IsErrOf result StoreFail.Memory
        → WrotePart (S.held store.old) (map file_of files.now) (S.held store.new) }
    ensures too_long { (got : ℕ) → result ≡ Err (StoreFail.TooLong got) → ⊥ }
    ensures untouched { files.now ≡ [] → store.new ≡ store.old }
    ensures wrote { NotesPart (S.wrote store.old) (names_of (map file_of files.now))
        (S.wrote store.new) }
    ensures wrote_all { OnOk result
        (NotesAll (S.wrote store.old) (names_of (map file_of files.now)) (S.wrote store.new)) }
    ensures asked { S.asked store.new ≡ S.asked store.old }
    ensures reads { S.read_faults store.new ≡ S.read_faults store.old }
    ensures writes { S.write_faults store.old ≤ S.write_faults store.new }
{
    for file in files {
        store.write(alloc, file.name.as_str(), file.bytes.as_slice())?;
    }
    Ok(())
}

/// Puts the report `bytes` into `out`, unless it is empty, and returns the status: `status`, `Memory` where memory runs
/// out, or `WriteFault` where the put fails after `Done`.
fn report<O: Sink>(alloc: Global, status: Status, bytes: &[u8], out: &mut O) -> Status
    ensures ends { Reported status bytes.now (O.taken out.old) (O.faults out.old)
        (O.taken out.new) (O.faults out.new) result }
    // Where the report is empty, the sink is not called.
    ensures untouched { bytes.now ≡ [] → out.new ≡ out.old }
    ensures faults { O.faults out.old ≤ O.faults out.new }
{
    if bytes.is_empty() {
        return status;
    }
    match out.put(alloc, bytes) {
        Ok(()) => status,
        Err(SinkFail::Memory) => Status::Memory,
        Err(SinkFail::Failed) => match status {
            Status::Done => Status::WriteFault,
            Status::Memory
            | Status::Usage
            | Status::Malformed
            | Status::Impossible
            | Status::ReadFault
            | Status::WriteFault
            | Status::BudgetSpent
            | Status::No => status,
        },
    }
}
