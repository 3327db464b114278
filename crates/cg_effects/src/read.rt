//! Reads the input files of a command.
ghost use Rattle.std.specs.Prelude.{◌≡◌, ◌<◌, ◌≤◌, ℕ, All, IfOk, IfErr, OnOk, map, slice_index, string_bytes};
ghost use Rattle.cg_files.specs.Asked.{NotesAll, NotesPart};
ghost use Rattle.cg_files.specs.Causes.{Rose};
ghost use Rattle.cg_effects.specs.Outcome.{file_of, outcome_of};
ghost use Rattle.cg_effects.specs.Reads.{AreRead, HoldsBytes, IsUnread, read_fault_of, too_long_of};

use crate::outcome::{File, Outcome, Status};
use cg_files::{Store, StoreFail};
use std::alloc::{AllocError, AllocFailed, Global};

/// The greatest number of bytes of an input file.
pub const READ_LIMIT: u64 = 16_777_216;

/// Why the reading of a command's inputs ended before all were read.
#[derive(Drop)]
pub enum Unread {
    /// A file couldn't be read, or is too long: the call ends with this outcome.
    Ended(Outcome),
    /// Memory ran out.
    Memory,
}

impl From<AllocError> for Unread {
    ghost use Rattle.std.specs.Prelude.{◌≡◌};
    ghost use Rattle.cg_effects.specs.declared.read.Unread.TheVariants.{Memory};

    ghost from_gives = { λ _ e. e ≡ Memory };

    fn from(_error: AllocError) -> Unread {
        Unread::Memory
    }
}

impl<T: Drop> From<AllocFailed<T>> for Unread {
    ghost use Rattle.std.specs.Prelude.{◌≡◌};
    ghost use Rattle.cg_effects.specs.declared.read.Unread.TheVariants.{Memory};

    ghost from_gives = { λ _ e. e ≡ Memory };

    fn from(_error: AllocFailed<T>) -> Unread {
        Unread::Memory
    }
}

/// Reads the files `names` from `store` in order, up to the first that can't be read or is too long.
pub fn read_all<S: Store>(
    alloc: Global,
    names: &[String],
    store: &mut S,
) -> Result<Vec<File>, Unread>
    ensures ok { IfOk result (λ files.
        AreRead (S.held store.old) (map string_bytes names.now) (map file_of files.items)) }
    // This holds even where the store doesn't reveal what it holds.
    ensures bytes { IfOk result (λ files. All HoldsBytes (map file_of files.items)) }
    ensures stopped { IfErr result (IsUnread (S.held store.old)
        (Rose (S.read_faults store.old) (S.read_faults store.new)) (map string_bytes names.now)) }
    // Each name was asked for once, in order, up to the one at which the reading ended.
    ensures asked { NotesPart (S.asked store.old) (map string_bytes names.now) (S.asked store.new) }
    ensures asked_all { OnOk result
        (NotesAll (S.asked store.old) (map string_bytes names.now) (S.asked store.new)) }
    ensures wrote { S.wrote store.new ≡ S.wrote store.old }
    ensures held { S.held store.new ≡ S.held store.old }
    ensures reads { S.read_faults store.old ≤ S.read_faults store.new }
    ensures writes { S.write_faults store.new ≡ S.write_faults store.old }
{
    let mut files = Vec::new(alloc);
    for name in names {
        match store.read(alloc, name.as_str(), READ_LIMIT) {
            Ok(bytes) => {
                are_bytes(&bytes);
                let name = String::from_str(alloc, name.as_str())?;
                files.push(File { name, bytes })?;
            }
            Err(StoreFail::Failed) => return Err(Unread::Ended(read_fault(alloc, name.as_str())?)),
            Err(StoreFail::TooLong(_)) => return Err(Unread::Ended(too_long(
                alloc,
                name.as_str(),
            )?)),
            Err(StoreFail::Memory) => return Err(Unread::Memory),
        }
    }
    Ok(files)
}

/// States that each item of a list of bytes is below 256.
fn are_bytes(_bytes: &[u8])
    ensures { (i : ℕ) → slice_index _bytes.now i < 256 }
{}

fn read_fault(alloc: Global, name: &str) -> Result<Outcome, AllocError>
    ensures { IfOk result (λ outcome. outcome_of outcome ≡ read_fault_of name.now) }
{
    let report = format!(in alloc; "read fault {name}\n")?;
    Ok(Outcome::new(alloc, Status::ReadFault, report.into_bytes()))
}

fn too_long(alloc: Global, name: &str) -> Result<Outcome, AllocError>
    ensures { IfOk result (λ outcome. outcome_of outcome ≡ too_long_of name.now) }
{
    let report = format!(in alloc; "malformed {name}: G1 TooLong limit 16777216\n")?;
    Ok(Outcome::new(alloc, Status::Malformed, report.into_bytes()))
}
