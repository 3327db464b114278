//! The notices on the standard error, separate from the report.
ghost use Rattle.std.specs.Prelude.{◌≡◌, ◌<◌, ◌⊎◌};
ghost use Rattle.cgra.specs.Notices.{notice_of};

use cg_top::Status;

/// The notice where memory ran out.
pub const NO_MEMORY: &str = "cgra: out of memory\n";

/// The notice at a write fault of the store.
pub const NO_FILE: &str = "cgra: an output file couldn't be written\n";

/// The notice at a write fault of the sink.
pub const NO_REPORT: &str = "cgra: the report couldn't be written\n";

/// Returns the notice for a call that ends with `status`, in which `write_faults` writes of files and `put_faults` puts
/// of reports failed.
pub fn notice(status: Status, write_faults: u64, put_faults: u64) -> &'static str
    requires { status ≡ Status.WriteFault → (0 < write_faults) ⊎ (0 < put_faults) }
    ensures { result.now ≡ notice_of status write_faults }
{
    match status {
        Status::Memory => NO_MEMORY,
        Status::WriteFault if write_faults == 0 => NO_REPORT,
        Status::WriteFault => NO_FILE,
        Status::Done
        | Status::Usage
        | Status::Malformed
        | Status::Impossible
        | Status::ReadFault
        | Status::BudgetSpent
        | Status::No => "",
    }
}
