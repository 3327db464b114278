//! The outcome of a command.
ghost use Rattle.std.specs.Prelude.{◌≡◌};

use std::alloc::{AllocError, Global};

/// How a call ended.
#[derive(Clone, Copy, Debug, PartialEq, Eq)]
pub enum Status {
    /// The command did its work.
    Done,
    /// Memory ran out.
    Memory,
    /// The arguments fit no command.
    Usage,
    /// An input file is too long or invalid.
    Malformed,
    /// No mapping can exist at that interval.
    Impossible,
    /// An input file couldn't be read.
    ReadFault,
    /// An output file couldn't be written, or the report couldn't be put.
    WriteFault,
    /// The search found no mapping within its budget of moves.
    BudgetSpent,
    /// The answer to the question asked is no.
    No,
}

impl Status {
    ghost use Rattle.cg_effects.specs.Status.{number_of};

    /// Returns the exit status of the program.
    pub fn number(self) -> u8
        ensures { result ≡ number_of self }
    {
        match self {
            Status::Done => 0,
            Status::Memory => 1,
            Status::Usage => 2,
            Status::Malformed => 3,
            Status::Impossible => 4,
            Status::ReadFault => 5,
            Status::WriteFault => 6,
            Status::BudgetSpent => 7,
            Status::No => 8,
        }
    }
}

/// A file that was read, or is to be written.
#[derive(Drop)]
pub struct File {
    pub name: String,
    pub bytes: Vec<u8>,
}

/// The outcome of a command: its status, its report, and the files to write, in order.
#[derive(Drop)]
pub struct Outcome {
    pub status: Status,
    pub report: Vec<u8>,
    pub writes: Vec<File>,
}

impl Outcome {
    ghost use Rattle.std.specs.Prelude.{◌≡◌, ◌++◌, ◌∷◌, [], IfOk};
    ghost use Rattle.cg_effects.specs.Outcome.{outcome_of};
    ghost use Rattle.cg_effects.specs.Refusals.{reports, writes_one};

    /// Returns the outcome that ends with `status` and `report`, and writes nothing.
    pub fn new(alloc: Global, status: Status, report: Vec<u8>) -> Outcome
        ensures reports { outcome_of result ≡ reports status report.items }
        ensures no_write { result.writes.items ≡ [] }
    {
        Outcome {
            status,
            report,
            writes: Vec::new(alloc),
        }
    }

    /// Returns the outcome that ends with `status` and `report`, and writes the one file `name` with `bytes`.
    pub fn with_file(
        alloc: Global,
        status: Status,
        report: Vec<u8>,
        name: &str,
        bytes: Vec<u8>,
    ) -> Result<Outcome, AllocError>
        ensures { IfOk result (λ o. outcome_of o ≡ writes_one status report.items name.now bytes.items) }
    {
        Outcome::new(alloc, status, report).writing(alloc, name, bytes)
    }

    /// Returns the outcome with one more write, of `bytes` under `name`.
    pub fn writing(self, alloc: Global, name: &str, bytes: Vec<u8>) -> Result<Outcome, AllocError>
        ensures { IfOk result (λ o. outcome_of o ≡ record (outcome_of self) {
          writes = (outcome_of self).writes ++ (record { name = name.now; bytes = bytes.items } ∷ []);
        }) }
    {
        let mut outcome = self;
        let name = String::from_str(alloc, name)?;
        outcome.writes.push(File { name, bytes })?;
        Ok(outcome)
    }
}
