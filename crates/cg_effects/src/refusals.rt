//! The outcomes of refusals that are not specific to one command.
ghost use Rattle.std.specs.Prelude.{◌≡◌, [], IfOk};
ghost use Rattle.cg_effects.specs.Outcome.{outcome_of};
ghost use Rattle.cg_effects.specs.Refusals.{malformed_of, usage_outcome};

use crate::outcome::{Outcome, Status};
use std::alloc::{AllocError, Global};

/// Returns the outcome where the arguments fit no command.
pub fn usage(alloc: Global) -> Result<Outcome, AllocError>
    ensures outcome { IfOk result (λ o. outcome_of o ≡ usage_outcome) }
    ensures no_write { IfOk result (λ o. o.writes.items ≡ []) }
{
    let report = String::from_str(alloc, "usage: cgra COMMAND ARGUMENTS\n")?;
    Ok(Outcome::new(alloc, Status::Usage, report.into_bytes()))
}

/// Returns the outcome where a reader refuses the file named `file`. The text `fault` has the fault's code, name and
/// place.
pub fn malformed(alloc: Global, file: &str, fault: &str) -> Result<Outcome, AllocError>
    ensures { IfOk result (λ o. outcome_of o ≡ malformed_of file.now fault.now) }
{
    let report = format!(in alloc; "malformed {file}: {fault}\n")?;
    Ok(Outcome::new(alloc, Status::Malformed, report.into_bytes()))
}
