//! The reasons why a search has no mapping: an interval larger than the number of contexts, or an impossible interval.
ghost use Rattle.std.specs.Prelude.{◌≡◌, true, false, IfOk, IfErr, OnOk};
ghost use Rattle.cg_cause.specs.Allowed.{EndsBy};
ghost use Rattle.cg_effects.specs.Outcome.{file_of, outcome_of};
ghost use Rattle.cg_effects.specs.Refusals.{reports};
ghost use Rattle.cg_effects.specs.declared.outcome.Status.TheVariants as status;
ghost use Rattle.cg_command_map.specs.Searches.{is_above, above_contexts, impossible_report};

use cg_arch::Arch;
use cg_bound::{Certificate, certificate_text};
use cg_cause::{Cause, Stop};
use cg_effects::{File, Outcome, Status};
use cg_intervals::last_tried;
use cg_model::{Kernel, Request};
use std::alloc::{AllocError, Global};

/// Checks that the interval that `request` asks for, if it asks for one, has no more cycles than `arch`, which was read
/// from `file`, has contexts.
pub(crate) fn check_asked(
    alloc: Global,
    request: Request,
    arch: &Arch,
    file: &File,
) -> Result<(), Stop>
    ensures within { OnOk result (is_above request.ii arch.now ≡ false) }
    ensures above { IfErr result (EndsBy (λ o. (is_above request.ii arch.now ≡ true) × (o ≡ above_contexts (file_of file.now).name arch.now))) }
{
    if asks_above(request.ii, arch) {
        let contexts = arch.contexts();
        return Err(Stop::refused(alloc, file, Cause::IntervalAboveContexts { contexts }));
    }
    Ok(())
}

/// Checks whether the interval `asked` has more cycles than `arch` has contexts.
fn asks_above(asked: Option<u32>, arch: &Arch) -> bool
    ensures { result ≡ is_above asked arch.now }
{
    match asked {
        Some(ii) => ii > arch.contexts(),
        None => false,
    }
}

/// Returns the outcome where the last interval that is tried is impossible, as `certificate` shows.
pub(crate) fn impossible(
    alloc: Global,
    request: Request,
    arch: &Arch,
    kernel: &Kernel,
    certificate: &Certificate,
) -> Result<Outcome, AllocError>
    ensures { IfOk result (λ o. outcome_of o
        ≡ reports status.Impossible (impossible_report (record { arch = arch.now; kernel = kernel.now }) request certificate.now)) }
{
    let last = last_tried(arch, request.ii);
    let mut report = certificate_text(alloc, arch, kernel, Some(last), certificate)?;
    report.push(b'\n')?;
    Ok(Outcome {
        status: Status::Impossible,
        report,
        writes: Vec::new(alloc),
    })
}
