//! `check ARCH KERNEL MAPPING`.
ghost use Rattle.std.specs.Prelude.{◌≡◌};
ghost use Rattle.cg_model.specs.Mapping.{IsShaped};
ghost use Rattle.cg_cause.specs.Allowed.{Allows};
ghost use Rattle.cg_effects.specs.Outcome.{file_of};
ghost use Rattle.cg_effects.specs.Refusals.{reports};
ghost use Rattle.cg_effects.specs.declared.outcome.Status.TheVariants.{Done, No};
ghost use Rattle.cg_check.specs.Rules.{violation};
ghost use Rattle.cg_command_judge.specs.Check.{IsCheck, checked_by, illegal_report, legal_report};

use cg_cause::Stop;
use cg_check::{Arch, CheckVerdict, Kernel, Mapping, Rule, RulePlace, check as judge, rule_text};
use cg_effects::{File, Outcome, Status};
use cg_inputs::{Sources, sources_in};
use std::alloc::Global;

/// Returns the outcome of `check`: whether the mapping in the file `mapping` is legal for the kernel in `kernel` on the
/// architecture in `arch`.
pub fn check(alloc: Global, arch: &File, kernel: &File, mapping: &File) -> Result<Outcome, Stop>
    ensures { Allows (IsCheck (file_of arch.now) (file_of kernel.now) (file_of mapping.now)) result }
{
    let sources = sources_in(alloc, arch, kernel, mapping)?;
    let Sources {
        arch,
        kernel,
        mapping,
    } = sources;
    checked(alloc, &arch, &kernel, mapping)
}

/// Checks whether `mapping` is legal for `kernel` on `array`, and returns the outcome.
fn checked(alloc: Global, array: &Arch, kernel: &Kernel, mapping: Mapping) -> Result<Outcome, Stop>
    requires { IsShaped kernel.now mapping }
    ensures { Allows (λ o. o ≡ checked_by (record { arch = array.now; kernel = kernel.now; mapping = mapping })
        (violation array.now kernel.now mapping)) result }
{
    match judge(alloc, array, kernel, mapping)? {
        CheckVerdict::Legal(_) => legal(alloc),
        CheckVerdict::Illegal { rule, place, .. } => illegal(alloc, array, kernel, rule, place),
    }
}

/// Returns the outcome where the mapping is legal.
fn legal(alloc: Global) -> Result<Outcome, Stop>
    ensures { Allows (λ o. o ≡ reports Done legal_report) result }
{
    let report = Vec::from_slice(alloc, b"legal\n")?;
    Ok(Outcome::new(alloc, Status::Done, report))
}

/// Returns the outcome where the mapping violates `rule` at `place`.
pub(crate) fn illegal(
    alloc: Global,
    arch: &Arch,
    kernel: &Kernel,
    rule: Rule,
    place: RulePlace,
) -> Result<Outcome, Stop>
    ensures { Allows (λ o. o
        ≡ reports No (illegal_report arch.now kernel.now (record { rule = rule; place = place }))) result }
{
    let text = rule_text(alloc, arch, kernel, rule, place)?;
    let broken = text.as_str();
    let report = format!(in alloc; "illegal {broken}\n")?;
    Ok(Outcome::new(alloc, Status::No, report.into_bytes()))
}
