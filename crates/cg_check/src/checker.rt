//! The exact checker of mappings.
ghost use Rattle.std.specs.Prelude.{◌≡◌, IfOk, Some};
ghost use Rattle.cg_model.specs.Mapping.{IsShaped};
ghost use Rattle.cg_check.specs.Rules.{violation};
ghost use Rattle.cg_check.specs.Verdict.{IsVerdict, JudgesLegality, JudgesPlaces, JudgesRules};

use crate::clashes::first_clash;
use crate::legal::LegalMapping;
use crate::placing::{late_edge, misplaced, wrong_interval};
use crate::routing::unbrought;
use crate::rule::{Rule, RulePlace, Violation};
use crate::slots::shared_slot;
use crate::stop::Sharing;
use cg_arch::Arch;
use cg_model::{Kernel, Mapping};
use std::alloc::{AllocError, Global};

/// The result of checking a mapping.
#[derive(Drop)]
pub enum CheckVerdict<'a> {
    /// The mapping is legal.
    Legal(LegalMapping<'a>),
    /// The mapping isn't legal.
    Illegal {
        /// The lowest rule that it violates.
        rule: Rule,
        /// The first place at which it violates that rule.
        place: RulePlace,
        /// The mapping, returned.
        mapping: Mapping,
    },
}

/// Returns the violation of `rule` at `place`.
fn violation_at(rule: Rule, place: RulePlace) -> Option<Violation>
    ensures { result ≡ Some (record { rule = rule; place = place }) }
{
    Some(Violation { rule, place })
}

/// Returns the lowest rule that `mapping` violates, at its first place.
fn first_violation(
    alloc: Global,
    arch: &Arch,
    kernel: &Kernel,
    mapping: &Mapping,
) -> Result<Option<Violation>, AllocError>
    requires shape { IsShaped kernel.now mapping.now }
    ensures { IfOk result (λ v. v ≡ violation arch.now kernel.now mapping.now) }
{
    if let Some(place) = wrong_interval(arch, mapping) {
        return Ok(violation_at(Rule::L1, place));
    }
    if let Some(place) = misplaced(arch, kernel, mapping) {
        return Ok(violation_at(Rule::L2, place));
    }
    if let Some(place) = shared_slot(alloc, arch, mapping)? {
        return Ok(violation_at(Rule::L3, place));
    }
    if let Some(place) = late_edge(kernel, mapping) {
        return Ok(violation_at(Rule::L4, place));
    }
    if let Some(place) = unbrought(arch, kernel, mapping) {
        return Ok(violation_at(Rule::L5, place));
    }
    if let Some(place) = first_clash(alloc, Sharing::Value, arch, kernel, mapping)? {
        return Ok(violation_at(Rule::L6, place));
    }
    if let Some(place) = first_clash(alloc, Sharing::Way, arch, kernel, mapping)? {
        return Ok(violation_at(Rule::L7, place));
    }
    Ok(None)
}

/// Checks whether `mapping` is legal for the architecture and the kernel; if not, returns the lowest rule that it
/// violates, at the first place. The mapping is lost if memory runs out.
pub fn check<'a>(
    alloc: Global,
    arch: &'a Arch,
    kernel: &'a Kernel,
    mapping: Mapping,
) -> Result<CheckVerdict<'a>, AllocError>
    requires shape { IsShaped kernel.now mapping }
    ensures exact { IfOk result (IsVerdict arch.now kernel.now mapping) }
    ensures legality { IfOk result (JudgesLegality arch.now kernel.now mapping) }
    ensures rules { IfOk result (JudgesRules arch.now kernel.now mapping) }
    ensures place { IfOk result (JudgesPlaces arch.now kernel.now mapping) }
{
    let _valid_arch = arch.units();
    let _valid_kernel = kernel.nodes();
    match first_violation(alloc, arch, kernel, &mapping)? {
        Some(Violation { rule, place }) => Ok(CheckVerdict::Illegal {
            rule,
            place,
            mapping,
        }),
        None => Ok(CheckVerdict::Legal(LegalMapping::new(arch, kernel, mapping))),
    }
}
