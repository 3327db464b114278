//! L3: a unit begins at most one node in each slot.
ghost use Rattle.std.specs.Prelude.{◌≡◌, ◌<◌, ℕ, IfOk, length};
ghost use Rattle.cg_model.specs.Kernel.{Kernel as KernelOf};
ghost use Rattle.cg_model.specs.Mapping.{place as place_of};
ghost use Rattle.cg_check.specs.Rules.{violated, L3};
ghost use Rattle.cg_check.specs.Slots.{first_shared};

use crate::rule::RulePlace;
use cg_arch::Arch;
use cg_model::Mapping;
use std::alloc::{AllocError, Global};

/// Returns the first node that shares its unit and slot with an earlier one.
fn shared_node(alloc: Global, arch: &Arch, mapping: &Mapping) -> Result<Option<usize>, AllocError>
    requires interval { 0 < mapping.now.ii }
    requires units { (v : ℕ) → v < length mapping.now.places → (place_of mapping.now v).unit < length arch.now.units }
    ensures { IfOk result (λ node. node ≡ first_shared mapping.now.ii mapping.now.places 0) }
{
    let ii = mapping.ii() as usize;
    let mut taken = vec![in alloc; false; arch.units().len() * ii]?;
    let places = mapping.places();
    for node in 0..places.len() {
        let place = places[node];
        let at = place.unit as usize * ii + place.time as usize % ii;
        if taken[at] {
            return Ok(Some(node));
        }
        taken[at] = true;
    }
    Ok(None)
}

/// Returns the place of the first node that shares its unit and slot with an earlier one.
#[tactic(auto, unfolding(crate::specs::Rules::violated))]
pub(crate) fn shared_slot(
    alloc: Global,
    arch: &Arch,
    mapping: &Mapping,
) -> Result<Option<RulePlace>, AllocError>
    requires interval { 0 < mapping.now.ii }
    requires units { (v : ℕ) → v < length mapping.now.places → (place_of mapping.now v).unit < length arch.now.units }
    ensures { IfOk result (λ place. (K : KernelOf) → place ≡ violated L3 arch.now K mapping.now) }
{
    match shared_node(alloc, arch, mapping)? {
        Some(node) => Ok(Some(RulePlace::Node(node))),
        None => Ok(None),
    }
}
