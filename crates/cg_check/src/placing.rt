//! L1, L2 and L4: the interval, places and order edges.
ghost use Rattle.std.specs.Prelude.{◌≡◌, ◌<◌, length};
ghost use Rattle.cg_model.specs.Array.{Arch as ArchOf};
ghost use Rattle.cg_model.specs.Kernel.{Kernel as KernelOf, size};
ghost use Rattle.cg_check.specs.Rules.{violated, L1, L2, L4, stands_well as stands_well_at, is_after as is_after_by};

use crate::model::place;
use crate::rule::RulePlace;
use cg_arch::Arch;
use cg_model::{Kernel, LATEST_TIME, Mapping, OrderEdge, Place};

/// Returns the mapping as a place, if its interval isn't one of the architecture.
#[tactic(auto, unfolding(crate::specs::Rules::violated))]
pub(crate) fn wrong_interval(arch: &Arch, mapping: &Mapping) -> Option<RulePlace>
    ensures { (K : KernelOf) → result ≡ violated L1 arch.now K mapping.now }
{
    if 0 < mapping.ii() && mapping.ii() <= arch.contexts() {
        None
    } else {
        Some(RulePlace::Mapping)
    }
}

/// Returns whether `node`, placed at `place`, is on a unit of `arch` that offers its operation, at a time that isn't
/// too late.
pub fn stands_well(arch: &Arch, kernel: &Kernel, node: usize, place: Place) -> bool
    requires { node < size kernel.now }
    ensures { result ≡ stands_well_at arch.now kernel.now node place }
{
    let units = arch.units();
    if place.unit as usize >= units.len() {
        return false;
    }
    let op = kernel.nodes()[node].op;
    units[place.unit as usize].ops.has(op) && place.time <= LATEST_TIME
}

/// Returns the first node that isn't on a unit that offers its operation, at a time that isn't too late.
#[tactic(auto, unfolding(crate::specs::Rules::violated))]
pub(crate) fn misplaced(arch: &Arch, kernel: &Kernel, mapping: &Mapping) -> Option<RulePlace>
    requires { length mapping.now.places ≡ size kernel.now }
    ensures { result ≡ violated L2 arch.now kernel.now mapping.now }
{
    for (node, place) in mapping.places().iter().enumerate() {
        if !stands_well(arch, kernel, node, *place) {
            return Some(RulePlace::Node(node));
        }
    }
    None
}

/// Returns whether the target of the order edge `edge` begins after its source in `mapping`.
pub fn is_after(mapping: &Mapping, edge: &OrderEdge) -> bool
    ensures { result ≡ is_after_by mapping.now edge.now }
{
    let source = u64::from(place(mapping, edge.from).time);
    let target = u64::from(place(mapping, edge.to).time);
    source + 1 <= target + u64::from(mapping.ii()) * u64::from(edge.distance)
}

/// Returns the first order edge whose target doesn't begin after its source.
#[tactic(auto, unfolding(crate::specs::Rules::violated))]
pub(crate) fn late_edge(kernel: &Kernel, mapping: &Mapping) -> Option<RulePlace>
    ensures { (A : ArchOf) → result ≡ violated L4 A kernel.now mapping.now }
{
    for (number, edge) in kernel.order().iter().enumerate() {
        if !is_after(mapping, edge) {
            return Some(RulePlace::Order(number));
        }
    }
    None
}
