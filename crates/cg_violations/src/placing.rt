//! The violations of L1, L2, L4 and L5: the interval, places, order edges and routes.
ghost use Rattle.std.specs.Prelude.{◌≡◌, ◌++◌, ◌<◌, length, OnOk};
ghost use Rattle.cg_model.specs.Kernel.{size};
ghost use Rattle.cg_check.specs.Rules.{is_interval as is_interval_of};
ghost use Rattle.cg_violations.specs.Violations as spec;

use cg_arch::Arch;
use cg_check::{Rule, RulePlace, Violation, is_after, is_brought, stands_well};
use cg_model::{Kernel, Mapping, Route};
use std::alloc::AllocError;

/// Adds `rule` at `place` to `found`, if it is `broken`.
pub(crate) fn push_if(
    found: &mut Vec<Violation>,
    broken: bool,
    rule: Rule,
    place: RulePlace,
) -> Result<(), AllocError>
    ensures { OnOk result (found.new.items ≡ found.old.items ++ spec.violation_if broken rule place) }
{
    if broken {
        found.push(Violation { rule, place })?;
    }
    Ok(())
}

/// Returns whether the interval of `mapping` is one of `arch`.
pub(crate) fn is_interval(arch: &Arch, mapping: &Mapping) -> bool
    ensures { result ≡ is_interval_of arch.now mapping.now }
{
    0 < mapping.ii() && mapping.ii() <= arch.contexts()
}

/// Adds the violation of L1, if any, to `found`.
pub(crate) fn push_interval(
    found: &mut Vec<Violation>,
    arch: &Arch,
    mapping: &Mapping,
) -> Result<(), AllocError>
    ensures { OnOk result (found.new.items ≡ found.old.items ++ spec.interval_violations arch.now mapping.now) }
{
    let kept = is_interval(arch, mapping);
    push_if(found, !kept, Rule::L1, RulePlace::Mapping)
}

/// Adds the violation of L2 by `node`, if any, to `found`.
fn push_unit(
    found: &mut Vec<Violation>,
    arch: &Arch,
    kernel: &Kernel,
    mapping: &Mapping,
    node: usize,
) -> Result<(), AllocError>
    requires places { length mapping.now.places ≡ size kernel.now }
    requires node { node < size kernel.now }
    ensures { OnOk result (found.new.items ≡ found.old.items ++ spec.unit_violation arch.now kernel.now mapping.now node) }
{
    let kept = stands_well(arch, kernel, node, mapping.places()[node]);
    push_if(found, !kept, Rule::L2, RulePlace::Node(node))
}

/// Adds the violations of L2 to `found`.
pub(crate) fn push_units(
    found: &mut Vec<Violation>,
    arch: &Arch,
    kernel: &Kernel,
    mapping: &Mapping,
) -> Result<(), AllocError>
    requires { length mapping.now.places ≡ size kernel.now }
    ensures { OnOk result (found.new.items ≡ found.old.items ++ spec.unit_violations arch.now kernel.now mapping.now) }
{
    for node in 0..kernel.nodes().len() {
        push_unit(found, arch, kernel, mapping, node)?;
    }
    Ok(())
}

/// Adds the violation of L4 by the order edge `edge`, if any, to `found`.
fn push_edge(
    found: &mut Vec<Violation>,
    kernel: &Kernel,
    mapping: &Mapping,
    edge: usize,
) -> Result<(), AllocError>
    requires { edge < length kernel.now.order }
    ensures { OnOk result (found.new.items ≡ found.old.items ++ spec.order_violation kernel.now mapping.now edge) }
{
    let kept = is_after(mapping, &kernel.order()[edge]);
    push_if(found, !kept, Rule::L4, RulePlace::Order(edge))
}

/// Adds the violations of L4 to `found`.
pub(crate) fn push_order(
    found: &mut Vec<Violation>,
    kernel: &Kernel,
    mapping: &Mapping,
) -> Result<(), AllocError>
    ensures { OnOk result (found.new.items ≡ found.old.items ++ spec.order_violations kernel.now mapping.now) }
{
    for edge in 0..kernel.order().len() {
        push_edge(found, kernel, mapping, edge)?;
    }
    Ok(())
}

/// Adds the violation of L5 by `route`, if any, to `found`.
fn push_route(
    found: &mut Vec<Violation>,
    arch: &Arch,
    kernel: &Kernel,
    mapping: &Mapping,
    route: &Route,
) -> Result<(), AllocError>
    ensures { OnOk result (found.new.items ≡ found.old.items ++ spec.route_violation arch.now kernel.now mapping.now route.now) }
{
    let kept = is_brought(arch, kernel, mapping, route);
    let place = RulePlace::Arg {
        node: route.node,
        arg: route.arg,
    };
    push_if(found, !kept, Rule::L5, place)
}

/// Adds the violations of L5 to `found`.
pub(crate) fn push_routes(
    found: &mut Vec<Violation>,
    arch: &Arch,
    kernel: &Kernel,
    mapping: &Mapping,
) -> Result<(), AllocError>
    ensures { OnOk result (found.new.items ≡ found.old.items ++ spec.route_violations arch.now kernel.now mapping.now) }
{
    for route in mapping.routes() {
        push_route(found, arch, kernel, mapping, route)?;
    }
    Ok(())
}
