//! The report texts of violations.
ghost use Rattle.std.specs.Prelude.{◌≡◌, IfOk, string_bytes};
ghost use Rattle.cg_model.specs.Array.{resource as resource_of};
ghost use Rattle.cg_model.specs.Kernel.{node as node_of};
ghost use Rattle.cg_check.specs.Texts as spec;

use crate::rule::{Rule, RulePlace};
use cg_arch::Arch;
use cg_model::Kernel;
use std::alloc::{AllocError, Global};

/// Returns the code and place of a violation, as `L6 resource r0c0_r slot 0`.
pub fn rule_text(
    alloc: Global,
    arch: &Arch,
    kernel: &Kernel,
    rule: Rule,
    place: RulePlace,
) -> Result<String, AllocError>
    ensures { IfOk result (λ s. string_bytes s ≡ spec.rule_text arch.now kernel.now rule place) }
{
    let code = rule.code();
    let place = place_text(alloc, arch, kernel, place)?;
    format!(in alloc; "{code} {place}")
}

fn place_text(
    alloc: Global,
    arch: &Arch,
    kernel: &Kernel,
    place: RulePlace,
) -> Result<String, AllocError>
    ensures { IfOk result (λ s. string_bytes s ≡ spec.place_text arch.now kernel.now place) }
{
    match place {
        RulePlace::Mapping => String::from_str(alloc, "mapping"),
        RulePlace::Node(node) => {
            let name = node_name(kernel, node);
            format!(in alloc; "node {name}")
        }
        RulePlace::Order(edge) => format!(in alloc; "order {edge}"),
        RulePlace::Arg { node, arg } => {
            let name = node_name(kernel, node as usize);
            format!(in alloc; "arg {name} {arg}")
        }
        RulePlace::Resource { resource, slot } => {
            let name = resource_name(arch, resource);
            format!(in alloc; "resource {name} slot {slot}")
        }
    }
}

/// Returns the name of node `number`; empty past the last one.
fn node_name(kernel: &Kernel, number: usize) -> &str
    ensures { result.now ≡ (node_of kernel.now number).name }
{
    let nodes = kernel.nodes();
    if number >= nodes.len() {
        return "";
    }
    nodes[number].name.as_str()
}

/// Returns the name of resource `number`; empty past the last one.
fn resource_name(arch: &Arch, number: usize) -> &str
    ensures { result.now ≡ (resource_of arch.now number).name }
{
    let resources = arch.resources();
    if number >= resources.len() {
        return "";
    }
    resources[number].name.as_str()
}
