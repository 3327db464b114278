//! The lowest fault that applies anywhere, at its first place.
ghost use Rattle.std.specs.Prelude.{◌≡◌};
ghost use Rattle.cg_model.specs.First.{first_from};
ghost use Rattle.cg_kernel.specs.Numbers.{IsIndex};
ghost use Rattle.cg_kernel.specs.Rules as spec;

use crate::fault::{KernelFault, KernelPlace};
use crate::rule::Rule;
use crate::rules::{applies_to_edge, applies_to_file, applies_to_node};
use crate::written::WrittenKernel;
use cg_reading::Numbers;

/// Returns the lowest of K3 to K16 that applies, at its first place.
pub fn first_fault(numbers: &Numbers, written: &WrittenKernel) -> Option<KernelFault>
    requires { IsIndex numbers.now written.now.nodes }
    ensures { result ≡ spec.first_fault spec.all_rules written.now }
{
    let rules = [
        Rule::UnknownKey,
        Rule::TooLarge,
        Rule::BadName,
        Rule::RepeatedName,
        Rule::UnknownOp,
        Rule::WrongOperandCount,
        Rule::UnknownNode,
        Rule::NoValue,
        Rule::BackEdgeWithoutDistance,
        Rule::BadDistance,
        Rule::InitCount,
        Rule::TwoConstants,
        Rule::BadPort,
        Rule::RepeatedOutputPort,
    ];
    first_of(&rules, numbers, written)
}

fn first_of(rules: &[Rule], numbers: &Numbers, written: &WrittenKernel) -> Option<KernelFault>
    requires { IsIndex numbers.now written.now.nodes }
    ensures { result ≡ spec.first_fault rules.now written.now }
{
    for rule in rules {
        if let Some(place) = first_place(*rule, numbers, written) {
            return Some(fault_at(*rule, place));
        }
    }
    None
}

fn fault_at(rule: Rule, place: KernelPlace) -> KernelFault
    ensures { result ≡ spec.fault_at rule place }
{
    match rule {
        Rule::UnknownKey => KernelFault::UnknownKey(place),
        Rule::TooLarge => KernelFault::TooLarge,
        Rule::BadName => KernelFault::BadName(place),
        Rule::RepeatedName => KernelFault::RepeatedName(place),
        Rule::UnknownOp => KernelFault::UnknownOp(place),
        Rule::WrongOperandCount => KernelFault::WrongOperandCount(place),
        Rule::UnknownNode => KernelFault::UnknownNode(place),
        Rule::NoValue => KernelFault::NoValue(place),
        Rule::BackEdgeWithoutDistance => KernelFault::BackEdgeWithoutDistance(place),
        Rule::BadDistance => KernelFault::BadDistance(place),
        Rule::InitCount => KernelFault::InitCount(place),
        Rule::TwoConstants => KernelFault::TwoConstants(place),
        Rule::BadPort => KernelFault::BadPort(place),
        Rule::RepeatedOutputPort => KernelFault::RepeatedOutputPort(place),
    }
}

#[tactic(auto, unfolding(crate::specs::Rules::first_place))]
fn first_place(rule: Rule, numbers: &Numbers, written: &WrittenKernel) -> Option<KernelPlace>
    requires { IsIndex numbers.now written.now.nodes }
    ensures { result ≡ spec.first_place rule written.now }
{
    if applies_to_file(rule, written) {
        return Some(KernelPlace::File);
    }
    match first_node(rule, numbers, written) {
        Some(number) => Some(KernelPlace::Node(number)),
        None => first_edge(rule, numbers, written).map(KernelPlace::Order),
    }
}

fn first_node(rule: Rule, numbers: &Numbers, written: &WrittenKernel) -> Option<usize>
    requires { IsIndex numbers.now written.now.nodes }
    ensures { result ≡ first_from (spec.applies_to_node rule written.now) 0 written.now.nodes }
{
    let nodes = written.nodes.as_slice();
    for (number, node) in nodes.iter().enumerate() {
        if applies_to_node(rule, numbers, written, number, node) {
            return Some(number);
        }
    }
    None
}

fn first_edge(rule: Rule, numbers: &Numbers, written: &WrittenKernel) -> Option<usize>
    requires { IsIndex numbers.now written.now.nodes }
    ensures { result ≡ first_from (λ e edge. spec.applies_to_edge rule written.now edge) 0 written.now.order }
{
    let order = written.order.as_slice();
    for (number, edge) in order.iter().enumerate() {
        if applies_to_edge(rule, numbers, written, edge) {
            return Some(number);
        }
    }
    None
}
