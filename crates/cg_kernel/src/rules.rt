//! Whether a fault applies to an argument, a node, an order edge or the whole file.
ghost use Rattle.std.specs.Prelude.{◌≡◌, ◌≤◌, length};
ghost use Rattle.std.specs.List.{list_any};
ghost use Rattle.cg_word.specs.Word as word;
ghost use Rattle.cg_kernel.specs.Numbers.{IsIndex};
ghost use Rattle.cg_kernel.specs.Rules as spec;

use crate::rule::Rule;
use crate::written::{Format, WrittenArg, WrittenEdge, WrittenKernel, WrittenNode};
use cg_model::{
    LAST_PORT, LONGEST_NODE_NAME, MOST_DISTANCE, MOST_NODES, MOST_ORDER_DISTANCE, MOST_ORDER_EDGES,
    is_name,
};
use cg_reading::{Numbers, is_before, number_in};
use cg_word::Op;

/// Returns the operation of `node`, if the format of `written` has one of that name.
pub fn op_of(written: &WrittenKernel, node: &WrittenNode) -> Option<Op>
    ensures { result ≡ spec.op_of written.now node.now }
{
    op_in(written.format, node.op.as_str())
}

fn op_in(format: Format, name: &str) -> Option<Op>
    ensures { result ≡ spec.op_in format name.now }
{
    match Op::from_name(name) {
        Some(op) => if knows(format, op) { Some(op) } else { None },
        None => None,
    }
}

fn knows(format: Format, op: Op) -> bool
    ensures { result ≡ spec.knows format op }
{
    match format {
        Format::First => op.code() <= 22,
        Format::Second => true,
    }
}

fn source_op(written: &WrittenKernel, numbers: &Numbers, name: &str) -> Option<Op>
    requires { IsIndex numbers.now written.now.nodes }
    ensures { result ≡ spec.source_op written.now name.now }
{
    match number_in(numbers, name) {
        Some(number) => match written.nodes.as_slice().get(number) {
            Some(node) => op_of(written, node),
            None => None,
        },
        None => None,
    }
}

fn repeats_name(
    numbers: &Numbers,
    written: &WrittenKernel,
    number: usize,
    node: &WrittenNode,
) -> bool
    requires { IsIndex numbers.now written.now.nodes }
    ensures { result ≡ spec.repeats_name written.now number node.now }
{
    is_before(number_in(numbers, node.name.as_str()), number)
}

fn has_wrong_count(written: &WrittenKernel, node: &WrittenNode) -> bool
    ensures { result ≡ spec.has_wrong_count written.now node.now }
{
    match op_of(written, node) {
        Some(op) => op.arity() as usize != node.args.as_slice().len(),
        None => false,
    }
}

fn names_no_node(numbers: &Numbers, written: &WrittenKernel, arg: &WrittenArg) -> bool
    requires { IsIndex numbers.now written.now.nodes }
    ensures { result ≡ spec.names_no_node written.now arg.now }
{
    match arg {
        WrittenArg::Number(_) => false,
        WrittenArg::Source { from, .. } => number_in(numbers, from.as_str()).is_none(),
    }
}

fn joins_no_nodes(numbers: &Numbers, written: &WrittenKernel, edge: &WrittenEdge) -> bool
    requires { IsIndex numbers.now written.now.nodes }
    ensures { result ≡ spec.joins_no_nodes written.now edge.now }
{
    number_in(numbers, edge.from.as_str()).is_none()
        || number_in(numbers, edge.to.as_str()).is_none()
}

fn has_no_value(numbers: &Numbers, written: &WrittenKernel, arg: &WrittenArg) -> bool
    requires { IsIndex numbers.now written.now.nodes }
    ensures { result ≡ spec.has_no_value written.now arg.now }
{
    match arg {
        WrittenArg::Number(_) => false,
        WrittenArg::Source { from, .. } => match source_op(written, numbers, from.as_str()) {
            Some(op) => !op.has_value(),
            None => false,
        },
    }
}

fn arg_goes_back(
    numbers: &Numbers,
    written: &WrittenKernel,
    number: usize,
    arg: &WrittenArg,
) -> bool
    requires { IsIndex numbers.now written.now.nodes }
    ensures { result ≡ spec.arg_goes_back written.now number arg.now }
{
    match arg {
        WrittenArg::Number(_) => false,
        WrittenArg::Source { from, distance, .. } => {
            *distance == 0 && !is_before(number_in(numbers, from.as_str()), number)
        }
    }
}

fn edge_goes_back(numbers: &Numbers, written: &WrittenKernel, edge: &WrittenEdge) -> bool
    requires { IsIndex numbers.now written.now.nodes }
    ensures { result ≡ spec.edge_goes_back written.now edge.now }
{
    if edge.distance != 0 {
        return false;
    }
    match number_in(numbers, edge.to.as_str()) {
        Some(to) => !is_before(number_in(numbers, edge.from.as_str()), to),
        None => false,
    }
}

fn is_too_far(arg: &WrittenArg) -> bool
    ensures { result ≡ spec.is_too_far arg.now }
{
    match arg {
        WrittenArg::Number(_) => false,
        WrittenArg::Source { distance, .. } => *distance > MOST_DISTANCE,
    }
}

fn has_wrong_init(arg: &WrittenArg) -> bool
    ensures { result ≡ spec.has_wrong_init arg.now }
{
    match arg {
        WrittenArg::Number(_) => false,
        WrittenArg::Source { distance, init, .. } => init.as_slice().len() != *distance as usize,
    }
}

fn is_number(arg: &WrittenArg) -> bool
    ensures { result ≡ spec.is_number arg.now }
{
    matches!(arg, WrittenArg::Number(_))
}

fn has_two_constants(node: &WrittenNode) -> bool
    ensures { result ≡ spec.has_two_constants node.now }
{
    let args = node.args.as_slice();
    let constants = args.iter().filter(|arg| is_number(arg)).count();
    constants > 1
}

fn has_bad_port(written: &WrittenKernel, node: &WrittenNode) -> bool
    ensures { result ≡ spec.has_bad_port written.now node.now }
{
    match op_of(written, node) {
        Some(op) => is_bad_port(op, node.port),
        None => false,
    }
}

fn is_bad_port(op: Op, port: Option<u32>) -> bool
    ensures { result ≡ spec.is_bad_port op port }
{
    match port {
        Some(port) => !op.has_port() || port > LAST_PORT,
        None => op.has_port(),
    }
}

fn output_port(written: &WrittenKernel, node: &WrittenNode) -> Option<u32>
    ensures { result ≡ spec.output_port written.now node.now }
{
    match op_of(written, node) {
        Some(op) => if op.is_output() { node.port } else { None },
        None => None,
    }
}

fn outputs_to(written: &WrittenKernel, port: u32, node: &WrittenNode) -> bool
    ensures { result ≡ spec.outputs_to written.now port node.now }
{
    match output_port(written, node) {
        Some(other) => other == port,
        None => false,
    }
}

fn repeats_port(written: &WrittenKernel, number: usize, node: &WrittenNode) -> bool
    requires { number ≤ length written.now.nodes }
    ensures { result ≡ spec.repeats_port written.now number node.now }
{
    match output_port(written, node) {
        Some(port) => any_outputs_to(written, port, &written.nodes.as_slice()[..number]),
        None => false,
    }
}

fn any_outputs_to(written: &WrittenKernel, port: u32, nodes: &[WrittenNode]) -> bool
    ensures { result ≡ list_any (spec.outputs_to written.now port) nodes.now }
{
    nodes.iter().any(|node| outputs_to(written, port, node))
}

fn applies_to_arg(
    rule: Rule,
    numbers: &Numbers,
    written: &WrittenKernel,
    number: usize,
    arg: &WrittenArg,
) -> bool
    requires { IsIndex numbers.now written.now.nodes }
    ensures { result ≡ spec.applies_to_arg rule written.now number arg.now }
{
    match rule {
        Rule::UnknownKey => has_other_keys(arg),
        Rule::UnknownNode => names_no_node(numbers, written, arg),
        Rule::NoValue => has_no_value(numbers, written, arg),
        Rule::BackEdgeWithoutDistance => arg_goes_back(numbers, written, number, arg),
        Rule::BadDistance => is_too_far(arg),
        Rule::InitCount => has_wrong_init(arg),
        _ => false,
    }
}

fn has_other_keys(arg: &WrittenArg) -> bool
    ensures { result ≡ spec.arg_has_other_keys arg.now }
{
    match arg {
        WrittenArg::Number(_) => false,
        WrittenArg::Source { other_keys, .. } => *other_keys,
    }
}

fn applies_to_some_arg(
    rule: Rule,
    numbers: &Numbers,
    written: &WrittenKernel,
    number: usize,
    args: &[WrittenArg],
) -> bool
    requires { IsIndex numbers.now written.now.nodes }
    ensures { result ≡ list_any (spec.applies_to_arg rule written.now number) args.now }
{
    args.iter()
        .any(|arg| applies_to_arg(rule, numbers, written, number, arg))
}

/// Returns whether the fault `rule` applies to `node`, which has the number `number` in `written`.
pub fn applies_to_node(
    rule: Rule,
    numbers: &Numbers,
    written: &WrittenKernel,
    number: usize,
    node: &WrittenNode,
) -> bool
    requires index { IsIndex numbers.now written.now.nodes }
    requires within { number ≤ length written.now.nodes }
    ensures { result ≡ spec.applies_to_node rule written.now number node.now }
{
    match rule {
        Rule::TooLarge => false,
        Rule::BadName => !is_name(node.name.as_str(), LONGEST_NODE_NAME),
        Rule::RepeatedName => repeats_name(numbers, written, number, node),
        Rule::UnknownOp => op_of(written, node).is_none(),
        Rule::WrongOperandCount => has_wrong_count(written, node),
        Rule::TwoConstants => has_two_constants(node),
        Rule::BadPort => has_bad_port(written, node),
        Rule::RepeatedOutputPort => repeats_port(written, number, node),
        Rule::UnknownKey => {
            node.other_keys
                || applies_to_some_arg(rule, numbers, written, number, node.args.as_slice())
        }
        Rule::UnknownNode
        | Rule::NoValue
        | Rule::BackEdgeWithoutDistance
        | Rule::BadDistance
        | Rule::InitCount => {
            applies_to_some_arg(rule, numbers, written, number, node.args.as_slice())
        }
    }
}

/// Returns whether the fault `rule` applies to the order edge `edge` of `written`.
pub fn applies_to_edge(
    rule: Rule,
    numbers: &Numbers,
    written: &WrittenKernel,
    edge: &WrittenEdge,
) -> bool
    requires { IsIndex numbers.now written.now.nodes }
    ensures { result ≡ spec.applies_to_edge rule written.now edge.now }
{
    match rule {
        Rule::UnknownKey => edge.other_keys,
        Rule::UnknownNode => joins_no_nodes(numbers, written, edge),
        Rule::BackEdgeWithoutDistance => edge_goes_back(numbers, written, edge),
        Rule::BadDistance => edge.distance > MOST_ORDER_DISTANCE,
        _ => false,
    }
}

/// Returns whether the fault `rule` applies to `written` as a whole.
pub fn applies_to_file(rule: Rule, written: &WrittenKernel) -> bool
    ensures { result ≡ spec.applies_to_file rule written.now }
{
    match rule {
        Rule::UnknownKey => written.other_keys,
        Rule::TooLarge => {
            written.nodes.as_slice().len() > MOST_NODES
                || written.order.as_slice().len() > MOST_ORDER_EDGES
        }
        _ => false,
    }
}
