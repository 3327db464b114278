//! The random kernel of a trial.
ghost use Rattle.std.specs.Prelude.{◌≡◌, ◌+◌, ◌<◌, ◌≤◌, ◌++◌, IfOk, OnOk};
ghost use Rattle.cg_trial.specs.Words.{rest};
ghost use Rattle.cg_trial.specs.Drawn as spec;

use crate::draws::{below, generator, next, words};
use cg_model::{Kernel, Name, Node, Operand, Operands, OrderEdge, Words};
use cg_word::Op;
use rand_pcg::Lcg64Xsh32;
use std::alloc::{AllocError, Global};

/// Returns the name of node `number`.
fn node_name(alloc: Global, number: u32) -> Result<Name, AllocError>
    ensures { IfOk result (λ name. name ≡ spec.node_name number) }
{
    Ok(Name::new(format!(in alloc; "v{number}")?))
}

/// Returns node `number` with operation `op` and the operands `operands`, which names no port.
fn node_of(alloc: Global, number: u32, op: Op, operands: Vec<Operand>) -> Result<Node, AllocError>
    ensures { IfOk result (λ node. node ≡ spec.node_of number op operands.items) }
{
    Ok(Node {
        name: node_name(alloc, number)?,
        op,
        port: 0,
        operands: Operands::new(operands),
    })
}

/// Returns a random operation, whose code is 4 plus a random number below 16.
fn drawn_op(generator: &mut Lcg64Xsh32) -> Op
    ensures op { result ≡ spec.drawn_op generator.old }
    ensures rest { generator.new ≡ rest generator.old }
{
    let code = 4 + below(generator, 16);
    Op::from_code(code).unwrap_or(Op::Add)
}

/// Returns a random operand of a node: its source, its distance, and its initial words.
fn drawn_operand(
    alloc: Global,
    generator: &mut Lcg64Xsh32,
    node: u32,
) -> Result<Operand, AllocError>
    requires { 0 < node }
    ensures operand { IfOk result (λ operand. operand ≡ spec.drawn_operand node generator.old) }
    ensures rest { OnOk result (generator.new ≡ spec.after_operand generator.old) }
{
    let from = below(generator, node);
    let distance = below(generator, 3);
    let init = words(alloc, generator, distance)?;
    Ok(Operand::Edge {
        from,
        distance,
        init: Words::new(init),
    })
}

/// Returns the random operands of a node, in order.
fn drawn_operands(
    alloc: Global,
    generator: &mut Lcg64Xsh32,
    node: u32,
    count: u32,
) -> Result<Vec<Operand>, AllocError>
    requires { 0 < node }
    ensures operands { IfOk result (λ list. list.items ≡ spec.drawn_operands node count generator.old) }
    ensures rest { OnOk result (generator.new ≡ spec.after_operands count generator.old) }
{
    let mut list = Vec::new(alloc);
    for _k in 0..count {
        list.push(drawn_operand(alloc, generator, node)?)?;
    }
    Ok(list)
}

/// Returns a random node: first its operation is drawn, and then its operands.
#[tactic(auto, unfolding(crate::specs::Drawn::drawn_node, crate::specs::Drawn::after_node))]
fn drawn_node(alloc: Global, generator: &mut Lcg64Xsh32, number: u32) -> Result<Node, AllocError>
    requires { 0 < number }
    ensures node { IfOk result (λ node. node ≡ spec.drawn_node number generator.old) }
    ensures rest { OnOk result (generator.new ≡ spec.after_node generator.old) }
{
    let op = drawn_op(generator);
    let operands = drawn_operands(alloc, generator, number, op.arity())?;
    node_of(alloc, number, op, operands)
}

/// Adds `count` random nodes to `nodes`, the first of them with number `first`.
fn add_drawn_nodes(
    alloc: Global,
    generator: &mut Lcg64Xsh32,
    nodes: &mut Vec<Node>,
    first: u32,
    count: u32,
) -> Result<(), AllocError>
    requires some { 0 < first }
    requires few { first + count ≤ 1024 }
    ensures { OnOk result (nodes.new.items ≡ nodes.old.items ++ spec.drawn_nodes first count generator.old) }
{
    for k in 0..count {
        nodes.push(drawn_node(alloc, generator, first + k)?)?;
    }
    Ok(())
}

/// Returns the operand that is the value of `node` in the same iteration.
fn value_of(alloc: Global, node: u32) -> Operand
    ensures { result ≡ spec.value_of node }
{
    Operand::Edge {
        from: node,
        distance: 0,
        init: Words::new(Vec::new(alloc)),
    }
}

/// Returns the first two nodes: the iteration number, and a random constant.
fn first_nodes(alloc: Global, generator: &mut Lcg64Xsh32) -> Result<Vec<Node>, AllocError>
    ensures nodes { IfOk result (λ list. list.items ≡ spec.first_nodes generator.old) }
    ensures rest { OnOk result (generator.new ≡ rest generator.old) }
{
    let constant = vec![in alloc; Operand::Const(next(generator))]?;
    Ok(vec![in alloc;
        node_of(alloc, 0, Op::Iter, Vec::new(alloc))?,
        node_of(alloc, 1, Op::Const, constant)?,
    ]?)
}

/// Adds the nodes that load a word, store a word, and send the loaded word to a port.
fn add_last_nodes(alloc: Global, nodes: &mut Vec<Node>) -> Result<(), AllocError>
    ensures { OnOk result (nodes.new.items ≡ nodes.old.items ++ spec.last_nodes) }
{
    let masked = vec![in alloc; value_of(alloc, 27), Operand::Const(255)]?;
    nodes.push(node_of(alloc, 28, Op::And, masked)?)?;
    let address = vec![in alloc; value_of(alloc, 28)]?;
    nodes.push(node_of(alloc, 29, Op::Load, address)?)?;
    let stored = vec![in alloc; value_of(alloc, 28), value_of(alloc, 27)]?;
    nodes.push(node_of(alloc, 30, Op::Store, stored)?)?;
    let sent = vec![in alloc; value_of(alloc, 29)]?;
    nodes.push(node_of(alloc, 31, Op::Output, sent)?)?;
    Ok(())
}

/// Returns the order edges between the load and the store.
fn order_edges(alloc: Global) -> Result<Vec<OrderEdge>, AllocError>
    ensures { IfOk result (λ list. list.items ≡ spec.order_edges) }
{
    Ok(vec![in alloc;
        OrderEdge {
            from: 29,
            to: 30,
            distance: 0,
        },
        OrderEdge {
            from: 30,
            to: 29,
            distance: 1,
        },
    ]?)
}

/// Returns the kernel of a trial.
#[tactic(auto, unfolding(crate::specs::Drawn::trial_kernel, crate::specs::Drawn::drawn_kernel))]
pub(crate) fn trial_kernel(alloc: Global, seed: u64) -> Result<Kernel, AllocError>
    ensures { IfOk result (λ kernel. kernel ≡ spec.trial_kernel seed) }
{
    let mut generator = generator(seed);
    let mut nodes = first_nodes(alloc, &mut generator)?;
    add_drawn_nodes(alloc, &mut generator, &mut nodes, 2, 26)?;
    add_last_nodes(alloc, &mut nodes)?;
    let order = order_edges(alloc)?;
    Ok(Kernel::new(nodes, order))
}
