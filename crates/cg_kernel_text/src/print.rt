//! The text of a kernel.
ghost use Rattle.std.specs.Prelude.{◌≡◌, Ok, IfOk, map};
ghost use Rattle.serde_json.specs.Data.{array, no_members};
ghost use Rattle.serde_json.specs.View.{view, items_of};
ghost use Rattle.cg_model.specs.Kernel.{IsKernel};
ghost use Rattle.cg_kernel.specs.Answer.{answer_of};
ghost use Rattle.cg_word.specs.Word as word;
ghost use Rattle.cg_kernel_text.specs.Printed as spec;

use cg_model::{Kernel, Node, Operand, OrderEdge};
use serde_json::{Value, json};
use std::alloc::{AllocError, Global};

/// Returns the text of `kernel`, which reads back as an equal kernel.
pub fn print_kernel(alloc: Global, kernel: &Kernel) -> Result<Vec<u8>, AllocError>
    ensures text { IfOk result (λ bytes. bytes.items ≡ spec.kernel_text kernel.now) }
    ensures reads_back { IfOk result (λ bytes. answer_of bytes.items ≡ Ok kernel.now) }
{
    let nodes = kernel.nodes();
    kernel_value(alloc, nodes, kernel.order())?.to_vec(alloc)
}

fn kernel_value(alloc: Global, nodes: &[Node], order: &[OrderEdge]) -> Result<Value, AllocError>
    ensures { IfOk result (λ value. view value ≡ spec.kernel_data nodes.now order.now) }
{
    let nodes_value = nodes_value(alloc, nodes)?;
    let order_value = order_value(alloc, nodes, order)?;
    json!(in alloc; {"format": "cgk2", "nodes": nodes_value, "order": order_value})
}

fn nodes_value(alloc: Global, nodes: &[Node]) -> Result<Value, AllocError>
    ensures { IfOk result (λ value. view value ≡ array (items_of (map (spec.node_data nodes.now) nodes.now))) }
{
    let mut list = Vec::with_capacity(alloc, nodes.len())?;
    for node in nodes {
        list.push(node_value(alloc, nodes, node)?)?;
    }
    Ok(Value::Array(list))
}

fn order_value(alloc: Global, nodes: &[Node], order: &[OrderEdge]) -> Result<Value, AllocError>
    ensures { IfOk result (λ value. view value ≡ array (items_of (map (spec.edge_data nodes.now) order.now))) }
{
    let mut list = Vec::with_capacity(alloc, order.len())?;
    for edge in order {
        list.push(edge_value(alloc, nodes, edge)?)?;
    }
    Ok(Value::Array(list))
}

fn node_value(alloc: Global, nodes: &[Node], node: &Node) -> Result<Value, AllocError>
    ensures { IfOk result (λ value. view value ≡ spec.node_data nodes.now node.now) }
{
    let args = args_value(alloc, nodes, node.operands.as_slice())?;
    if node.op.has_port() {
        value_with_port(alloc, args, node)
    } else {
        value_without_port(alloc, args, node)
    }
}

fn value_with_port(alloc: Global, args: Value, node: &Node) -> Result<Value, AllocError>
    ensures { IfOk result (λ value. view value ≡ spec.data_with (view args) node.now (spec.port_member node.now)) }
{
    json!(in alloc; {"args": args, "name": node.name.as_str(), "op": node.op.name(), "port": node.port})
}

fn value_without_port(alloc: Global, args: Value, node: &Node) -> Result<Value, AllocError>
    ensures { IfOk result (λ value. view value ≡ spec.data_with (view args) node.now no_members) }
{
    json!(in alloc; {"args": args, "name": node.name.as_str(), "op": node.op.name()})
}

fn args_value(alloc: Global, nodes: &[Node], operands: &[Operand]) -> Result<Value, AllocError>
    ensures { IfOk result (λ value. view value ≡ array (items_of (map (spec.operand_data nodes.now) operands.now))) }
{
    let mut list = Vec::with_capacity(alloc, operands.len())?;
    for operand in operands {
        list.push(operand_value(alloc, nodes, operand)?)?;
    }
    Ok(Value::Array(list))
}

fn operand_value(alloc: Global, nodes: &[Node], operand: &Operand) -> Result<Value, AllocError>
    ensures { IfOk result (λ value. view value ≡ spec.operand_data nodes.now operand.now) }
{
    match operand {
        Operand::Const(constant) => Ok(Value::from(*constant)),
        Operand::Edge {
            from,
            distance,
            init,
        } => {
            let words = words_value(alloc, init.as_slice())?;
            json!(in alloc; {"distance": *distance, "from": name_at(nodes, *from), "init": words})
        }
    }
}

fn edge_value(alloc: Global, nodes: &[Node], edge: &OrderEdge) -> Result<Value, AllocError>
    ensures { IfOk result (λ value. view value ≡ spec.edge_data nodes.now edge.now) }
{
    json!(in alloc; {"distance": edge.distance, "from": name_at(nodes, edge.from), "to": name_at(nodes, edge.to)})
}

fn words_value(alloc: Global, words: &[u32]) -> Result<Value, AllocError>
    ensures { IfOk result
        (λ value. view value ≡ array (items_of (map spec.word_data words.now))) }
{
    let mut list = Vec::with_capacity(alloc, words.len())?;
    for word in words {
        list.push(Value::from(*word))?;
    }
    Ok(Value::Array(list))
}

fn name_at(nodes: &[Node], number: u32) -> &str
    ensures { result.now ≡ spec.name_at nodes.now number }
{
    match nodes.get(number as usize) {
        Some(node) => node.name.as_str(),
        None => "",
    }
}
