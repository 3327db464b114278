//! The text of reports on an impossible interval.
ghost use Rattle.std.specs.Prelude.{◌≡◌, ◌++◌, IfOk, OnOk, string_bytes};
ghost use Rattle.cg_model.specs.Kernel.{node};
ghost use Rattle.cg_flat.specs.Text as flat;
ghost use Rattle.cg_bound.specs.Text as spec;

use crate::counts::{count_nodes, count_units, sums};
use crate::interval::Certificate;
use cg_arch::Arch;
use cg_model::Kernel;
use cg_recur::EdgeId;
use cg_word::{Op, OpSet};
use std::alloc::{AllocError, Global};

/// Returns why an interval is impossible, or every one if none is given, as
/// `impossible at ii 2: cycle x.0 a.0 latency 3 distance 1` or `impossible at every ii: class mul nodes 1 units 0`.
pub fn certificate_text(
    alloc: Global,
    arch: &Arch,
    kernel: &Kernel,
    at: Option<u32>,
    certificate: &Certificate,
) -> Result<Vec<u8>, AllocError>
    ensures { IfOk result (λ text. text.items ≡ spec.certificate_text arch.now kernel.now at certificate.now) }
{
    let mut text = interval_text(alloc, at)?.into_bytes();
    match certificate {
        Certificate::Cycle(ids) => push_cycle(alloc, &mut text, arch, kernel, ids)?,
        Certificate::Class(set) => push_class(alloc, &mut text, arch, kernel, *set)?,
    }
    Ok(text)
}

/// Returns the text that the interval `at`, or every one, is impossible.
fn interval_text(alloc: Global, at: Option<u32>) -> Result<String, AllocError>
    ensures { IfOk result (λ s. string_bytes s ≡ spec.interval_text at) }
{
    match at {
        Some(ii) => format!(in alloc; "impossible at ii {ii}: "),
        None => String::from_str(alloc, "impossible at every ii: "),
    }
}

/// Adds a closed chain to `text`.
fn push_cycle(
    alloc: Global,
    text: &mut Vec<u8>,
    arch: &Arch,
    kernel: &Kernel,
    ids: &[EdgeId],
) -> Result<(), AllocError>
    ensures { OnOk result (text.new.items ≡ text.old.items ++ spec.cycle_text arch.now kernel.now ids.now) }
{
    text.extend_from_slice(b"cycle")?;
    push_chain(alloc, text, arch, kernel, ids)
}

/// Adds the edges `ids` of a chain to `text`, each after a blank, with the sums of their latencies and distances, as
/// ` x.0 a.0 latency 3 distance 1`.
pub fn push_chain(
    alloc: Global,
    text: &mut Vec<u8>,
    arch: &Arch,
    kernel: &Kernel,
    ids: &[EdgeId],
) -> Result<(), AllocError>
    ensures { OnOk result (text.new.items ≡ text.old.items ++ spec.chain_text arch.now kernel.now ids.now) }
{
    let (latency, distance) = sums(arch, kernel, ids);
    push_edges(alloc, text, kernel, ids)?;
    let word = format!(in alloc; " latency {latency} distance {distance}")?;
    text.extend_from_slice(word.as_bytes())?;
    Ok(())
}

/// Adds the edges `ids` to `text`, each after a blank, as ` x.0 order.1`.
pub fn push_edges(
    alloc: Global,
    text: &mut Vec<u8>,
    kernel: &Kernel,
    ids: &[EdgeId],
) -> Result<(), AllocError>
    ensures { OnOk result (text.new.items ≡ text.old.items ++ spec.edge_words kernel.now ids.now) }
{
    for id in ids {
        let word = edge_word(alloc, kernel, *id)?;
        text.extend_from_slice(word.as_bytes())?;
    }
    Ok(())
}

/// Returns the text of edge `id` after a blank: for a data edge the name of the node that takes the value and the
/// number of the operand, for an order edge `order` and its number.
pub fn edge_word(alloc: Global, kernel: &Kernel, id: EdgeId) -> Result<String, AllocError>
    ensures { IfOk result (λ s. string_bytes s ≡ spec.edge_word kernel.now id) }
{
    match id {
        EdgeId::Arg { node, arg } => {
            let name = node_name(kernel, node);
            format!(in alloc; " {name}.{arg}")
        }
        EdgeId::Order(number) => format!(in alloc; " order.{number}"),
    }
}

/// Returns the name of node `number`; empty past the last node.
fn node_name(kernel: &Kernel, number: u32) -> &str
    ensures { result.now ≡ (node kernel.now number).name }
{
    match kernel.nodes().get(number as usize) {
        Some(node) => node.name.as_str(),
        None => "",
    }
}

/// Adds a class of operations to `text`.
fn push_class(
    alloc: Global,
    text: &mut Vec<u8>,
    arch: &Arch,
    kernel: &Kernel,
    set: OpSet,
) -> Result<(), AllocError>
    ensures { OnOk result (text.new.items ≡ text.old.items ++ spec.class_text arch.now kernel.now set) }
{
    text.extend_from_slice(b"class")?;
    push_set(alloc, text, arch, kernel, set)
}

/// Adds the operations of `set` to `text` in the order of their codes, each after a blank, with the numbers of its
/// nodes and units, as ` load store nodes 6 units 4`.
pub fn push_set(
    alloc: Global,
    text: &mut Vec<u8>,
    arch: &Arch,
    kernel: &Kernel,
    set: OpSet,
) -> Result<(), AllocError>
    ensures { OnOk result (text.new.items ≡ text.old.items ++ spec.set_text arch.now kernel.now set) }
{
    let nodes = count_nodes(kernel.nodes(), set);
    let units = count_units(arch.units(), set);
    push_ops(text, set)?;
    let word = format!(in alloc; " nodes {nodes} units {units}")?;
    text.extend_from_slice(word.as_bytes())?;
    Ok(())
}

/// Adds the names of the operations of `set` to `text` in the order of their codes, each after a blank.
fn push_ops(text: &mut Vec<u8>, set: OpSet) -> Result<(), AllocError>
    ensures { OnOk result (text.new.items ≡ text.old.items ++ flat.op_words set) }
{
    for op in &Op::ALL {
        push_op(text, set, *op)?;
    }
    Ok(())
}

/// Adds a blank and the name of `op` to `text`, if it is in `set`.
fn push_op(text: &mut Vec<u8>, set: OpSet, op: Op) -> Result<(), AllocError>
    ensures { OnOk result (text.new.items ≡ text.old.items ++ flat.op_word set op) }
{
    if set.has(op) {
        text.push(b' ')?;
        text.extend_from_slice(op.name().as_bytes())?;
    }
    Ok(())
}
