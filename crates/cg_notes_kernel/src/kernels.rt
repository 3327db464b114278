//! What is wrong in a refused kernel file.

use crate::nodes::Checked;
use crate::shapes::note_shapes;
use cg_json::json_value;
use cg_kernel::{KernelFault, KernelPlace, WrittenKernel, written_of};
use cg_lints::{Rule, Slips, find_in_file, find_item};
use cg_reading::numbers_of;
use cg_spans::{Finding, Findings, MOST_PARSED};
use std::alloc::{AllocError, Global};

/// A fault of a kernel: the rule that it breaks, its place, and the general sentence on it.
type Meaning = (Rule, KernelPlace, &'static str);

/// Returns what is wrong in `bytes`, a kernel file that is refused for `fault`: each place at which its rule is broken,
/// and then further faults. Returns nothing for a text that isn't JSON.
pub fn kernel_findings(
    alloc: Global,
    bytes: &[u8],
    fault: &KernelFault,
) -> Result<Findings, AllocError> {
    let Some((rule, place, sentence)) = meaning_of(fault) else {
        return Ok(Findings::new(alloc));
    };
    let mut findings = kernel_slips(alloc, bytes)?.findings(bytes, rule)?;
    if findings.own.is_empty() {
        findings.add(find_at(alloc, bytes, place, sentence)?)?;
    }
    Ok(findings)
}

/// Returns the finding with `sentence` at `place` of the kernel file `bytes`.
fn find_at(
    alloc: Global,
    bytes: &[u8],
    place: KernelPlace,
    sentence: &str,
) -> Result<Option<Finding>, AllocError> {
    match place {
        KernelPlace::File => Ok(Some(find_in_file(alloc, bytes, "kernel", sentence)?)),
        KernelPlace::Node(node) => find_item(alloc, bytes, "nodes", node, sentence),
        KernelPlace::Order(edge) => find_item(alloc, bytes, "order", edge, sentence),
    }
}

/// Returns what `fault` means; None if it is want of memory, or of a text that isn't JSON.
fn meaning_of(fault: &KernelFault) -> Option<Meaning> {
    let meaning = match fault {
        KernelFault::Memory | KernelFault::NotJson => return None,
        KernelFault::WrongShape(place) => (
            Rule::WrongShape,
            *place,
            "a key is missing, or a value is of another kind or out of its range",
        ),
        KernelFault::UnknownKey(place) => {
            (Rule::UnknownKey, *place, "a key isn't one of the format's")
        }
        KernelFault::TooLarge => (
            Rule::Other,
            KernelPlace::File,
            "more than 1024 nodes or 4096 order edges",
        ),
        KernelFault::BadName(place) => (Rule::BadName, *place, NAME),
        KernelFault::RepeatedName(place) => (
            Rule::RepeatedName,
            *place,
            "an earlier node has the same name",
        ),
        KernelFault::UnknownOp(place) => (
            Rule::UnknownOp,
            *place,
            "no operation of the format has this name",
        ),
        KernelFault::WrongOperandCount(place) => (
            Rule::WrongOperandCount,
            *place,
            "the number of arguments isn't the one that the operation takes",
        ),
        KernelFault::UnknownNode(place) => (
            Rule::UnknownNode,
            *place,
            "there is no node with this name",
        ),
        KernelFault::NoValue(place) => (
            Rule::NoValue,
            *place,
            "an argument comes from a node without a value, such as a store or an output",
        ),
        KernelFault::BackEdgeWithoutDistance(place) => (
            Rule::BackEdgeWithoutDistance,
            *place,
            "at distance 0, it must come from an earlier node",
        ),
        KernelFault::BadDistance(place) => (
            Rule::BadDistance,
            *place,
            "the distance is at most 4, or at most 255 for an order edge",
        ),
        KernelFault::InitCount(place) => (
            Rule::InitCount,
            *place,
            "\"init\" has one word for each turn of the distance",
        ),
        KernelFault::TwoConstants(place) => (
            Rule::TwoConstants,
            *place,
            "more than one argument is a number",
        ),
        KernelFault::BadPort(place) => (
            Rule::BadPort,
            *place,
            "\"port\" is 0 to 15, and only input, output and outputif have one",
        ),
        KernelFault::RepeatedOutputPort(place) => (
            Rule::RepeatedOutputPort,
            *place,
            "an earlier output has this port",
        ),
    };
    Some(meaning)
}

/// The rule for the names of nodes.
pub(crate) const NAME: &str =
    "a name is a letter or _, followed by letters, digits or _, with at most 32 characters";

/// Returns the faults in `bytes`, a kernel file that is a JSON text, except those of its top-level keys: for each kind
/// of fault, the places in the order of the file. If a shape is wrong, the other kinds aren't looked for.
fn kernel_slips(alloc: Global, bytes: &[u8]) -> Result<Slips, AllocError> {
    let mut slips = Slips::new(alloc);
    if bytes.len() > MOST_PARSED {
        return Ok(slips);
    }
    let Ok(value) = json_value(alloc, bytes) else {
        return Ok(slips);
    };
    note_shapes(&mut slips, &value)?;
    match written_of(alloc, &value) {
        Ok(written) => broken_rules(slips, &written),
        Err(_) => Ok(slips),
    }
}

/// Returns `slips`, and the rules that `written` breaks.
fn broken_rules(slips: Slips, written: &WrittenKernel) -> Result<Slips, AllocError> {
    let numbers = numbers_of(slips.alloc, written.nodes.as_slice())?;
    let mut checked = Checked {
        slips,
        written,
        numbers: &numbers,
    };
    checked.note_nodes()?;
    checked.note_edges()?;
    Ok(checked.slips)
}
