//! The rules that arguments break.

use crate::nodes::{Checked, Here, name_at};
use cg_kernel::{WrittenArg, WrittenKernel, WrittenNode, op_of};
use cg_lints::{Rule, Spot, shown};
use cg_model::{MOST_DISTANCE, MOST_NODES};
use cg_reading::{Numbers, number_in};
use cg_word::Op;
use std::alloc::{AllocError, Global};

/// The advice to take the value of the previous iteration.
const BEFORE: &str =
    "for its value in the previous turn, write \"distance\": 1, with one word in \"init\"";

/// An argument that is being checked.
#[derive(Clone, Copy, Drop)]
struct Arg<'a> {
    /// Its node.
    here: Here<'a>,
    /// Its number, from 0.
    place: usize,
}

impl Checked<'_> {
    /// Adds the faults of the arguments of `node`.
    pub(crate) fn note_args(
        &mut self,
        here: Here<'_>,
        node: &WrittenNode,
    ) -> Result<(), AllocError> {
        for (place, arg) in node.args.as_slice().iter().enumerate() {
            if let WrittenArg::Source {
                from,
                distance,
                init,
                ..
            } = arg
            {
                let arg = Arg { here, place };
                self.note_source(arg, from.as_str(), *distance)?;
                self.note_distance(arg, *distance)?;
                self.note_init(arg, *distance, init.as_slice().len())?;
            }
        }
        Ok(())
    }

    /// Adds that `text`, which breaks `rule`, is wrong at `key` of `arg`; at the argument itself if there is no
    /// key.
    fn add_to_arg(
        &mut self,
        rule: Rule,
        arg: Arg<'_>,
        key: Option<&'static str>,
        text: &str,
    ) -> Result<(), AllocError> {
        let Arg { here, place } = arg;
        let text = format!(in self.slips.alloc; "argument {place}{text}")?;
        let spot = match key {
            Some(key) => Spot::ElementKey("args", place, key),
            None => Spot::Element("args", place),
        };
        self.add(rule, here, spot, text.as_str())
    }

    /// Adds the faults of the source of `arg`: the node `from`, `distance` iterations before.
    fn note_source(&mut self, arg: Arg<'_>, from: &str, distance: u32) -> Result<(), AllocError> {
        let Some(source) = number_in(self.numbers, from) else {
            let said = self.no_node(from)?;
            let said = said.as_str();
            let text = format!(in self.slips.alloc; ": {said}")?;
            return self.add_to_arg(Rule::UnknownNode, arg, Some("from"), text.as_str());
        };
        self.note_value(arg, source)?;
        if distance == 0 && source >= arg.here.number {
            let text = self.not_earlier(arg.here.number, source)?;
            let rule = Rule::BackEdgeWithoutDistance;
            return self.add_to_arg(rule, arg, Some("from"), text.as_str());
        }
        Ok(())
    }

    /// Adds a slip if node `source`, the source of `arg`, has no value.
    fn note_value(&mut self, arg: Arg<'_>, source: usize) -> Result<(), AllocError> {
        let written = self.written;
        let Some(op) = op_at(written, source).filter(|op| !op.has_value()) else {
            return Ok(());
        };
        let alloc = self.slips.alloc;
        let said = without_value(alloc, written, source, op)?;
        let said = said.as_str();
        let from = name_at(alloc, written, source)?;
        let from = from.as_str();
        let text = format!(in alloc; " comes from \"{from}\": {said}")?;
        self.add_to_arg(Rule::NoValue, arg, Some("from"), text.as_str())
    }

    /// Returns the message that node `source` doesn't come before node `number`, which takes its value of the same
    /// iteration, and how to repair that.
    fn not_earlier(&self, number: usize, source: usize) -> Result<String, AllocError> {
        let alloc = self.slips.alloc;
        let from = name_at(alloc, self.written, source)?;
        let from = from.as_str();
        if source == number {
            return format!(in alloc; ": \"{from}\" is the node itself: {BEFORE}");
        }
        let to = name_at(alloc, self.written, number)?;
        let to = to.as_str();
        if self.slips.are_few() && needs(alloc, self.written, self.numbers, source, number)? {
            return format!(in alloc; ": \"{from}\" needs \"{to}\" in the same turn: {BEFORE}");
        }
        format!(in alloc;
            ": \"{from}\" comes after \"{to}\": put the node {from} before it; or, if its value in the previous turn is meant, write \"distance\": 1 with one word in \"init\""
        )
    }

    /// Adds a slip if `distance`, the distance of `arg`, is too great.
    fn note_distance(&mut self, arg: Arg<'_>, distance: u32) -> Result<(), AllocError> {
        if distance <= MOST_DISTANCE {
            return Ok(());
        }
        let text = format!(in self.slips.alloc;
            ": a distance is at most 4, but this one is {distance}: pass the value on by further nodes, over at most 4 turns each"
        )?;
        self.add_to_arg(Rule::BadDistance, arg, Some("distance"), text.as_str())
    }

    /// Adds a slip if `count`, the number of initial words of `arg`, isn't its `distance`.
    fn note_init(&mut self, arg: Arg<'_>, distance: u32, count: usize) -> Result<(), AllocError> {
        if count as u64 == u64::from(distance) {
            return Ok(());
        }
        let text = match count {
            0 => format!(in self.slips.alloc;
                ": \"init\" is missing or empty: it needs one word for each turn of the distance, which is {distance}, such as \"init\":[0] for distance 1"
            )?,
            _ => format!(in self.slips.alloc;
                ": \"init\" needs one word for each turn of the distance, which is {distance}, but has {count}"
            )?,
        };
        self.add_to_arg(Rule::InitCount, arg, None, text.as_str())
    }
}

/// Returns the message that `op`, the operation of node `source` of `written`, has no value, and what to take instead.
fn without_value(
    alloc: Global,
    written: &WrittenKernel,
    source: usize,
    op: Op,
) -> Result<String, AllocError> {
    let name = op.name();
    let does = if op.is_store() { "stores" } else { "sends" };
    let what = instead_of(alloc, written, source, op)?;
    let what = what.as_str();
    format!(in alloc;
        "{name} has no value: use what it {does}{what}; to order this node after it, add an edge in \"order\""
    )
}

/// Returns what node `source` of `written`, with the operation `op`, stores or sends, after a comma.
fn instead_of(
    alloc: Global,
    written: &WrittenKernel,
    source: usize,
    op: Op,
) -> Result<String, AllocError> {
    let what = match written.nodes.as_slice().get(source) {
        Some(node) => node.args.as_slice().get(op.last_arg()),
        None => None,
    };
    match what {
        Some(WrittenArg::Source { from, .. }) => {
            let from = shown(alloc, from.as_str())?;
            let from = from.as_str();
            format!(in alloc; ", \"{from}\"")
        }
        Some(WrittenArg::Number(word)) => format!(in alloc; ", the number {word}"),
        None => Ok(String::new(alloc)),
    }
}

/// Checks whether node `source` of `written` needs the value of node `target` in the same iteration, directly or
/// through other nodes. `numbers` gives the numbers of the nodes by name. Returns false for a kernel with too many
/// nodes.
fn needs(
    alloc: Global,
    written: &WrittenKernel,
    numbers: &Numbers,
    source: usize,
    target: usize,
) -> Result<bool, AllocError> {
    let nodes = written.nodes.as_slice();
    if nodes.len() > MOST_NODES {
        return Ok(false);
    }
    let mut needed = Vec::new(alloc);
    needed.push(source)?;
    for place in 0..nodes.len() {
        let Some(number) = needed.as_slice().get(place).copied() else {
            break;
        };
        if let Some(node) = nodes.get(number) {
            add_needed(numbers, node, &mut needed)?;
        }
    }
    Ok(needed.contains(&target))
}

/// Adds to `needed` each node whose value of the same iteration `node` takes, unless `needed` has it already.
fn add_needed(
    numbers: &Numbers,
    node: &WrittenNode,
    needed: &mut Vec<usize>,
) -> Result<(), AllocError> {
    for arg in node.args.as_slice() {
        if let Some(source) = source_of(numbers, arg) {
            if !needed.contains(&source) {
                needed.push(source)?;
            }
        }
    }
    Ok(())
}

/// Returns the number of the node whose value of the same iteration `arg` takes.
fn source_of(numbers: &Numbers, arg: &WrittenArg) -> Option<usize> {
    match arg {
        WrittenArg::Source { from, distance, .. } if *distance == 0 => {
            number_in(numbers, from.as_str())
        }
        _ => None,
    }
}

/// Returns the operation of node `number` of `written`.
fn op_at(written: &WrittenKernel, number: usize) -> Option<Op> {
    match written.nodes.as_slice().get(number) {
        Some(node) => op_of(written, node),
        None => None,
    }
}
