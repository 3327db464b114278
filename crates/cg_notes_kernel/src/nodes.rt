//! The rules that nodes break.

use crate::kernels::NAME;
use crate::shapes::node_prefix;
use cg_kernel::{WrittenArg, WrittenKernel, WrittenNode, op_of};
use cg_lints::{At, Rule, Slips, Spot, no_name, shown, unknown_operation};
use cg_model::{LAST_PORT, LONGEST_NODE_NAME, is_name};
use cg_reading::{Numbers, number_in};
use cg_word::Op;
use std::alloc::{AllocError, Global};

/// A kernel whose rules are being checked.
#[derive(Drop)]
pub(crate) struct Checked<'a> {
    /// The rules that it breaks.
    pub(crate) slips: Slips,
    /// The kernel, as its file writes it.
    pub(crate) written: &'a WrittenKernel,
    /// The numbers of its nodes by name.
    pub(crate) numbers: &'a Numbers,
}

/// A node that is being checked.
#[derive(Clone, Copy, Drop)]
pub(crate) struct Here<'a> {
    /// The node's number.
    pub(crate) number: usize,
    /// The beginning of the sentences on the node.
    pub(crate) prefix: &'a str,
}

impl Checked<'_> {
    /// Adds the faults of the nodes.
    pub(crate) fn note_nodes(&mut self) -> Result<(), AllocError> {
        let written = self.written;
        for (number, node) in written.nodes.as_slice().iter().enumerate() {
            let prefix = node_prefix(self.slips.alloc, number, Some(node.name.as_str()))?;
            let here = Here {
                number,
                prefix: prefix.as_str(),
            };
            self.note_name(here, node.name.as_str())?;
            self.note_operation(here, node)?;
            self.note_args(here, node)?;
        }
        Ok(())
    }

    /// Adds that `text`, which breaks `rule`, is wrong at `spot` of the node `here`.
    pub(crate) fn add(
        &mut self,
        rule: Rule,
        here: Here<'_>,
        spot: Spot,
        text: &str,
    ) -> Result<(), AllocError> {
        let Here { number, prefix } = here;
        let text = format!(in self.slips.alloc; "{prefix}{text}")?;
        let at = At::Item {
            list: "nodes",
            item: number,
            spot,
        };
        self.slips.add(rule, at, text)
    }

    /// Returns the message that no node is called `name`, and which one may be meant, unless there are many slips.
    pub(crate) fn no_node(&self, name: &str) -> Result<String, AllocError> {
        let alloc = self.slips.alloc;
        if !self.slips.are_few() {
            return no_name(alloc, "node", name, &[]);
        }
        let mut names: Vec<&str> = Vec::new(alloc);
        for node in self.written.nodes.as_slice() {
            names.push(node.name.as_str())?;
        }
        no_name(alloc, "node", name, names.as_slice())
    }

    /// Adds the faults of `name`, the name of the node `here`.
    fn note_name(&mut self, here: Here<'_>, name: &str) -> Result<(), AllocError> {
        if !is_name(name, LONGEST_NODE_NAME) {
            self.add(Rule::BadName, here, Spot::Key("name"), NAME)?;
        }
        match number_in(self.numbers, name) {
            Some(first) if first < here.number => {
                let text = format!(in self.slips.alloc; "node {first} has the same name")?;
                self.add(Rule::RepeatedName, here, Spot::Key("name"), text.as_str())
            }
            _ => Ok(()),
        }
    }

    /// Adds the faults of the operation of `node`, of the number of its arguments, and of its port.
    fn note_operation(&mut self, here: Here<'_>, node: &WrittenNode) -> Result<(), AllocError> {
        let Some(op) = op_of(self.written, node) else {
            let text = unsupported(self.slips.alloc, node.op.as_str())?;
            return self.add(Rule::UnknownOp, here, Spot::Key("op"), text.as_str());
        };
        self.note_count(here, op, node.args.as_slice().len())?;
        self.note_constants(here, node)?;
        self.note_port(here, op, node.port)?;
        self.note_output(here, op, node.port)
    }

    /// Adds a slip if `count` isn't the number of arguments of `op`.
    fn note_count(&mut self, here: Here<'_>, op: Op, count: usize) -> Result<(), AllocError> {
        let arity = op.arity();
        if arity as usize == count {
            return Ok(());
        }
        let name = op.name();
        let text = match arity {
            1 => format!(in self.slips.alloc; "{name} takes 1 argument, this one has {count}")?,
            _ => format!(in self.slips.alloc;
                "{name} takes {arity} arguments, this one has {count}"
            )?,
        };
        self.add(Rule::WrongOperandCount, here, Spot::Item, text.as_str())
    }

    /// Adds a slip at the second argument of `node` that is a number, if there is more than one.
    fn note_constants(&mut self, here: Here<'_>, node: &WrittenNode) -> Result<(), AllocError> {
        let second = node
            .args
            .as_slice()
            .iter()
            .enumerate()
            .filter(|(_, arg)| matches!(arg, WrittenArg::Number(_)))
            .nth(1);
        match second {
            Some((place, _)) => self.add(
                Rule::TwoConstants,
                here,
                Spot::Element("args", place),
                "more than one argument is a number: use a node with \"op\":\"const\" for the other",
            ),
            None => Ok(()),
        }
    }

    /// Adds the faults of `port`, the port of a node with the operation `op`.
    fn note_port(&mut self, here: Here<'_>, op: Op, port: Option<u32>) -> Result<(), AllocError> {
        let alloc = self.slips.alloc;
        let name = op.name();
        match port {
            None if op.has_port() => {
                let text = format!(in alloc; "{name} needs a \"port\" from 0 to 15")?;
                self.add(Rule::BadPort, here, Spot::Item, text.as_str())
            }
            Some(_) if !op.has_port() => {
                let text = format!(in alloc; "{name} takes no \"port\"")?;
                self.add(Rule::BadPort, here, Spot::Key("port"), text.as_str())
            }
            Some(port) if port > LAST_PORT => {
                let text = format!(in alloc; "a port is at most 15, this one is {port}")?;
                self.add(Rule::BadPort, here, Spot::Key("port"), text.as_str())
            }
            _ => Ok(()),
        }
    }

    /// Adds a slip if an earlier output has the port of this one.
    fn note_output(&mut self, here: Here<'_>, op: Op, port: Option<u32>) -> Result<(), AllocError> {
        let written = self.written;
        let first = match port {
            Some(port) if op.is_output() => first_output(written, port),
            _ => None,
        };
        match (first, port) {
            (Some(other), Some(port)) if other < here.number => {
                let name = name_at(self.slips.alloc, written, other)?;
                let name = name.as_str();
                let text = format!(in self.slips.alloc;
                    "node {other} \"{name}\" already has port {port}: each output needs its own"
                )?;
                self.add(
                    Rule::RepeatedOutputPort,
                    here,
                    Spot::Key("port"),
                    text.as_str(),
                )
            }
            _ => Ok(()),
        }
    }
}

/// Returns the number of the first output of `written` with `port`.
fn first_output(written: &WrittenKernel, port: u32) -> Option<usize> {
    written.nodes.as_slice().iter().position(|node| node.port == Some(port)
        && op_of(written, node).is_some_and(|op| op.is_output()))
}

/// Returns the name of node `number` of `written`, as a note shows it.
pub(crate) fn name_at(
    alloc: Global,
    written: &WrittenKernel,
    number: usize,
) -> Result<String, AllocError> {
    match written.nodes.as_slice().get(number) {
        Some(node) => shown(alloc, node.name.as_str()),
        None => String::from_str(alloc, ""),
    }
}

/// Returns the message that the format has no operation `name`.
fn unsupported(alloc: Global, name: &str) -> Result<String, AllocError> {
    match Op::from_name(name) {
        Some(_) => format!(in alloc;
            "{name} is an operation of the format cgk2: write \"format\":\"cgk2\""
        ),
        None => unknown_operation(alloc, name),
    }
}
